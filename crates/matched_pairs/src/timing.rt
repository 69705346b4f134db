//! In the first session of the pipe between a station and a car whose plans match, no end has a cause of its own, as far as no step of the car takes too long
//! that is asked for again and again.
//!
//! Proved: `sessions_are_undisturbed` (as far as no deadline is reached and no measured power is too
//! much, no end has a cause of its own: what the charger told suits each request, no order fails, and no event of the charger is a cause); `powers_are_within`
//! (as far as no deadline is reached, no measured power is too much, in direct current and in alternating current of any phases);
//! `timely_sessions_are_undisturbed` (where no deadline is reached, no end has a cause of its own) and `timely_sessions_end` (a session that is over then, but
//! for the turns of a plan, has ended by SessionStop at both ends, and all that the car read is of the OK class); `time_passes_in_pauses` (as far as no end has
//! a cause of its own, time passes only while the car waits to ask a request once more, and while the reply to PowerDelivery Start waits for the contactor);
//! `clocks_are_right` (the clocks of both ends show the moment); `closes_are_heard` (a post whose contactor closes hears of it 50 ms behind its order, from
//! which its deadline counts, so that this isn't reached); `moments_are_bounded` (a session lasts ten milliseconds a hearing at most, and its car came at 0);
//! `sessions_keep_pace` (the moment from which the deadline of the post counts is past by 1,010 ms at most, a request that has no reply yet was said 60 ms
//! before at most, and SessionSetup is replied to at 0) and `deadlines_are_kept` (so neither the deadlines of the post are reached nor those of the car for its
//! connection and for a reply); `steady_sessions_end` (a session that is over then, but for the turns of a plan, has ended by SessionStop at both ends);
//! `words_are_told` (a post reads a word only behind a turn that brought bytes to an end, so that nothing of its charger was due); `repeats_are_of_now` (a
//! car that reads a reply by which it asks the same once more reads it at the moment at which the post judged the request, and the step wasn't done then);
//! `quick_steps_are_kept` (so authorization, the parameters and the cable check are done early: none of their deadlines is reached); `exchanges_are_counted`
//! (the exchanges are 21 and the charging replies at most, but for those that are asked again) and `quick_steps_are_few` (those three steps are asked again
//! three times at most in all); `voltages_rise` (while the car pre-charges, the charger gives what it told, 100.0 V more with each order of limits, up to the
//! target; its newest order it tells 20 ms behind it) and `voltages_are_told` (where the post reads a PreCharge request, the charger has told all that it was
//! ordered); `pre_charges_are_kept` (the deadline of the pre-charge isn't reached) and `pre_charges_are_few` (it is asked again 30 times at most).

ghost use Rattle.car_spec.specs.Codecs as car;
ghost use Rattle.matched_pairs.specs.Bounds.{MomentsAreBounded};
ghost use Rattle.matched_pairs.specs.Charged.{PreChargesAreFew, PreChargesAreKept};
ghost use Rattle.matched_pairs.specs.Clocks.{ClocksAreRight};
ghost use Rattle.matched_pairs.specs.Closing.{ClosesAreHeard};
ghost use Rattle.matched_pairs.specs.Counted.{ExchangesAreCounted, QuickStepsAreFew};
ghost use Rattle.matched_pairs.specs.Limits.{SessionsAreUndisturbed};
ghost use Rattle.matched_pairs.specs.Paces.{SessionsKeepPace};
ghost use Rattle.matched_pairs.specs.Pauses.{TimePassesInPauses};
ghost use Rattle.matched_pairs.specs.Pending.{RepeatsAreOfNow};
ghost use Rattle.matched_pairs.specs.Power.{PowersAreWithin};
ghost use Rattle.matched_pairs.specs.Quick.{QuickStepsAreKept};
ghost use Rattle.matched_pairs.specs.Steps.{DeadlinesAreKept, SteadySessionsEnd};
ghost use Rattle.matched_pairs.specs.Timely.{TimelySessionsAreUndisturbed, TimelySessionsEnd};
ghost use Rattle.matched_pairs.specs.Told.{WordsAreTold};
ghost use Rattle.matched_pairs.specs.Voltages.{VoltagesAreTold, VoltagesRise};
ghost use Rattle.post_spec.specs.Codecs as post;

use car_spec::CarCoded;
use post_spec::Coded;

/// As far as no deadline is reached and no measured power is too much, no end has a cause of its own.
pub fn sessions_are_undisturbed<C: Coded, D: CarCoded>()
    ensures { SessionsAreUndisturbed (post.codecs C.negotiates C.reads C.encodes) (car.codecs D.offers D.responds D.reads D.encodes) }
{}

/// As far as no deadline is reached, no measured power is too much.
pub fn powers_are_within<C: Coded, D: CarCoded>()
    ensures { PowersAreWithin (post.codecs C.negotiates C.reads C.encodes) (car.codecs D.offers D.responds D.reads D.encodes) }
{}

/// Where no deadline is reached, no end has a cause of its own.
pub fn timely_sessions_are_undisturbed<C: Coded, D: CarCoded>()
    ensures { TimelySessionsAreUndisturbed (post.codecs C.negotiates C.reads C.encodes) (car.codecs D.offers D.responds D.reads D.encodes) }
{}

/// And a session that is over then, but for the turns of a plan, has ended by SessionStop at both ends.
pub fn timely_sessions_end<C: Coded, D: CarCoded>()
    ensures { TimelySessionsEnd (post.codecs C.negotiates C.reads C.encodes) (car.codecs D.offers D.responds D.reads D.encodes) }
{}

/// As far as no end has a cause of its own, time passes only while the car waits to ask a request once more, and while a reply waits for the contactor.
pub fn time_passes_in_pauses<C: Coded, D: CarCoded>()
    ensures { TimePassesInPauses (post.codecs C.negotiates C.reads C.encodes) (car.codecs D.offers D.responds D.reads D.encodes) }
{}

/// The clocks of both ends show the moment, that of the car as long as it hasn't ended.
pub fn clocks_are_right<C: Coded, D: CarCoded>()
    ensures { ClocksAreRight (post.codecs C.negotiates C.reads C.encodes) (car.codecs D.offers D.responds D.reads D.encodes) }
{}

/// A post whose contactor closes hears of it 50 ms behind its order, from which its deadline counts.
pub fn closes_are_heard<C: Coded, D: CarCoded>()
    ensures { ClosesAreHeard (post.codecs C.negotiates C.reads C.encodes) (car.codecs D.offers D.responds D.reads D.encodes) }
{}

/// A session lasts ten milliseconds a hearing at most, and its car came at 0.
pub fn moments_are_bounded<C: Coded, D: CarCoded>()
    ensures { MomentsAreBounded (post.codecs C.negotiates C.reads C.encodes) (car.codecs D.offers D.responds D.reads D.encodes) }
{}

/// The moments from which the deadlines of both ends count are past by little.
pub fn sessions_keep_pace<C: Coded, D: CarCoded>()
    ensures { SessionsKeepPace (post.codecs C.negotiates C.reads C.encodes) (car.codecs D.offers D.responds D.reads D.encodes) }
{}

/// As far as no step of the car takes too long, no deadline is reached.
pub fn deadlines_are_kept<C: Coded, D: CarCoded>()
    ensures { DeadlinesAreKept (post.codecs C.negotiates C.reads C.encodes) (car.codecs D.offers D.responds D.reads D.encodes) }
{}

/// So a session that is over, but for the turns of a plan, has ended by SessionStop at both ends.
pub fn steady_sessions_end<C: Coded, D: CarCoded>()
    ensures { SteadySessionsEnd (post.codecs C.negotiates C.reads C.encodes) (car.codecs D.offers D.responds D.reads D.encodes) }
{}

/// A post reads a word only behind a turn that brought bytes to an end.
pub fn words_are_told<C: Coded, D: CarCoded>()
    ensures { WordsAreTold (post.codecs C.negotiates C.reads C.encodes) (car.codecs D.offers D.responds D.reads D.encodes) }
{}

/// A request is asked again for what the post knew of its step at the moment at which the car reads the reply.
pub fn repeats_are_of_now<C: Coded, D: CarCoded>()
    ensures { RepeatsAreOfNow (post.codecs C.negotiates C.reads C.encodes) (car.codecs D.offers D.responds D.reads D.encodes) }
{}

/// The deadlines of authorization, of the parameters and of the cable check aren't reached.
pub fn quick_steps_are_kept<C: Coded, D: CarCoded>()
    ensures { QuickStepsAreKept (post.codecs C.negotiates C.reads C.encodes) (car.codecs D.offers D.responds D.reads D.encodes) }
{}

/// But for what is asked again, 21 exchanges and the charging replies are enough.
pub fn exchanges_are_counted<C: Coded, D: CarCoded>()
    ensures { ExchangesAreCounted (post.codecs C.negotiates C.reads C.encodes) (car.codecs D.offers D.responds D.reads D.encodes) }
{}

/// Authorization, the parameters and the cable check are asked again three times at most in all.
pub fn quick_steps_are_few<C: Coded, D: CarCoded>()
    ensures { QuickStepsAreFew (post.codecs C.negotiates C.reads C.encodes) (car.codecs D.offers D.responds D.reads D.encodes) }
{}

/// While the car pre-charges, the voltage that the charger gives and tells rises with each order of limits.
pub fn voltages_rise<C: Coded, D: CarCoded>()
    ensures { VoltagesRise (post.codecs C.negotiates C.reads C.encodes) (car.codecs D.offers D.responds D.reads D.encodes) }
{}

/// Where the post reads a PreCharge request, the charger has told all that it was ordered.
pub fn voltages_are_told<C: Coded, D: CarCoded>()
    ensures { VoltagesAreTold (post.codecs C.negotiates C.reads C.encodes) (car.codecs D.offers D.responds D.reads D.encodes) }
{}

/// The deadline of the pre-charge isn't reached.
pub fn pre_charges_are_kept<C: Coded, D: CarCoded>()
    ensures { PreChargesAreKept (post.codecs C.negotiates C.reads C.encodes) (car.codecs D.offers D.responds D.reads D.encodes) }
{}

/// PreCharge is asked for again 30 times at most.
pub fn pre_charges_are_few<C: Coded, D: CarCoded>()
    ensures { PreChargesAreFew (post.codecs C.negotiates C.reads C.encodes) (car.codecs D.offers D.responds D.reads D.encodes) }
{}
