//! What holds of every run of a car, whatever its codecs are: its contactor and session are read off its past and steps, it closes behind
//! the words that mandate it, takes no step behind its end, ends open, and has one next act or word.
//!
//! Proved: laws of every run: `runs_end_open`, `ended_cars_are_silent`, `closes_by_words` (each Close stands behind the words that mandate
//! it), `contactors_are_read`, `readings_are_kept`, `cars_are_determined`.
#![tactic(auto)]

ghost use Rattle.car_spec.specs.Codecs.{codecs};
ghost use Rattle.car_laws.specs.Closing.{RunsCloseByWords};
ghost use Rattle.car_laws.specs.Contactor.{RunsKeepLive};
ghost use Rattle.car_laws.specs.Determined.{CarsAreDetermined};
ghost use Rattle.car_laws.specs.Opening.{RunsEndOpen};
ghost use Rattle.car_laws.specs.Readings.{RunsKeepReadings};
ghost use Rattle.car_laws.specs.Silence.{RunsStopAtTheEnd};

use car_spec::CarCoded;

/// Whether the car's contactor is live is what its past tells of its orders.
pub fn contactors_are_read<C: CarCoded>()
    ensures { RunsKeepLive (codecs C.offers C.responds C.reads C.encodes) }
{}

/// A car that ended hears, reads and does nothing more.
pub fn ended_cars_are_silent<C: CarCoded>()
    ensures { RunsStopAtTheEnd (codecs C.offers C.responds C.reads C.encodes) }
{}

/// At the end of a whole run the last order that was taken isn't Close, unless a later Open failed.
pub fn runs_end_open<C: CarCoded>()
    ensures { RunsEndOpen (codecs C.offers C.responds C.reads C.encodes) }
{}

/// What a car keeps of its session is what its steps tell: the wish to stop, what awaits a reply, and the charging replies.
pub fn readings_are_kept<C: CarCoded>()
    ensures { RunsKeepReadings (codecs C.offers C.responds C.reads C.encodes) }
{}

/// Each order to close stands, since the last renegotiation, in DC behind a CableCheck that was answered Finished and a PreCharge
/// within 20.0 V of its target, in AC behind an accepted PowerDelivery Start.
pub fn closes_by_words<C: CarCoded>()
    ensures { RunsCloseByWords (codecs C.offers C.responds C.reads C.encodes) }
{}

/// What a car keeps has one act next, but for its outcome, or one word to read, or it waits for a hearing, where a payload is
/// judged one way and what is said has one encoding.
pub fn cars_are_determined<C: CarCoded>()
    ensures { CarsAreDetermined (codecs C.offers C.responds C.reads C.encodes) }
{}
