//! The first session of the pipe between a station and a car whose plans match, as far as no end has a cause of its own.
//!
//! Proved: `sessions_go_well` (it goes through the phases of its exchanges, and all that the car reads is of the OK class); `sessions_stop` (where it is over,
//! but for the turns of a plan, both ends have ended behind SessionStop); `causes_are_stops` (no end has another cause than SessionStop's) and
//! `sessions_end_by_stop` (where it is over, but for the turns of a plan, both ends have that cause); `contactors_follow` (the post's contactor closes and opens
//! as it is ordered: no order fails, no feedback is against its order, a close is awaited, and none is ordered before PowerDelivery Start);
//! `contactors_are_opened` (where the session is over, but for the turns of a plan, both contactors were ordered open last).

ghost use Rattle.car_spec.specs.Codecs as car;
ghost use Rattle.matched_pairs.specs.Causes.{CausesAreStops, SessionsEndByStop};
ghost use Rattle.matched_pairs.specs.Contactors.{ContactorsFollow};
ghost use Rattle.matched_pairs.specs.Courses.{SessionsGoWell};
ghost use Rattle.matched_pairs.specs.Opening.{ContactorsAreOpened};
ghost use Rattle.matched_pairs.specs.Stopping.{SessionsStop};
ghost use Rattle.post_spec.specs.Codecs as post;

use car_spec::CarCoded;
use post_spec::Coded;

/// As far as no end has a cause of its own, a session goes through the phases of its exchanges, and all that the car reads is of the OK class.
pub fn sessions_go_well<C: Coded, D: CarCoded>()
    ensures { SessionsGoWell (post.codecs C.negotiates C.reads C.encodes) (car.codecs D.offers D.responds D.reads D.encodes) }
{}

/// Where such a session is over, but for the turns of a plan, both ends have ended behind SessionStop.
pub fn sessions_stop<C: Coded, D: CarCoded>()
    ensures { SessionsStop (post.codecs C.negotiates C.reads C.encodes) (car.codecs D.offers D.responds D.reads D.encodes) }
{}

/// As far as no end has a cause of its own, none has another one than SessionStop's.
pub fn causes_are_stops<C: Coded, D: CarCoded>()
    ensures { CausesAreStops (post.codecs C.negotiates C.reads C.encodes) (car.codecs D.offers D.responds D.reads D.encodes) }
{}

/// And where the session is over then, but for the turns of a plan, both ends have that cause.
pub fn sessions_end_by_stop<C: Coded, D: CarCoded>()
    ensures { SessionsEndByStop (post.codecs C.negotiates C.reads C.encodes) (car.codecs D.offers D.responds D.reads D.encodes) }
{}

/// As far as no end has a cause of its own, the post's contactor closes and opens as it is ordered, and a close is awaited.
pub fn contactors_follow<C: Coded, D: CarCoded>()
    ensures { ContactorsFollow (post.codecs C.negotiates C.reads C.encodes) (car.codecs D.offers D.responds D.reads D.encodes) }
{}

/// And where the session is over then, but for the turns of a plan, both contactors were ordered open last.
pub fn contactors_are_opened<C: Coded, D: CarCoded>()
    ensures { ContactorsAreOpened (post.codecs C.negotiates C.reads C.encodes) (car.codecs D.offers D.responds D.reads D.encodes) }
{}
