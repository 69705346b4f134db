//! What the station of a pipe knows of its charger, and when.
//!
//! Proved: for any codecs and plans, `chargers_are_calm` (what a simulated charger tells is what one tells where nothing goes wrong, so that nobody asks to
//! stop or to renegotiate, and the contactor stays open while it has no order); `chargers_are_in_time` (in the first session the car is ready before any
//! bytes are heard; behind 100 ms somebody paid, and behind 300 ms the isolation is valid).
#![tactic(auto)]

ghost use Rattle.car_spec.specs.Codecs as car;
ghost use Rattle.pipe_facts.specs.Calm.{FactsAreCalm, StaysOpened, ToldIsCalm};
ghost use Rattle.pipe_facts.specs.InTime.{CarIsReady, IsValidInTime, PaysInTime};
ghost use Rattle.post_spec.specs.Codecs as post;

use car_spec::CarCoded;
use post_spec::Coded;

/// What a simulated charger tells is what one tells where nothing goes wrong, and so is what the station knows of it. The contactor stays open while it
/// has no order.
pub fn chargers_are_calm<C: Coded, D: CarCoded>()
    ensures told { ToldIsCalm (post.codecs C.negotiates C.reads C.encodes) (car.codecs D.offers D.responds D.reads D.encodes) }
    ensures facts { FactsAreCalm (post.codecs C.negotiates C.reads C.encodes) (car.codecs D.offers D.responds D.reads D.encodes) }
    ensures contactor { StaysOpened (post.codecs C.negotiates C.reads C.encodes) (car.codecs D.offers D.responds D.reads D.encodes) }
{}

/// In the first session the car is ready before any bytes are heard; behind 100 ms somebody paid, where that is needed; and behind 300 ms the isolation is
/// valid.
pub fn chargers_are_in_time<C: Coded, D: CarCoded>()
    ensures ready { CarIsReady (post.codecs C.negotiates C.reads C.encodes) (car.codecs D.offers D.responds D.reads D.encodes) }
    ensures paid { PaysInTime (post.codecs C.negotiates C.reads C.encodes) (car.codecs D.offers D.responds D.reads D.encodes) }
    ensures valid { IsValidInTime (post.codecs C.negotiates C.reads C.encodes) (car.codecs D.offers D.responds D.reads D.encodes) }
{}
