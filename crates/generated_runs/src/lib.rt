//! A seed and a count of sessions generate one history at most.
//!
//! Proved: for any codecs that are determined, `generated_runs_are_determined`: the plans without a file are one each, and so each drawn car,
//! what happens between two sessions, and the whole of what is generated.
#![tactic(auto)]

ghost use Rattle.car_spec.specs.Codecs as car;
ghost use Rattle.generated_runs.specs.Determined.{FixedCarsAreOne, FixedPostsAreOne, GeneratedRunsAreDetermined};
ghost use Rattle.post_spec.specs.Codecs as post;

use car_spec::CarCoded;
use post_spec::Coded;

/// A seed and a count of sessions generate one history at most, where a payload is judged one way and what is said has one encoding.
pub fn generated_runs_are_determined<C: Coded, D: CarCoded>()
    ensures cars { FixedCarsAreOne }
    ensures posts { FixedPostsAreOne }
    ensures runs { GeneratedRunsAreDetermined (post.codecs C.negotiates C.reads C.encodes) (car.codecs D.offers D.responds D.reads D.encodes) }
{}
