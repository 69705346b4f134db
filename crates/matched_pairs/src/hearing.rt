//! What a hearing of each end does in the phases of a session between a post and a car whose plans match.
//!
//! Proved: `posts_hear` and `cars_hear` (a hearing at which no end has a cause of its own keeps a session in its phases: more of a message has come, a
//! contactor that closed lets the reply go, and a request that is due is asked once more).

ghost use Rattle.car_spec.specs.Codecs as car;
ghost use Rattle.matched_pairs.specs.Hearings.{CarsHear, PostsHear};
ghost use Rattle.post_spec.specs.Codecs as post;

use car_spec::CarCoded;
use post_spec::Coded;

/// A hearing of the post at which it has no cause of its own keeps a session in its phases.
pub fn posts_hear<C: Coded, D: CarCoded>()
    ensures { PostsHear (post.codecs C.negotiates C.reads C.encodes) (car.codecs D.offers D.responds D.reads D.encodes) }
{}

/// And so does one of the car at which no deadline is reached.
pub fn cars_hear<C: Coded, D: CarCoded>()
    ensures { CarsHear (post.codecs C.negotiates C.reads C.encodes) (car.codecs D.offers D.responds D.reads D.encodes) }
{}
