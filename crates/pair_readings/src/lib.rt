//! What each end of a pair whose plans match makes of what it reads.
//!
//! Proved: `ends_understand_each_other` (for codecs that read alike and read back what they encode, a request is heard as it reads back, and a reply so
//! too); `posts_answer` (the post's session moves, and what it is to do is its order, its reply unless that waits, and the end behind SessionStop);
//! `cars_go_on` (the car goes on to the next stage, or it has ended by SessionStop); `watts_are_shown` (such a car asks for watts, and a post that is alone at
//! its site shows it some).
#![tactic(auto)]

ghost use Rattle.car_spec.specs.Codecs as car;
ghost use Rattle.pair_readings.specs.Codecs.{RepliesAreHeard, RequestsAreHeard};
ghost use Rattle.pair_readings.specs.Readings.{CarsGoOn, PostsAnswer};
ghost use Rattle.pair_readings.specs.Watts.{SomeWattsAreAsked, SomeWattsAreShown};
ghost use Rattle.post_spec.specs.Codecs as post;

use car_spec::CarCoded;
use post_spec::Coded;

/// For codecs that read alike and read back what they encode, a request is heard as it reads back, and a reply so too.
pub fn ends_understand_each_other<C: Coded, D: CarCoded>()
    ensures requests { RequestsAreHeard (post.codecs C.negotiates C.reads C.encodes) (car.codecs D.offers D.responds D.reads D.encodes) }
    ensures replies { RepliesAreHeard (post.codecs C.negotiates C.reads C.encodes) (car.codecs D.offers D.responds D.reads D.encodes) }
{}

/// A post that reads the request of an exchange is to give its order and its reply, unless that waits; behind SessionStop its session ends.
pub fn posts_answer()
    ensures { PostsAnswer }
{}

/// A car that reads the reply goes on to the next stage, or has ended by SessionStop.
pub fn cars_go_on()
    ensures { CarsGoOn }
{}

/// A car whose plan matches asks for watts, and a post that is alone at its site shows some to whoever asks for some.
pub fn watts_are_shown()
    ensures asked { SomeWattsAreAsked }
    ensures shown { SomeWattsAreShown }
{}
