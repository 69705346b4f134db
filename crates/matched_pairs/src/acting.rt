//! The phases of a session between a post and a car whose plans match, and how the acts of both ends lead from one to the next.
//!
//! Proved: `posts_go_on` (what a post does keeps a session in its phases: it reads the message that has come whole, gives its order, sends its reply and ends
//! behind SessionStop, and does nothing else); `cars_go_on` (what a car does, too: it gives its order, says what it has to say and ends); `cars_read` (a word
//! that a car reads is of the OK class, and leads to the next exchange, or to the end); `posts_act` (a post gives the order of the exchange, says its response
//! or reply, and ends by SessionStop alone) and `cars_act` (a car gives orders, says something, and ends by SessionStop alone); `posts_do` (a post reads the
//! car's offer or the request of the next exchange, or it reads nothing and then replies or ends its session); `posts_keep` (what it keeps behind a request
//! that suits what the charger told).

ghost use Rattle.car_spec.specs.Codecs as car;
ghost use Rattle.matched_pairs.specs.Acts.{CarsAct, PostsAct};
ghost use Rattle.matched_pairs.specs.Moves.{CarsGoOn, CarsRead, PostsGoOn};
ghost use Rattle.matched_pairs.specs.Requests.{PostsDo, PostsKeep};
ghost use Rattle.post_spec.specs.Codecs as post;

use car_spec::CarCoded;
use post_spec::Coded;

/// What a post does keeps a session in its phases.
pub fn posts_go_on<C: Coded, D: CarCoded>()
    ensures { PostsGoOn (post.codecs C.negotiates C.reads C.encodes) (car.codecs D.offers D.responds D.reads D.encodes) }
{}

/// What a car does keeps a session in its phases.
pub fn cars_go_on<C: Coded, D: CarCoded>()
    ensures { CarsGoOn (post.codecs C.negotiates C.reads C.encodes) (car.codecs D.offers D.responds D.reads D.encodes) }
{}

/// A word that a car reads is of the OK class, and it is the response that chooses a dialect or the reply of one more exchange.
pub fn cars_read<C: Coded, D: CarCoded>()
    ensures { CarsRead (post.codecs C.negotiates C.reads C.encodes) (car.codecs D.offers D.responds D.reads D.encodes) }
{}

/// A post gives the order of the exchange, says its response or reply, and ends by SessionStop alone.
pub fn posts_act<C: Coded, D: CarCoded>()
    ensures { PostsAct (post.codecs C.negotiates C.reads C.encodes) (car.codecs D.offers D.responds D.reads D.encodes) }
{}

/// A car gives orders, says something, and ends by SessionStop alone.
pub fn cars_act<C: Coded, D: CarCoded>()
    ensures { CarsAct (post.codecs C.negotiates C.reads C.encodes) (car.codecs D.offers D.responds D.reads D.encodes) }
{}

/// A post reads the car's offer or the request of the next exchange, or it reads nothing and then replies or ends its session.
pub fn posts_do<C: Coded, D: CarCoded>()
    ensures { PostsDo (post.codecs C.negotiates C.reads C.encodes) (car.codecs D.offers D.responds D.reads D.encodes) }
{}

/// Behind a request that suits what the charger told it keeps its part of the exchange.
pub fn posts_keep<C: Coded, D: CarCoded>()
    ensures { PostsKeep (post.codecs C.negotiates C.reads C.encodes) (car.codecs D.offers D.responds D.reads D.encodes) }
{}
