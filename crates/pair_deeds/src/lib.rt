//! What each end of a pair does next, by what it keeps: what was decided in its order, or the word that has come whole, or nothing until the next hearing.
//!
//! Proved: `pieces_are_awaited` (a message that comes in pieces is waited for until it is whole); for any codecs, `posts_do_what_is_first` and
//! `cars_do_what_is_first` (what was decided is done in its order, and nothing is read before); `posts_stay` and `cars_stay` (when nothing is decided, and
//! what is, by an event that leads to something or a request that is due once more); `posts_read_words` and `cars_read_words` (a message that is whole is
//! read as it is judged, and else the end rests).
#![tactic(auto)]

ghost use Rattle.car_spec.specs.Codecs as car;
ghost use Rattle.pair_deeds.specs.Cars.{CarsAskOnceMore, CarsDoWhatIsFirst, CarsDontRestAtWords, CarsDontRestBefore, CarsReadNothingBefore};
ghost use Rattle.pair_deeds.specs.Cars.{CarsReadWords, CarsStayAtWords, CarsStayBehindActs, CarsStayBehindHearings, CarsWait};
ghost use Rattle.pair_deeds.specs.Fronts.{PiecesAreAwaited};
ghost use Rattle.pair_deeds.specs.Posts.{PostsDecideByEvents, PostsDoWhatIsFirst, PostsDontRestAtWords, PostsReadWords};
ghost use Rattle.pair_deeds.specs.Posts.{PostsStayBehindActs, PostsStayBehindHearings, PostsWait};
ghost use Rattle.post_spec.specs.Codecs as post;

use car_spec::CarCoded;
use post_spec::Coded;

/// A message that comes in pieces is waited for until it is whole (ISO 15118-2:2014, 7.8.3).
pub fn pieces_are_awaited()
    ensures { PiecesAreAwaited }
{}

/// A post does the first of what was decided, and reads nothing before.
pub fn posts_do_what_is_first<C: Coded>()
    ensures { PostsDoWhatIsFirst (post.codecs C.negotiates C.reads C.encodes) }
{}

/// A post decides nothing where no order failed, no deadline is reached, the event leads to nothing and the front of its stream is right; and by an event
/// that leads to something, that.
pub fn posts_stay()
    ensures hearings { PostsStayBehindHearings }
    ensures acts { PostsStayBehindActs }
    ensures events { PostsDecideByEvents }
{}

/// A post that decides nothing reads the message that has come whole, unless a reply waits, and else rests.
pub fn posts_read_words<C: Coded>()
    ensures waits { PostsWait }
    ensures reads { PostsReadWords (post.codecs C.negotiates C.reads C.encodes) }
    ensures before { PostsDontRestAtWords }
{}

/// A car does the first of what was decided, and reads nothing before.
pub fn cars_do_what_is_first<D: CarCoded>()
    ensures acts { CarsDoWhatIsFirst (car.codecs D.offers D.responds D.reads D.encodes) }
    ensures reads { CarsReadNothingBefore (car.codecs D.offers D.responds D.reads D.encodes) }
    ensures before { CarsDontRestBefore }
{}

/// A car decides nothing where no deadline is reached, the event leads to nothing, the front of its stream is right and nothing is due once more; and a
/// request that is due, it asks.
pub fn cars_stay()
    ensures acts { CarsStayBehindActs }
    ensures hearings { CarsStayBehindHearings }
    ensures words { CarsStayAtWords }
    ensures again { CarsAskOnceMore }
{}

/// A car that decides nothing reads the message that has come whole, and else rests.
pub fn cars_read_words<D: CarCoded>()
    ensures waits { CarsWait }
    ensures reads { CarsReadWords (car.codecs D.offers D.responds D.reads D.encodes) }
    ensures before { CarsDontRestAtWords }
{}
