//! What holds of every run of the pipe between a station and a car, whatever their plans and codecs are: nothing is lost, one message at most
//! is under way, and the plans and the seed determine the run.
//!
//! Proved: for any codecs, `one_message_is_under_way` (to one end at most, as long as no message is longer than the longest that is read);
//! `words_are_within_hearings` (a car reads one at most in each, and hears no more than its plan's turns, so that a session has fewer exchanges);
//! `sessions_are_determined` (by what happened before, where codecs are determined, and so a run of the pipe by plans and seed);
//! `nothing_is_lost` (what was said is what was heard of it and then what is under way); `pasts_show_steps`; `pasts_are_runs` (in the first
//! session what the pipe tells of each end is a run of that end, where what is heard is within its types).
#![tactic(auto)]

ghost use Rattle.post_spec.specs.Codecs as post;
ghost use Rattle.car_spec.specs.Codecs as car;
ghost use Rattle.pipe_laws.specs.Determined.{PipeRunsAreDetermined, SessionsAreDetermined};
ghost use Rattle.pipe_laws.specs.Losing.{NothingIsLost, PastsShowSteps};
ghost use Rattle.pipe_laws.specs.OneMessage.{OneIsUnderWay};
ghost use Rattle.pipe_laws.specs.PipePasts.{CarPastsAreRuns, StationPastsAreRuns};
ghost use Rattle.pipe_laws.specs.Words.{ExchangesAreWithinTurns, HearsWithinTurns, OneWordAHearing};

use car_spec::CarCoded;
use post_spec::Coded;

/// The car says something only where nothing that it said still has no reply, and the station only what it was asked for. So of all that
/// both say at most one message is under way, to one of them.
pub fn one_message_is_under_way<C: Coded, D: CarCoded>()
    ensures { OneIsUnderWay (post.codecs C.negotiates C.reads C.encodes) (car.codecs D.offers D.responds D.reads D.encodes) }
{}

/// A car reads a word at most in each of its hearings, and none in the one in which it comes; it has no more hearings than its plan has turns.
/// So a session has fewer exchanges than that: fewer than 2^32, as no plan has more turns.
pub fn words_are_within_hearings<C: Coded, D: CarCoded>()
    ensures words { OneWordAHearing (post.codecs C.negotiates C.reads C.encodes) (car.codecs D.offers D.responds D.reads D.encodes) }
    ensures hearings { HearsWithinTurns (post.codecs C.negotiates C.reads C.encodes) (car.codecs D.offers D.responds D.reads D.encodes) }
    ensures exchanges { ExchangesAreWithinTurns (post.codecs C.negotiates C.reads C.encodes) (car.codecs D.offers D.responds D.reads D.encodes) }
{}

/// Behind what happened before, a session of the pipe goes one way, where a payload is judged one way and what is said has one encoding. So
/// the plans of a station and of a car and a seed have one run of the pipe at most.
pub fn sessions_are_determined<C: Coded, D: CarCoded>()
    ensures sessions { SessionsAreDetermined (post.codecs C.negotiates C.reads C.encodes) (car.codecs D.offers D.responds D.reads D.encodes) }
    ensures runs { PipeRunsAreDetermined (post.codecs C.negotiates C.reads C.encodes) (car.codecs D.offers D.responds D.reads D.encodes) }
{}

/// What an end said in the newest session is what came of it to the other end, in order, and then what is under way.
pub fn nothing_is_lost<C: Coded, D: CarCoded>()
    ensures { NothingIsLost (post.codecs C.negotiates C.reads C.encodes) (car.codecs D.offers D.responds D.reads D.encodes) }
{}

/// What a post sees of the past that the pipe tells of its station are the station's steps.
pub fn pasts_show_steps()
    ensures { PastsShowSteps }
{}

/// What the pipe tells of an end in its first session is a run of a site with this post, and of this car, as long as moments, amounts and
/// bytes are within their types. So what is promised of every run of an end holds there too.
pub fn pasts_are_runs<C: Coded, D: CarCoded>()
    ensures station { StationPastsAreRuns (post.codecs C.negotiates C.reads C.encodes) (car.codecs D.offers D.responds D.reads D.encodes) }
    ensures car { CarPastsAreRuns (post.codecs C.negotiates C.reads C.encodes) (car.codecs D.offers D.responds D.reads D.encodes) }
{}
