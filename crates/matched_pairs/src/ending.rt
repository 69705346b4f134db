//! The whole run of the pipe of a station and a car whose plans go together.
//!
//! Proved: `hearings_are_few` (where each message has 1,032 bytes at most, and the exchanges are as few as those of a session that ends well, each end hears
//! fewer than 1,000,000,000 times); `pipe_runs_are_well` (the run ends well: within 64 exchanges and four times the charging replies, each of the OK class, by
//! SessionStop at both ends, with both contactors ordered open last).

ghost use Rattle.car_spec.specs.Codecs as car;
ghost use Rattle.matched_pairs.specs.Few.{HearingsAreFew};
ghost use Rattle.matched_pairs.specs.PipeRuns.{PipeRunsAreWell};
ghost use Rattle.post_spec.specs.Codecs as post;

use car_spec::CarCoded;
use post_spec::Coded;

/// A session of few exchanges, with messages that are short, takes few hearings of each end.
pub fn hearings_are_few<C: Coded, D: CarCoded>()
    ensures { HearingsAreFew (post.codecs C.negotiates C.reads C.encodes) (car.codecs D.offers D.responds D.reads D.encodes) }
{}

/// The run of the pipe of a station and a car whose plans go together ends well.
pub fn pipe_runs_are_well<C: Coded, D: CarCoded>()
    ensures { PipeRunsAreWell (post.codecs C.negotiates C.reads C.encodes) (car.codecs D.offers D.responds D.reads D.encodes) }
{}
