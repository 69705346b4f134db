//! What holds of every run of a station, whatever its codecs are: each post's part of it is its own, the told watts stay within the limit,
//! and the contactor is read off the past.
//!
//! Proved: for any codecs, `told_within_limit` (after every entry of a run the watts that all posts were told add up to at most the limit),
//! `runs_of_posts` (what each post goes by in a run), `contactors_are_read` (standing and live are what the past tells).
#![tactic(auto)]

ghost use Rattle.station_spec.specs.Codecs.{codecs};
ghost use Rattle.station_laws.specs.Contactors.{ContactorsAreRead};
ghost use Rattle.station_laws.specs.PostRuns.{RunsArePostRuns};
ghost use Rattle.station_laws.specs.Within.{RunsTellWithin};

use station_spec::post_spec::Coded;

/// The watts that all posts were told together stay within the site's limit, after every entry.
pub fn told_within_limit<C: Coded>()
    ensures { RunsTellWithin (codecs C.negotiates C.reads C.encodes) }
{}

/// Behind any run, the steps of each post are a run of that post, and they are what the past shows of it.
pub fn runs_of_posts<C: Coded>()
    ensures { RunsArePostRuns (codecs C.negotiates C.reads C.encodes) }
{}

/// How a post's contactor stands, and whether it is live, is what the post's past tells of its orders and of the feedback.
pub fn contactors_are_read()
    ensures { ContactorsAreRead }
{}
