//! What a post does in a run depends on nothing of the other posts but the moments of their hearings and the watts that it is shown.
//!
//! Proved: `posts_are_isolated`: a post that hears the same, and whose outcomes and shown watts agree as far as both have some, does the same, in
//! whole runs of any two sites, where a payload is judged one way and a reply has one encoding: no other post adds an act at it.
#![tactic(auto)]

ghost use Rattle.post_spec.specs.Codecs.{codecs};
ghost use Rattle.isolated_runs.specs.Isolated.{RunsAreIsolated};

use post_spec::Coded;

/// Two whole runs in which a post with the same plan hears the same at the same moments, and whose outcomes and shown watts agree as far as
/// both have some: the post does the same in both, as often, whatever the other posts are and do.
pub fn posts_are_isolated<C: Coded>()
    ensures { RunsAreIsolated (codecs C.negotiates C.reads C.encodes) }
{}
