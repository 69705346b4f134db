//! What a post does never makes a session late: a deadline is reached by a hearing.
//!
//! Proved: `deadlines_come_by_hearings`: what a post does makes no session late.
#![tactic(auto)]

ghost use Rattle.post_spec.specs.Codecs.{codecs};
ghost use Rattle.heard_deadlines.specs.Reached.{RunsAreLateByHearing};

use post_spec::Coded;

/// In every run, where the deadline of a session is reached behind something that its post did, that deadline was reached before it did
/// so: hearings tell of moments, and nothing else does (ISO 15118-2:2014, section 8.7).
pub fn deadlines_come_by_hearings<C: Coded>()
    ensures { RunsAreLateByHearing (codecs C.negotiates C.reads C.encodes) }
{}
