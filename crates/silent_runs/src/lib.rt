//! A post whose session has ended sends nothing but answers to datagrams until another connection comes.
//!
//! Proved: `sends_in_sessions`: what is sent on a connection, and each end, is of a session that lives.
#![tactic(auto)]

ghost use Rattle.post_spec.specs.Codecs.{codecs};
ghost use Rattle.silent_runs.specs.Silent.{RunsAreSilent};

use post_spec::Coded;

/// Whatever is sent on a connection, and each end, is of a session that lives.
pub fn sends_in_sessions<C: Coded>()
    ensures { RunsAreSilent (codecs C.negotiates C.reads C.encodes) }
{}
