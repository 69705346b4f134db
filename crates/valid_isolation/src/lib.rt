//! In a row that needs a valid isolation (IEC 61851-23), a post has one whenever it reads a word.
//!
//! Proved: `isolation_is_kept`: behind any past of any run, whatever its codecs are, the isolation of a session is valid in the rows that need
//! it, or its end is decided, or what was heard of it is still to be judged; `words_are_isolated`: so it is valid where a word is read.
#![tactic(auto)]

ghost use Rattle.post_spec.specs.Codecs.{codecs};
ghost use Rattle.valid_isolation.specs.Isolated.{RunsKeepIsolation, RunsReadIsolated};

use post_spec::Coded;

/// Behind any past of any run, each session that has no cause to end has a valid isolation in the rows that need it, unless a connection
/// came or a level was told that is still to be judged.
pub fn isolation_is_kept<C: Coded>()
    ensures { RunsKeepIsolation (codecs C.negotiates C.reads C.encodes) }
{}

/// So where all is done that was decided without a word, as when a word is read, the isolation is valid in the rows that need it.
pub fn words_are_isolated<C: Coded>()
    ensures { RunsReadIsolated (codecs C.negotiates C.reads C.encodes) }
{}
