//! The words of a session are read in order, each once.
//!
//! Proved: `words_are_read_in_order`: what a post reads is the next word of its stream, and no reply waits then.
#![tactic(auto)]

ghost use Rattle.post_spec.specs.Codecs.{codecs};
ghost use Rattle.next_words.specs.Next.{RunsReadInOrder};

use post_spec::Coded;

/// In every run, what a post reads is the next word of its session's stream: the first that has no reply yet, and read while no reply
/// waits (ISO 15118-2:2014, section 7.8.3).
pub fn words_are_read_in_order<C: Coded>()
    ensures { RunsReadInOrder (codecs C.negotiates C.reads C.encodes) }
{}
