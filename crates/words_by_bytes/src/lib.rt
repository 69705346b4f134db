//! Behind a whole block each word is read, so that a hearing which brings no bytes finds none.
//!
//! Proved: `words_come_by_bytes`: no word is next behind a whole block, nor behind a hearing without bytes.
#![tactic(auto)]

ghost use Rattle.post_spec.specs.Codecs.{codecs};
ghost use Rattle.words_by_bytes.specs.Words.{RunsReadWords};

use post_spec::Coded;

/// In every run, no word of a session is next behind a whole block, and none behind a hearing that brings no bytes: what ends a session by
/// a word comes with the bytes that brought it (ISO 15118-2:2014, section 7.8.3).
pub fn words_come_by_bytes<C: Coded>()
    ensures { RunsReadWords (codecs C.negotiates C.reads C.encodes) }
{}
