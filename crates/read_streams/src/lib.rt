//! What a post has not read, and from when its deadline counts, are read off its past behind any steps.
//!
//! Proved: `streams_are_read`, `sessions_are_read_between`: behind any steps, also within a block and behind a cause, the unread bytes and
//! the deadline of a session are read off its past.
#![tactic(auto)]

ghost use Rattle.post_spec.specs.Codecs.{codecs};
ghost use Rattle.read_streams.specs.Streams.{StreamsAreRead};

use post_spec::Coded;

/// Behind any steps of a run, also within a block and in a session that has a cause: the bytes that a post hasn't read are those of its
/// session's stream behind as many frames as words were read of it; and its deadline counts from the connection, and from then on, once
/// SessionSetup was accepted, from each reply, and from a Close.
pub fn streams_are_read<C: Coded>()
    ensures { StreamsAreRead (codecs C.negotiates C.reads C.encodes) }
{}
