//! Behind a whole block, the unread bytes and the deadline of a session are read off its entries.
//!
//! Proved: `sessions_are_read`: for any codecs, behind a whole block, the bytes that a post hasn't read are those of its session's stream
//! behind the words that are answered and the one whose reply waits; a reply waits where a Close was taken behind the last reply; and the
//! session is due as its deadline says, counted from the connection, the last reply or that Close.
#![tactic(auto)]

ghost use Rattle.post_spec.specs.Codecs.{codecs};
ghost use Rattle.read_sessions.specs.Sessions.{SessionsAreRead};

use post_spec::Coded;

/// In any run, of a post that has nothing to do: the bytes that it hasn't read are those of its session's stream behind the words that
/// are answered and the one whose reply waits; it waits where a Close was taken behind the last reply; and it is due as its deadline
/// says, counted from the connection, the last reply or that Close.
pub fn sessions_are_read<C: Coded>()
    ensures { SessionsAreRead (codecs C.negotiates C.reads C.encodes) }
{}
