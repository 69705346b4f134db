//! No FAILED reply is sent while the contactor is live: it is ordered open before.
//!
//! Proved: `no_failed_reply_while_live`: what is sent while the contactor is live is the encoding of a reply of the OK class, where encoded replies
//! read back; so no response to a negotiation is sent then, as a contactor that is live is ordered open before a new session's first word is read.
#![tactic(auto)]

ghost use Rattle.post_spec.specs.Codecs.{codecs};
ghost use Rattle.failed_replies.specs.Replies.{RunsReplyOpened};

use post_spec::Coded;

/// Whatever is sent on a connection while the contactor is live is a reply of the OK class; the response to a negotiation is never sent then.
pub fn no_failed_reply_while_live<C: Coded>()
    ensures { RunsReplyOpened (codecs C.negotiates C.reads C.encodes) }
{}
