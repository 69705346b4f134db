//! What a post gives to a car that conforms: every reply, the contactor in time, and the session until the car ends it.
//!
//! Proved: `serves_conforming_sessions`: in every run, in each session that conforms, whatever became of those before it, each whole request
//! has one reply, of the OK class, but the one that waits; Close is ordered in the hearing of PowerDelivery Start, which is answered in no
//! other way than in the hearing of the feedback behind it; only SessionStop ends a session; where encoded replies read back.
#![tactic(auto)]

ghost use Rattle.post_spec.specs.Codecs.{codecs};
ghost use Rattle.served_sessions.specs.Laws.{RunsServe, WholeRunsServe};

use post_spec::Coded;

/// In every run, in each session that conforms, whatever became of those before it: each whole request has one reply, of the OK class, but the
/// one that waits; the contactor is ordered closed in the hearing of PowerDelivery Start; a reply to it is sent in the
/// hearing of the feedback that confirms that order, and in no other; and only an accepted SessionStop ends it. So it is
/// behind each block, and at the end of every run that isn't cut (ISO 15118-2:2014, sections 8.4 and 8.8).
pub fn serves_conforming_sessions<C: Coded>()
    ensures runs { RunsServe (codecs C.negotiates C.reads C.encodes) }
    ensures whole { WholeRunsServe (codecs C.negotiates C.reads C.encodes) }
{}
