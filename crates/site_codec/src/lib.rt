//! What a site needs of the codecs of its messages: the negotiation's (ISO 15118-2:2014, section 8.2) and those of the dialects (section
//! 7.9; DIN SPEC 70121:2014). A site is generic over them, and its promises hold for any codecs that keep these laws.
//!
//! Proved: the traits by which a site takes its codecs (`Codec`), and what the laws of runs ask of them (`LawfulCodec`); `site_codecs`
//! keeps both.
#![tactic(auto)]

ghost use Rattle.std.specs.Prelude.{◌≤◌, length, take};
ghost use Rattle.post_spec.specs.Codecs.{codecs};
ghost use Rattle.post_spec.specs.Spelled.{ReadsBack, AreDetermined, JudgesAll};
ghost use Rattle.secc_machine.specs.Views.{judged_of};
ghost use Rattle.site_codec.specs.Judging.{IsJudged, NegotiatesFirst, ChoosesOffered};
ghost use Rattle.site_codec.specs.Replies.{IsGiven};

use charge_world::Dialect;
use post_spec::Coded;
pub use secc_machine;
use secc_machine::Judged;
use session_words::Reply;

/// The room in which a reply is written has at least so many bytes, and no reply has more.
pub const REPLY_ROOM: usize = 1024;

/// The greatest payload that is judged, in bytes: the most that a frame has.
pub const PAYLOAD: usize = 65536;

/// Codecs of a site's messages. No call takes memory.
pub trait Codec: Coded {
    /// What the first payload of a session is, at a post that offers these dialects.
    fn negotiate(&mut self, offers: &[Dialect], payload: &[u8]) -> Judged
        requires { length payload.now ≤ 65536 }
        ensures { Self.negotiates offers.now payload.now (judged_of result) };

    /// What a later payload is, in the dialect that was chosen.
    fn judge(&mut self, dialect: Dialect, payload: &[u8]) -> Judged
        requires { length payload.now ≤ 65536 }
        ensures { IsJudged (Self.reads dialect payload.now) (judged_of result) };

    /// Writes the payload of a reply to the front of a room, and answers its number of bytes. The reply is one that a post gives in this
    /// dialect.
    fn encode(&mut self, dialect: Dialect, reply: &Reply, room: &mut [u8]) -> u32
        requires room { 1024 ≤ length room.old }
        requires given { IsGiven Self.reads dialect reply.now }
        ensures within { result ≤ 1024 }
        ensures encoded { Self.encodes dialect reply.now (take result room.new) };

    /// The first payload of a session is never judged a request of a dialect.
    ghost negotiates_first: { NegotiatesFirst Self.negotiates };

    /// A dialect that is chosen is one of those on offer.
    ghost chooses_offered: { ChoosesOffered Self.negotiates };
}

/// Codecs by whose payloads a run can be told apart: what the laws of every run ask of them.
pub trait LawfulCodec: Codec {
    /// The encoding of a reply reads as that reply, but for the watts that its numbers drop.
    ghost reads_back: { ReadsBack (codecs Self.negotiates Self.reads Self.encodes) };

    /// A payload is judged one way, and a reply has one encoding.
    ghost determined: { AreDetermined (codecs Self.negotiates Self.reads Self.encodes) };

    /// Each payload is judged somehow.
    ghost judges: { JudgesAll (codecs Self.negotiates Self.reads Self.encodes) };
}
