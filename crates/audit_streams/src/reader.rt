//! What reads the payloads of a record.

ghost use Rattle.std.specs.Prelude.{◌≡◌, ◌≤◌, ◌↔◌, ◌<◌, ℕ, Bool, List, Some, length};
ghost use Rattle.charge_world.specs.declared.offer.Dialect.{Dialect};
ghost use Rattle.told_pasts.specs.Spelling.{SpelledWatts};
ghost use Rattle.post_spec.specs.Codecs.{codecs, judged_word};
ghost use Rattle.post_spec.specs.Spelled.{AreDetermined};
ghost use Rattle.post_spec.specs.Words.{Payload};
ghost use Rattle.audit_streams.specs.Words.{IsWord, IsFirst, IsOfWatts, JudgesFirst, JudgesLater, AnswersOnce, SpeaksOnce, AreShort};
ghost use Rattle.audit_streams.specs.Streams as streams;

use crate::streams::Speech;
use audit_watts::WattValues;
use charge_world::Dialect;
use faultless_pasts::ToldCoded;
use session_words::{PostPlan, Request, Word};
use v2gtp_frames::FrameFault;

/// A word that was heard.
#[derive(Drop)]
pub enum ToldWord {
    /// A request of the negotiation, with the dialect that is chosen for it.
    Negotiated(Option<Dialect>),
    /// A request of the dialect.
    Asked(Request),
    /// Another message of the dialect, which a car never sends.
    WrongSide,
    /// No message at all.
    Refused,
    /// The fault of a frame.
    BadFrame(FrameFault),
}

impl ToldWord {
    /// The same word once more.
    pub fn copied(&self) -> ToldWord
        ensures { result ≡ self.now }
    {
        match self {
            ToldWord::Negotiated(chosen) => ToldWord::Negotiated(*chosen),
            ToldWord::Asked(request) => ToldWord::Asked(request.copied()),
            ToldWord::WrongSide => ToldWord::WrongSide,
            ToldWord::Refused => ToldWord::Refused,
            ToldWord::BadFrame(fault) => ToldWord::BadFrame(*fault),
        }
    }
}

/// What a post was told last: so many watts, which a reply of this dialect is to write.
#[derive(Clone, Copy)]
pub struct ToldWatts {
    pub watts: u32,
    pub dialect: Dialect,
}

/// Reads the payloads of a record, each in one way. No call takes memory.
pub trait ToldReader: ToldCoded {
    /// What the first payload of a session is judged as, at a post that offers these dialects. It has at most 65,536 bytes.
    fn negotiate(&mut self, offers: &[Dialect], payload: &[u8]) -> ToldWord
        requires { length payload.now ≤ 65536 }
        ensures { IsFirst (Self.negotiates offers.now payload.now) result };

    /// What a later payload spells in its dialect: none where it spells nothing.
    fn read(&mut self, dialect: Dialect, payload: &[u8]) -> Option<Word>
        requires { length payload.now ≤ 65536 }
        ensures { Self.reads dialect payload.now result };

    /// Whether a payload is a positive response to a negotiation; none where it isn't a response.
    fn respond(&mut self, payload: &[u8]) -> Option<bool>
        requires { length payload.now ≤ 65536 }
        ensures { (positive : Bool) → Self.responds payload.now positive ↔ (result ≡ Some positive) };

    /// What is kept of the watts of the reply that a payload spells in a dialect, as they are written, where the post was `told` these; none where it
    /// spells no reply.
    fn watts(
        &mut self,
        plan: &PostPlan,
        told: ToldWatts,
        dialect: Dialect,
        payload: &[u8],
    ) -> Option<WattValues>
        requires short { length payload.now ≤ 65536 }
        requires told { told.watts < 32768000 }
        requires nominal { 0 < plan.now.nominal }
        ensures { IsOfWatts (Self.watts dialect payload.now) plan.now told.dialect told.watts result };

    /// Each payload is judged in one way.
    ghost determined: { AreDetermined (codecs Self.negotiates Self.reads Self.encodes) };

    /// The first payload of a session is judged in some way.
    ghost judges_first: { JudgesFirst Self.negotiates };

    /// And each later one.
    ghost judges_later: { JudgesLater Self.reads };

    /// A response is positive, or isn't.
    ghost responds_once: { AnswersOnce Self.responds };

    /// No longer payload is a response, nor one that spells watts.
    ghost short: { AreShort Self.responds Self.watts };

    /// A reply has one list of watts.
    ghost watts_once: { SpeaksOnce Self.watts };
}

/// The word that a later payload is.
fn word_of(word: Option<Word>) -> ToldWord
    ensures { IsWord result (Payload (judged_word word)) }
{
    match word {
        None => ToldWord::Refused,
        Some(Word::Request(request)) => ToldWord::Asked(request),
        Some(Word::Reply(_)) | Some(Word::Nothing) => ToldWord::WrongSide,
    }
}

/// The word that a payload is, in the negotiation or in the dialect that was chosen.
pub(crate) fn judge<R: ToldReader>(
    reader: &mut R,
    offers: &[Dialect],
    spoken: Option<Dialect>,
    payload: &[u8],
) -> ToldWord
    requires { length payload.now ≤ 65536 }
    ensures { streams.IsJudged (codecs R.negotiates R.reads R.encodes) offers.now spoken payload.now result }
{
    match spoken {
        None => reader.negotiate(offers, payload),
        Some(dialect) => word_of(reader.read(dialect, payload)),
    }
}

/// How a stream goes on behind a word of it.
pub(crate) fn speech_behind(spoken: Option<Dialect>, word: &ToldWord) -> Speech
    ensures { streams.GoesOn spoken word.now result }
{
    match (spoken, word) {
        (Some(dialect), _) => Speech::Spoken(dialect),
        (None, ToldWord::Negotiated(Some(dialect))) => Speech::Spoken(*dialect),
        _ => Speech::Unchosen,
    }
}
