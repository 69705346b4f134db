//! A small reader.

ghost use Rattle.std.specs.Prelude.{◌≡◌, ◌↔◌, Bool, Some};
ghost use Rattle.post_spec.specs.Words.{Payload};
ghost use Rattle.audit_streams.specs.Words.{IsWord, IsOfWatts};
ghost use Rattle.audit_examples.specs.Reader as small;

use arrayvec::ArrayVec;
use audit_streams::{ToldReader, ToldWatts, ToldWord};
use audit_watts::WattValues;
use charge_world::Dialect;
use faultless_pasts::ToldCoded;
use post_spec::Coded;
use session_words::{Ask, Code, PostPlan, Processing, Reply, Request, SessionId, Tell, Word};

/// Reads payloads by their first byte: 1 is a request of the negotiation, 2 an authorization, 3 the reply to it, 5 and 6 are responses to a
/// negotiation that matched, or didn't. All others are nothing.
#[derive(Drop)]
pub struct SmallReader;

/// The first byte: 0 of none.
fn kind_of(payload: &[u8]) -> u8
    ensures { result ≡ small.kind_of payload.now }
{
    match payload.first() {
        Some(byte) => *byte,
        None => 0,
    }
}

/// The first dialect that is offered.
fn chosen_in(offers: &[Dialect]) -> Option<Dialect>
    ensures { result ≡ small.chosen_in offers.now }
{
    match offers.first() {
        Some(dialect) => Some(*dialect),
        None => None,
    }
}

/// No identifier.
fn no_session() -> SessionId
    ensures { result ≡ small.no_session }
{
    SessionId {
        bytes: ArrayVec::new(),
    }
}

/// An authorization.
fn authorization() -> Request
    ensures { result ≡ small.authorization }
{
    Request {
        session: no_session(),
        ask: Ask::Authorization,
    }
}

/// The reply to it.
fn authorized() -> Reply
    ensures { result ≡ small.authorized }
{
    Reply {
        session: no_session(),
        code: Code::Ok,
        tell: Tell::Authorization {
            processing: Processing::Finished,
        },
    }
}

/// The word that a first payload is.
fn first_word(offers: &[Dialect], payload: &[u8]) -> ToldWord
    ensures { IsWord result (Payload (small.first_judged offers.now payload.now)) }
{
    if kind_of(payload) == 1 {
        ToldWord::Negotiated(chosen_in(offers))
    } else {
        ToldWord::Refused
    }
}

/// What a later payload spells.
fn later_word(payload: &[u8]) -> Option<Word>
    ensures { result ≡ small.later_word payload.now }
{
    let kind = kind_of(payload);
    if kind == 2 {
        Some(Word::Request(authorization()))
    } else if kind == 3 {
        Some(Word::Reply(authorized()))
    } else {
        None
    }
}

/// Whether a payload is a positive response.
fn positive_in(payload: &[u8]) -> Option<bool>
    ensures { result ≡ small.positive_in payload.now }
{
    let kind = kind_of(payload);
    if kind == 5 {
        Some(true)
    } else if kind == 6 {
        Some(false)
    } else {
        None
    }
}

/// Whether a payload is the reply.
fn is_reply(payload: &[u8]) -> bool
    ensures { result ≡ small.is_reply payload.now }
{
    let kind = kind_of(payload);
    kind == 3
}

impl Coded for SmallReader {
    ghost use Rattle.audit_examples.specs.Reader.{Negotiates, Reads, Encodes};

    ghost negotiates = { Negotiates };

    ghost reads = { Reads };

    ghost encodes = { Encodes };
}

impl ToldCoded for SmallReader {
    ghost use Rattle.audit_examples.specs.Reader.{Responds, Watts};

    ghost responds = { Responds };

    ghost watts = { Watts };
}

impl ToldReader for SmallReader {
    ghost use Rattle.audit_examples.specs.Laws as laws;

    ghost determined = { laws.determined };

    ghost judges_first = { laws.judges_first };

    ghost judges_later = { laws.judges_later };

    ghost responds_once = { laws.responds_once };

    ghost short = { laws.short };

    ghost watts_once = { laws.watts_once };

    fn negotiate(&mut self, offers: &[Dialect], payload: &[u8]) -> ToldWord {
        first_word(offers, payload)
    }

    fn read(&mut self, dialect: Dialect, payload: &[u8]) -> Option<Word> {
        later_word(payload)
    }

    fn respond(&mut self, payload: &[u8]) -> Option<bool> {
        positive_in(payload)
    }

    fn watts(
        &mut self,
        plan: &PostPlan,
        told: ToldWatts,
        dialect: Dialect,
        payload: &[u8],
    ) -> Option<WattValues> {
        if is_reply(payload) {
            Some(WattValues::new())
        } else {
            None
        }
    }
}
