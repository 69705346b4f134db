//! Lines as entries.
#![tactic(auto, using(text_tokens::proofs::Digits::length_hex, std::proofs::lemmas::Fmt::decimal_digit))]

ghost use Rattle.std.specs.Prelude.{◌≡◌, ◌^◌, ◌<◌, ◌≤◌, ◌⊎◌, ◌↔◌, ℕ, ◌∷◌, decimal, IsTrue, IfOk, IfErr};
ghost use Rattle.hex.specs.Hex.{encode_lower};
ghost use Rattle.charge_world.specs.declared.entry.Entry.{Entry};
ghost use Rattle.text_tokens.specs.Words.{Reads, Gives};
ghost use Rattle.trace_text.specs.TraceText.{event_words, order_words, datagram_word, what_words, plain_words, words_of, line_of, numbered_line_of, IsPost, IsEventOfTypes, IsOrderOfTypes, IsLine, IsLine1, IsOfFormat1};
ghost use Rattle.trace_text.specs.Reading.{AreSent, AreHeard, IsDatagram, IsHeard, IsRead, IsCall, IsNumbered};

use charge_world::{
    Entry, Heard, IsolationLevel, Order, Piece, PilotState, PlantEvent, Tenths, What,
};
use std::alloc::Global;
use text_tokens::{Refused, Words, before_line_feed, hex_bytes, identifier, number};
use thiserror::Error;

/// Why a line isn't read.
#[derive(Clone, Copy, Debug, PartialEq, Eq, Error)]
pub enum LineFault {
    /// The line of this number is outside the grammar.
    #[error("line {0} is outside the grammar")]
    BadLine(u64),
    /// Memory ran out.
    #[error("out of memory")]
    Memory,
}

/// Whether a word is this one.
fn is(word: &[u8], text: &[u8]) -> bool
    ensures { IsTrue result ↔ (word.now ≡ text.now) }
{
    word == text
}

/// Reads an amount in tenths.
fn tenths(word: &[u8]) -> Result<Tenths, Refused>
    ensures { Reads decimal (λ n. n ≤ 30000) word.now result }
{
    Tenths::of(number(word, 0, 30_000)? as u16).ok_or(Refused::Bad)
}

/// Reads the number of a post.
fn post(word: &[u8]) -> Result<u8, Refused>
    ensures { Reads decimal IsPost word.now result }
{
    Ok(number(word, 1, 8)? as u8)
}

/// Reads what a charger told, which is all the words.
fn event(mut words: Words) -> Result<PlantEvent, Refused>
    ensures { Reads event_words IsEventOfTypes words.entry result }
{
    match words.next()? {
        kind if is(kind, b"pilot") => match words.only()? {
            word if is(word, b"A") => Ok(PlantEvent::Pilot(PilotState::A)),
            word if is(word, b"B") => Ok(PlantEvent::Pilot(PilotState::B)),
            word if is(word, b"C") => Ok(PlantEvent::Pilot(PilotState::C)),
            word if is(word, b"D") => Ok(PlantEvent::Pilot(PilotState::D)),
            word if is(word, b"E") => Ok(PlantEvent::Pilot(PilotState::E)),
            word if is(word, b"F") => Ok(PlantEvent::Pilot(PilotState::F)),
            _ => Err(Refused::Bad),
        },
        kind if is(kind, b"isolation") => match words.only()? {
            word if is(word, b"invalid") => Ok(PlantEvent::Isolation(IsolationLevel::Invalid)),
            word if is(word, b"valid") => Ok(PlantEvent::Isolation(IsolationLevel::Valid)),
            word if is(word, b"warning") => Ok(PlantEvent::Isolation(IsolationLevel::Warning)),
            word if is(word, b"fault") => Ok(PlantEvent::Isolation(IsolationLevel::Fault)),
            word if is(word, b"noimd") => Ok(PlantEvent::Isolation(IsolationLevel::NoImd)),
            _ => Err(Refused::Bad),
        },
        kind if is(kind, b"measured") => Ok(PlantEvent::Measured {
            voltage: tenths(words.next()?)?,
            current: tenths(words.only()?)?,
        }),
        kind if is(kind, b"feedback") => match words.only()? {
            word if is(word, b"closed") => Ok(PlantEvent::Feedback { closed: true }),
            word if is(word, b"open") => Ok(PlantEvent::Feedback { closed: false }),
            _ => Err(Refused::Bad),
        },
        kind if is(kind, b"paid") => words.end(PlantEvent::Paid),
        kind if is(kind, b"emergency") => words.end(PlantEvent::Emergency),
        kind if is(kind, b"stop") => words.end(PlantEvent::StopAsked),
        kind if is(kind, b"renew") => words.end(PlantEvent::RenewAsked),
        _ => Err(Refused::Bad),
    }
}

/// Reads an order, which is all the words.
fn order(mut words: Words) -> Result<Order, Refused>
    ensures { Reads order_words IsOrderOfTypes words.entry result }
{
    match words.next()? {
        kind if is(kind, b"open") => words.end(Order::Open),
        kind if is(kind, b"close") => words.end(Order::Close),
        kind if is(kind, b"limits") => Ok(Order::Limits {
            voltage: tenths(words.next()?)?,
            current: tenths(words.next()?)?,
            watts: number(words.only()?, 0, 4_294_967_295)? as u32,
        }),
        _ => Err(Refused::Bad),
    }
}

/// Reads bytes, of which there is one at least.
fn bytes(alloc: Global, word: &[u8]) -> Result<Piece, Refused>
    ensures { Gives encode_lower AreSent word.now result }
{
    if word.len() < 2 {
        return Err(Refused::Bad);
    }
    Ok(Piece::of(hex_bytes(alloc, word)?))
}

/// Reads bytes, from 1 to 4,096.
fn short_bytes(alloc: Global, word: &[u8]) -> Result<Piece, Refused>
    ensures { Gives encode_lower AreHeard word.now result }
{
    if word.len() > 8192 {
        return Err(Refused::Bad);
    }
    bytes(alloc, word)
}

/// Reads the bytes of a datagram.
fn datagram(alloc: Global, word: &[u8]) -> Result<Piece, Refused>
    ensures { Gives datagram_word IsDatagram word.now result }
{
    if is(word, b"-") {
        return Ok(Piece::of(Vec::new(alloc)));
    }
    short_bytes(alloc, word)
}

/// Reads what is heard at a post, with its bytes, which is all the words.
fn at_post(alloc: Global, post: u8, mut words: Words) -> Result<(What, Piece), Refused>
    requires { IsPost post }
    ensures { Gives (λ w. what_words w.0 w.1) IsHeard (decimal post ∷ words.entry) result }
{
    match words.next()? {
        kind if is(kind, b"came") => {
            let token = identifier(words.only()?)?;
            Ok((What::Came { post, token }, Piece::of(Vec::new(alloc))))
        }
        kind if is(kind, b"bytes") => {
            let piece = short_bytes(alloc, words.only()?)?;
            let n = piece.bytes().len() as u32;
            Ok((What::Bytes { post, n }, piece))
        }
        kind if is(kind, b"gone") => words.end((What::Gone { post }, Piece::of(Vec::new(alloc)))),
        kind if is(kind, b"datagram") => {
            let piece = datagram(alloc, words.only()?)?;
            let n = piece.bytes().len() as u32;
            Ok((What::Datagram { post, n }, piece))
        }
        kind if is(kind, b"plant") => {
            let event = event(words)?;
            Ok((What::Plant { post, event }, Piece::of(Vec::new(alloc))))
        }
        _ => Err(Refused::Bad),
    }
}

/// Reads what is heard, with its bytes, which is all the words.
fn what(alloc: Global, mut words: Words) -> Result<(What, Piece), Refused>
    ensures { Gives (λ w. what_words w.0 w.1) IsHeard words.entry result }
{
    match words.next()? {
        word if is(word, b"tick") => words.end((What::Tick, Piece::of(Vec::new(alloc)))),
        word if is(word, b"over") => words.end((What::Over, Piece::of(Vec::new(alloc)))),
        word => at_post(alloc, post(word)?, words),
    }
}

/// Reads a call, given its first word.
fn call(alloc: Global, kind: &[u8], mut words: Words, taken: bool) -> Result<Entry, Refused>
    ensures { Gives plain_words (IsCall taken) (kind.now ∷ words.entry) result }
{
    match kind {
        _ if is(kind, b"sent") => Ok(Entry::Sent {
            post: post(words.next()?)?,
            bytes: bytes(alloc, words.only()?)?,
            taken,
        }),
        _ if is(kind, b"answered") => Ok(Entry::Answered {
            post: post(words.next()?)?,
            bytes: bytes(alloc, words.only()?)?,
            taken,
        }),
        _ if is(kind, b"drove") => {
            let post = post(words.next()?)?;
            let order = order(words)?;
            Ok(Entry::Drove { post, order, taken })
        }
        _ if is(kind, b"dialed") => {
            let port = number(words.only()?, 0, 65_535)? as u16;
            Ok(Entry::Dialed { port, taken })
        }
        _ => Err(Refused::Bad),
    }
}

/// Reads an entry, which is all the words.
fn entry(alloc: Global, mut words: Words) -> Result<Entry, Refused>
    ensures { Gives words_of IsRead words.entry result }
{
    match words.next()? {
        kind if is(kind, b"heard") => {
            let at = number(words.next()?, 0, u64::MAX)?;
            let (what, bytes) = what(alloc, words)?;
            let heard = Heard { at, what };
            Ok(Entry::Heard { heard, bytes })
        }
        kind if is(kind, b"lost") => words.end(Entry::Lost),
        kind if is(kind, b"ended") => Ok(Entry::Ended {
            post: post(words.next()?)?,
            cause: number(words.only()?, 0, 255)? as u8,
        }),
        kind if is(kind, b"failed") => call(alloc, words.next()?, words, false),
        kind => call(alloc, kind, words, true),
    }
}

/// Whether an entry has a line of format 1: it isn't the wish to negotiate anew.
fn is_of_format_1(entry: &Entry) -> bool
    ensures { IsTrue result ↔ IsOfFormat1 entry.now }
{
    let Entry::Heard { heard, .. } = entry else {
        return true;
    };
    !matches!(heard.what, What::Plant { event, .. } if event == PlantEvent::RenewAsked)
}

/// Reads the line of an entry.
fn line_entry(alloc: Global, line: &[u8]) -> Result<Entry, Refused>
    ensures { Gives line_of IsLine line.now result }
{
    match before_line_feed(line) {
        Ok(text) if line.len() <= 131_200 => entry(alloc, Words::of(text)),
        _ => Err(Refused::Bad),
    }
}

/// Reads a line of trace format 1 (own), which ends in its one line feed. `number` is the line's own, for the fault.
///
/// What isn't the line of an entry isn't read. Where memory runs out, the answer may be `Memory` for any line.
pub fn read_line(alloc: Global, line: &[u8], number: u64) -> Result<Entry, LineFault>
    ensures read { IfOk result (λ e. (line.now ≡ line_of e) × IsLine1 e) }
    ensures readable { (e : Entry) → IsLine1 e → line.now ≡ line_of e → (result ≡ Ok e) ⊎ (result ≡ Err LineFault.Memory) }
    ensures number { IfErr result (λ fault. (fault ≡ LineFault.Memory) ⊎ (fault ≡ LineFault.BadLine number)) }
    ensures bad { result ≡ Err (LineFault.BadLine number) → (e : Entry) → IsLine1 e → line.now ≡ line_of e → ⊥ }
{
    match line_entry(alloc, line) {
        Ok(entry) if is_of_format_1(&entry) => Ok(entry),
        Ok(_) => Err(LineFault::BadLine(number)),
        Err(Refused::Bad) => Err(LineFault::BadLine(number)),
        Err(Refused::Memory) => Err(LineFault::Memory),
    }
}

/// Reads a number and the line of an entry behind it and a space.
fn numbered_entry(alloc: Global, line: &[u8]) -> Result<(u64, Entry), Refused>
    ensures { Gives (λ x. numbered_line_of x.0 x.1) IsNumbered line.now result }
{
    let mut words = Words::of(line);
    let hearing = number(words.next()?, 0, u64::MAX)?;
    let entry = line_entry(alloc, words.rest()?)?;
    Ok((hearing, entry))
}

/// Reads a line of trace format 2 (own), the number of a hearing, a space and the line of an entry, which ends in its
/// one line feed. `number` is the line's own, for the fault.
///
/// What is no such line isn't read. Where memory runs out, the answer may be `Memory` for any line.
pub fn read_numbered(alloc: Global, line: &[u8], number: u64) -> Result<(u64, Entry), LineFault>
    ensures read { IfOk result (λ x. (line.now ≡ numbered_line_of x.0 x.1) × IsLine x.1) }
    ensures readable { (hearing : ℕ) (e : Entry) → hearing < 2 ^ 64 → IsLine e → line.now ≡ numbered_line_of hearing e → (result ≡ Ok (hearing, e)) ⊎ (result ≡ Err LineFault.Memory) }
    ensures number { IfErr result (λ fault. (fault ≡ LineFault.Memory) ⊎ (fault ≡ LineFault.BadLine number)) }
    ensures bad { result ≡ Err (LineFault.BadLine number) → (hearing : ℕ) (e : Entry) → hearing < 2 ^ 64 → IsLine e → line.now ≡ numbered_line_of hearing e → ⊥ }
{
    match numbered_entry(alloc, line) {
        Ok((hearing, entry)) => Ok((hearing, entry)),
        Err(Refused::Bad) => Err(LineFault::BadLine(number)),
        Err(Refused::Memory) => Err(LineFault::Memory),
    }
}
