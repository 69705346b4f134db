//! Entries as lines.

ghost use Rattle.std.specs.Prelude.{◌≡◌, ◌++◌, [], ◌∷◌, ◌<◌, ◌≤◌, codes, decimal, if◌then◌else◌};
ghost use Rattle.arrayvec.specs.ArrayVec.{array_vec_len};
ghost use Rattle.text_tokens.specs.Words.{texts_of, Writes};
ghost use Rattle.trace_text.specs.TraceText.{event_words, order_words, what_words, words_of, line_of, numbered_line_of, IsWritable, IsOfFormat1};
ghost use Rattle.trace_text.specs.Noted.{entry_of};

use charge_world::{Entry, Heard, IsolationLevel, Order, PilotState, PlantEvent, What};
use text_tokens::Word::{Bytes, Identifier, Number, Plain};
use text_tokens::{Full, Line};

/// An entry of a past whose bytes are lent: what was heard, or a call that was made, and whether it was taken. Contracts see the entry by
/// `entry_of`.
#[derive(Clone, Copy)]
pub enum Noted<'a> {
    /// What was heard, with the bytes that came with it.
    Heard {
        heard: Heard,
        bytes: &'a [u8],
    },
    /// There was nothing more to hear.
    Lost,
    /// Bytes for the connection of a post.
    Sent {
        post: u8,
        bytes: &'a [u8],
        taken: bool,
    },
    /// A datagram.
    Answered {
        post: u8,
        bytes: &'a [u8],
        taken: bool,
    },
    /// An order to a charger or contactor.
    Drove {
        post: u8,
        order: Order,
        taken: bool,
    },
    /// A connection that the car asked for.
    Dialed {
        port: u16,
        taken: bool,
    },
    /// The session of a post ended, with the number of its cause.
    Ended {
        post: u8,
        cause: u8,
    },
}

impl<'a> Noted<'a> {
    /// The entry, with its bytes lent.
    pub fn of(entry: &'a Entry) -> Noted<'a>
        ensures { entry_of result ≡ entry.now }
    {
        match entry {
            Entry::Heard { heard, bytes } => Noted::Heard {
                heard: *heard,
                bytes: bytes.bytes(),
            },
            Entry::Lost => Noted::Lost,
            Entry::Sent { post, bytes, taken } => {
                let (post, bytes, taken) = (*post, bytes.bytes(), *taken);
                Noted::Sent { post, bytes, taken }
            }
            Entry::Answered { post, bytes, taken } => {
                let (post, bytes, taken) = (*post, bytes.bytes(), *taken);
                Noted::Answered { post, bytes, taken }
            }
            &Entry::Drove { post, order, taken } => Noted::Drove { post, order, taken },
            &Entry::Dialed { port, taken } => Noted::Dialed { port, taken },
            &Entry::Ended { post, cause } => Noted::Ended { post, cause },
        }
    }
}

/// The letters of the pilot states, in their order.
const LETTERS: [&[u8]; 6] = [b"A", b"B", b"C", b"D", b"E", b"F"];

/// The words of the isolation levels, in their order.
const LEVELS: [&[u8]; 5] = [b"invalid", b"valid", b"warning", b"fault", b"noimd"];

/// What a charger told.
fn event_line<'a>(line: Line<'a>, event: PlantEvent) -> Line<'a>
    requires { array_vec_len line.words ≤ 5 }
    ensures { texts_of result.words.items ≡ texts_of line.entry.words.items ++ event_words event }
{
    match event {
        PlantEvent::Pilot(state) => line.then(&[Plain(b"pilot"), Plain(LETTERS[state as usize])]),
        PlantEvent::Isolation(level) => line.then(&[
            Plain(b"isolation"),
            Plain(LEVELS[level as usize]),
        ]),
        PlantEvent::Measured { voltage, current } => line.then(&[
            Plain(b"measured"),
            Number(voltage.get() as u64),
            Number(current.get() as u64),
        ]),
        PlantEvent::Feedback { closed: true } => line.then(&[Plain(b"feedback"), Plain(b"closed")]),
        PlantEvent::Feedback { closed: false } => line.then(&[Plain(b"feedback"), Plain(b"open")]),
        PlantEvent::Paid => line.then(&[Plain(b"paid")]),
        PlantEvent::Emergency => line.then(&[Plain(b"emergency")]),
        PlantEvent::StopAsked => line.then(&[Plain(b"stop")]),
        PlantEvent::RenewAsked => line.then(&[Plain(b"renew")]),
    }
}

/// An order.
fn order_line<'a>(line: Line<'a>, order: Order) -> Line<'a>
    requires { array_vec_len line.words ≤ 4 }
    ensures { texts_of result.words.items ≡ texts_of line.entry.words.items ++ order_words order }
{
    match order {
        Order::Open => line.then(&[Plain(b"open")]),
        Order::Close => line.then(&[Plain(b"close")]),
        Order::Limits {
            voltage,
            current,
            watts,
        } => line.then(&[
            Plain(b"limits"),
            Number(voltage.get() as u64),
            Number(current.get() as u64),
            Number(watts as u64),
        ]),
    }
}

/// What was heard, with the bytes that came.
fn what_line<'a>(line: Line<'a>, what: What, bytes: &'a [u8]) -> Line<'a>
    requires { array_vec_len line.words ≤ 3 }
    ensures { texts_of result.words.items ≡ texts_of line.entry.words.items ++ what_words what bytes.now }
{
    match what {
        What::Came { post, token } => {
            line.then(&[Number(post as u64), Plain(b"came"), Identifier(token)])
        }
        What::Bytes { post, .. } => line.then(&[
            Number(post as u64),
            Plain(b"bytes"),
            Bytes(bytes),
        ]),
        What::Gone { post } => line.then(&[Number(post as u64), Plain(b"gone")]),
        What::Datagram { post, .. } if bytes.is_empty() => {
            line.then(&[Number(post as u64), Plain(b"datagram"), Plain(b"-")])
        }
        What::Datagram { post, .. } => {
            line.then(&[Number(post as u64), Plain(b"datagram"), Bytes(bytes)])
        }
        What::Plant { post, event } => {
            event_line(line.then(&[Number(post as u64), Plain(b"plant")]), event)
        }
        What::Tick => line.then(&[Plain(b"tick")]),
        What::Over => line.then(&[Plain(b"over")]),
    }
}

/// A call and its number. One that failed says so first.
fn call<'a>(line: Line<'a>, taken: bool, kind: &'a [u8], number: u64) -> Line<'a>
    requires { array_vec_len line.words ≤ 5 }
    ensures { texts_of result.words.items ≡ texts_of line.entry.words.items ++ (if taken then kind.now ∷ decimal number ∷ [] else (codes "failed" ∷ kind.now ∷ decimal number ∷ [])) }
{
    if taken {
        line.then(&[Plain(kind), Number(number)])
    } else {
        line.then(&[Plain(b"failed"), Plain(kind), Number(number)])
    }
}

/// An entry.
fn noted_line<'a>(line: Line<'a>, noted: &Noted<'a>) -> Line<'a>
    requires { array_vec_len line.words ≤ 1 }
    ensures words { texts_of result.words.items ≡ texts_of line.entry.words.items ++ words_of (entry_of noted.now) }
    ensures some { 0 < array_vec_len result.words }
{
    match *noted {
        Noted::Heard { heard, bytes } => {
            what_line(
                line.then(&[Plain(b"heard"), Number(heard.at)]),
                heard.what,
                bytes,
            )
        }
        Noted::Lost => line.then(&[Plain(b"lost")]),
        Noted::Sent { post, bytes, taken } => {
            call(line, taken, b"sent", post as u64).then(&[Bytes(bytes)])
        }
        Noted::Answered { post, bytes, taken } => {
            call(line, taken, b"answered", post as u64).then(&[Bytes(bytes)])
        }
        Noted::Drove { post, order, taken } => {
            order_line(call(line, taken, b"drove", post as u64), order)
        }
        Noted::Dialed { port, taken } => call(line, taken, b"dialed", port as u64),
        Noted::Ended { post, cause } => {
            line.then(&[Plain(b"ended"), Number(post as u64), Number(cause as u64)])
        }
    }
}

/// Writes the line of an entry to the front of a room, with its line feed, and gives its number of bytes
/// (trace format 1, own).
///
/// The entry has a line: its posts are from 1 to 8, a piece has 1 to 4,096 bytes and a datagram up to 4,096, as
/// many as its number says, what goes out isn't empty, and the line has at most 131,200 bytes.
pub fn write_line(entry: &Entry, room: &mut [u8]) -> Result<u32, Full>
    requires writable { IsWritable entry.now }
    requires format { IsOfFormat1 entry.now }
    ensures { Writes (line_of entry.now) room.old room.new result }
{
    noted_line(Line::default(), &Noted::of(entry)).write(room)
}

/// Writes the number of a hearing, a space and the line of an entry to the front of a room, and gives the number of
/// bytes (trace format 2, own). The entry has a line, as `write_line` says, or is the wish to negotiate anew.
pub fn write_numbered(hearing: u64, entry: &Entry, room: &mut [u8]) -> Result<u32, Full>
    requires { IsWritable entry.now }
    ensures { Writes (numbered_line_of hearing entry.now) room.old room.new result }
{
    write_noted(hearing, &Noted::of(entry), room)
}

/// Writes what `write_numbered` writes of an entry whose bytes are lent.
pub fn write_noted(hearing: u64, noted: &Noted<'_>, room: &mut [u8]) -> Result<u32, Full>
    requires { IsWritable (entry_of noted.now) }
    ensures { Writes (numbered_line_of hearing (entry_of noted.now)) room.old room.new result }
{
    noted_line(Line::default().then(&[Number(hearing)]), noted).write(room)
}
