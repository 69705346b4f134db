//! The words of a session, and what is said to them.

use crate::SmallReader;
use arrayvec::ArrayVec;
use audit_readings::{ToldSaid, said};
use audit_streams::{NoMemory, ToldStream, ToldWatts, ToldWord};
use charge_world::{Dialect, Order, What};
use session_words::PostPlan;
use std::alloc::Global;
use std::test::*;

/// A request of the negotiation.
const NEGOTIATION: [u8; 9] = [0x01, 0xfe, 0x80, 0x01, 0, 0, 0, 1, 1];

/// Two authorizations.
const AUTHORIZATIONS: [u8; 18] = [
    0x01, 0xfe, 0x80, 0x01, 0, 0, 0, 1, 2, 0x01, 0xfe, 0x80, 0x01, 0, 0, 0, 1, 2,
];

/// A positive response to a negotiation.
const RESPONSE: [u8; 9] = [0x01, 0xfe, 0x80, 0x01, 0, 0, 0, 1, 5];

/// A reply to an authorization.
const REPLY: [u8; 9] = [0x01, 0xfe, 0x80, 0x01, 0, 0, 0, 1, 3];

/// What a word is, or what was said.
#[derive(Clone, Copy, PartialEq, Eq)]
enum Shown {
    Nothing,
    Negotiation(bool),
    Asked,
    Other,
    Response(bool),
    Replied,
    Unasked,
}

/// A post that offers ISO 15118-2 first.
fn plan() -> PostPlan {
    PostPlan {
        dialects: ArrayVec::from([Dialect::Iso, Dialect::Din]),
        nominal: 230,
        ..PostPlan::default()
    }
}

/// The word that comes next.
fn next(stream: &ToldStream, reader: &mut SmallReader, plan: &PostPlan) -> Shown {
    match stream.next_word(reader, plan) {
        None => Shown::Nothing,
        Some(ToldWord::Negotiated(chosen)) => {
            Shown::Negotiation(matches!(chosen, Some(Dialect::Iso)))
        }
        Some(ToldWord::Asked(_)) => Shown::Asked,
        Some(_) => Shown::Other,
    }
}

/// What bytes say at a post that was told 1,000 W.
fn what_is_said(stream: &ToldStream, reader: &mut SmallReader, bytes: &[u8]) -> Shown {
    let plan = PostPlan {
        nominal: 230,
        ..PostPlan::default()
    };
    let told = ToldWatts {
        watts: 1000,
        dialect: Dialect::Iso,
    };
    match said(stream, reader, &plan, told, bytes) {
        ToldSaid::Response { positive, .. } => Shown::Response(positive),
        ToldSaid::Replied(_) => Shown::Replied,
        ToldSaid::Other => Shown::Other,
        ToldSaid::Unasked => Shown::Unasked,
    }
}

/// A connection, a negotiation and its response, and two authorizations at once: the first is asked, and while its reply waits behind an order to
/// close, the second is next.
fn words(alloc: Global) -> Result<[Shown; 6], NoMemory> {
    let plan = plan();
    let mut reader = SmallReader;
    let mut stream = ToldStream::make::<SmallReader>(alloc)?;
    stream.heard(
        &mut reader,
        &plan,
        1,
        &What::Came { post: 1, token: 7 },
        &[],
    );
    let came = next(&stream, &mut reader, &plan);
    stream.heard(
        &mut reader,
        &plan,
        1,
        &What::Bytes { post: 1, n: 9 },
        &NEGOTIATION,
    );
    let negotiation = next(&stream, &mut reader, &plan);
    stream.sent(&mut reader, &plan);
    let answered = next(&stream, &mut reader, &plan);
    stream.heard(
        &mut reader,
        &plan,
        1,
        &What::Bytes { post: 1, n: 18 },
        &AUTHORIZATIONS,
    );
    let asked = next(&stream, &mut reader, &plan);
    stream.ordered::<SmallReader>(&Order::Close, true);
    let waiting = next(&stream, &mut reader, &plan);
    stream.ended::<SmallReader>();
    let ended = next(&stream, &mut reader, &plan);
    Ok([came, negotiation, answered, asked, waiting, ended])
}

/// What the same bytes say where a negotiation waits for its response, and an authorization for its reply, and where nothing waits.
fn answers(alloc: Global) -> Result<[Shown; 6], NoMemory> {
    let plan = plan();
    let mut reader = SmallReader;
    let mut stream = ToldStream::make::<SmallReader>(alloc)?;
    stream.heard(
        &mut reader,
        &plan,
        1,
        &What::Came { post: 1, token: 7 },
        &[],
    );
    stream.heard(
        &mut reader,
        &plan,
        1,
        &What::Bytes { post: 1, n: 9 },
        &NEGOTIATION,
    );
    let response = what_is_said(&stream, &mut reader, &RESPONSE);
    let early = what_is_said(&stream, &mut reader, &REPLY);
    stream.sent(&mut reader, &plan);
    let unasked = what_is_said(&stream, &mut reader, &RESPONSE);
    stream.heard(
        &mut reader,
        &plan,
        1,
        &What::Bytes { post: 1, n: 18 },
        &AUTHORIZATIONS,
    );
    let late = what_is_said(&stream, &mut reader, &RESPONSE);
    let reply = what_is_said(&stream, &mut reader, &REPLY);
    let cut = what_is_said(&stream, &mut reader, &REPLY[..8]);
    Ok([response, early, unasked, late, reply, cut])
}

/// Whether the words come so.
fn come_so(alloc: Global) -> bool {
    match words(alloc) {
        Ok(found) => {
            found
                == [
                    Shown::Nothing,
                    Shown::Negotiation(true),
                    Shown::Nothing,
                    Shown::Asked,
                    Shown::Asked,
                    Shown::Nothing,
                ]
        }
        Err(_) => false,
    }
}

/// Whether the bytes say so.
fn say_so(alloc: Global) -> bool {
    match answers(alloc) {
        Ok(found) => {
            found
                == [
                    Shown::Response(true),
                    Shown::Other,
                    Shown::Unasked,
                    Shown::Other,
                    Shown::Replied,
                    Shown::Other,
                ]
        }
        Err(_) => false,
    }
}

#[test]
fn words_come_one_by_one(rt: HostRuntime) {
    assert!(rt; come_so(rt.alloc()));
}

#[test]
fn bytes_say_what_was_asked(rt: HostRuntime) {
    assert!(rt; say_so(rt.alloc()));
}
