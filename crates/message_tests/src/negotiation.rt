ghost use Rattle.std.specs.Prelude.{◌≡◌, ◌≤◌, length};
ghost use Rattle.exi_documents.specs.Values.{most_entries};

use crate::cases::{Case, all_hold};
use app_protocol::{
    AppCode, AppMessage, AppProtocol, AppReq, AppRes, Dialect, Full, Offer, RefusalCause,
    ScanFault, Table, Text, negotiate, read_app, scan, write_app,
};
use arrayvec::ArrayVec;
use exi_documents::MOST_ENTRIES;
use std::alloc::Global;

const ISO: &str = "urn:iso:15118:2:2013:MsgDef";

const DIN: &str = "urn:din:70121:2012:MsgDef";

/// The published request of one protocol up to its last byte, and what stands behind that.
macro_rules! published {
    ($($more:expr),*) => {
        [
            0x80, 0x00, 0xdb, 0xab, 0x93, 0x71, 0xd3, 0x23, 0x4b, 0x71, 0xd1, 0xb9, 0x81, 0x89,
            0x91, 0x89, 0xd1, 0x91, 0x81, 0x89, 0x91, 0xd2, 0x6b, 0x9b, 0x3a, 0x23, 0x2b, 0x30,
            0x02, 0x00, 0x00, 0x04, 0x00, $($more),*
        ]
    };
}

/// What a payload spells.
enum Spelled {
    /// The published request.
    Published,
    Response(AppCode, Option<u8>),
    /// No message, for this cause and at this bit.
    Nothing(RefusalCause, u32),
}

struct Payload(&'static [u8], Spelled);

/// Whether a request is of DIN SPEC 70121 alone.
fn is_published(request: &AppReq<'_>) -> bool {
    match request.protocols.as_slice() {
        [protocol] => {
            protocol.namespace.is(DIN)
                && protocol.major == 2
                && protocol.minor == 0
                && protocol.schema == 1
                && protocol.priority == 1
        }
        _ => false,
    }
}

/// Whether a payload spells this.
fn is_spelled(payload: &[u8], table: &mut Table, spelled: &Spelled) -> bool
    requires payload { length payload.now ≤ 65536 }
    requires cap { table.old.cap ≡ most_entries }
{
    match read_app(payload, table) {
        Ok(AppMessage::Req(request)) => {
            matches!(spelled, Spelled::Published) && is_published(&request)
        }
        Ok(AppMessage::Res(response)) => {
            matches!(spelled, Spelled::Response(code, schema) if response.code == *code && response.schema == *schema)
        }
        Err(refusal) => {
            matches!(spelled, Spelled::Nothing(cause, bit) if refusal.cause == *cause && refusal.bit == *bit)
        }
    }
}

impl Case for Payload {
    fn holds(&self, alloc: Global) -> bool {
        let Ok(mut table) = Table::make(alloc, MOST_ENTRIES) else {
            return false;
        };
        self.0.len() <= 65536 && is_spelled(self.0, &mut table, &self.1)
    }
}

const PAYLOADS: [Payload; 15] = [
    // whatever its pad bits
    Payload(&published!(0x40), Spelled::Published),
    Payload(&published!(0x7f), Spelled::Published),
    Payload(
        &[0x80, 0x44, 0x00, 0x40],
        Spelled::Response(AppCode::MinorDeviation, Some(1)),
    ),
    Payload(
        &published!(0x40, 0x00),
        Spelled::Nothing(RefusalCause::Trailing, 272),
    ),
    Payload(
        &published!(),
        Spelled::Nothing(RefusalCause::ShortInput, 264),
    ),
    Payload(
        &[0x80, 0x80],
        Spelled::Nothing(RefusalCause::UnknownElement, 8),
    ),
    Payload(&[0x80, 0xc0], Spelled::Nothing(RefusalCause::NoSuchCode, 8)),
    Payload(
        &[0x80, 0x4c, 0x00],
        Spelled::Nothing(RefusalCause::NoSuchValue, 12),
    ),
    Payload(&[], Spelled::Nothing(RefusalCause::ShortInput, 0)),
    Payload(&[0], Spelled::Nothing(RefusalCause::BadHeader, 0)),
    Payload(
        &[0x80, 0x00, 0x00],
        Spelled::Nothing(RefusalCause::NoSuchIndex, 21),
    ),
    Payload(
        &[0x80, 0x00, 0x08],
        Spelled::Nothing(RefusalCause::NoSuchIndex, 21),
    ),
    Payload(
        &[0x80, 0x03, 0x38],
        Spelled::Nothing(RefusalCause::TooLong, 13),
    ),
    Payload(
        &[0x80, 0x00, 0x1c, 0x05, 0x80, 0x18],
        Spelled::Nothing(RefusalCause::BadChar, 21),
    ),
    Payload(
        &[
            0x80, 0x07, 0xff, 0xff, 0xff, 0xff, 0xff, 0xff, 0xff, 0xff, 0xff, 0xf8,
        ],
        Spelled::Nothing(RefusalCause::WiderInteger, 13),
    ),
];

/// A response, how many bytes of a room of five are given to it, and how many are written and what stands there then, or what is needed.
struct Written(
    AppCode,
    Option<u8>,
    usize,
    Result<(u32, &'static [u8]), Full>,
);

impl Case for Written {
    fn holds(&self, alloc: Global) -> bool {
        let Ok(mut table) = Table::make(alloc, MOST_ENTRIES) else {
            return false;
        };
        let message = AppMessage::Res(response(self.0, self.1));
        let mut room = [0xff; 5];
        let size = self.2.min(5);
        match (write_app(&message, &mut room[..size], &mut table), self.3) {
            (Ok(count), Ok((wanted, bytes))) => count == wanted && &room[..size] == bytes,
            (Err(full), Err(wanted)) => full == wanted,
            _ => false,
        }
    }
}

const WRITTEN: [Written; 7] = [
    Written(
        AppCode::Successful,
        Some(1),
        5,
        Ok((4, &[0x80, 0x40, 0x00, 0x40, 0xff])),
    ),
    // Header 8, root 2, ResponseCode 1 + 1 + 2 + 1, SchemaID 2 + 1 + 8 + 1, end 1.
    Written(AppCode::Successful, Some(1), 3, Err(Full { bits: 28 })),
    Written(AppCode::Successful, Some(1), 0, Err(Full { bits: 28 })),
    Written(
        AppCode::Successful,
        Some(1),
        4,
        Ok((4, &[0x80, 0x40, 0x00, 0x40])),
    ),
    Written(
        AppCode::Successful,
        Some(2),
        4,
        Ok((4, &[0x80, 0x40, 0x00, 0x80])),
    ),
    Written(
        AppCode::MinorDeviation,
        Some(1),
        4,
        Ok((4, &[0x80, 0x44, 0x00, 0x40])),
    ),
    Written(AppCode::Failed, None, 4, Ok((3, &[0x80, 0x48, 0x80, 0xff]))),
];

/// A text, and its payload in hexadecimal or the place of its fault.
struct Scanned(&'static str, Result<&'static str, u64>);

impl Case for Scanned {
    fn holds(&self, alloc: Global) -> bool {
        match scan(alloc, self.0) {
            Ok(piece) => match hex::encode(alloc, piece.bytes()) {
                Ok(payload) => matches!(self.1, Ok(wanted) if payload.as_str() == wanted),
                Err(_) => false,
            },
            Err(ScanFault::Place(place)) => matches!(self.1, Err(wanted) if place == wanted),
            Err(ScanFault::Memory) => false,
        }
    }
}

const SCANNED: [Scanned; 8] = [
    Scanned(
        "supportedAppProtocolRes{ResponseCode=OK_SuccessfulNegotiation SchemaID=1}",
        Ok("80400040"),
    ),
    Scanned("x", Err(0)),
    Scanned("", Err(0)),
    // Of the dialect: in another order, without what has to be there, and with a number outside its range.
    Scanned(
        "supportedAppProtocolRes{SchemaID=1 ResponseCode=OK_SuccessfulNegotiation}",
        Err(73),
    ),
    Scanned("supportedAppProtocolRes{}", Err(25)),
    Scanned(
        "supportedAppProtocolRes{ResponseCode=OK_SuccessfulNegotiation SchemaID=256}",
        Err(75),
    ),
    // None of the dialect, also behind what is no document.
    Scanned("supportedAppProtocolRes{ResponseCode=Bad}", Err(37)),
    Scanned(
        "supportedAppProtocolRes{SchemaID=256 ResponseCode=Bad}",
        Err(50),
    ),
];

/// An entry of a request, of major version 2: namespace, minor version, SchemaID and Priority.
#[derive(Clone, Copy)]
struct Entry(&'static str, u32, u8, u8);

/// A request of two entries to a post that speaks ISO 15118-2 and DIN SPEC 70121, and how it is answered.
struct Negotiated(Entry, Entry, AppCode, Option<u8>, Option<Dialect>);

fn protocol(entry: Entry) -> AppProtocol<'static> {
    AppProtocol {
        namespace: Text::Written(entry.0),
        major: 2,
        minor: entry.1,
        schema: entry.2,
        priority: entry.3,
    }
}

fn both() -> Offer {
    let mut entries = ArrayVec::new();
    entries.push(Dialect::Iso);
    entries.push(Dialect::Din);
    Offer { entries }
}

fn response(code: AppCode, schema: Option<u8>) -> AppRes {
    AppRes { code, schema }
}

impl Case for Negotiated {
    fn holds(&self, _: Global) -> bool {
        let mut protocols = ArrayVec::new();
        protocols.push(protocol(self.0));
        protocols.push(protocol(self.1));
        let (answer, dialect) = negotiate(&AppReq { protocols }, &both());
        answer == response(self.2, self.3) && dialect == self.4
    }
}

const NEGOTIATED: [Negotiated; 4] = [
    // the least priority wins
    Negotiated(
        Entry(DIN, 0, 1, 2),
        Entry(ISO, 0, 2, 1),
        AppCode::Successful,
        Some(2),
        Some(Dialect::Iso),
    ),
    // a tie goes to the earlier
    Negotiated(
        Entry(DIN, 0, 1, 1),
        Entry(ISO, 0, 2, 1),
        AppCode::Successful,
        Some(1),
        Some(Dialect::Din),
    ),
    // another minor version is a minor deviation
    Negotiated(
        Entry(DIN, 1, 1, 1),
        Entry("urn:other", 0, 2, 1),
        AppCode::MinorDeviation,
        Some(1),
        Some(Dialect::Din),
    ),
    // an unknown namespace fails
    Negotiated(
        Entry("urn:other", 0, 1, 1),
        Entry("", 0, 2, 1),
        AppCode::Failed,
        None,
        None,
    ),
];

#[test]
fn messages_are_read_written_and_answered(rt: HostRuntime) {
    all_hold(&rt, rt.alloc(), &PAYLOADS);
    all_hold(&rt, rt.alloc(), &WRITTEN);
    all_hold(&rt, rt.alloc(), &SCANNED);
    all_hold(&rt, rt.alloc(), &NEGOTIATED);
}
