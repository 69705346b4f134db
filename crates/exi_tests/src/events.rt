//! The published negotiation request, ISO 15118-2:2014 section 8.2, read and written; what stands at each kind of place; and payloads that
//! are refused.

ghost use Rattle.std.specs.Prelude.{◌≡◌, ◌≤◌, length, Some, IfErr};
ghost use Rattle.exi_documents.specs.Values.{most_entries};
ghost use Rattle.exi_schema.specs.Told.{schema_of};
ghost use Rattle.exi_events.specs.Reader.{IsReady};
ghost use Rattle.exi_events.specs.Writer.{IsShapedEvent, IsReadyToPut};

use crate::cases::{Case, all_hold};
use crate::schemas::{Of, schema};
use app_schema::negotiation;
use exi_documents::MOST_ENTRIES;
use exi_events::{
    Event, EventReader, EventWriter, Full, NotPut, Refusal, RefusalCause, Table, Value,
};
use exi_schema::Schema;
use exi_strings::Partitions;
use std::alloc::Global;

/// The published request of one protocol.
const PUBLISHED: [u8; 34] = [
    0x80, 0x00, 0xdb, 0xab, 0x93, 0x71, 0xd3, 0x23, 0x4b, 0x71, 0xd1, 0xb9, 0x81, 0x89, 0x91, 0x89,
    0xd1, 0x91, 0x81, 0x89, 0x91, 0xd2, 0x6b, 0x9b, 0x3a, 0x23, 0x2b, 0x30, 0x02, 0x00, 0x00, 0x04,
    0x00, 0x40,
];

/// What an event is to tell.
#[derive(Clone, Copy)]
enum Told {
    Document(u32),
    Start(u16),
    Attribute(u16, i128),
    Text(&'static str),
    Number(i128),
    Ordinal(u32),
    End,
    Finished,
}

/// The events of the published request, and its end twice.
const REQUEST: [Told; 22] = [
    Told::Document(0),
    Told::Start(0),
    Told::Start(2),
    Told::Start(3),
    Told::Text("urn:din:70121:2012:MsgDef"),
    Told::End,
    Told::Start(4),
    Told::Number(2),
    Told::End,
    Told::Start(5),
    Told::Number(0),
    Told::End,
    Told::Start(6),
    Told::Number(1),
    Told::End,
    Told::Start(7),
    Told::Number(1),
    Told::End,
    Told::End,
    Told::End,
    Told::Finished,
    Told::Finished,
];

/// A response.
const RESPONSE: [Told; 9] = [
    Told::Document(1),
    Told::Start(1),
    Told::Start(8),
    Told::Ordinal(0),
    Told::End,
    Told::Start(6),
    Told::Number(1),
    Told::End,
    Told::End,
];

const ITEMS_TOLD: [Told; 14] = [
    Told::Document(0),
    Told::Start(0),
    Told::Attribute(1, 5),
    Told::Start(2),
    Told::Number(3),
    Told::End,
    Told::Start(5),
    Told::Number(1),
    Told::End,
    Told::Start(5),
    Told::Number(2),
    Told::End,
    Told::End,
    Told::Finished,
];

const LAST_TOLD: [Told; 7] = [
    Told::Document(0),
    Told::Start(0),
    Told::Start(37),
    Told::Number(7),
    Told::End,
    Told::End,
    Told::Finished,
];

/// Whether this event is told next.
fn is_next(reader: &mut EventReader<Schema>, told: &Told) -> bool
    requires { IsReady schema_of reader.old }
    ensures { IsReady schema_of reader.new }
{
    let Ok(event) = reader.next() else {
        return false;
    };
    match (event, told) {
        (Event::Document(number), Told::Document(wanted)) => number == *wanted,
        (Event::Start(name), Told::Start(wanted)) => name == *wanted,
        (Event::Value(Value::Number(number)), Told::Number(wanted)) => number == *wanted,
        (Event::Value(Value::Ordinal(ordinal)), Told::Ordinal(wanted)) => ordinal == *wanted,
        (Event::Value(Value::Text(span)), Told::Text(wanted)) => span.same_str(wanted),
        (Event::Attribute(name, Value::Number(number)), Told::Attribute(of, wanted)) => {
            name == *of && number == *wanted
        }
        (Event::EndElement, Told::End) | (Event::Finished, Told::Finished) => true,
        _ => false,
    }
}

/// Whether these events are told next.
fn are_next(reader: &mut EventReader<Schema>, all: &[Told]) -> bool
    requires { IsReady schema_of reader.old }
{
    for told in all {
        if !is_next(reader, told) {
            return false;
        }
    }
    true
}

/// Reads up to a refusal, which is answered again.
fn refusal_of(reader: &mut EventReader<Schema>) -> Option<Refusal>
    requires { IsReady schema_of reader.old }
{
    for _ in 0..100 {
        if let Err(refusal) = reader.next() {
            return match reader.next() {
                Err(again) if again == refusal => Some(refusal),
                _ => None,
            };
        }
    }
    None
}

/// A payload in a schema, and the events that it tells first.
struct Read(Of, &'static [u8], &'static [Told]);

/// A payload in a schema, and how it is refused.
struct Refused(Of, &'static [u8], RefusalCause, u32);

impl Case for Read {
    fn holds(&self, alloc: Global) -> bool {
        let Ok(mut table) = Partitions::make(alloc, MOST_ENTRIES) else {
            return false;
        };
        if self.1.len() > 65536 {
            return false;
        }
        let schema = schema(self.0);
        let mut reader = EventReader::new(self.1, &schema, &mut table);
        are_next(&mut reader, self.2)
    }
}

impl Case for Refused {
    fn holds(&self, alloc: Global) -> bool {
        let Ok(mut table) = Partitions::make(alloc, MOST_ENTRIES) else {
            return false;
        };
        if self.1.len() > 65536 {
            return false;
        }
        let schema = schema(self.0);
        let mut reader = EventReader::new(self.1, &schema, &mut table);
        let refusal = refusal_of(&mut reader);
        let _ = reader.end();
        let wanted = Refusal {
            cause: self.2,
            bit: self.3,
        };
        refusal == Some(wanted)
    }
}

const READ: [Read; 4] = [
    Read(Of::Negotiation, &PUBLISHED, &REQUEST),
    // Another schema is asked at each place: with a code of three bits the same bits tell another element.
    Read(
        Of::FourChoices,
        &PUBLISHED,
        &[
            Told::Document(0),
            Told::Start(0),
            Told::Start(1),
            Told::Number(7),
        ],
    ),
    Read(Of::Items, b"\x80\x14\x18\x10\x22", &ITEMS_TOLD),
    Read(Of::Many, b"\x80\x48\x70", &LAST_TOLD),
];

const REFUSED: [Refused; 17] = [
    Refused(Of::Negotiation, b"", RefusalCause::ShortInput, 0),
    Refused(
        Of::Negotiation,
        b"\x84\x48\x38\x44",
        RefusalCause::BadHeader,
        0,
    ),
    Refused(Of::Negotiation, b"\x80", RefusalCause::ShortInput, 8),
    Refused(
        Of::Negotiation,
        b"\x80\x84\x80",
        RefusalCause::UnknownElement,
        8,
    ),
    Refused(
        Of::Negotiation,
        b"\x80\xc8\x64\x40",
        RefusalCause::NoSuchCode,
        8,
    ),
    Refused(
        Of::Negotiation,
        b"\x80\x50\x00\x04",
        RefusalCause::Deviation,
        11,
    ),
    Refused(
        Of::Negotiation,
        b"\x80\x40\x7f\xc0",
        RefusalCause::Deviation,
        17,
    ),
    Refused(
        Of::Negotiation,
        b"\x80\x04\x3f\xc0",
        RefusalCause::ShortInput,
        13,
    ),
    Refused(
        Of::Negotiation,
        b"\x80\x48\x8f\x40",
        RefusalCause::Trailing,
        24,
    ),
    Refused(
        Of::Negotiation,
        b"\x80\x00\x10\xff\xff\xff\xff\x0f\x0c\xe0\xc0\x00\x40\x5b",
        RefusalCause::Trailing,
        104,
    ),
    // No attribute where one has to be.
    Refused(Of::Items, b"\x80\x40", RefusalCause::Deviation, 9),
    // The abstract head, the element out of profile, and none that is declared.
    Refused(Of::Items, b"\x80\x15", RefusalCause::Abstract, 14),
    Refused(
        Of::Items,
        b"\x80\x16",
        RefusalCause::OutOfProfile { name: 4 },
        14,
    ),
    Refused(Of::Items, b"\x80\x17", RefusalCause::Deviation, 14),
    // A third item.
    Refused(
        Of::Items,
        b"\x80\x14\x18\x10\x20",
        RefusalCause::TooLong,
        37,
    ),
    // The escape of 37 codes, and one above it.
    Refused(Of::Many, b"\x80\x4a", RefusalCause::Deviation, 9),
    Refused(Of::Many, b"\x80\x4c", RefusalCause::NoSuchCode, 9),
];

/// The event that tells it.
fn event_of(told: &Told) -> Event<'static>
    ensures { IsShapedEvent result }
{
    match told {
        Told::Document(number) => Event::Document(*number),
        Told::Start(name) => Event::Start(*name),
        Told::Attribute(name, number) => Event::Attribute(*name, Value::Number(*number)),
        Told::Text(text) => Event::Value(Value::Written(text)),
        Told::Number(number) => Event::Value(Value::Number(*number)),
        Told::Ordinal(ordinal) => Event::Value(Value::Ordinal(*ordinal)),
        Told::End => Event::EndElement,
        Told::Finished => Event::Finished,
    }
}

/// Puts one event, if it is offered.
fn try_next(writer: &mut EventWriter<Schema>, told: &Told) -> Result<(), NotPut>
    requires { IsReadyToPut writer.old }
    ensures ready { IsReadyToPut writer.new }
{
    writer.try_put(&event_of(told))
}

/// Puts one event: whether it was offered.
fn put_next(writer: &mut EventWriter<Schema>, told: &Told) -> Result<bool, Full>
    requires { IsReadyToPut writer.old }
    ensures ready { IsReadyToPut writer.new }
    ensures full { IfErr result (λ full. writer.new.full ≡ Some full) }
{
    let event = event_of(told);
    if !writer.offers(&event) {
        return Ok(false);
    }
    match writer.put(&event) {
        Ok(()) => Ok(true),
        Err(full) => Err(full),
    }
}

/// Puts the events of a document: how many bytes are written, or the `Full` that is answered twice.
fn put_all(room: &mut [u8], table: &mut Table, all: &[Told]) -> Option<Result<u32, Full>>
    requires room { length room.old ≤ 65536 }
    requires cap { table.old.cap ≡ most_entries }
{
    let schema = negotiation();
    let mut writer = EventWriter::new(room, &schema, table);
    for told in all {
        match put_next(&mut writer, told) {
            Ok(true) => {}
            Ok(false) => return None,
            Err(full) => return (writer.put(&Event::Finished) == Err(full)).then_some(Err(full)),
        }
    }
    let ends = writer.offers(&Event::Finished);
    let bytes = writer.finish();
    ends.then_some(Ok(bytes))
}

/// The events of a document of the negotiation, a room of at most 34 bytes, and what is written, or that it is full.
struct Written(&'static [Told], usize, Result<&'static [u8], Full>);

impl Case for Written {
    fn holds(&self, alloc: Global) -> bool {
        let Ok(mut table) = Partitions::make(alloc, MOST_ENTRIES) else {
            return false;
        };
        let mut room = [0xff; 34];
        let size = self.1.min(34);
        match (put_all(&mut room[..size], &mut table, self.0), self.2) {
            (Some(Ok(bytes)), Ok(wanted)) => {
                bytes as usize == wanted.len() && room.starts_with(wanted)
            }
            (Some(Err(full)), Err(wanted)) => full == wanted,
            _ => false,
        }
    }
}

const WRITTEN: [Written; 3] = [
    Written(&REQUEST, 34, Ok(&PUBLISHED)),
    Written(&RESPONSE, 4, Ok(&[0x80, 0x40, 0x00, 0x40])),
    Written(&RESPONSE, 3, Err(Full { bits: 26 })),
];

/// What is put into a room of three bytes, and how that is answered: what is not offered is not put.
const TRIED: [(Told, Result<(), NotPut>); 15] = [
    (Told::Start(1), Err(NotPut::NotOffered)),
    (Told::Document(2), Err(NotPut::NotOffered)),
    (Told::Document(1), Ok(())),
    (Told::Start(0), Err(NotPut::NotOffered)),
    (Told::Start(1), Ok(())),
    (Told::Start(6), Err(NotPut::NotOffered)),
    (Told::Start(8), Ok(())),
    (Told::Ordinal(3), Err(NotPut::NotOffered)),
    (Told::Number(0), Err(NotPut::NotOffered)),
    (Told::Ordinal(2), Ok(())),
    (Told::End, Ok(())),
    (Told::Start(6), Ok(())),
    (Told::Number(256), Err(NotPut::NotOffered)),
    (Told::Number(7), Err(NotPut::Full(Full { bits: 26 }))),
    (Told::Finished, Err(NotPut::Full(Full { bits: 26 }))),
];

fn are_answered(alloc: Global) -> bool {
    let Ok(mut table) = Partitions::make(alloc, MOST_ENTRIES) else {
        return false;
    };
    let schema = negotiation();
    let mut room = [0xff; 3];
    let mut writer = EventWriter::new(&mut room, &schema, &mut table);
    for (told, answer) in &TRIED {
        if try_next(&mut writer, told) != *answer {
            return false;
        }
    }
    true
}

#[test]
fn events_are_read_and_written(rt: HostRuntime) {
    all_hold(&rt, rt.alloc(), &READ);
    all_hold(&rt, rt.alloc(), &REFUSED);
    all_hold(&rt, rt.alloc(), &WRITTEN);
    assert!(rt; are_answered(rt.alloc()));
}
