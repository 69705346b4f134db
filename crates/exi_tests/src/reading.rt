//! Values at hand-written bits.

ghost use Rattle.std.specs.Prelude.{◌≡◌, ◌≤◌, true, length};
ghost use Rattle.exi_schema.specs.Schemas.{is_datatype};
ghost use Rattle.exi_documents.specs.Values.{most_entries};
ghost use Rattle.exi_values.specs.Meaning.{AreTexts};

use crate::cases::{Case, all_hold};
use exi_documents::{MOST_ENTRIES, Refusal, RefusalCause};
use exi_reading::PayloadReader;
use exi_schema::Datatype;
use exi_strings::Partitions;
use exi_values::{Table, Value};
use std::alloc::Global;

/// Whether the next value is this number, or a Binary of so many bytes, behind which the reader stands at `place`.
fn number(
    reader: &mut PayloadReader,
    table: &mut Table,
    datatype: Datatype,
    wanted: i128,
    place: u32,
) -> bool
    requires datatype { is_datatype datatype ≡ true }
    requires cap { table.old.cap ≡ most_entries }
    requires texts { AreTexts reader.old.bits table.old.entries }
    ensures cap { table.new.cap ≡ most_entries }
    ensures texts { AreTexts reader.new.bits table.new.entries }
{
    let found = match reader.take_value(datatype, 7, table) {
        Ok(Value::Bool(truth)) => i128::from(truth),
        Ok(Value::Ordinal(ordinal)) => i128::from(ordinal),
        Ok(Value::Number(found)) => found,
        Ok(Value::Binary(span)) => i128::from(span.len()),
        Ok(_) | Err(_) => return false,
    };
    found == wanted && reader.place() == place
}

/// Whether the next value is this text of the element with this name, behind which the reader stands at `place`.
fn text(reader: &mut PayloadReader, table: &mut Table, name: u16, wanted: &str, place: u32) -> bool
    requires cap { table.old.cap ≡ most_entries }
    requires texts { AreTexts reader.old.bits table.old.entries }
    ensures cap { table.new.cap ≡ most_entries }
    ensures texts { AreTexts reader.new.bits table.new.entries }
{
    match reader.take_value(Datatype::Text { most: 2 }, name, table) {
        Ok(Value::Text(span)) => span.same_str(wanted) && reader.place() == place,
        Ok(_) | Err(_) => false,
    }
}

/// Each datatype at any bit.
fn numbers_follow(alloc: Global) -> bool {
    let Ok(mut table) = Partitions::make(alloc, MOST_ENTRIES) else {
        return false;
    };
    // 1 100 11 10101100:00000010 1:00000010 00000001:00001111
    let mut reader = PayloadReader::new(&[0xce, 0xb0, 0x0a, 0x04, 0x02, 0x1e]);
    let signed = Datatype::Signed { least: -3, most: 5 };
    let bounded = Datatype::Bounded {
        least: -2,
        count: 4,
    };
    number(&mut reader, &mut table, Datatype::Bool, 1, 1)
        && number(&mut reader, &mut table, Datatype::Named { count: 5 }, 4, 4)
        && number(&mut reader, &mut table, bounded, 1, 6)
        && number(
            &mut reader,
            &mut table,
            Datatype::Unsigned { most: 300 },
            300,
            22,
        )
        && number(&mut reader, &mut table, signed, -3, 31)
        && number(&mut reader, &mut table, Datatype::Binary { most: 1 }, 1, 47)
        && reader.left() == 1
        && reader.take_number(1) == Ok(0)
        && table.globals() == 0
}

/// Texts are entered and found again.
fn texts_follow(alloc: Global) -> bool {
    let Ok(mut table) = Partitions::make(alloc, MOST_ENTRIES) else {
        return false;
    };
    // 4 a b, 0, 2, 3 c, 1 and index 1, 1 and index 0
    let payload = [0x04, 0x61, 0x62, 0x00, 0x02, 0x03, 0x63, 0x01, 0x80, 0x80];
    let mut reader = PayloadReader::new(&payload);
    text(&mut reader, &mut table, 7, "ab", 24)
        && text(&mut reader, &mut table, 7, "ab", 32)
        && text(&mut reader, &mut table, 9, "", 40)
        && text(&mut reader, &mut table, 9, "c", 56)
        && text(&mut reader, &mut table, 7, "c", 65)
        && text(&mut reader, &mut table, 9, "ab", 74)
        && table.globals() == 2
        && table.locals(9) == 1
}

/// The datatypes of which values are refused.
#[derive(Clone, Copy)]
enum Kind {
    OneOf17,
    OneOf3,
    Unsigned,
    Signed,
    Text,
    Binary,
}

fn datatype_of(kind: Kind) -> Datatype
    ensures { is_datatype result ≡ true }
{
    match kind {
        Kind::OneOf17 => Datatype::Named { count: 17 },
        Kind::OneOf3 => Datatype::Named { count: 3 },
        Kind::Unsigned => Datatype::Unsigned { most: 299 },
        Kind::Signed => Datatype::Signed { least: -2, most: 5 },
        Kind::Text => Datatype::Text { most: 100 },
        Kind::Binary => Datatype::Binary { most: 2 },
    }
}

/// A payload, and how the value behind its first four bits is refused.
struct Refused(&'static [u8], Kind, RefusalCause, u32);

impl Case for Refused {
    fn holds(&self, alloc: Global) -> bool {
        if self.0.len() > 65536 {
            return false;
        }
        let Ok(mut table) = Partitions::make(alloc, MOST_ENTRIES) else {
            return false;
        };
        let mut reader = PayloadReader::new(self.0);
        if reader.take_number(4) != Ok(0) {
            return false;
        }
        let wanted = Refusal {
            cause: self.2,
            bit: self.3,
        };
        matches!(reader.take_value(datatype_of(self.1), 7, &mut table), Err(refusal) if refusal == wanted)
    }
}

const REFUSED: [Refused; 12] = [
    Refused(b"\x0f", Kind::OneOf17, RefusalCause::ShortInput, 4),
    Refused(b"\x0c", Kind::OneOf3, RefusalCause::NoSuchValue, 4),
    Refused(b"\x0a\xc0\x20", Kind::Unsigned, RefusalCause::OutOfRange, 4),
    Refused(
        b"\x0f\xff\xff\xff\xff\xff\xff\xff\xff\xff\xf0",
        Kind::Unsigned,
        RefusalCause::WiderInteger,
        4,
    ),
    Refused(b"\x08\x10", Kind::Signed, RefusalCause::OutOfRange, 4),
    Refused(b"\x08", Kind::Signed, RefusalCause::ShortInput, 5),
    Refused(b"\x00\x3a", Kind::Binary, RefusalCause::TooLong, 4),
    Refused(b"\x00\x2a\xa0", Kind::Binary, RefusalCause::ShortInput, 12),
    Refused(b"\x06\x70", Kind::Text, RefusalCause::TooLong, 4),
    // U+D800
    Refused(
        b"\x00\x38\x0b\x00\x30",
        Kind::Text,
        RefusalCause::BadChar,
        12,
    ),
    Refused(b"\x00\x00", Kind::Text, RefusalCause::NoSuchIndex, 12),
    Refused(b"\x00\x10", Kind::Text, RefusalCause::NoSuchIndex, 12),
];

#[test]
fn values_are_read_or_refused(rt: HostRuntime) {
    assert!(rt; numbers_follow(rt.alloc()));
    assert!(rt; texts_follow(rt.alloc()));
    all_hold(&rt, rt.alloc(), &REFUSED);
}
