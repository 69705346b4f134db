//! Values at hand-written bits.

ghost use Rattle.std.specs.Prelude.{◌≡◌};
ghost use Rattle.exi_bits.specs.Pens.{written_bits};
ghost use Rattle.exi_documents.specs.Values.{most_entries};
ghost use Rattle.exi_values.specs.Meaning.{AreTexts};

use exi_bits::{BitCursor, BitPen, BitSpan, Full};
use exi_documents::MOST_ENTRIES;
use exi_schema::Datatype;
use exi_strings::Partitions;
use exi_values::{Table, Value};
use exi_writing::put_value;
use std::alloc::Global;

/// Whether a text of at most two bytes is written, or finds no room.
fn text(
    pen: &mut BitPen,
    table: &mut Table,
    name: u16,
    text: &str,
    wanted: Result<(), Full>,
) -> bool
    requires cap { table.old.cap ≡ most_entries }
    requires texts { AreTexts (written_bits pen.old) table.old.entries }
    ensures cap { table.new.cap ≡ most_entries }
    ensures texts { AreTexts (written_bits pen.new) table.new.entries }
{
    if text.len() > 2 || table.globals() >= MOST_ENTRIES {
        return false;
    }
    put_value(
        pen,
        Datatype::Text { most: 2 },
        name,
        &Value::Written(text),
        table,
    ) == wanted
}

/// Whether a text of at most two bytes is written, behind which the pen stands at `place`.
fn text_to(pen: &mut BitPen, table: &mut Table, name: u16, chars: &str, place: u32) -> bool
    requires cap { table.old.cap ≡ most_entries }
    requires texts { AreTexts (written_bits pen.old) table.old.entries }
    ensures cap { table.new.cap ≡ most_entries }
    ensures texts { AreTexts (written_bits pen.new) table.new.entries }
{
    text(pen, table, name, chars, Ok(())) && pen.place() == place
}

/// Enters the first text of a name once more.
fn enter_again(pen: &BitPen, table: &mut Table, name: u16) -> bool
    requires texts { AreTexts (written_bits pen.now) table.old.entries }
    ensures cap { table.new.cap ≡ table.old.cap }
    ensures texts { AreTexts (written_bits pen.now) table.new.entries }
{
    match table.local(name, 0).copied() {
        Some(at) => table.enter(name, at) == Ok(()),
        None => false,
    }
}

/// Each datatype behind the others.
fn each_is_put(alloc: Global) -> bool {
    let Ok(mut table) = Partitions::make(alloc, MOST_ENTRIES) else {
        return false;
    };
    let mut room = [0xff; 6];
    let mut pen = BitPen::new(&mut room);
    let bounded = Datatype::Bounded {
        least: -2,
        count: 4,
    };
    let signed = Datatype::Signed { least: -3, most: 5 };
    let binary = Value::Binary(BitSpan::of_bytes(b"\x0f"));
    // 1 100 11 10101100:00000010 1:00000010 00000001:00001111
    put_value(&mut pen, Datatype::Bool, 7, &Value::Bool(true), &mut table) == Ok(())
        && put_value(
            &mut pen,
            Datatype::Named { count: 5 },
            7,
            &Value::Ordinal(4),
            &mut table,
        ) == Ok(())
        && put_value(&mut pen, bounded, 7, &Value::Number(1), &mut table) == Ok(())
        && put_value(
            &mut pen,
            Datatype::Unsigned { most: 300 },
            7,
            &Value::Number(300),
            &mut table,
        ) == Ok(())
        && put_value(&mut pen, signed, 7, &Value::Number(-3), &mut table) == Ok(())
        && put_value(
            &mut pen,
            Datatype::Binary { most: 1 },
            7,
            &binary,
            &mut table,
        ) == Ok(())
        && pen.place() == 47
        && pen.finish() == 6
        && room == [0xce, 0xb0, 0x0a, 0x04, 0x02, 0x1e]
        && table.globals() == 0
}

/// Texts are entered and found again.
fn texts_are_put(alloc: Global) -> bool {
    let Ok(mut table) = Partitions::make(alloc, MOST_ENTRIES) else {
        return false;
    };
    let mut room = [0xff; 11];
    let mut pen = BitPen::new(&mut room);
    text_to(&mut pen, &mut table, 7, "ab", 24)
        // the one text of its name, and the one of all
        && text_to(&mut pen, &mut table, 7, "ab", 32)
        && text_to(&mut pen, &mut table, 9, "ab", 40)
        && text_to(&mut pen, &mut table, 7, "", 48)
        && text_to(&mut pen, &mut table, 7, "c", 64)
        // the second of its name, the first of three
        && text_to(&mut pen, &mut table, 7, "c", 73)
        && enter_again(&pen, &mut table, 7)
        && text_to(&mut pen, &mut table, 7, "ab", 83)
        && table.globals() == 3
        && pen.finish() == 11
        && room == [0x04, 0x61, 0x62, 0, 1, 2, 3, 0x63, 0, 0x80, 0]
}

/// A lent text, the letter a in two octets, is written shorter.
fn a_lent_text_is_put(alloc: Global) -> bool {
    let Ok(mut table) = Partitions::make(alloc, MOST_ENTRIES) else {
        return false;
    };
    let mut cursor = BitCursor::new(&[0xe1, 0x00]);
    let Ok(span) = cursor.take_chars(1) else {
        return false;
    };
    let mut room = [0xff; 2];
    let mut pen = BitPen::new(&mut room);
    let letter = Value::Text(span);
    put_value(&mut pen, Datatype::Text { most: 1 }, 7, &letter, &mut table) == Ok(())
        && pen.finish() == 2
        && room == [0x03, 0x61]
}

/// A value of one bit too many finds no room, and a smaller one still does.
fn one_bit_is_too_many(alloc: Global) -> bool {
    let Ok(mut table) = Partitions::make(alloc, MOST_ENTRIES) else {
        return false;
    };
    let mut room = [0xff; 1];
    let mut pen = BitPen::new(&mut room);
    put_value(&mut pen, Datatype::Bool, 7, &Value::Bool(true), &mut table) == Ok(())
        && put_value(
            &mut pen,
            Datatype::Unsigned { most: 1 },
            7,
            &Value::Number(1),
            &mut table,
        ) == Err(Full { bits: 9 })
        && put_value(
            &mut pen,
            Datatype::Named { count: 128 },
            7,
            &Value::Ordinal(1),
            &mut table,
        ) == Ok(())
        && pen.finish() == 1
        && room == [0x81]
}

/// What is needed counts the whole text: 1 00000100 01100001 01100010
fn a_text_has_no_room(alloc: Global) -> bool {
    let Ok(mut table) = Partitions::make(alloc, MOST_ENTRIES) else {
        return false;
    };
    let mut room = [0; 2];
    let mut pen = BitPen::new(&mut room);
    pen.put_bit(true) == Ok(()) && text(&mut pen, &mut table, 7, "ab", Err(Full { bits: 25 }))
}

#[test]
fn values_are_written(rt: HostRuntime) {
    assert!(rt; each_is_put(rt.alloc()));
    assert!(rt; texts_are_put(rt.alloc()));
    assert!(rt; a_lent_text_is_put(rt.alloc()));
    assert!(rt; one_bit_is_too_many(rt.alloc()));
    assert!(rt; a_text_has_no_room(rt.alloc()));
}
