//! How many bits a value needs (W3C EXI 1.0, Second Edition, 7), with the string table.

ghost use Rattle.std.specs.Prelude.{◌≡◌, ◌<◌, ◌^◌, length};
ghost use Rattle.std.specs.List.{AllByRecursion};
ghost use Rattle.std.specs.Char.{IsScalar};
ghost use Rattle.exi_bits.specs.Pens.{written_bits};
ghost use Rattle.exi_reading.specs.Trees.{Ordinal, Number, Text};
ghost use Rattle.exi_reading.specs.Values.{Entries, most_entries, IsValue, WritesValue};
ghost use Rattle.exi_reading.specs.Meaning.{AreTexts, IsShaped, texts_in, value_of};
ghost use Rattle.exi_writing.specs.Writing.{HasLength, WritesPlain};
ghost use Rattle.exi_writing.specs.Source.{chars_of, IsText};
ghost use Rattle.exi_writing.specs.Entering.{HasEntryFor, SpellsHitAt, WritesTextInto};

use crate::source::TextSource;
use crate::texts::{find_global, find_local};
use exi_bits::{BitPen, integer_bits, unsigned_bits};
use exi_reading::exi_values::{Table, Value};
use exi_reading::index_width;
use exi_schema::Datatype;

/// How many bits `put_value` writes for a value of a datatype, of the element or attribute with this name, behind what a pen has
/// written.
pub fn value_bits(pen: &BitPen, datatype: Datatype, name: u16, value: &Value, table: &Table) -> u64
    requires value { IsValue datatype (value_of value.now) }
    requires shaped { IsShaped value.now }
    requires cap { table.now.cap ≡ most_entries }
    requires texts { AreTexts (written_bits pen.now) table.now.entries }
    requires room { HasEntryFor (texts_in (written_bits pen.now) table.now.entries) name (value_of value.now) }
    ensures bits { HasLength (λ bits. (after : Entries)
        × WritesValue datatype (texts_in (written_bits pen.now) table.now.entries) name (value_of value.now) bits after) result }
    ensures few { result < 2 ^ 44 }
{
    match value {
        Value::Bool(_) => 1,
        Value::Ordinal(ordinal) => u64::from(ordinal_bits(datatype, *ordinal)),
        Value::Number(number) => u64::from(number_bits(datatype, *number)),
        Value::Binary(span) => u64::from(unsigned_bits(u64::from(span.len())))
            + 8 * u64::from(span.len()),
        Value::Text(span) => text_bits(pen, name, &TextSource::Lent(span), table),
        Value::Written(text) => text_bits(pen, name, &TextSource::Written(text), table),
    }
}

/// The bits of an ordinal of an enumeration (7.2).
fn ordinal_bits(datatype: Datatype, ordinal: u32) -> u32
    requires { IsValue datatype (Ordinal ordinal) }
    ensures bits { HasLength (WritesPlain datatype (Ordinal ordinal)) result }
    ensures few { result < 2 ^ 8 }
{
    match datatype {
        Datatype::Named { count } => index_width(count),
        _ => unreachable!(),
    }
}

/// The bits of an integer (7.1.5, 7.1.6, 7.1.9).
fn number_bits(datatype: Datatype, value: i128) -> u32
    requires { IsValue datatype (Number value) }
    ensures bits { HasLength (WritesPlain datatype (Number value)) result }
    ensures few { result < 2 ^ 8 }
{
    match datatype {
        Datatype::Bounded { count, .. } => index_width(count),
        Datatype::Unsigned { .. } => unsigned_bits(value as u64),
        Datatype::Signed { .. } => integer_bits(value),
        _ => unreachable!(),
    }
}

/// The bits of a text (7.1.10, 7.3.3).
fn text_bits(pen: &BitPen, name: u16, text: &TextSource, table: &Table) -> u64
    requires kind { IsText text.now }
    requires few { length (chars_of text.now) < 2 ^ 32 }
    requires scalar { AllByRecursion (λ char. IsScalar char) (chars_of text.now) }
    requires cap { table.now.cap ≡ most_entries }
    requires texts { AreTexts (written_bits pen.now) table.now.entries }
    requires room { HasEntryFor (texts_in (written_bits pen.now) table.now.entries) name (Text (chars_of text.now)) }
    ensures bits { HasLength (λ bits. (after : Entries)
        × WritesTextInto (texts_in (written_bits pen.now) table.now.entries) name (chars_of text.now) bits after) result }
    ensures few { result < 2 ^ 44 }
{
    let globals = table.globals();
    let count = text.len();
    if let Some(index) = find_local(pen, text, count, name, table) {
        return hit_bits(0, table.locals(name), index);
    }
    if let Some(index) = find_global(pen, text, count, table) {
        return hit_bits(1, globals, index);
    }
    u64::from(unsigned_bits(u64::from(count) + 2)) + text.chars_bits()
}

/// The bits of an index of a partition of `count` entries, behind the number that announces it.
fn hit_bits(announced: u64, count: u32, index: u32) -> u64
    requires { index < count }
    ensures bits { HasLength (SpellsHitAt announced count index) result }
    ensures few { result < 2 ^ 8 }
{
    u64::from(unsigned_bits(announced)) + u64::from(index_width(count))
}
