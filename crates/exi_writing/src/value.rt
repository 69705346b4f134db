//! A value of any datatype.

ghost use Rattle.std.specs.Prelude.{◌≡◌, ◌↔◌, OnOk, OnErr, IfErr, IsErr};
ghost use Rattle.exi_bits.specs.Pens.{written_bits};
ghost use Rattle.exi_reading.specs.Values.{Entries, most_entries, IsValue, WritesValue};
ghost use Rattle.exi_reading.specs.Meaning.{AreTexts, IsShaped, texts_in, value_of};
ghost use Rattle.exi_writing.specs.Writing.{Puts, Lacks, NeedsInAll, WritesMore, PassesRoom};
ghost use Rattle.exi_writing.specs.Entering.{HasEntryFor};

use crate::items::{put_binary, put_number, put_ordinal};
use crate::needed::value_bits;
use crate::source::TextSource;
use crate::texts::put_text;
use exi_bits::{BitPen, Full};
use exi_reading::exi_values::{Table, Value};
use exi_schema::Datatype;

/// Writes a value of a datatype, of the element or attribute with this name: each number in its shortest spelling, and a text by
/// its first place in the local partition, else by that in the global one, else spelled out.
///
/// A text that is spelled out enters the table unless it is empty. `Full` exactly where the room is too small for the value, with
/// the bits of all that was written and of the whole value; it leaves the table as it was, and behind what was written perhaps the
/// front of the value.
#[inline(always)]
pub fn put_value(
    pen: &mut BitPen,
    datatype: Datatype,
    name: u16,
    value: &Value,
    table: &mut Table,
) -> Result<(), Full>
    requires value { IsValue datatype (value_of value.now) }
    requires shaped { IsShaped value.now }
    requires cap { table.old.cap ≡ most_entries }
    requires texts { AreTexts (written_bits pen.old) table.old.entries }
    requires room { HasEntryFor (texts_in (written_bits pen.old) table.old.entries) name (value_of value.now) }
    ensures ok { OnOk result (Puts (λ bits. WritesValue datatype (texts_in (written_bits pen.old) table.old.entries) name (value_of value.now) bits (texts_in (written_bits pen.new) table.new.entries)) pen.old pen.new) }
    ensures texts { AreTexts (written_bits pen.new) table.new.entries }
    ensures cap { table.new.cap ≡ most_entries }
    ensures full { IsErr result ↔ Lacks (λ bits. (after : Entries) × WritesValue datatype (texts_in (written_bits pen.old) table.old.entries) name (value_of value.now) bits after) pen.old }
    ensures needed { IfErr result (NeedsInAll (λ bits. (after : Entries)
        × WritesValue datatype (texts_in (written_bits pen.old) table.old.entries) name (value_of value.now) bits after) pen.old) }
    ensures bits { IfErr result (PassesRoom pen.old) }
    ensures more { WritesMore pen.old pen.new }
    ensures stays { OnErr result (table.new ≡ table.old) }
{
    let before = pen.place();
    match put_parts(pen, datatype, name, value, table) {
        Ok(()) => Ok(()),
        Err(_) => Err(Full {
            bits: u64::from(before) + value_bits(pen, datatype, name, value, table),
        }),
    }
}

/// Writes a value, part by part.
fn put_parts(
    pen: &mut BitPen,
    datatype: Datatype,
    name: u16,
    value: &Value,
    table: &mut Table,
) -> Result<(), Full>
    requires value { IsValue datatype (value_of value.now) }
    requires shaped { IsShaped value.now }
    requires cap { table.old.cap ≡ most_entries }
    requires texts { AreTexts (written_bits pen.old) table.old.entries }
    requires room { HasEntryFor (texts_in (written_bits pen.old) table.old.entries) name (value_of value.now) }
    ensures ok { OnOk result (Puts (λ bits. WritesValue datatype (texts_in (written_bits pen.old) table.old.entries) name (value_of value.now) bits (texts_in (written_bits pen.new) table.new.entries)) pen.old pen.new) }
    ensures texts { AreTexts (written_bits pen.new) table.new.entries }
    ensures cap { table.new.cap ≡ most_entries }
    ensures full { IsErr result ↔ Lacks (λ bits. (after : Entries) × WritesValue datatype (texts_in (written_bits pen.old) table.old.entries) name (value_of value.now) bits after) pen.old }
    ensures more { WritesMore pen.old pen.new }
    ensures stays { OnErr result (table.new ≡ table.old) }
{
    match value {
        Value::Bool(truth) => pen.put_bit(*truth),
        Value::Ordinal(ordinal) => put_ordinal(pen, datatype, *ordinal),
        Value::Number(number) => put_number(pen, datatype, *number),
        Value::Binary(span) => put_binary(pen, span),
        Value::Text(span) => put_text(pen, name, &TextSource::Lent(span), table),
        Value::Written(text) => put_text(pen, name, &TextSource::Written(text), table),
    }
}
