//! Whether a value may be written.

ghost use Rattle.std.specs.Prelude.{◌≡◌, ◌≤◌, ℕ, length, ◌↔◌, IsTrue, List, Some, MatchBool, slice_get};
ghost use Rattle.exi_bits.specs.Lent.{items_of, text_at, IsSpan};
ghost use Rattle.exi_spec.specs.Bits.{bits_of};
ghost use Rattle.exi_writing.specs.Trees.{Text, Number};
ghost use Rattle.exi_writing.specs.Values.{most_entries, IsValue};
ghost use Rattle.exi_writing.specs.Meaning.{AreTexts, IsShaped, texts_in, value_of};
ghost use Rattle.exi_writing.specs.Table.{global_of};
ghost use Rattle.exi_writing.specs.Texts.{IsAbsent};
ghost use Rattle.exi_writing.specs.Entering.{HasEntryFor};

use exi_bits::{BitSpan, SpanAt};
use exi_schema::Datatype;
use exi_writing::exi_documents::MOST_ENTRIES;
use exi_writing::exi_values::{Table, Value};

/// Whether a value is one of a datatype.
#[inline(always)]
pub(crate) fn is_value(datatype: Datatype, value: &Value) -> bool
    requires { IsShaped value.now }
    ensures { IsTrue result ↔ IsValue datatype (value_of value.now) }
{
    match value {
        Value::Bool(_) => matches!(datatype, Datatype::Bool),
        Value::Ordinal(ordinal) => match datatype {
            Datatype::Named { count } => *ordinal < count,
            _ => false,
        },
        Value::Number(number) => is_number(datatype, *number),
        Value::Binary(span) => match datatype {
            Datatype::Binary { most } => span.at().chars <= most,
            _ => false,
        },
        Value::Text(span) => match datatype {
            Datatype::Text { most } => span.at().chars <= most,
            _ => false,
        },
        Value::Written(text) => match datatype {
            Datatype::Text { most } => text.chars().count() <= most as usize,
            _ => false,
        },
    }
}

/// Whether an integer is one of a datatype.
#[inline(always)]
fn is_number(datatype: Datatype, number: i128) -> bool
    ensures { IsTrue result ↔ IsValue datatype (Number number) }
{
    match datatype {
        Datatype::Bounded { least, count } => {
            let from = i128::from(least);
            from <= number && number < from + i128::from(count)
        }
        Datatype::Unsigned { most } => 0 <= number && number <= i128::from(most),
        Datatype::Signed { least, most } => {
            i128::from(least) <= number && number <= i128::from(most)
        }
        _ => false,
    }
}

/// Whether the table has room where the text of a value would enter it, as that of any name.
#[inline(always)]
pub(crate) fn has_entry(written: &[u8], table: &Table, value: &Value) -> bool
    requires few { length written.now ≤ 65536 }
    requires shaped { IsShaped value.now }
    requires cap { table.now.cap ≡ most_entries }
    requires texts { AreTexts (bits_of written.now) table.now.entries }
    ensures few { length table.now.entries ≤ most_entries }
    ensures room { (name : ℕ) → (IsTrue result ↔ HasEntryFor (texts_in (bits_of written.now) table.now.entries) name (value_of value.now)) }
{
    if table.globals() < MOST_ENTRIES {
        return true;
    }
    match value {
        Value::Text(span) => span.len() == 0 || is_entered(written, table, value),
        Value::Written(text) => text.is_empty() || is_entered(written, table, value),
        _ => true,
    }
}

/// Whether the text of a value stands in the global partition.
#[inline(never)]
fn is_entered(written: &[u8], table: &Table, value: &Value) -> bool
    requires few { length written.now ≤ 65536 }
    requires shaped { IsShaped value.now }
    requires texts { AreTexts (bits_of written.now) table.now.entries }
    ensures { (text : List ℕ) → value_of value.now ≡ Text text → MatchBool result
        ((i : ℕ) × (slice_get (global_of (texts_in (bits_of written.now) table.now.entries)) i ≡ Some text))
        (IsAbsent (global_of (texts_in (bits_of written.now) table.now.entries)) text) }
{
    for i in 0..table.globals() {
        let Some(at) = table.global(i) else {
            unreachable!()
        };
        if is_text_at(written, value, *at) {
            return true;
        }
    }
    false
}

/// Whether the text of a value is the one at a place of what is written.
fn is_text_at(written: &[u8], value: &Value, at: SpanAt) -> bool
    requires few { length written.now ≤ 65536 }
    requires shaped { IsShaped value.now }
    requires spelled { IsSpan (text_at (bits_of written.now) at) }
    ensures { (text : List ℕ) → value_of value.now ≡ Text text → (IsTrue result ↔ (items_of (text_at (bits_of written.now) at) ≡ text)) }
{
    let there = BitSpan::of(written, at);
    match value {
        Value::Text(span) => there.same(span),
        Value::Written(text) => there.same_str(text),
        _ => false,
    }
}
