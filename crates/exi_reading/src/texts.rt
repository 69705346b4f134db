//! Strings, taken from a cursor with the string table (7.1.10, 7.3.3).

ghost use Rattle.std.specs.Prelude.{◌≡◌, ℕ, ◌+◌, ◌≤◌, ◌<◌, ◌⊎◌, true, false, length, IsTrue, IfOk, IfErr, OnErr};
ghost use Rattle.exi_spec.specs.Bits.{bits_of};
ghost use Rattle.exi_spec.specs.Items.{SpellsUnsigned, SpellsChars, RefusesUnsigned, RefusesChars};
ghost use Rattle.exi_spec.specs.declared.BitCause.{BitCause};
ghost use Rattle.exi_bits.specs.Reading.{Takes, ahead};
ghost use Rattle.exi_bits.specs.Lent.{items_of, text_at, IsSpan};
ghost use Rattle.exi_schema.specs.declared.tables.Datatype.{Datatype};
ghost use Rattle.exi_values.specs.Table.{global_of, local_of};
ghost use Rattle.exi_values.specs.Texts.{SpellsText, SpellsIndex, entered};
ghost use Rattle.exi_values.specs.Values.{cause_of, most_entries, RefusesItem, RefusesIndex, RefusesValue};
ghost use Rattle.exi_values.specs.Meaning.{texts_in, AreTexts};
ghost use Rattle.exi_reading.specs.Refusing.{Refused};

use crate::items::{index_width, refusal, take_number};
use exi_bits::{BitCursor, BitSpan, SpanAt};
use exi_values::Table;
use exi_values::exi_documents::{MOST_ENTRIES, Refusal, RefusalCause};

/// A text of at most `most` code points, of the element or attribute with this name.
///
/// `NoSuchIndex` and `TooLong` at an index, `TooLong` and then `TableFull` at a length, and else at a code point.
pub(crate) fn take_text<'a>(
    payload: &'a [u8],
    cursor: &mut BitCursor<'a>,
    most: u32,
    name: u16,
    table: &mut Table,
) -> Result<BitSpan<'a>, Refusal>
    requires room { length payload.now ≤ 65536 }
    requires bits { cursor.old.bits ≡ bits_of payload.now }
    requires cap { table.old.cap ≡ most_entries }
    requires texts { AreTexts cursor.old.bits table.old.entries }
    ensures ok { IfOk result (λ span. Takes (λ bits.
        SpellsText most (texts_in cursor.old.bits table.old.entries) name (items_of span) bits (texts_in cursor.old.bits table.new.entries))
        cursor.old cursor.new) }
    ensures few { IfOk result (λ _. length (texts_in cursor.old.bits table.new.entries) ≤ most_entries) }
    ensures bits { IfOk result (λ span. span.bits ≡ cursor.old.bits) }
    ensures kind { IfOk result (λ span. span.is_text ≡ true) }
    ensures texts { AreTexts cursor.old.bits table.new.entries }
    ensures cap { table.new.cap ≡ most_entries }
    ensures refused { IfErr result (Refused
        (RefusesValue (Datatype.Text most) (texts_in cursor.old.bits table.old.entries) name) cursor.old) }
    ensures stays { OnErr result (table.new ≡ table.old) }
    ensures same { cursor.new.bits ≡ cursor.old.bits }
{
    let bit = cursor.place();
    let has_room = table.globals() < MOST_ENTRIES;
    match take_unsigned(cursor)? {
        0 => take_local(payload, cursor, most, name, table),
        1 => take_global(payload, cursor, most, table),
        announced => {
            let n = accepted_length(announced - 2, most, has_room, bit)?;
            take_spelled(cursor, n, name, table)
        }
    }
}

/// An Unsigned Integer (7.1.6).
fn take_unsigned(cursor: &mut BitCursor) -> Result<u64, Refusal>
    ensures ok { IfOk result (λ n. Takes (SpellsUnsigned n) cursor.old cursor.new) }
    ensures refused { IfErr result (λ r. RefusesItem RefusesUnsigned (ahead cursor.old) r.cause) }
    ensures at { IfErr result (λ r. r.bit ≡ cursor.old.place) }
    ensures stays { OnErr result (cursor.new ≡ cursor.old) }
{
    cursor.take_unsigned().map_err(refusal)
}

/// A text of the local partition of a name, by its index.
fn take_local<'a>(
    payload: &'a [u8],
    cursor: &mut BitCursor<'a>,
    most: u32,
    name: u16,
    table: &Table,
) -> Result<BitSpan<'a>, Refusal>
    requires room { length payload.now ≤ 65536 }
    requires bits { cursor.old.bits ≡ bits_of payload.now }
    requires texts { AreTexts cursor.old.bits table.now.entries }
    ensures ok { IfOk result (λ span. Takes
        (SpellsIndex (local_of name (texts_in cursor.old.bits table.now.entries)) (items_of span)) cursor.old cursor.new) }
    ensures range { IfOk result (λ span. length (items_of span) ≤ most) }
    ensures bits { IfOk result (λ span. span.bits ≡ cursor.old.bits) }
    ensures kind { IfOk result (λ span. span.is_text ≡ true) }
    ensures refused { IfErr result (λ r.
        RefusesIndex most (local_of name (texts_in cursor.old.bits table.now.entries)) (ahead cursor.old) r.cause) }
    ensures at { IfErr result (λ r. r.bit ≡ cursor.old.place) }
    ensures same { cursor.new.bits ≡ cursor.old.bits }
{
    let bit = cursor.place();
    let index = take_number(cursor, index_width(table.locals(name)))?;
    match table.local(name, index) {
        Some(at) => lend(payload, *at, most, bit),
        None => Err(Refusal {
            cause: RefusalCause::NoSuchIndex,
            bit,
        }),
    }
}

/// A text of the global partition, by its index.
fn take_global<'a>(
    payload: &'a [u8],
    cursor: &mut BitCursor<'a>,
    most: u32,
    table: &Table,
) -> Result<BitSpan<'a>, Refusal>
    requires room { length payload.now ≤ 65536 }
    requires bits { cursor.old.bits ≡ bits_of payload.now }
    requires texts { AreTexts cursor.old.bits table.now.entries }
    ensures ok { IfOk result (λ span. Takes
        (SpellsIndex (global_of (texts_in cursor.old.bits table.now.entries)) (items_of span)) cursor.old cursor.new) }
    ensures range { IfOk result (λ span. length (items_of span) ≤ most) }
    ensures bits { IfOk result (λ span. span.bits ≡ cursor.old.bits) }
    ensures kind { IfOk result (λ span. span.is_text ≡ true) }
    ensures refused { IfErr result (λ r.
        RefusesIndex most (global_of (texts_in cursor.old.bits table.now.entries)) (ahead cursor.old) r.cause) }
    ensures at { IfErr result (λ r. r.bit ≡ cursor.old.place) }
    ensures same { cursor.new.bits ≡ cursor.old.bits }
{
    let bit = cursor.place();
    let index = take_number(cursor, index_width(table.globals()))?;
    match table.global(index) {
        Some(at) => lend(payload, *at, most, bit),
        None => Err(Refusal {
            cause: RefusalCause::NoSuchIndex,
            bit,
        }),
    }
}

/// The text at a place of the payload, if it isn't too long. Its index stands at `bit`.
fn lend<'a>(payload: &'a [u8], at: SpanAt, most: u32, bit: u32) -> Result<BitSpan<'a>, Refusal>
    requires room { length payload.now ≤ 65536 }
    requires spelled { IsSpan (text_at (bits_of payload.now) at) }
    ensures text { IfOk result (λ span. span ≡ text_at (bits_of payload.now) at) }
    ensures range { IfOk result (λ span. length (items_of span) ≤ most) }
    ensures long { IfErr result (λ _. most < length (items_of (text_at (bits_of payload.now) at))) }
    ensures refused { IfErr result (λ r. r ≡ record { cause = RefusalCause.TooLong; bit = bit }) }
{
    let span = BitSpan::of(payload, at);
    if span.len() > most {
        return Err(Refusal {
            cause: RefusalCause::TooLong,
            bit,
        });
    }
    Ok(span)
}

/// The length n of a text that is spelled out, if the text may stand there. It stands at `bit`.
fn accepted_length(n: u64, most: u32, has_room: bool, bit: u32) -> Result<u32, Refusal>
    ensures same { IfOk result (λ accepted. accepted ≡ n) }
    ensures range { IfOk result (λ _. n ≤ most) }
    ensures room { IfOk result (λ _. 0 < n → IsTrue has_room) }
    ensures refused { IfErr result (λ r. ((most < n) × (r.cause ≡ RefusalCause.TooLong))
        ⊎ ((n ≤ most) × (0 < n) × (has_room ≡ false) × (r.cause ≡ RefusalCause.TableFull))) }
    ensures at { IfErr result (λ r. r.bit ≡ bit) }
{
    if n > u64::from(most) {
        return Err(Refusal {
            cause: RefusalCause::TooLong,
            bit,
        });
    }
    if n > 0 && !has_room {
        return Err(Refusal {
            cause: RefusalCause::TableFull,
            bit,
        });
    }
    Ok(n as u32)
}

/// A text of n code points, behind its length. It is entered unless it is empty.
fn take_spelled<'a>(
    cursor: &mut BitCursor<'a>,
    n: u32,
    name: u16,
    table: &mut Table,
) -> Result<BitSpan<'a>, Refusal>
    requires room { 0 < n → length table.old.entries < table.old.cap }
    requires texts { AreTexts cursor.old.bits table.old.entries }
    ensures count { IfOk result (λ span. length (items_of span) ≡ n) }
    ensures ok { IfOk result (λ span. Takes (SpellsChars (items_of span)) cursor.old cursor.new) }
    ensures entry { IfOk result (λ span. texts_in cursor.old.bits table.new.entries
        ≡ entered (texts_in cursor.old.bits table.old.entries) name (items_of span)) }
    ensures bits { IfOk result (λ span. span.bits ≡ cursor.old.bits) }
    ensures kind { IfOk result (λ span. span.is_text ≡ true) }
    ensures texts { AreTexts cursor.old.bits table.new.entries }
    ensures cap { table.new.cap ≡ table.old.cap }
    ensures few { length table.old.entries ≤ table.old.cap → length table.new.entries ≤ table.new.cap }
    ensures refused { IfErr result (λ r. (at : ℕ) × ((why : BitCause) × RefusesChars n (ahead cursor.old) why at
        × (r.cause ≡ cause_of why)) × (r.bit ≡ cursor.old.place + at)) }
    ensures stays { OnErr result (table.new ≡ table.old) }
    ensures same { cursor.new.bits ≡ cursor.old.bits }
{
    let span = take_chars(cursor, n)?;
    enter(table, name, &span);
    Ok(span)
}

/// n code points.
fn take_chars<'a>(cursor: &mut BitCursor<'a>, n: u32) -> Result<BitSpan<'a>, Refusal>
    ensures span { IfOk result (λ span. span ≡ record { bits = cursor.old.bits; bit = cursor.old.place; count = n; is_text = true }) }
    ensures count { IfOk result (λ span. length (items_of span) ≡ n) }
    ensures ok { IfOk result (λ span. Takes (SpellsChars (items_of span)) cursor.old cursor.new) }
    ensures refused { IfErr result (λ r. (at : ℕ) × ((why : BitCause) × RefusesChars n (ahead cursor.old) why at
        × (r.cause ≡ cause_of why)) × (r.bit ≡ cursor.old.place + at)) }
    ensures stays { OnErr result (cursor.new ≡ cursor.old) }
{
    cursor.take_chars(n).map_err(refusal)
}

/// Enters a text, unless it is empty.
fn enter(table: &mut Table, name: u16, text: &BitSpan)
    requires kind { text.now.is_text ≡ true }
    requires room { 0 < text.now.count → length table.old.entries < table.old.cap }
    requires texts { AreTexts text.now.bits table.old.entries }
    ensures entry { texts_in text.now.bits table.new.entries
        ≡ entered (texts_in text.now.bits table.old.entries) name (items_of text.now) }
    ensures texts { AreTexts text.now.bits table.new.entries }
    ensures cap { table.new.cap ≡ table.old.cap }
    ensures few { length table.old.entries ≤ table.old.cap → length table.new.entries ≤ table.new.cap }
{
    if text.len() == 0 {
        return;
    }
    match table.enter(name, text.at()) {
        Ok(()) => {}
        Err(_) => unreachable!(),
    }
}
