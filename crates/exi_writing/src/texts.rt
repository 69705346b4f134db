//! Strings, written with the string table (7.1.10, 7.3.3).

ghost use Rattle.std.specs.Prelude.{◌≡◌, ◌+◌, ◌<◌, ◌^◌, ◌==◌, if◌then◌else◌, ◌++◌, [], ◌∷◌, ◌↔◌, IsTrue, length, MatchOption, OnOk, OnErr, IfOk, IfErr};
ghost use Rattle.std.specs.List.{AllByRecursion};
ghost use Rattle.std.specs.Char.{IsScalar};
ghost use Rattle.exi_spec.specs.Items.{shortest_unsigned, shortest_chars};
ghost use Rattle.exi_bits.specs.Lent.{items_of, text_at, IsSpan};
ghost use Rattle.exi_bits.specs.Pens.{written_bits, Writes, Needs};
ghost use Rattle.exi_reading.specs.Table.{global_of, local_of};
ghost use Rattle.exi_reading.specs.Texts.{IsFirstAt, IsAbsent};
ghost use Rattle.exi_reading.specs.Trees.{Text};
ghost use Rattle.exi_reading.specs.Values.{Entries, most_entries};
ghost use Rattle.exi_reading.specs.Meaning.{AreTexts, texts_in};
ghost use Rattle.exi_writing.specs.Writing.{Puts, Lacks, WritesMore, PassesRoom};
ghost use Rattle.exi_writing.specs.Source.{chars_of, IsText};
ghost use Rattle.exi_writing.specs.Entering.{HasEntryFor, SpellsHitAt, WritesTextInto};

use crate::source::TextSource;
use exi_bits::{BitPen, BitSpan, Full, SpanAt};
use exi_reading::exi_values::Table;
use exi_reading::index_width;

/// A text of the element or attribute with this name: by its first place in the local partition, else by its first place in the
/// global one, else spelled out and, unless it is empty, entered.
pub(crate) fn put_text(
    pen: &mut BitPen,
    name: u16,
    text: &TextSource,
    table: &mut Table,
) -> Result<(), Full>
    requires kind { IsText text.now }
    requires few { length (chars_of text.now) < 2 ^ 32 }
    requires scalar { AllByRecursion (λ char. IsScalar char) (chars_of text.now) }
    requires cap { table.old.cap ≡ most_entries }
    requires texts { AreTexts (written_bits pen.old) table.old.entries }
    requires room { HasEntryFor (texts_in (written_bits pen.old) table.old.entries) name (Text (chars_of text.now)) }
    ensures ok { OnOk result (Puts (λ bits. WritesTextInto (texts_in (written_bits pen.old) table.old.entries) name (chars_of text.now) bits (texts_in (written_bits pen.new) table.new.entries)) pen.old pen.new) }
    ensures texts { AreTexts (written_bits pen.new) table.new.entries }
    ensures cap { table.new.cap ≡ most_entries }
    ensures full { OnErr result (Lacks (λ bits. (after : Entries) × WritesTextInto (texts_in (written_bits pen.old) table.old.entries) name (chars_of text.now) bits after) pen.old) }
    ensures bits { IfErr result (PassesRoom pen.old) }
    ensures more { WritesMore pen.old pen.new }
    ensures stays { OnErr result (table.new ≡ table.old) }
{
    let globals = table.globals();
    let count = text.len();
    if let Some(index) = find_local(pen, text, count, name, table) {
        return put_hit(pen, 0, table.locals(name), index);
    }
    if let Some(index) = find_global(pen, text, count, table) {
        return put_hit(pen, 1, globals, index);
    }
    let at = put_spelled(pen, text, count)?;
    enter(table, name, at);
    Ok(())
}

/// The first place of a text of `count` code points in the local partition of a name.
pub(crate) fn find_local(
    pen: &BitPen,
    text: &TextSource,
    count: u32,
    name: u16,
    table: &Table,
) -> Option<u32>
    requires kind { IsText text.now }
    requires count { count ≡ length (chars_of text.now) }
    requires texts { AreTexts (written_bits pen.now) table.now.entries }
    ensures { MatchOption result
        (IsAbsent (local_of name (texts_in (written_bits pen.now) table.now.entries)) (chars_of text.now))
        (λ index. IsFirstAt (local_of name (texts_in (written_bits pen.now) table.now.entries)) (chars_of text.now) index) }
{
    let mut index = 0;
    for entry in table.entries() {
        if entry.0 == name {
            if is_at(pen, text, count, entry.1) {
                return Some(index);
            }
            index += 1;
        }
    }
    None
}

/// The first place of a text of `count` code points in the global partition.
pub(crate) fn find_global(pen: &BitPen, text: &TextSource, count: u32, table: &Table) -> Option<u32>
    requires kind { IsText text.now }
    requires count { count ≡ length (chars_of text.now) }
    requires texts { AreTexts (written_bits pen.now) table.now.entries }
    ensures { MatchOption result
        (IsAbsent (global_of (texts_in (written_bits pen.now) table.now.entries)) (chars_of text.now))
        (λ index. IsFirstAt (global_of (texts_in (written_bits pen.now) table.now.entries)) (chars_of text.now) index) }
{
    for i in 0..table.globals() {
        let Some(at) = table.global(i) else {
            unreachable!()
        };
        if is_at(pen, text, count, *at) {
            return Some(i);
        }
    }
    None
}

/// Whether a text of `count` code points is the one at a place of what is written.
fn is_at(pen: &BitPen, text: &TextSource, count: u32, at: SpanAt) -> bool
    requires kind { IsText text.now }
    requires count { count ≡ length (chars_of text.now) }
    requires spelled { IsSpan (text_at (written_bits pen.now) at) }
    ensures { IsTrue result ↔ (items_of (text_at (written_bits pen.now) at) ≡ chars_of text.now) }
{
    if at.chars != count {
        return false;
    }
    text.is_same(&BitSpan::of(pen.written(), at))
}

/// An index of a partition of `count` entries, behind the number that announces it.
fn put_hit(pen: &mut BitPen, announced: u64, count: u32, index: u32) -> Result<(), Full>
    requires { index < count }
    ensures ok { OnOk result (Puts (SpellsHitAt announced count index) pen.old pen.new) }
    ensures full { OnErr result (Lacks (SpellsHitAt announced count index) pen.old) }
    ensures bits { IfErr result (PassesRoom pen.old) }
    ensures more { WritesMore pen.old pen.new }
{
    let width = index_width(count);
    pen.put_unsigned(announced)?;
    pen.put_bits(index, width)
}

/// A text that is spelled out, behind its length, which is `count`: where it stands.
fn put_spelled(pen: &mut BitPen, text: &TextSource, count: u32) -> Result<SpanAt, Full>
    requires { count ≡ length (chars_of text.now) }
    ensures ok { IfOk result (λ _. Writes pen.old pen.new (shortest_unsigned (length (chars_of text.now) + 2) ++ shortest_chars (chars_of text.now))) }
    ensures bit { IfOk result (λ at. at.bit ≡ length (written_bits pen.old ++ shortest_unsigned (length (chars_of text.now) + 2))) }
    ensures count { IfOk result (λ at. at.chars ≡ length (chars_of text.now)) }
    ensures full { OnErr result (Needs pen.old (length (shortest_unsigned (length (chars_of text.now) + 2) ++ shortest_chars (chars_of text.now)))) }
    ensures bits { IfErr result (PassesRoom pen.old) }
    ensures more { WritesMore pen.old pen.new }
{
    pen.put_unsigned(u64::from(count) + 2)?;
    let bit = pen.place();
    text.put_chars(pen)?;
    Ok(SpanAt { bit, chars: count })
}

/// Enters the place of a text, unless it is empty.
fn enter(table: &mut Table, name: u16, at: SpanAt)
    requires { 0 < at.chars → length table.old.entries < table.old.cap }
    ensures entries { table.new.entries ≡ (if at.chars == 0 then table.old.entries else table.old.entries ++ (name, at) ∷ []) }
    ensures cap { table.new.cap ≡ table.old.cap }
{
    if at.chars == 0 {
        return;
    }
    match table.enter(name, at) {
        Ok(()) => {}
        Err(_) => unreachable!(),
    }
}
