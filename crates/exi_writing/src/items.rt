//! Values of the datatypes other than String, written with a pen.

ghost use Rattle.std.specs.Prelude.{◌≡◌, ℕ, ◌+◌, ◌<◌, ◌++◌, length, pos, ◌+ℤ◌, OnOk, OnErr, IfErr};
ghost use Rattle.std.specs.List.{AllByRecursion};
ghost use Rattle.exi_spec.specs.Bits.{bits_of};
ghost use Rattle.exi_spec.specs.Items.{shortest_unsigned};
ghost use Rattle.exi_bits.specs.Lent.{items_of};
ghost use Rattle.exi_bits.specs.Pens.{Writes, Needs, SamePen};
ghost use Rattle.exi_reading.specs.Trees.{Ordinal, Number};
ghost use Rattle.exi_reading.specs.Values.{IsValue, SpellsCode, SpellsBounded};
ghost use Rattle.exi_writing.specs.Writing.{Puts, Lacks, WritesMore, PassesRoom, WritesPlain};

use exi_bits::{BitPen, BitSpan, Full};
use exi_reading::index_width;
use exi_schema::Datatype;

/// The ordinal of an enumeration (7.2).
pub(crate) fn put_ordinal(pen: &mut BitPen, datatype: Datatype, ordinal: u32) -> Result<(), Full>
    requires { IsValue datatype (Ordinal ordinal) }
    ensures ok { OnOk result (Puts (WritesPlain datatype (Ordinal ordinal)) pen.old pen.new) }
    ensures full { OnErr result (Lacks (WritesPlain datatype (Ordinal ordinal)) pen.old) }
    ensures bits { IfErr result (PassesRoom pen.old) }
    ensures stays { OnErr result (SamePen pen.old pen.new) }
{
    match datatype {
        Datatype::Named { count } => put_code(pen, count, ordinal),
        _ => unreachable!(),
    }
}

/// An integer (7.1.5, 7.1.6, 7.1.9).
pub(crate) fn put_number(pen: &mut BitPen, datatype: Datatype, value: i128) -> Result<(), Full>
    requires { IsValue datatype (Number value) }
    ensures ok { OnOk result (Puts (WritesPlain datatype (Number value)) pen.old pen.new) }
    ensures full { OnErr result (Lacks (WritesPlain datatype (Number value)) pen.old) }
    ensures bits { IfErr result (PassesRoom pen.old) }
    ensures stays { OnErr result (SamePen pen.old pen.new) }
{
    match datatype {
        Datatype::Bounded { least, count } => put_bounded(pen, least, count, value),
        Datatype::Unsigned { .. } => pen.put_unsigned(value as u64),
        Datatype::Signed { .. } => pen.put_integer(value),
        _ => unreachable!(),
    }
}

/// One of `count` codes (7.1.9, 7.2).
fn put_code(pen: &mut BitPen, count: u32, code: u32) -> Result<(), Full>
    requires { code < count }
    ensures ok { OnOk result (Puts (SpellsCode count code) pen.old pen.new) }
    ensures full { OnErr result (Lacks (SpellsCode count code) pen.old) }
    ensures bits { IfErr result (PassesRoom pen.old) }
    ensures stays { OnErr result (SamePen pen.old pen.new) }
{
    pen.put_bits(code, index_width(count))
}

/// One of `count` integers from `least` on (7.1.9).
fn put_bounded(pen: &mut BitPen, least: i64, count: u32, value: i128) -> Result<(), Full>
    requires { (k : ℕ) × (k < count) × (value ≡ least +ℤ pos k) }
    ensures ok { OnOk result (Puts (SpellsBounded least count value) pen.old pen.new) }
    ensures full { OnErr result (Lacks (SpellsBounded least count value) pen.old) }
    ensures bits { IfErr result (PassesRoom pen.old) }
    ensures stays { OnErr result (SamePen pen.old pen.new) }
{
    put_code(pen, count, (value - i128::from(least)) as u32)
}

/// A Binary (7.1.1).
pub(crate) fn put_binary(pen: &mut BitPen, span: &BitSpan) -> Result<(), Full>
    requires { AllByRecursion (λ byte. byte < 256) (items_of span.now) }
    ensures ok { OnOk result (Writes pen.old pen.new (shortest_unsigned (length (items_of span.now)) ++ bits_of (items_of span.now))) }
    ensures full { OnErr result (Needs pen.old (length (shortest_unsigned (length (items_of span.now)) ++ bits_of (items_of span.now)))) }
    ensures bits { IfErr result (PassesRoom pen.old) }
    ensures more { WritesMore pen.old pen.new }
{
    pen.put_unsigned(u64::from(span.len()))?;
    put_bytes(pen, span)
}

/// The bytes of a Binary behind its length.
#[inline(always)]
fn put_bytes(pen: &mut BitPen, span: &BitSpan) -> Result<(), Full>
    requires { AllByRecursion (λ byte. byte < 256) (items_of span.now) }
    ensures ok { OnOk result (Writes pen.old pen.new (bits_of (items_of span.now))) }
    ensures full { OnErr result (Needs pen.old (length (bits_of (items_of span.now)))) }
    ensures bits { IfErr result (PassesRoom pen.old) }
    ensures more { WritesMore pen.old pen.new }
{
    pen.put_lent_bytes(span)
}
