//! Characters, names and values at a cursor.

ghost use Rattle.std.specs.Prelude.{◌≡◌, ◌<◌, List, Some, All, length, slice_get, IfOk, IfErr, IsSome};
ghost use Rattle.std.specs.Str.{encode_utf8_all};
ghost use Rattle.exi_schema.specs.Steps.{simple_at};
ghost use Rattle.exi_schema.specs.Told.{schema_of};
ghost use Rattle.value_text.specs.declared.awaited.Awaited.{Awaited};
ghost use Rattle.value_text.specs.Scanning.{Takes, MissesAt, IsAnyAwaited, IsAwaitedText, meaning};
ghost use Rattle.dialect_text.specs.Following.{TakesValueOf, MissesValueOf, PassesGap};

use crate::elements::Filling;
use exi_schema::{Places, Schema};
use std::alloc::Global;
use value_text::{Awaited, ScanFault, Scanned, TextCursor};

/// Passes what stands before an attribute or an element.
pub(crate) fn take_gap(cursor: &mut TextCursor, filling: Filling) -> bool
    ensures { PassesGap filling result cursor.old cursor.new }
{
    match filling {
        Filling::Nothing => true,
        Filling::Attributes | Filling::Elements | Filling::Value => cursor.take_char(' '),
    }
}

/// Takes one of the names that are awaited, with the character behind it: its place among those awaited, from 0.
pub(crate) fn take_name(
    cursor: &mut TextCursor,
    schema: &Schema,
    awaited: &[Awaited],
) -> Result<usize, ScanFault>
    requires names { All (λ one. one.name < length (schema_of schema.now).names) awaited.now }
    requires ends { All (λ one. one.end < 128) awaited.now }
    requires any { 0 < length awaited.now }
    ensures taken { IfOk result (λ i. (front : List _) × (one : Awaited)
        × Takes (IsAnyAwaited (schema_of schema.now) awaited.now) cursor.old front cursor.new
        × (slice_get awaited.now i ≡ Some one) × IsAwaitedText (schema_of schema.now) one (encode_utf8_all front)) }
    ensures fault { IfErr result (MissesAt (IsAnyAwaited (schema_of schema.now) awaited.now) cursor.old) }
{
    match cursor.take_name(schema, awaited) {
        Ok(at) => Ok(at),
        Err(place) => Err(ScanFault::Place(place)),
    }
}

/// Takes a value of a simple kind.
pub(crate) fn take_value(
    alloc: Global,
    schema: &Schema,
    cursor: &mut TextCursor,
    kind: u16,
) -> Result<Scanned, ScanFault>
    requires kind { kind < length (schema_of schema.now).kinds }
    requires simple { IsSome (simple_at (schema_of schema.now).kinds kind) }
    ensures ok { IfOk result (λ scanned. TakesValueOf (schema_of schema.now) kind (meaning scanned) cursor.old cursor.new) }
    ensures fault { IfErr result (MissesValueOf (schema_of schema.now) kind cursor.old) }
{
    match schema.datatype(kind) {
        Some(datatype) => cursor.take_value(alloc, schema, kind, datatype),
        None => unreachable!(),
    }
}
