//! The next event inside the innermost element.

ghost use Rattle.std.specs.Prelude.{◌≡◌, ℕ, ◌+◌, true, List, Some, IfOk, IfErr, IsSome};
ghost use Rattle.exi_bits.specs.Reading.{Takes, ahead};
ghost use Rattle.exi_schema.specs.Plain.{PlainKind};
ghost use Rattle.exi_schema.specs.Schemas.{PlainSchema, is_datatype};
ghost use Rattle.exi_schema.specs.Steps.{simple_at};
ghost use Rattle.exi_writing.specs.Grammar.{around};
ghost use Rattle.exi_writing.specs.Refusals.{RefusesFrom};
ghost use Rattle.exi_writing.specs.Values.{most_entries};
ghost use Rattle.exi_writing.specs.Meaning.{texts_in, AreTexts, IsLent, IsLentEvent};
ghost use Rattle.exi_events.specs.Inside.{AreOpen, HasTop, SpellsInside, TakesValueOf, TakesWhole, RefusesWhole};

use crate::open::{OpenElement, OpenElements};
use crate::step::{take_only, take_step};
use exi_schema::{Datatype, Place, Places, Step};
use exi_writing::exi_documents::Refusal;
use exi_writing::exi_reading::PayloadReader;
use exi_writing::exi_values::{Event, Table, Value};

/// Takes a value of a simple kind of the schema.
#[inline(never)]
fn take_value_of<'a, P: Places>(
    reader: &mut PayloadReader<'a>,
    places: &P,
    kind: u16,
    name: u16,
    table: &mut Table,
) -> Result<Value<'a>, Refusal>
    requires simple { IsSome (simple_at (P.schema places.now).kinds kind) }
    requires cap { table.old.cap ≡ most_entries }
    requires texts { AreTexts reader.old.bits table.old.entries }
    ensures { TakesValueOf (P.schema places.now).kinds kind name reader.old reader.new table.old table.new result }
{
    match places.datatype(kind) {
        Some(datatype) => reader.take_value(datatype, name, table),
        None => unreachable!(),
    }
}

/// Takes a value of a simple kind of the schema. Only where one is taken the room of its answer is cleared, so this is inlined.
#[inline(always)]
fn take_value<'a, P: Places>(
    reader: &mut PayloadReader<'a>,
    places: &P,
    kind: u16,
    name: u16,
    table: &mut Table,
) -> Result<Value<'a>, Refusal>
    requires simple { IsSome (simple_at (P.schema places.now).kinds kind) }
    requires cap { table.old.cap ≡ most_entries }
    requires texts { AreTexts reader.old.bits table.old.entries }
    ensures { TakesValueOf (P.schema places.now).kinds kind name reader.old reader.new table.old table.new result }
{
    let value = take_value_of(reader, places, kind, name, table)?;
    Ok(value)
}

/// Takes the next event inside the innermost element, which is `top`.
#[inline(always)]
pub(crate) fn take_inside<'a, P: Places>(
    reader: &mut PayloadReader<'a>,
    places: &P,
    table: &mut Table,
    elements: &mut OpenElements,
    top: OpenElement,
) -> Result<Event<'a>, Refusal>
    requires top { HasTop elements.old top }
    requires elements { AreOpen (P.schema places.now).kinds elements.old }
    requires cap { table.old.cap ≡ most_entries }
    requires texts { AreTexts reader.old.bits table.old.entries }
    ensures ok { IfOk result (λ e. Takes (SpellsInside (P.schema places.now) elements.old (texts_in reader.old.bits table.old.entries) e elements.new (texts_in reader.old.bits table.new.entries)) reader.old reader.new) }
    ensures lent { IfOk result (λ e. IsLentEvent reader.old.bits e) }
    ensures elements { AreOpen (P.schema places.now).kinds elements.new }
    ensures same { reader.new.bits ≡ reader.old.bits }
    ensures texts { AreTexts reader.old.bits table.new.entries }
    ensures cap { table.new.cap ≡ most_entries }
    ensures refused { IfErr result (λ r. (at : ℕ) × RefusesFrom (P.schema places.now) (around elements.old) (texts_in reader.old.bits table.old.entries) (ahead reader.old) r.cause at × (r.bit ≡ reader.old.place + at)) }
{
    match take_step(reader, places, top.place)? {
        Step::Attribute { name, kind, next } => {
            let value = take_value(reader, places, kind, name, table)?;
            elements.goes_to(next);
            Ok(Event::Attribute(name, value))
        }
        Step::Element {
            name,
            kind,
            next,
            ..
        } => {
            elements.goes_to(next);
            elements.push(name, Place::first(kind));
            Ok(Event::Start(name))
        }
        Step::End => {
            elements.pop();
            Ok(Event::EndElement)
        }
        Step::Characters { next } => {
            let value = take_value(reader, places, top.place.kind, top.name, table)?;
            elements.goes_to(next);
            Ok(Event::Value(value))
        }
    }
}

/// Takes the value and the end of the innermost element, which is `top`, of a simple kind of this datatype; nothing of it is taken yet.
#[inline(always)]
pub(crate) fn take_whole<'a>(
    reader: &mut PayloadReader<'a>,
    table: &mut Table,
    elements: &mut OpenElements,
    top: OpenElement,
    datatype: Datatype,
) -> Result<Value<'a>, Refusal>
    requires top { HasTop elements.old top }
    requires first { top.place.particle ≡ 0 }
    requires datatype { is_datatype datatype ≡ true }
    requires cap { table.old.cap ≡ most_entries }
    requires texts { AreTexts reader.old.bits table.old.entries }
    ensures ok { (s : PlainSchema) → simple_at s.kinds top.place.kind ≡ Some datatype
        → IfOk result (λ v. TakesWhole s elements.old (texts_in reader.old.bits table.old.entries) v elements.new (texts_in reader.old.bits table.new.entries) reader.old reader.new) }
    ensures lent { IfOk result (λ v. IsLent reader.old.bits v) }
    ensures elements { (kinds : List PlainKind) → AreOpen kinds elements.old → AreOpen kinds elements.new }
    ensures same { reader.new.bits ≡ reader.old.bits }
    ensures texts { AreTexts reader.old.bits table.new.entries }
    ensures cap { table.new.cap ≡ most_entries }
    ensures refused { (s : PlainSchema) → simple_at s.kinds top.place.kind ≡ Some datatype
        → IfErr result (RefusesWhole s elements.old (texts_in reader.old.bits table.old.entries) reader.old) }
{
    take_only(reader)?;
    let value = reader.take_value(datatype, top.name, table)?;
    take_only(reader)?;
    elements.pop();
    Ok(value)
}
