//! The text of the tree that a payload spells.

ghost use Rattle.std.specs.Prelude.{◌≡◌, ℕ, ◌≤◌, ◌++◌, Bool, List, length, IfSome, IfOk, IfErr, OnOk};
ghost use Rattle.std.specs.String.{string_bytes};
ghost use Rattle.exi_schema.specs.declared.places.Place.{Place};
ghost use Rattle.exi_schema.specs.declared.places.Step.TheVariants.{Attribute};
ghost use Rattle.exi_schema.specs.Offers.{IsPlace};
ghost use Rattle.exi_schema.specs.Told.{schema_of};
ghost use Rattle.exi_documents.specs.Documents.{IsDocument};
ghost use Rattle.exi_documents.specs.Trees.{Tree};
ghost use Rattle.exi_documents.specs.Values.{most_entries};
ghost use Rattle.exi_values.specs.Meaning.{IsLent, IsLentEvent, event_of, value_of};
ghost use Rattle.tree_text.specs.TreeText.{IsOffered, IsTreeText};
ghost use Rattle.tree_text.specs.EventText.{gap, closing, Adds, AddsStart, AddsAttribute};
ghost use Rattle.tree_text.specs.Printing.{IsFaultOf, IsEnd};

use crate::fault::PrintFault;
use crate::values::{put_equals, put_name};
use charge_world::NoMemory;
use exi_documents::MOST_ENTRIES;
use exi_events::EventReader;
use exi_schema::{Place, Places, Schema, Step};
use exi_values::{Event, Table, Value};
use std::alloc::Global;

/// What a text ends with so far.
#[derive(Clone, Copy)]
pub(crate) enum TextEnd {
    /// No element has started.
    Nothing,
    /// The name of an element that has started.
    Name,
    /// The value of an element.
    Value,
    /// An attribute, or an element that has ended.
    Part,
}

impl TextEnd {
    /// What goes before an attribute or an element.
    fn gap(self) -> &'static str
        ensures { result.now ≡ gap self }
    {
        match self {
            TextEnd::Nothing | TextEnd::Value => "",
            TextEnd::Name => "{",
            TextEnd::Part => " ",
        }
    }

    /// What ends an element.
    fn closing(self) -> &'static str
        ensures { result.now ≡ closing self }
    {
        match self {
            TextEnd::Nothing | TextEnd::Value => "",
            TextEnd::Name => "{}",
            TextEnd::Part => "}",
        }
    }
}

/// What a text ends with behind an event.
fn end_behind(event: &Event) -> TextEnd
    ensures { IsEnd event.now result }
{
    match event {
        Event::Start(_) => TextEnd::Name,
        Event::Value(_) => TextEnd::Value,
        Event::Attribute(..) | Event::EndElement => TextEnd::Part,
        Event::Document(_) | Event::Finished => TextEnd::Nothing,
    }
}

/// The kind of the attribute of a name that is offered at a place.
fn attribute_kind(schema: &Schema, here: Place, name: u16) -> u16
    requires place { IsPlace (schema_of schema.now).kinds here }
    requires offered { (kind : ℕ) × (next : Place) × IsOffered (schema_of schema.now) here (Attribute name kind next) }
    ensures offered { (next : Place) × IsOffered (schema_of schema.now) here (Attribute name result next) }
    ensures one { (kind : ℕ) (next : Place) → IsOffered (schema_of schema.now) here (Attribute name kind next) → kind ≡ result }
{
    for code in 0..schema.alternatives(here) {
        if let Step::Attribute {
            name: other,
            kind,
            ..
        } = schema.advance(here, code)
            && other == name
        {
            return kind;
        }
    }
    unreachable!()
}

/// Puts the start of an element.
fn put_start(text: &mut String, end: TextEnd, schema: &Schema, name: u16) -> Result<(), NoMemory>
    requires { (added : List ℕ) × AddsStart (schema_of schema.now) end name added }
    ensures { OnOk result ((added : List ℕ) × AddsStart (schema_of schema.now) end name added × (string_bytes text.new ≡ string_bytes text.old ++ added)) }
{
    text.push_str(end.gap())?;
    put_name(text, schema, name)
}

/// Puts an attribute, which is offered at a place.
fn put_attribute(
    text: &mut String,
    end: TextEnd,
    schema: &Schema,
    here: Place,
    name: u16,
    value: &Value,
) -> Result<(), NoMemory>
    requires place { IsPlace (schema_of schema.now).kinds here }
    requires lent { (bits : List Bool) × IsLent bits value.now }
    requires has_text { (added : List ℕ) × AddsAttribute (schema_of schema.now) end here name (value_of value.now) added }
    ensures { OnOk result ((added : List ℕ) × AddsAttribute (schema_of schema.now) end here name (value_of value.now) added × (string_bytes text.new ≡ string_bytes text.old ++ added)) }
{
    let kind = attribute_kind(schema, here, name);
    text.push_str(end.gap())?;
    text.push_str("@")?;
    put_name(text, schema, name)?;
    put_equals(text, schema, kind, value)
}

/// Puts what an event adds, at the place reached in the innermost element.
fn put_event(
    text: &mut String,
    end: TextEnd,
    schema: &Schema,
    place: Option<Place>,
    event: &Event,
) -> Result<(), NoMemory>
    requires place { IfSome place (λ here. IsPlace (schema_of schema.now).kinds here) }
    requires lent { (bits : List Bool) × IsLentEvent bits event.now }
    requires has_text { IfSome (event_of event.now) (λ told. (added : List ℕ) × Adds (schema_of schema.now) end place told added) }
    ensures { OnOk result (IfSome (event_of event.now) (λ told. (added : List ℕ) × Adds (schema_of schema.now) end place told added × (string_bytes text.new ≡ string_bytes text.old ++ added))) }
{
    match (event, place) {
        (Event::Start(name), _) => put_start(text, end, schema, *name),
        (Event::Attribute(name, value), Some(here)) => {
            put_attribute(text, end, schema, here, *name, value)
        }
        (Event::Value(value), Some(here)) => put_equals(text, schema, here.kind, value),
        (Event::EndElement, _) => text.push_str(end.closing()),
        (Event::Attribute(..) | Event::Value(_), None) => unreachable!(),
        (Event::Document(_) | Event::Finished, _) => Ok(()),
    }
}

/// Prints the tree that a payload of at most 65,536 bytes spells, in the names of its schema.
///
/// `Refused` exactly where the payload spells no tree, with its refusal.
pub fn print_tree(alloc: Global, schema: &Schema, payload: &[u8]) -> Result<String, PrintFault>
    requires { length payload.now ≤ 65536 }
    ensures printed { IfOk result (λ text. (tree : Tree) × IsDocument (schema_of schema.now) tree payload.now × IsTreeText (schema_of schema.now) tree (string_bytes text)) }
    ensures fault { IfErr result (IsFaultOf (schema_of schema.now) payload.now) }
{
    let mut table = Table::make(alloc, MOST_ENTRIES)?;
    print_with_table(alloc, schema, payload, &mut table)
}

/// Prints with a string table, which has room for 8,192 entries and is emptied.
fn print_with_table(
    alloc: Global,
    schema: &Schema,
    payload: &[u8],
    table: &mut Table,
) -> Result<String, PrintFault>
    requires payload { length payload.now ≤ 65536 }
    requires cap { table.old.cap ≡ most_entries }
    ensures printed { IfOk result (λ text. (tree : Tree) × IsDocument (schema_of schema.now) tree payload.now × IsTreeText (schema_of schema.now) tree (string_bytes text)) }
    ensures fault { IfErr result (IsFaultOf (schema_of schema.now) payload.now) }
{
    let mut reader = EventReader::new(payload, schema, table);
    let mut text = String::new(alloc);
    let mut end = TextEnd::Nothing;
    loop {
        let place = reader.place();
        let event = match reader.next() {
            Ok(event) => event,
            Err(refusal) => return Err(PrintFault::Refused(refusal)),
        };
        match event {
            Event::Finished => return Ok(text),
            _ => {
                put_event(&mut text, end, schema, place, &event)?;
                end = end_behind(&event);
            }
        }
    }
}
