//! Event codes, values and the front of a document, written with a pen.

ghost use Rattle.std.specs.Prelude.{◌≡◌, ℕ, ◌↔◌, length, Some, IfOk, IfErr, OnOk, OnErr, IsErr, IsSome};
ghost use Rattle.exi_bits.specs.Pens.{written_bits};
ghost use Rattle.exi_schema.specs.declared.places.Root.TheVariants.{Kind};
ghost use Rattle.exi_schema.specs.Steps.{IsRoot, IsRootOf, simple_at};
ghost use Rattle.exi_writing.specs.Grammar.{around, stands};
ghost use Rattle.exi_writing.specs.Values.{Entries, most_entries};
ghost use Rattle.exi_writing.specs.Meaning.{AreTexts, event_of, texts_in, value_of};
ghost use Rattle.exi_writing.specs.Writing.{Puts, Lacks, WritesMore, PassesRoom};
ghost use Rattle.exi_events.specs.Front.{SpellsFront};
ghost use Rattle.exi_events.specs.Inside.{AreOpen, HasTop};
ghost use Rattle.exi_events.specs.Reader.{standing_of, state_of, IsReadyAt};
ghost use Rattle.exi_events.specs.Writer.{drafted, IsFound, IsFoundAt, IsOffered, IsShapedEvent, IsPut, HasNoRoom, IsNeeded, MayWrite, WritesValueOf, value_in};

use crate::needed::event_bits;
use crate::offer::Found;
use crate::open::{OpenElement, OpenElements};
use crate::reader::Phase;
use crate::step::RootNumber;
use exi_bits::{BitPen, Full};
use exi_schema::{Offer, Place, Places, Root, Step};
use exi_writing::exi_values::{Event, Table};
use exi_writing::put_value;

/// Writes the header and a document number that names a root.
fn put_front<P: Places>(pen: &mut BitPen, places: &P, number: u32) -> Result<RootNumber, Full>
    requires { (name : ℕ) × (kind : ℕ) × IsRoot (P.schema places.now).roots (P.schema places.now).root_bits number (Kind name kind) }
    ensures ok { IfOk result (λ root. Puts (SpellsFront (P.schema places.now) root.number) pen.old pen.new) }
    ensures number { IfOk result (λ root. root.number ≡ number) }
    ensures named { IfOk result (λ root. IsRoot (P.schema places.now).roots (P.schema places.now).root_bits root.number (Kind root.name root.kind)) }
    ensures of_schema { IfOk result (λ root. IsRootOf (P.schema places.now).kinds (length (P.schema places.now).names) (Kind root.name root.kind)) }
    ensures full { IsErr result ↔ Lacks (SpellsFront (P.schema places.now) number) pen.old }
    ensures bits { IfErr result (PassesRoom pen.old) }
    ensures more { WritesMore pen.old pen.new }
{
    let Root::Kind { name, kind } = places.root(number) else {
        unreachable!()
    };
    pen.put_bits(0x80, 8)?;
    pen.put_bits(number, places.root_width())?;
    Ok(RootNumber { number, name, kind })
}

/// Writes the value of an event as one of a simple kind.
#[inline(always)]
fn put_value_of<P: Places>(
    pen: &mut BitPen,
    places: &P,
    table: &mut Table,
    kind: u16,
    name: u16,
    event: &Event,
) -> Result<(), Full>
    requires simple { IsSome (simple_at (P.schema places.now).kinds kind) }
    requires cap { table.old.cap ≡ most_entries }
    requires texts { AreTexts (written_bits pen.old) table.old.entries }
    requires shaped { IsShapedEvent event.now }
    requires value { (v : _) × (value_in event.now ≡ Some v) × MayWrite (P.schema places.now).kinds kind (texts_in (written_bits pen.old) table.old.entries) name (value_of v) }
    ensures ok { (v : _) → value_in event.now ≡ Some v
        → OnOk result (Puts (λ bits. WritesValueOf (P.schema places.now).kinds kind (texts_in (written_bits pen.old) table.old.entries) name (value_of v) (texts_in (written_bits pen.new) table.new.entries) bits) pen.old pen.new) }
    ensures texts { AreTexts (written_bits pen.new) table.new.entries }
    ensures cap { table.new.cap ≡ most_entries }
    ensures full { (v : _) → value_in event.now ≡ Some v
        → (IsErr result ↔ Lacks (λ bits. (after : Entries) × WritesValueOf (P.schema places.now).kinds kind (texts_in (written_bits pen.old) table.old.entries) name (value_of v) after bits) pen.old) }
    ensures bits { IfErr result (PassesRoom pen.old) }
    ensures more { WritesMore pen.old pen.new }
    ensures stays { OnErr result (table.new ≡ table.old) }
{
    let Some(datatype) = places.datatype(kind) else {
        unreachable!()
    };
    match event {
        Event::Attribute(_, value) | Event::Value(value) => {
            put_value(pen, datatype, name, value, table)
        }
        _ => unreachable!(),
    }
}

/// Writes an event with its code inside the innermost element, which is `top`.
#[inline(always)]
fn put_inside<P: Places>(
    pen: &mut BitPen,
    places: &P,
    table: &mut Table,
    elements: &mut OpenElements,
    top: OpenElement,
    offer: Offer,
    event: &Event,
) -> Result<(), Full>
    requires found { IsFound (P.schema places.now) top.place offer event.now }
    requires top { HasTop elements.old top }
    requires elements { AreOpen (P.schema places.now).kinds elements.old }
    requires cap { table.old.cap ≡ most_entries }
    requires texts { AreTexts (written_bits pen.old) table.old.entries }
    requires shaped { IsShapedEvent event.now }
    requires offered { IsOffered (P.schema places.now) (stands (around elements.old) (texts_in (written_bits pen.old) table.old.entries)) event.now }
    ensures ok { OnOk result (IsPut (P.schema places.now)
        (drafted pen.old (stands (around elements.old) (texts_in (written_bits pen.old) table.old.entries)))
        (drafted pen.new (stands (around elements.new) (texts_in (written_bits pen.new) table.new.entries))) (event_of event.now)) }
    ensures elements { AreOpen (P.schema places.now).kinds elements.new }
    ensures texts { AreTexts (written_bits pen.new) table.new.entries }
    ensures cap { table.new.cap ≡ most_entries }
    ensures full { IsErr result ↔ HasNoRoom (P.schema places.now)
        (drafted pen.old (stands (around elements.old) (texts_in (written_bits pen.old) table.old.entries))) (event_of event.now) }
    ensures bits { IfErr result (PassesRoom pen.old) }
    ensures more { WritesMore pen.old pen.new }
    ensures stays { OnErr result ((elements.new ≡ elements.old) × (table.new ≡ table.old)) }
{
    pen.put_bits(u32::from(offer.code), offer.width)?;
    match offer.step {
        Step::Attribute { name, kind, next } => {
            put_value_of(pen, places, table, kind, name, event)?;
            elements.goes_to(next);
        }
        Step::Element {
            name,
            kind,
            next,
            ..
        } => {
            elements.goes_to(next);
            elements.push(name, Place::first(kind));
        }
        Step::End => elements.pop(),
        Step::Characters { next } => {
            put_value_of(pen, places, table, top.place.kind, top.name, event)?;
            elements.goes_to(next);
        }
    }
    Ok(())
}

/// Writes an event that is offered, part by part.
#[inline(always)]
fn put_parts<P: Places>(
    pen: &mut BitPen,
    places: &P,
    table: &mut Table,
    phase: &mut Phase,
    elements: &mut OpenElements,
    found: Found,
    event: &Event,
) -> Result<(), Full>
    requires found { IsFoundAt (P.schema places.now) (standing_of phase.old elements.old) found event.now }
    requires ready { IsReadyAt (P.schema places.now) phase.old elements.old (written_bits pen.old) table.old }
    requires shaped { IsShapedEvent event.now }
    requires offered { IsOffered (P.schema places.now) (state_of phase.old elements.old (written_bits pen.old) table.old.entries) event.now }
    ensures ready { IsReadyAt (P.schema places.now) phase.new elements.new (written_bits pen.new) table.new }
    ensures same_room { pen.new.room.ghost_name ≡ pen.old.room.ghost_name }
    ensures ok { OnOk result (IsPut (P.schema places.now)
        (drafted pen.old (state_of phase.old elements.old (written_bits pen.old) table.old.entries))
        (drafted pen.new (state_of phase.new elements.new (written_bits pen.new) table.new.entries)) (event_of event.now)) }
    ensures full { IsErr result ↔ HasNoRoom (P.schema places.now)
        (drafted pen.old (state_of phase.old elements.old (written_bits pen.old) table.old.entries)) (event_of event.now) }
    ensures bits { IfErr result (PassesRoom pen.old) }
    ensures more { WritesMore pen.old pen.new }
    ensures stays { OnErr result ((phase.new ≡ phase.old) × (elements.new ≡ elements.old) × (table.new ≡ table.old)) }
{
    match *phase {
        Phase::Before => {
            let Event::Document(number) = event else {
                unreachable!()
            };
            let root = put_front(pen, places, *number)?;
            *phase = Phase::AtRoot {
                name: root.name,
                kind: root.kind,
            };
            Ok(())
        }
        Phase::AtRoot { name, kind } => {
            elements.push(name, Place::first(kind));
            *phase = Phase::Inside;
            Ok(())
        }
        Phase::Inside => match elements.innermost() {
            Some(top) => {
                let Found::Inside(offer) = found else {
                    unreachable!()
                };
                put_inside(pen, places, table, elements, top, offer, event)
            }
            None => Ok(()),
        },
    }
}

/// Writes an event that is offered.
///
/// `Full` exactly where the room is too small for it, with the bits of all that was written and of the whole event.
#[inline(always)]
pub(crate) fn put_event<P: Places>(
    pen: &mut BitPen,
    places: &P,
    table: &mut Table,
    phase: &mut Phase,
    elements: &mut OpenElements,
    found: Found,
    event: &Event,
) -> Result<(), Full>
    requires found { IsFoundAt (P.schema places.now) (standing_of phase.old elements.old) found event.now }
    requires ready { IsReadyAt (P.schema places.now) phase.old elements.old (written_bits pen.old) table.old }
    requires shaped { IsShapedEvent event.now }
    requires offered { IsOffered (P.schema places.now) (state_of phase.old elements.old (written_bits pen.old) table.old.entries) event.now }
    ensures ready { IsReadyAt (P.schema places.now) phase.new elements.new (written_bits pen.new) table.new }
    ensures same_room { pen.new.room.ghost_name ≡ pen.old.room.ghost_name }
    ensures ok { OnOk result (IsPut (P.schema places.now)
        (drafted pen.old (state_of phase.old elements.old (written_bits pen.old) table.old.entries))
        (drafted pen.new (state_of phase.new elements.new (written_bits pen.new) table.new.entries)) (event_of event.now)) }
    ensures full { IsErr result ↔ HasNoRoom (P.schema places.now)
        (drafted pen.old (state_of phase.old elements.old (written_bits pen.old) table.old.entries)) (event_of event.now) }
    ensures needed { IfErr result (IsNeeded (P.schema places.now)
        (drafted pen.old (state_of phase.old elements.old (written_bits pen.old) table.old.entries)) (event_of event.now)) }
    ensures bits { IfErr result (PassesRoom pen.old) }
    ensures more { WritesMore pen.old pen.new }
    ensures stays { OnErr result ((phase.new ≡ phase.old) × (elements.new ≡ elements.old) × (table.new ≡ table.old)) }
{
    let before = pen.place();
    match put_parts(pen, places, table, phase, elements, found, event) {
        Ok(()) => Ok(()),
        Err(_) => Err(Full {
            bits: u64::from(before)
                + event_bits(pen, places, table, *phase, elements, found, event),
        }),
    }
}
