//! How many bits an event needs, whether the room has them or not.

ghost use Rattle.std.specs.Prelude.{◌≡◌, ◌<◌, ◌^◌, Some, IsSome};
ghost use Rattle.exi_bits.specs.Pens.{written_bits};
ghost use Rattle.exi_schema.specs.Offers.{IsPlace};
ghost use Rattle.exi_schema.specs.Steps.{simple_at};
ghost use Rattle.exi_writing.specs.Grammar.{Inside, stands};
ghost use Rattle.exi_writing.specs.Values.{Entries, most_entries};
ghost use Rattle.exi_writing.specs.Meaning.{AreTexts, event_of, texts_in, value_of};
ghost use Rattle.exi_writing.specs.Writing.{HasLength};
ghost use Rattle.exi_events.specs.Open.{opened_of};
ghost use Rattle.exi_events.specs.Reader.{standing_of, state_of, IsReadyAt};
ghost use Rattle.exi_events.specs.Writer.{IsFound, IsFoundAt, IsOffered, IsShapedEvent, HasBits, MayWrite, WritesValueOf, value_in};

use crate::offer::Found;
use crate::open::{OpenElement, OpenElements};
use crate::reader::Phase;
use exi_bits::BitPen;
use exi_schema::{Offer, Places, Step};
use exi_writing::exi_values::{Event, Table};
use exi_writing::value_bits;

/// The bits of the value of an event, as one of a simple kind.
#[inline(never)]
fn value_bits_of<P: Places>(
    pen: &BitPen,
    places: &P,
    table: &Table,
    kind: u16,
    name: u16,
    event: &Event,
) -> u64
    requires simple { IsSome (simple_at (P.schema places.now).kinds kind) }
    requires cap { table.now.cap ≡ most_entries }
    requires texts { AreTexts (written_bits pen.now) table.now.entries }
    requires shaped { IsShapedEvent event.now }
    requires value { (v : _) × (value_in event.now ≡ Some v) × MayWrite (P.schema places.now).kinds kind (texts_in (written_bits pen.now) table.now.entries) name (value_of v) }
    ensures bits { (v : _) → value_in event.now ≡ Some v
        → HasLength (λ bits. (after : Entries) × WritesValueOf (P.schema places.now).kinds kind (texts_in (written_bits pen.now) table.now.entries) name (value_of v) after bits) result }
    ensures few { result < 2 ^ 44 }
{
    let Some(datatype) = places.datatype(kind) else {
        unreachable!()
    };
    match event {
        Event::Attribute(_, value) | Event::Value(value) => {
            value_bits(pen, datatype, name, value, table)
        }
        _ => unreachable!(),
    }
}

/// The bits of an event with its code inside the innermost element, which is `top`.
#[inline(always)]
fn inside_bits<P: Places>(
    pen: &BitPen,
    places: &P,
    table: &Table,
    top: OpenElement,
    offer: Offer,
    event: &Event,
) -> u64
    requires found { IsFound (P.schema places.now) top.place offer event.now }
    requires place { IsPlace (P.schema places.now).kinds top.place }
    requires cap { table.now.cap ≡ most_entries }
    requires texts { AreTexts (written_bits pen.now) table.now.entries }
    requires shaped { IsShapedEvent event.now }
    requires offered { (above : _) × IsOffered (P.schema places.now) (stands (Inside (opened_of top) above) (texts_in (written_bits pen.now) table.now.entries)) event.now }
    ensures bits { (above : _) → HasBits (P.schema places.now) (stands (Inside (opened_of top) above) (texts_in (written_bits pen.now) table.now.entries)) (event_of event.now) result }
    ensures few { result < 2 ^ 45 }
{
    let code = u64::from(offer.width);
    match offer.step {
        Step::Attribute { name, kind, .. } => {
            code + value_bits_of(pen, places, table, kind, name, event)
        }
        Step::Characters { .. } => {
            code + value_bits_of(pen, places, table, top.place.kind, top.name, event)
        }
        Step::Element { .. } | Step::End => code,
    }
}

/// The bits of an event that is offered behind what a pen has written.
#[inline(always)]
pub(crate) fn event_bits<P: Places>(
    pen: &BitPen,
    places: &P,
    table: &Table,
    phase: Phase,
    elements: &OpenElements,
    found: Found,
    event: &Event,
) -> u64
    requires found { IsFoundAt (P.schema places.now) (standing_of phase elements.now) found event.now }
    requires ready { IsReadyAt (P.schema places.now) phase elements.now (written_bits pen.now) table.now }
    requires shaped { IsShapedEvent event.now }
    requires offered { IsOffered (P.schema places.now) (state_of phase elements.now (written_bits pen.now) table.now.entries) event.now }
    ensures bits { HasBits (P.schema places.now) (state_of phase elements.now (written_bits pen.now) table.now.entries) (event_of event.now) result }
    ensures few { result < 2 ^ 45 }
{
    match phase {
        Phase::Before => 8 + u64::from(places.root_width()),
        Phase::AtRoot { .. } => 0,
        Phase::Inside => match elements.innermost() {
            Some(top) => {
                let Found::Inside(offer) = found else {
                    unreachable!()
                };
                inside_bits(pen, places, table, top, offer, event)
            }
            None => 0,
        },
    }
}
