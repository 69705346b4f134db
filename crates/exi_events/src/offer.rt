//! What may be put at a place.

ghost use Rattle.std.specs.Prelude.{◌≡◌, ◌<◌, ◌≤◌, ◌^◌, ℕ, ◌↔◌, IsTrue, length, Some, None, IfSome, IsSome, slice_get};
ghost use Rattle.exi_spec.specs.Bits.{bits_of};
ghost use Rattle.exi_schema.specs.declared.places.Root.TheVariants.{Kind};
ghost use Rattle.exi_schema.specs.declared.places.Step.{Step as SchemaStep};
ghost use Rattle.exi_schema.specs.Offers.{IsPlace, IsWidth, offers};
ghost use Rattle.exi_schema.specs.Steps.{IsStep, IsRoot, simple_at};
ghost use Rattle.exi_writing.specs.Grammar.{Inside, stands};
ghost use Rattle.exi_writing.specs.Values.{most_entries};
ghost use Rattle.exi_writing.specs.Meaning.{AreTexts, texts_in, value_of};
ghost use Rattle.exi_events.specs.Open.{opened_of};
ghost use Rattle.exi_events.specs.Writer.{IsOffered, IsShapedEvent, IsStepOf, IsFound, MayWrite, sought_in, value_in};

use crate::open::OpenElement;
use crate::value::{has_entry, is_value};
use exi_schema::{Offer, Place, Places, Root, Sought, Step};
use exi_writing::exi_values::{Event, Table, Value};

/// Whether a document number names a root.
pub(crate) fn names_root<P: Places>(places: &P, number: u32) -> bool
    ensures { IsTrue result ↔ ((name : ℕ) × (kind : ℕ) × IsRoot (P.schema places.now).roots (P.schema places.now).root_bits number (Kind name kind)) }
{
    match places.root(number) {
        Root::Kind { .. } => true,
        Root::Unknown | Root::NoSuch => false,
    }
}

/// What an event is looked for as among the steps of a place; `None` for one that has no code.
#[inline(always)]
fn sought_by(event: &Event) -> Option<Sought>
    ensures { result ≡ sought_in event.now }
{
    match event {
        Event::Document(_) | Event::Finished => None,
        Event::Start(name) => Some(Sought::Element(*name)),
        Event::Attribute(name, _) => Some(Sought::Attribute(*name)),
        Event::Value(_) => Some(Sought::Characters),
        Event::EndElement => Some(Sought::End),
    }
}

/// The code of an event at a place, an element's only where it may stand there; `None` where the event is not offered.
#[inline(always)]
pub(crate) fn offer_of<P: Places>(places: &P, here: Place, event: &Event) -> Option<Offer>
    requires { IsPlace (P.schema places.now).kinds here }
    ensures offered { IfSome result (λ offer. slice_get (offers (P.schema places.now).kinds here) offer.code ≡ Some offer.step) }
    ensures width { IfSome result (λ offer. IsWidth (length (offers (P.schema places.now).kinds here)) offer.width) }
    ensures meant { IfSome result (λ offer. IsStepOf offer.step event.now) }
    ensures of_schema { IfSome result (λ offer. IsStep (P.schema places.now).kinds (length (P.schema places.now).names) here.kind offer.step) }
    ensures few { IfSome result (λ _. length (offers (P.schema places.now).kinds here) < 2 ^ 16) }
    ensures none { result ≡ None → (code : ℕ) (step : SchemaStep) → slice_get (offers (P.schema places.now).kinds here) code ≡ Some step → IsStepOf step event.now → ⊥ }
{
    let Some(sought) = sought_by(event) else {
        return None;
    };
    places.find(here, sought)
}

/// How an event is put.
#[derive(Clone, Copy)]
pub(crate) enum Found {
    /// Before the root or behind it.
    Outside,
    /// With this code inside the innermost element.
    Inside(Offer),
}

/// What is found of an event that has no code, if it may be put.
pub(crate) fn outside(offered: bool) -> Option<Found>
    ensures offered { IsSome result ↔ IsTrue offered }
    ensures found { IfSome result (λ f. f ≡ Found.Outside) }
{
    if offered { Some(Found::Outside) } else { None }
}

/// What is found of an event with this code.
pub(crate) fn inside(offer: Option<Offer>) -> Option<Found>
    ensures offered { IsSome result ↔ IsSome offer }
    ensures found { IfSome result (λ f. IfSome offer (λ o. f ≡ Found.Inside o)) }
{
    match offer {
        Some(offer) => Some(Found::Inside(offer)),
        None => None,
    }
}

/// The code of an event inside the innermost element, which is `top`, if it may be put there behind the bytes that are written.
#[inline(always)]
pub(crate) fn offer_inside<P: Places>(
    written: &[u8],
    places: &P,
    table: &Table,
    top: OpenElement,
    event: &Event,
) -> Option<Offer>
    requires few { length written.now ≤ 65536 }
    requires place { IsPlace (P.schema places.now).kinds top.place }
    requires cap { table.now.cap ≡ most_entries }
    requires texts { AreTexts (bits_of written.now) table.now.entries }
    requires shaped { IsShapedEvent event.now }
    ensures offered { (above : _) → (IsSome result ↔ IsOffered (P.schema places.now) (stands (Inside (opened_of top) above) (texts_in (bits_of written.now) table.now.entries)) event.now) }
    ensures found { IfSome result (λ offer. IsFound (P.schema places.now) top.place offer event.now) }
{
    let Some(offer) = offer_of(places, top.place, event) else {
        return None;
    };
    if takes_value(written, places, table, top, offer.step, event) {
        Some(offer)
    } else {
        None
    }
}

/// Whether the value of an event, if it has one, may be put inside the innermost element, where the event means this step.
#[inline(always)]
fn takes_value<P: Places>(
    written: &[u8],
    places: &P,
    table: &Table,
    top: OpenElement,
    step: Step,
    event: &Event,
) -> bool
    requires few { length written.now ≤ 65536 }
    requires place { IsPlace (P.schema places.now).kinds top.place }
    requires cap { table.now.cap ≡ most_entries }
    requires texts { AreTexts (bits_of written.now) table.now.entries }
    requires shaped { IsShapedEvent event.now }
    requires offered { (code : ℕ) × (slice_get (offers (P.schema places.now).kinds top.place) code ≡ Some step) }
    requires meant { IsStepOf step event.now }
    requires of_schema { IsStep (P.schema places.now).kinds (length (P.schema places.now).names) top.place.kind step }
    ensures { (above : _) → (IsTrue result ↔ IsOffered (P.schema places.now) (stands (Inside (opened_of top) above) (texts_in (bits_of written.now) table.now.entries)) event.now) }
{
    match step {
        Step::Attribute { name, kind, .. } => {
            offers_value(written, places, table, kind, name, event)
        }
        Step::Characters { .. } => {
            offers_value(written, places, table, top.place.kind, top.name, event)
        }
        Step::Element { .. } | Step::End => true,
    }
}

/// Whether the value of an event may be put as one of a simple kind.
#[inline(always)]
fn offers_value<P: Places>(
    written: &[u8],
    places: &P,
    table: &Table,
    kind: u16,
    name: u16,
    event: &Event,
) -> bool
    requires few { length written.now ≤ 65536 }
    requires simple { IsSome (simple_at (P.schema places.now).kinds kind) }
    requires cap { table.now.cap ≡ most_entries }
    requires texts { AreTexts (bits_of written.now) table.now.entries }
    requires shaped { IsShapedEvent event.now }
    requires value { IsSome (value_in event.now) }
    ensures { (v : _) → value_in event.now ≡ Some v
        → (IsTrue result ↔ MayWrite (P.schema places.now).kinds kind (texts_in (bits_of written.now) table.now.entries) name (value_of v)) }
{
    let Some(datatype) = places.datatype(kind) else {
        unreachable!()
    };
    match event {
        Event::Attribute(_, value) | Event::Value(value) => {
            is_value(datatype, value) && has_entry(written, table, value)
        }
        _ => unreachable!(),
    }
}
