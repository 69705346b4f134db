//! The elements of a message, put one after the other.

ghost use Rattle.std.specs.Prelude.{◌≡◌, ◌∷◌, List, Some, None, OnSome, map};
ghost use Rattle.exi_events.specs.Trees.{Event as TreeEvent, Attribute, Start, Content, EndElement};
ghost use Rattle.exi_events.specs.Writer.{IsReadyToPut, KeepsLent, IsShapedEvent};
ghost use Rattle.exi_events.specs.Meaning.{event_of};
ghost use Rattle.message_parts.specs.Contents.{Of, holding_with, one_onto, perhaps_onto, each_onto, maybe_onto, choice_onto, mapped};
ghost use Rattle.message_parts.specs.Writing.{Target, Writes, put_of};

use crate::part::{PutChoice, PutRecord, Simple};
use arrayvec::ArrayVec;
use exi_events::{Event, EventWriter};
use exi_schema::Places;

/// Puts an event where it is offered. The first lack of room is kept by the writer, and nothing is put from then on.
#[inline(always)]
pub fn put_event<P: Places>(writer: &mut EventWriter<'_, '_, P>, event: &Event<'_>)
    requires ready { IsReadyToPut writer.old }
    requires shaped { IsShapedEvent event.now }
    ensures ready { IsReadyToPut writer.new }
    ensures lent { KeepsLent writer.old writer.new }
    ensures write { (F : Target) (e : TreeEvent) (rest : List TreeEvent) → Writes F (e ∷ rest) (put_of writer.old) → event_of event.now ≡ Some e
        → Writes F rest (put_of writer.new) }
{
    let _put = writer.try_put(event);
}

/// Puts an event by itself, where it can't be put at once.
#[inline(never)]
fn put_alone<P: Places>(writer: &mut EventWriter<'_, '_, P>, event: &Event<'_>)
    requires ready { IsReadyToPut writer.old }
    requires shaped { IsShapedEvent event.now }
    ensures ready { IsReadyToPut writer.new }
    ensures lent { KeepsLent writer.old writer.new }
    ensures write { (F : Target) (e : TreeEvent) (rest : List TreeEvent) → Writes F (e ∷ rest) (put_of writer.old) → event_of event.now ≡ Some e
        → Writes F rest (put_of writer.new) }
{
    put_event(writer, event);
}

/// Puts the start of an element.
#[inline(never)]
fn put_start<P: Places>(writer: &mut EventWriter<'_, '_, P>, name: u16)
    requires ready { IsReadyToPut writer.old }
    ensures ready { IsReadyToPut writer.new }
    ensures lent { KeepsLent writer.old writer.new }
    ensures write { (F : Target) (rest : List TreeEvent) → Writes F (Start name ∷ rest) (put_of writer.old)
        → Writes F rest (put_of writer.new) }
{
    match writer.put_start(name) {
        Some(()) => {}
        None => put_alone(writer, &Event::Start(name)),
    }
}

/// Puts the value of an element.
#[inline(never)]
fn put_content<'a, T: Simple<'a>, P: Places>(writer: &mut EventWriter<'_, '_, P>, value: &T)
    requires ready { IsReadyToPut writer.old }
    ensures ready { IsReadyToPut writer.new }
    ensures lent { KeepsLent writer.old writer.new }
    ensures write { (F : Target) (rest : List TreeEvent) → Writes F (Content (T.value value.now) ∷ rest) (put_of writer.old)
        → Writes F rest (put_of writer.new) }
{
    put_event(writer, &Event::Value(value.as_value()));
}

/// Puts the end of an element.
#[inline(never)]
fn put_end<P: Places>(writer: &mut EventWriter<'_, '_, P>)
    requires ready { IsReadyToPut writer.old }
    ensures ready { IsReadyToPut writer.new }
    ensures lent { KeepsLent writer.old writer.new }
    ensures write { (F : Target) (rest : List TreeEvent) → Writes F (EndElement ∷ rest) (put_of writer.old)
        → Writes F rest (put_of writer.new) }
{
    match writer.put_end() {
        Some(()) => {}
        None => put_alone(writer, &Event::EndElement),
    }
}

/// Puts an attribute.
pub fn put_attribute<'a, T: Simple<'a>, P: Places>(
    writer: &mut EventWriter<'_, '_, P>,
    name: u16,
    value: &T,
)
    requires ready { IsReadyToPut writer.old }
    ensures ready { IsReadyToPut writer.new }
    ensures lent { KeepsLent writer.old writer.new }
    ensures write { (F : Target) (rest : List TreeEvent) → Writes F (Attribute name (T.value value.now) ∷ rest) (put_of writer.old)
        → Writes F rest (put_of writer.new) }
{
    put_event(writer, &Event::Attribute(name, value.as_value()));
}

/// Puts an attribute, where it is there.
pub fn put_optional_attribute<'a, T: Simple<'a>, P: Places>(
    writer: &mut EventWriter<'_, '_, P>,
    name: u16,
    value: &Option<T>,
)
    requires ready { IsReadyToPut writer.old }
    ensures ready { IsReadyToPut writer.new }
    ensures lent { KeepsLent writer.old writer.new }
    ensures write { (F : Target) (rest : List TreeEvent) → Writes F (maybe_onto name (mapped T.value value.now) rest) (put_of writer.old)
        → Writes F rest (put_of writer.new) }
{
    match value {
        None => {}
        Some(value) => put_attribute(writer, name, value),
    }
}

/// Puts a value, event by event.
#[inline(never)]
fn put_value_events<'a, T: Simple<'a>, P: Places>(
    writer: &mut EventWriter<'_, '_, P>,
    name: u16,
    value: &T,
)
    requires ready { IsReadyToPut writer.old }
    ensures ready { IsReadyToPut writer.new }
    ensures lent { KeepsLent writer.old writer.new }
    ensures write { (F : Target) (rest : List TreeEvent) → Writes F (one_onto name (Of (T.value value.now)) rest) (put_of writer.old)
        → Writes F rest (put_of writer.new) }
{
    put_start(writer, name);
    put_content(writer, value);
    put_end(writer);
}

/// Puts a value.
pub fn put_value<'a, T: Simple<'a>, P: Places>(
    writer: &mut EventWriter<'_, '_, P>,
    name: u16,
    value: &T,
)
    requires ready { IsReadyToPut writer.old }
    ensures ready { IsReadyToPut writer.new }
    ensures lent { KeepsLent writer.old writer.new }
    ensures write { (F : Target) (rest : List TreeEvent) → Writes F (one_onto name (Of (T.value value.now)) rest) (put_of writer.old)
        → Writes F rest (put_of writer.new) }
{
    match writer.put_child(name, &value.as_value()) {
        Some(()) => {}
        None => put_value_events(writer, name, value),
    }
}

/// Puts a value, where it is there.
pub fn put_optional_value<'a, T: Simple<'a>, P: Places>(
    writer: &mut EventWriter<'_, '_, P>,
    name: u16,
    value: &Option<T>,
)
    requires ready { IsReadyToPut writer.old }
    ensures ready { IsReadyToPut writer.new }
    ensures lent { KeepsLent writer.old writer.new }
    ensures write { (F : Target) (rest : List TreeEvent) → Writes F (perhaps_onto name (mapped (λ x. Of (T.value x)) value.now) rest) (put_of writer.old)
        → Writes F rest (put_of writer.new) }
{
    match value {
        None => {}
        Some(value) => put_value(writer, name, value),
    }
}

/// Puts values of one name.
pub fn put_values<'a, T: Simple<'a>, P: Places, const N: usize>(
    writer: &mut EventWriter<'_, '_, P>,
    name: u16,
    values: &ArrayVec<T, N>,
)
    requires ready { IsReadyToPut writer.old }
    ensures ready { IsReadyToPut writer.new }
    ensures lent { KeepsLent writer.old writer.new }
    ensures write { (F : Target) (rest : List TreeEvent) → Writes F (each_onto name (map (λ x. Of (T.value x)) values.now.items) rest) (put_of writer.old)
        → Writes F rest (put_of writer.new) }
{
    for value in values.as_slice() {
        put_value(writer, name, value);
    }
}

/// Puts an element with attributes and children at once, where it is three values of few bits. `None`, and nothing is put, where it can't.
#[inline(always)]
fn put_three<T: PutRecord, P: Places>(
    writer: &mut EventWriter<'_, '_, P>,
    name: u16,
    value: &T,
) -> Option<()>
    requires ready { IsReadyToPut writer.old }
    ensures ready { IsReadyToPut writer.new }
    ensures lent { KeepsLent writer.old writer.new }
    ensures none { result ≡ None → writer.new ≡ writer.old }
    ensures write { (F : Target) (rest : List TreeEvent) → Writes F (one_onto name (holding_with (T.given value.now) (T.parts value.now)) rest) (put_of writer.old)
        → OnSome result (Writes F rest (put_of writer.new)) }
{
    let three = value.three_values()?;
    writer.put_three(name, &three)
}

/// The same of three values of few bits of which the second may be absent.
#[inline(always)]
fn put_two_or_three<T: PutRecord, P: Places>(
    writer: &mut EventWriter<'_, '_, P>,
    name: u16,
    value: &T,
) -> Option<()>
    requires ready { IsReadyToPut writer.old }
    ensures ready { IsReadyToPut writer.new }
    ensures lent { KeepsLent writer.old writer.new }
    ensures none { result ≡ None → writer.new ≡ writer.old }
    ensures write { (F : Target) (rest : List TreeEvent) → Writes F (one_onto name (holding_with (T.given value.now) (T.parts value.now)) rest) (put_of writer.old)
        → OnSome result (Writes F rest (put_of writer.new)) }
{
    let values = value.optional_values()?;
    writer.put_optional(name, &values)
}

/// The same of either, where it is one of the two.
#[inline(always)]
fn put_at_once<T: PutRecord, P: Places>(
    writer: &mut EventWriter<'_, '_, P>,
    name: u16,
    value: &T,
) -> Option<()>
    requires ready { IsReadyToPut writer.old }
    ensures ready { IsReadyToPut writer.new }
    ensures lent { KeepsLent writer.old writer.new }
    ensures none { result ≡ None → writer.new ≡ writer.old }
    ensures write { (F : Target) (rest : List TreeEvent) → Writes F (one_onto name (holding_with (T.given value.now) (T.parts value.now)) rest) (put_of writer.old)
        → OnSome result (Writes F rest (put_of writer.new)) }
{
    match put_three(writer, name, value) {
        Some(()) => Some(()),
        None => put_two_or_three(writer, name, value),
    }
}

/// Puts an element with attributes and children, part by part.
fn put_record_parts<T: PutRecord, P: Places>(
    writer: &mut EventWriter<'_, '_, P>,
    name: u16,
    value: &T,
)
    requires ready { IsReadyToPut writer.old }
    ensures ready { IsReadyToPut writer.new }
    ensures lent { KeepsLent writer.old writer.new }
    ensures write { (F : Target) (rest : List TreeEvent) → Writes F (one_onto name (holding_with (T.given value.now) (T.parts value.now)) rest) (put_of writer.old)
        → Writes F rest (put_of writer.new) }
{
    put_start(writer, name);
    value.write(writer);
    put_end(writer);
}

/// Puts an element with attributes and children.
pub fn put_record<T: PutRecord, P: Places>(
    writer: &mut EventWriter<'_, '_, P>,
    name: u16,
    value: &T,
)
    requires ready { IsReadyToPut writer.old }
    ensures ready { IsReadyToPut writer.new }
    ensures lent { KeepsLent writer.old writer.new }
    ensures write { (F : Target) (rest : List TreeEvent) → Writes F (one_onto name (holding_with (T.given value.now) (T.parts value.now)) rest) (put_of writer.old)
        → Writes F rest (put_of writer.new) }
{
    match put_at_once(writer, name, value) {
        Some(()) => {}
        None => put_record_parts(writer, name, value),
    }
}

/// Puts one where it is there.
pub fn put_optional<T: PutRecord, P: Places>(
    writer: &mut EventWriter<'_, '_, P>,
    name: u16,
    value: &Option<T>,
)
    requires ready { IsReadyToPut writer.old }
    ensures ready { IsReadyToPut writer.new }
    ensures lent { KeepsLent writer.old writer.new }
    ensures write { (F : Target) (rest : List TreeEvent) → Writes F (perhaps_onto name (mapped (λ x. holding_with (T.given x) (T.parts x)) value.now) rest) (put_of writer.old)
        → Writes F rest (put_of writer.new) }
{
    match value {
        None => {}
        Some(value) => put_record(writer, name, value),
    }
}

/// Puts those of one name.
pub fn put_records<T: PutRecord, P: Places, const N: usize>(
    writer: &mut EventWriter<'_, '_, P>,
    name: u16,
    values: &ArrayVec<T, N>,
)
    requires ready { IsReadyToPut writer.old }
    ensures ready { IsReadyToPut writer.new }
    ensures lent { KeepsLent writer.old writer.new }
    ensures write { (F : Target) (rest : List TreeEvent) → Writes F (each_onto name (map (λ x. holding_with (T.given x) (T.parts x)) values.now.items) rest) (put_of writer.old)
        → Writes F rest (put_of writer.new) }
{
    for value in values.as_slice() {
        put_record(writer, name, value);
    }
}

/// Puts one of several elements.
pub fn put_choice<T: PutChoice, P: Places>(writer: &mut EventWriter<'_, '_, P>, value: &T)
    requires ready { IsReadyToPut writer.old }
    ensures ready { IsReadyToPut writer.new }
    ensures lent { KeepsLent writer.old writer.new }
    ensures write { (F : Target) (rest : List TreeEvent) → Writes F (one_onto (T.name value.now) (T.inside value.now) rest) (put_of writer.old)
        → Writes F rest (put_of writer.new) }
{
    value.write_member(writer);
}

/// Puts one of several elements, where it is there.
pub fn put_optional_choice<T: PutChoice, P: Places>(
    writer: &mut EventWriter<'_, '_, P>,
    value: &Option<T>,
)
    requires ready { IsReadyToPut writer.old }
    ensures ready { IsReadyToPut writer.new }
    ensures lent { KeepsLent writer.old writer.new }
    ensures write { (F : Target) (rest : List TreeEvent) → Writes F (choice_onto (mapped (λ v. (T.name v, T.inside v)) value.now) rest) (put_of writer.old)
        → Writes F rest (put_of writer.new) }
{
    match value {
        None => {}
        Some(value) => value.write_member(writer),
    }
}
