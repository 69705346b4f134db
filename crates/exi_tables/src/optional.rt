//! The sequences of three values, of which the second may be absent, among a schema's kinds.

ghost use Rattle.std.specs.Prelude.{◌≡◌, ◌<◌, [], ◌∷◌, true, false, length, Some, IfSome, slice_get};
ghost use Rattle.exi_schema.specs.declared.places.OptionalSequence.{OptionalSequence as OptionalChildren};
ghost use Rattle.exi_schema.specs.declared.places.Step.TheVariants.{End};
ghost use Rattle.exi_schema.specs.Offers.{IsPlace, offers};
ghost use Rattle.exi_schema.specs.Sequences.{IsOptionalSequence};
ghost use Rattle.exi_schema.specs.Told.{schema_of};
ghost use Rattle.exi_tables.specs.declared.optional.ChildStep.{ChildStep as StepOfChild};
ghost use Rattle.exi_tables.specs.Followed.{IsChildStep, IsOnlyChild, IsOptionalChild, step_of};

use crate::sequences::may_stand;
use exi_schema::{OptionalSequence, Place, Places, Schema, SequenceChild, Step};

/// A step to a child with a value: the child, its kind, and the place behind it.
#[derive(Clone, Copy)]
pub(crate) struct ChildStep {
    pub(crate) child: SequenceChild,
    pub(crate) kind: u16,
    pub(crate) next: Place,
}

/// The child with a value that a code starts at a place, if it may stand there.
fn child_step(schema: &Schema, place: Place, code: u16) -> Option<ChildStep>
    requires place { IsPlace (schema_of schema.now).kinds place }
    requires code { code < length (offers (schema_of schema.now).kinds place) }
    ensures child { IfSome result (IsChildStep (schema_of schema.now).kinds place code) }
    ensures place { IfSome result (λ it. IsPlace (schema_of schema.now).kinds it.next) }
    ensures whole { (it : StepOfChild) → IsChildStep (schema_of schema.now).kinds place code it → result ≡ Some it }
{
    match schema.advance(place, code) {
        Step::Element {
            name,
            kind,
            next,
            standing,
            past_limit,
        } => {
            if !may_stand(standing, past_limit) {
                return None;
            }
            let datatype = schema.datatype(kind)?;
            let child = SequenceChild { name, datatype };
            Some(ChildStep { child, kind, next })
        }
        _ => None,
    }
}

/// The child with a value that is the one thing at a place.
fn only_child(schema: &Schema, place: Place) -> Option<ChildStep>
    requires place { IsPlace (schema_of schema.now).kinds place }
    ensures child { IfSome result (IsOnlyChild (schema_of schema.now).kinds place) }
    ensures place { IfSome result (λ it. IsPlace (schema_of schema.now).kinds it.next) }
    ensures whole { (it : StepOfChild) → IsOnlyChild (schema_of schema.now).kinds place it → result ≡ Some it }
{
    if schema.alternatives(place) != 1 {
        return None;
    }
    child_step(schema, place, 0)
}

/// The child with a value that is the first of two things at a place.
fn optional_child(schema: &Schema, place: Place) -> Option<ChildStep>
    requires place { IsPlace (schema_of schema.now).kinds place }
    ensures child { IfSome result (IsOptionalChild (schema_of schema.now).kinds place) }
    ensures place { IfSome result (λ it. IsPlace (schema_of schema.now).kinds it.next) }
    ensures whole { (it : StepOfChild) → IsOptionalChild (schema_of schema.now).kinds place it → result ≡ Some it }
{
    if schema.alternatives(place) != 2 {
        return None;
    }
    child_step(schema, place, 0)
}

/// Whether the second code of a place starts this child and leads to the place behind it.
fn is_second(schema: &Schema, place: Place, third: ChildStep) -> bool
    requires place { IsPlace (schema_of schema.now).kinds place }
    requires code { 1 < length (offers (schema_of schema.now).kinds place) }
    ensures same { result ≡ true → slice_get (offers (schema_of schema.now).kinds place) 1 ≡ Some (step_of third) }
    ensures other { result ≡ false → slice_get (offers (schema_of schema.now).kinds place) 1 ≡ Some (step_of third) → ⊥ }
{
    match schema.advance(place, 1) {
        Step::Element {
            name,
            kind,
            next,
            standing,
            past_limit,
        } => {
            name == third.child.name
                && kind == third.kind
                && next == third.next
                && may_stand(standing, past_limit)
        }
        _ => false,
    }
}

/// Whether the end is the one thing at a place.
fn is_end(schema: &Schema, place: Place) -> bool
    requires place { IsPlace (schema_of schema.now).kinds place }
    ensures end { result ≡ true → offers (schema_of schema.now).kinds place ≡ End ∷ [] }
    ensures other { result ≡ false → offers (schema_of schema.now).kinds place ≡ End ∷ [] → ⊥ }
{
    if schema.alternatives(place) != 1 {
        return false;
    }
    match schema.advance(place, 0) {
        Step::End => true,
        _ => false,
    }
}

/// The children of a kind that is a sequence of three values of which the second may be absent.
pub(crate) fn optional_sequence_of_kind(schema: &Schema, kind: u16) -> Option<OptionalSequence>
    requires { kind < length (schema_of schema.now).kinds }
    ensures tells { IfSome result (IsOptionalSequence (schema_of schema.now).kinds (record { kind = kind; particle = 0; copies = 0; attributes = 0 })) }
    ensures whole { (all : OptionalChildren) → IsOptionalSequence (schema_of schema.now).kinds (record { kind = kind; particle = 0; copies = 0; attributes = 0 }) all → result ≡ Some all }
{
    let first = only_child(schema, Place::first(kind))?;
    let second = optional_child(schema, first.next)?;
    let third = only_child(schema, second.next)?;
    if !is_second(schema, first.next, third) {
        return None;
    }
    if !is_end(schema, third.next) {
        return None;
    }
    Some(OptionalSequence {
        first: first.child,
        second: second.child,
        third: third.child,
    })
}
