//! The next event of a text.

ghost use Rattle.std.specs.Prelude.{◌≡◌, ◌<◌, ◌++◌, ◌∷◌, [], ℕ, List, Some, length, slice_get, codes, IfOk, IfErr, IsSome};
ghost use Rattle.std.specs.List.{AllByRecursion};
ghost use Rattle.exi_schema.specs.Plain.{containing, plain_particles};
ghost use Rattle.exi_schema.specs.Steps.{simple_at};
ghost use Rattle.exi_schema.specs.Told.{schema_of};
ghost use Rattle.exi_documents.specs.Trees.{Document};
ghost use Rattle.dialect_text.specs.Dialect.{Before, AtRoot, Within, attribute_of, attribute_named, element_of, element_named, gap, IsBeforeElements};
ghost use Rattle.dialect_text.specs.Languages.{Completes};
ghost use Rattle.dialect_text.specs.Scanning.{event_of, IsSound};
ghost use Rattle.dialect_text.specs.Following.{TakesNext, StallsAt, StartsElement, StartsAttribute, StartsPart, AwaitsAttribute};

use crate::elements::{Filling, OpenElement, OpenElements};
use crate::kinds::{kind_of_attribute, kind_of_element};
use crate::names::{awaited_attributes, awaited_elements, awaited_roots};
use crate::said::Said;
use crate::take::{take_gap, take_name, take_value};
use exi_schema::{AttributeOf, Declaration, Particle, RootOf, Schema};
use std::alloc::Global;
use value_text::{ScanFault, TextCursor};

/// Takes the front of the root, its name and the mark behind it.
pub(crate) fn take_root(
    alloc: Global,
    schema: &Schema,
    cursor: &mut TextCursor,
) -> Result<RootOf, ScanFault>
    ensures ok { IfOk result (λ root. TakesNext (schema_of schema.now) [] (Completes (schema_of schema.now) Before) Before cursor.old (Document root.number) (AtRoot root.name root.kind) cursor.new) }
    ensures fault { IfErr result (StallsAt (Completes (schema_of schema.now) Before) cursor.old) }
{
    let awaited = awaited_roots(alloc, schema)?;
    let at = take_name(cursor, schema, awaited.as_slice())?;
    Ok(schema.roots[at])
}

/// Takes the value of an element of a simple kind, or ends it behind the value.
fn take_simple(
    alloc: Global,
    schema: &Schema,
    cursor: &mut TextCursor,
    elements: &mut OpenElements,
    top: OpenElement,
) -> Result<Said, ScanFault>
    requires top { (above : List _) × (elements.old ≡ top ∷ above) }
    requires sound { IsSound (schema_of schema.now) (Within elements.old) }
    requires simple { IsSome (simple_at (schema_of schema.now).kinds top.kind) }
    ensures ok { IfOk result (λ said. TakesNext (schema_of schema.now) [] (Completes (schema_of schema.now) (Within elements.old)) (Within elements.old) cursor.old (event_of said) (Within elements.new) cursor.new) }
    ensures fault { IfErr result (StallsAt (Completes (schema_of schema.now) (Within elements.old)) cursor.old) }
    ensures kept { IfErr result (λ _. elements.new ≡ elements.old) }
{
    match top.filling {
        Filling::Nothing => {
            let value = take_value(alloc, schema, cursor, top.kind)?;
            elements.fill(Filling::Value);
            Ok(Said::Content(value))
        }
        Filling::Attributes | Filling::Elements | Filling::Value => {
            elements.pop();
            Ok(Said::EndElement)
        }
    }
}

/// Takes the name and the value of an attribute, behind its sign.
fn take_attribute(
    alloc: Global,
    schema: &Schema,
    cursor: &mut TextCursor,
    elements: &mut OpenElements,
    top: OpenElement,
    attributes: &[AttributeOf],
) -> Result<Said, ScanFault>
    requires top { (above : List _) × (elements.old ≡ top ∷ above) }
    requires sound { IsSound (schema_of schema.now) (Within elements.old) }
    requires kind { (name : ℕ) → attribute_of (schema_of schema.now) top.kind name ≡ attribute_named attributes.now name }
    requires fit { AllByRecursion (λ attribute. (attribute.name < length (schema_of schema.now).names) × (attribute.kind < length (schema_of schema.now).kinds) × IsSome (simple_at (schema_of schema.now).kinds attribute.kind)) attributes.now }
    requires some { 0 < length attributes.now }
    requires before { IsBeforeElements top.filling }
    ensures ok { (above : List _) → elements.old ≡ top ∷ above → IfOk result (λ said. TakesNext (schema_of schema.now) (gap top.filling ++ codes "@") (StartsAttribute (schema_of schema.now) top above) (Within elements.old) cursor.old (event_of said) (Within elements.new) cursor.new) }
    ensures fault { (above : List _) → elements.old ≡ top ∷ above → IfErr result (StallsAt (StartsAttribute (schema_of schema.now) top above) cursor.old) }
    ensures kept { IfErr result (λ _. elements.new ≡ elements.old) }
{
    let awaited = awaited_attributes(alloc, attributes)?;
    let at = take_name(cursor, schema, awaited.as_slice())?;
    let name = attributes[at].name;
    let Some(kind) = kind_of_attribute(attributes, name) else {
        unreachable!()
    };
    let value = take_value(alloc, schema, cursor, kind)?;
    elements.fill(Filling::Attributes);
    Ok(Said::Attribute(name, value))
}

/// Takes the start of an element, its name and the mark behind it.
fn take_start(
    alloc: Global,
    schema: &Schema,
    cursor: &mut TextCursor,
    elements: &mut OpenElements,
    top: OpenElement,
    particles: &[Particle],
) -> Result<Said, ScanFault>
    requires top { (above : List _) × (elements.old ≡ top ∷ above) }
    requires sound { IsSound (schema_of schema.now) (Within elements.old) }
    requires kind { (name : ℕ) → element_of (schema_of schema.now) top.kind name ≡ element_named (plain_particles particles.now) name }
    requires fit { AllByRecursion (λ particle. AllByRecursion (λ member. (member.name < length (schema_of schema.now).names) × (member.kind < length (schema_of schema.now).kinds)) particle.members) (plain_particles particles.now) }
    ensures ok { (above : List _) → elements.old ≡ top ∷ above → IfOk result (λ said. TakesNext (schema_of schema.now) (gap top.filling) (StartsElement (schema_of schema.now) top above) (Within elements.old) cursor.old (event_of said) (Within elements.new) cursor.new) }
    ensures fault { (above : List _) → elements.old ≡ top ∷ above → IfErr result (StallsAt (StartsElement (schema_of schema.now) top above) cursor.old) }
    ensures kept { IfErr result (λ _. elements.new ≡ elements.old) }
{
    let awaited = awaited_elements(alloc, schema, particles)?;
    if awaited.is_empty() {
        return Err(ScanFault::Place(cursor.place));
    }
    let at = take_name(cursor, schema, awaited.as_slice())?;
    let name = awaited[at].name;
    let Some(kind) = kind_of_element(particles, name) else {
        unreachable!()
    };
    elements.fill(Filling::Elements);
    elements.push(kind);
    Ok(Said::Start(name))
}

/// An attribute may stand behind what is in an element.
fn awaits_attribute(filling: Filling, attributes: &[AttributeOf]) -> bool
    ensures { AwaitsAttribute filling attributes.now result }
{
    match filling {
        Filling::Nothing | Filling::Attributes => !attributes.is_empty(),
        Filling::Elements | Filling::Value => false,
    }
}

/// Takes an attribute or the start of an element, behind what stands before them.
fn take_behind_gap(
    alloc: Global,
    schema: &Schema,
    cursor: &mut TextCursor,
    elements: &mut OpenElements,
    top: OpenElement,
    attributes: &[AttributeOf],
    particles: &[Particle],
) -> Result<Said, ScanFault>
    requires top { (above : List _) × (elements.old ≡ top ∷ above) }
    requires sound { IsSound (schema_of schema.now) (Within elements.old) }
    requires complex { slice_get (schema_of schema.now).kinds top.kind ≡ Some (containing attributes.now (plain_particles particles.now)) }
    ensures ok { (above : List _) → elements.old ≡ top ∷ above → IfOk result (λ said. TakesNext (schema_of schema.now) (gap top.filling) (StartsPart (schema_of schema.now) top above) (Within elements.old) cursor.old (event_of said) (Within elements.new) cursor.new) }
    ensures fault { (above : List _) → elements.old ≡ top ∷ above → IfErr result (StallsAt (StartsPart (schema_of schema.now) top above) cursor.old) }
    ensures kept { IfErr result (λ _. elements.new ≡ elements.old) }
{
    if awaits_attribute(top.filling, attributes) {
        if cursor.take_char('@') {
            take_attribute(alloc, schema, cursor, elements, top, attributes)
        } else {
            take_start(alloc, schema, cursor, elements, top, particles)
        }
    } else {
        take_start(alloc, schema, cursor, elements, top, particles)
    }
}

/// Takes the next part of an element of a complex kind, or ends it.
fn take_part(
    alloc: Global,
    schema: &Schema,
    cursor: &mut TextCursor,
    elements: &mut OpenElements,
    top: OpenElement,
    attributes: &[AttributeOf],
    particles: &[Particle],
) -> Result<Said, ScanFault>
    requires top { (above : List _) × (elements.old ≡ top ∷ above) }
    requires sound { IsSound (schema_of schema.now) (Within elements.old) }
    requires complex { slice_get (schema_of schema.now).kinds top.kind ≡ Some (containing attributes.now (plain_particles particles.now)) }
    ensures ok { IfOk result (λ said. TakesNext (schema_of schema.now) [] (Completes (schema_of schema.now) (Within elements.old)) (Within elements.old) cursor.old (event_of said) (Within elements.new) cursor.new) }
    ensures fault { IfErr result (StallsAt (Completes (schema_of schema.now) (Within elements.old)) cursor.old) }
    ensures kept { IfErr result (λ _. elements.new ≡ elements.old) }
{
    if cursor.take_char('}') {
        elements.pop();
        return Ok(Said::EndElement);
    }
    if !take_gap(cursor, top.filling) {
        return Err(ScanFault::Place(cursor.place));
    }
    take_behind_gap(alloc, schema, cursor, elements, top, attributes, particles)
}

/// Takes the next event inside the innermost element, which is `top`.
pub(crate) fn take_inside(
    alloc: Global,
    schema: &Schema,
    cursor: &mut TextCursor,
    elements: &mut OpenElements,
    top: OpenElement,
) -> Result<Said, ScanFault>
    requires top { (above : List _) × (elements.old ≡ top ∷ above) }
    requires sound { IsSound (schema_of schema.now) (Within elements.old) }
    ensures ok { IfOk result (λ said. TakesNext (schema_of schema.now) [] (Completes (schema_of schema.now) (Within elements.old)) (Within elements.old) cursor.old (event_of said) (Within elements.new) cursor.new) }
    ensures fault { IfErr result (StallsAt (Completes (schema_of schema.now) (Within elements.old)) cursor.old) }
    ensures kept { IfErr result (λ _. elements.new ≡ elements.old) }
{
    match &schema.kinds[top.kind as usize] {
        Declaration::Simple(_) => take_simple(alloc, schema, cursor, elements, top),
        Declaration::Complex {
            attributes,
            particles,
        } => take_part(alloc, schema, cursor, elements, top, attributes, particles),
    }
}
