//! The names that are awaited at a place of a text.

ghost use Rattle.std.specs.Prelude.{◌≡◌, ◌<◌, ◌++◌, List, length, map, IfOk, OnOk};
ghost use Rattle.std.specs.List.{AllByRecursion};
ghost use Rattle.exi_schema.specs.Plain.{plain_particles};
ghost use Rattle.exi_schema.specs.Told.{schema_of};
ghost use Rattle.dialect_text.specs.Awaited.{awaited_root, awaited_attribute, IsAwaitedElement, HasMembers, HasElements};

use crate::kinds::{kind_of_element, mark_behind};
use charge_world::NoMemory;
use exi_schema::{AttributeOf, Member, Particle, Schema};
use std::alloc::Global;
use value_text::Awaited;

/// The roots, in their order.
pub(crate) fn awaited_roots(alloc: Global, schema: &Schema) -> Result<Vec<Awaited>, NoMemory>
    ensures { IfOk result (λ awaited. awaited.items ≡ map (awaited_root (schema_of schema.now)) (schema_of schema.now).roots) }
{
    let mut awaited = Vec::new(alloc);
    for root in schema.roots {
        awaited.push(Awaited {
            name: root.name,
            end: mark_behind(schema, root.kind),
        })?;
    }
    Ok(awaited)
}

/// These attributes, in their order.
pub(crate) fn awaited_attributes(
    alloc: Global,
    attributes: &[AttributeOf],
) -> Result<Vec<Awaited>, NoMemory>
    ensures { IfOk result (λ awaited. awaited.items ≡ map awaited_attribute attributes.now) }
{
    let mut awaited = Vec::new(alloc);
    for attribute in attributes {
        awaited.push(Awaited {
            name: attribute.name,
            end: '=',
        })?;
    }
    Ok(awaited)
}

/// Those of these members that have the kind of the first element of their name.
fn await_members(
    awaited: &mut Vec<Awaited>,
    schema: &Schema,
    particles: &[Particle],
    members: &[Member],
) -> Result<(), NoMemory>
    requires kinds { AllByRecursion (λ member. member.kind < length (schema_of schema.now).kinds) members.now }
    requires only { AllByRecursion (IsAwaitedElement (schema_of schema.now) (plain_particles particles.now)) awaited.old.items }
    ensures only { OnOk result (AllByRecursion (IsAwaitedElement (schema_of schema.now) (plain_particles particles.now)) awaited.new.items) }
    ensures each { OnOk result (HasMembers (schema_of schema.now) (plain_particles particles.now) members.now awaited.new.items) }
    ensures kept { OnOk result ((more : List _) × (awaited.new.items ≡ awaited.old.items ++ more)) }
{
    for member in members {
        let Some(kind) = kind_of_element(particles, member.name) else {
            continue;
        };
        if kind != member.kind {
            continue;
        }
        awaited.push(Awaited {
            name: member.name,
            end: mark_behind(schema, kind),
        })?;
    }
    Ok(())
}

/// The elements of these particles.
pub(crate) fn awaited_elements(
    alloc: Global,
    schema: &Schema,
    particles: &[Particle],
) -> Result<Vec<Awaited>, NoMemory>
    requires kinds { AllByRecursion (λ particle. AllByRecursion (λ member. member.kind < length (schema_of schema.now).kinds) particle.members) (plain_particles particles.now) }
    ensures only { IfOk result (λ awaited. AllByRecursion (IsAwaitedElement (schema_of schema.now) (plain_particles particles.now)) awaited.items) }
    ensures each { IfOk result (λ awaited. HasElements (schema_of schema.now) (plain_particles particles.now) awaited.items) }
{
    let mut awaited = Vec::new(alloc);
    for particle in particles {
        await_members(&mut awaited, schema, particles, particle.members)?;
    }
    Ok(awaited)
}
