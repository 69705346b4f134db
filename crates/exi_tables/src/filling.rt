//! The rows of a schema, place by place.

ghost use Rattle.std.specs.Prelude.{◌≡◌, ◌<◌, length, slice_get, Some, IfOk};
ghost use Rattle.exi_schema.specs.Offers.{IsPlace};
ghost use Rattle.exi_schema.specs.Plain.{plain_kind};
ghost use Rattle.exi_schema.specs.Told.{schema_of};
ghost use Rattle.exi_tables.specs.Counts.{attribute_places as places_by_attribute, particle_places as places_by_particle};
ghost use Rattle.exi_tables.specs.Filled.{IsRow, HoldsCopies, HoldsParticles, HoldsAttributes, IsKindTable};

use crate::counts::{attribute_places, copy_places, particle_places};
use crate::optional::optional_sequence_of_kind;
use crate::sequences::sequence_of_kind;
use charge_world::NoMemory;
use exi_schema::{
    Datatype, Declaration, OptionalSequence, Place, Places, Schema, SequenceChild, Step,
};
use std::alloc::Global;

/// What is offered at a place: a step for each code, and how many bits a code has.
#[derive(Drop)]
pub(crate) struct Row {
    pub(crate) steps: Vec<Step>,
    pub(crate) width: u32,
}

/// A kind: its datatype, if it is simple, its children, if it is a sequence of at most eight values or one of three of which the second may be
/// absent, and its rows by the attributes passed, by the particles passed, and by the copies passed.
#[derive(Drop)]
pub(crate) struct KindTable {
    pub(crate) datatype: Option<Datatype>,
    pub(crate) sequence: Vec<SequenceChild>,
    pub(crate) optional: Option<OptionalSequence>,
    pub(crate) by_attributes: Vec<Vec<Vec<Row>>>,
}

/// The row of a place.
fn row_of(alloc: Global, schema: &Schema, place: Place) -> Result<Row, NoMemory>
    requires { IsPlace (schema_of schema.now).kinds place }
    ensures { IfOk result (λ row. IsRow (schema_of schema.now) place row) }
{
    let count = schema.alternatives(place);
    let mut steps = Vec::with_capacity(alloc, count as usize)?;
    for code in 0..count {
        steps.push(schema.advance(place, code))?;
    }
    let width = schema.width(place);
    Ok(Row { steps, width })
}

/// The rows of the places of a kind that differ from `here` in the copies.
fn rows_of_copies(
    alloc: Global,
    schema: &Schema,
    declaration: &Declaration,
    here: Place,
) -> Result<Vec<Row>, NoMemory>
    requires declared { slice_get (schema_of schema.now).kinds here.kind ≡ Some (plain_kind declaration.now) }
    requires attributes { here.attributes < places_by_attribute (plain_kind declaration.now) }
    requires particle { here.particle < places_by_particle (plain_kind declaration.now) }
    ensures { IfOk result (λ rows. HoldsCopies (schema_of schema.now) (plain_kind declaration.now) here rows.items) }
{
    let count = copy_places(declaration, here.particle);
    let mut rows = Vec::with_capacity(alloc, count)?;
    for copies in 0..count {
        let place = Place {
            copies: copies as u16,
            ..here
        };
        rows.push(row_of(alloc, schema, place)?)?;
    }
    Ok(rows)
}

/// The rows of the places of a kind that differ from `here` in the particle and the copies.
fn rows_of_particles(
    alloc: Global,
    schema: &Schema,
    declaration: &Declaration,
    here: Place,
) -> Result<Vec<Vec<Row>>, NoMemory>
    requires declared { slice_get (schema_of schema.now).kinds here.kind ≡ Some (plain_kind declaration.now) }
    requires attributes { here.attributes < places_by_attribute (plain_kind declaration.now) }
    ensures { IfOk result (λ tables. HoldsParticles (schema_of schema.now) (plain_kind declaration.now) here tables.items) }
{
    let count = particle_places(declaration);
    let mut tables = Vec::with_capacity(alloc, count)?;
    for particle in 0..count {
        let place = Place {
            particle: particle as u16,
            ..here
        };
        tables.push(rows_of_copies(alloc, schema, declaration, place)?)?;
    }
    Ok(tables)
}

/// The rows of the places of a kind.
fn rows_of_kind(
    alloc: Global,
    schema: &Schema,
    declaration: &Declaration,
    here: Place,
) -> Result<Vec<Vec<Vec<Row>>>, NoMemory>
    requires { slice_get (schema_of schema.now).kinds here.kind ≡ Some (plain_kind declaration.now) }
    ensures { IfOk result (λ tables. HoldsAttributes (schema_of schema.now) (plain_kind declaration.now) here tables.items) }
{
    let count = attribute_places(declaration);
    let mut tables = Vec::with_capacity(alloc, count)?;
    for attributes in 0..count {
        let place = Place {
            attributes: attributes as u16,
            ..here
        };
        tables.push(rows_of_particles(alloc, schema, declaration, place)?)?;
    }
    Ok(tables)
}

/// The table of a kind of the schema.
pub(crate) fn table_of_kind(
    alloc: Global,
    schema: &Schema,
    kind: u16,
) -> Result<KindTable, NoMemory>
    requires { kind < length (schema_of schema.now).kinds }
    ensures { IfOk result (λ table. IsKindTable (schema_of schema.now) kind table) }
{
    let declaration = &schema.kinds[kind as usize];
    let by_attributes = rows_of_kind(alloc, schema, declaration, Place::first(kind))?;
    let datatype = schema.datatype(kind);
    let sequence = sequence_of_kind(alloc, schema, kind)?;
    let optional = optional_sequence_of_kind(schema, kind);
    Ok(KindTable {
        datatype,
        sequence,
        optional,
        by_attributes,
    })
}
