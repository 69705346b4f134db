//! Compiled rows in a schema's place.

ghost use Rattle.std.specs.Prelude.{◌≡◌, IfOk};
ghost use Rattle.exi_schema.specs.Told.{schema_of};

use crate::filling::{KindTable, Row, table_of_kind};
use charge_world::NoMemory;
use exi_schema::{
    Codes, Datatype, Offer, OptionalSequence, Place, Places, Root, RootOf, Schema, SequenceChild,
    Sought, Step, is_sought, root_in,
};
use std::alloc::Global;
use std::marker::{Model, PhantomData};

/// How many kinds a number of 16 bits tells apart.
const KIND_NUMBERS: usize = 65_536;

/// A type that stands for a schema, as the declarations of one dialect. No value of it is needed.
pub trait Declared {
    ghost use Rattle.exi_schema.specs.Schemas.{PlainSchema};

    /// The schema.
    ghost schema: { PlainSchema };
}

/// The schema that `D` stands for, with a row for each of its places. It owns all that it holds, and borrows no declaration.
#[derive(Drop)]
pub struct Rows<D: Declared> {
    kinds: Vec<KindTable>,
    root_bits: u32,
    roots: Vec<RootOf>,
    of: PhantomData<D>,
}

impl<D: Declared> Model for Rows<D> {
    ghost use Rattle.std.specs.Prelude.{◌≡◌};
    ghost use Rattle.exi_schema.specs.Schemas.{PlainSchema};
    ghost use Rattle.exi_tables.specs.Filled.{HoldsKinds};

    ghost Value = { PlainSchema };

    ghost view = { λ rows. D.schema };

    ghost invariant = { λ rows. HoldsKinds D.schema rows.kinds.items × (rows.root_bits ≡ D.schema.root_bits) × (rows.roots.items ≡ D.schema.roots) };
}

/// Makes the rows of the schema that `D` stands for. It takes all their memory here, and walks over the schema once for each code of each
/// place.
pub fn compile<D: Declared>(alloc: Global, schema: &Schema) -> Result<Rows<D>, NoMemory>
    requires { schema_of schema.now ≡ D.schema }
    ensures { IfOk result (λ rows. rows ≡ schema_of schema.now) }
{
    let count = schema.kinds.len().min(KIND_NUMBERS);
    let mut kinds = Vec::with_capacity(alloc, count)?;
    for kind in 0..count {
        kinds.push(table_of_kind(alloc, schema, kind as u16)?)?;
    }
    let mut roots = Vec::with_capacity(alloc, schema.roots.len())?;
    roots.extend_from_slice(schema.roots)?;
    Ok(Rows {
        kinds,
        root_bits: schema.root_bits,
        roots,
        of: PhantomData,
    })
}

impl<D: Declared> Rows<D> {
    ghost use Rattle.exi_schema.specs.Offers.{IsPlace};
    ghost use Rattle.exi_tables.specs.Filled.{IsRow};

    /// The row of a place.
    #[inline(always)]
    fn row(&self, place: Place) -> &Row
        requires { IsPlace D.schema.kinds place }
        ensures { IsRow D.schema place result.now }
    {
        let table = &self.kinds[place.kind as usize];
        let by_particle = &table.by_attributes[place.attributes as usize];
        let by_copies = &by_particle[place.particle as usize];
        &by_copies[place.copies as usize]
    }
}

impl<D: Declared> Places for Rows<D> {
    ghost use Rattle.std.specs.Prelude.{true};

    ghost schema = { λ rows. D.schema };

    ghost keeps_sequences = { λ rows. true };

    fn alternatives(&self, place: Place) -> u16 {
        let row = self.row(place);
        row.steps.len() as u16
    }

    #[inline(always)]
    fn codes(&self, place: Place) -> Codes {
        let row = self.row(place);
        Codes {
            offered: row.steps.len() as u16,
            width: row.width,
        }
    }

    fn find(&self, place: Place, sought: Sought) -> Option<Offer> {
        let row = self.row(place);
        for code in 0..row.steps.len() {
            let step = &row.steps[code];
            if is_sought(step, sought) {
                return Some(Offer {
                    code: code as u16,
                    width: row.width,
                    step: *step,
                });
            }
        }
        None
    }

    fn width(&self, place: Place) -> u32 {
        self.row(place).width
    }

    #[inline(always)]
    fn advance(&self, place: Place, code: u16) -> Step {
        let row = self.row(place);
        row.steps[code as usize]
    }

    fn datatype(&self, kind: u16) -> Option<Datatype> {
        self.kinds[kind as usize].datatype
    }

    #[inline(always)]
    fn sequence(&self, kind: u16) -> &[SequenceChild] {
        self.kinds[kind as usize].sequence.as_slice()
    }

    #[inline(always)]
    fn optional_sequence(&self, kind: u16) -> Option<&OptionalSequence> {
        self.kinds[kind as usize].optional.as_ref()
    }

    fn root_width(&self) -> u32 {
        self.root_bits
    }

    fn root(&self, number: u32) -> Root {
        if self.root_bits == 2 && number == 3 {
            return Root::NoSuch;
        }
        root_in(self.roots.as_slice(), number)
    }
}
