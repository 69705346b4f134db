//! A schema, and what is asked of one.

ghost use Rattle.std.specs.Prelude.{◌≡◌, true, map};
ghost use Rattle.exi_schema.specs.Plain.{plain_kinds};
ghost use Rattle.exi_schema.specs.Schemas.{is_schema};

use crate::places::{
    Codes, Offer, OptionalSequence, Place, Places, Root, SequenceChild, Sought, Step,
};
use crate::tables::{Datatype, Declaration, RootOf};
use crate::walk::{complex_count, complex_step, is_sought, root_in, simple_step, width_for};

/// A schema as plain tables: what its elements may contain, and which may be the root.
///
/// Kinds and names are numbered from 0. `values` has one list per kind, which is empty but for an enumeration.
#[derive(Clone, Copy)]
pub struct Schema<'s> {
    /// The declarations of the kinds.
    pub kinds: &'s [Declaration<'s>],
    /// The texts of the names.
    pub names: &'s [&'s str],
    /// The texts of the values of each kind.
    pub values: &'s [&'s [&'s str]],
    /// How many bits a document number has.
    pub root_bits: u32,
    /// The elements that may be the root.
    pub roots: &'s [RootOf],
    /// What the tables tell meets the conditions on a schema.
    pub ghost fits: { is_schema (plain_kinds kinds.now) (map (λ t. t.now) names.now) (map (λ l. map (λ t. t.now) l.now) values.now) root_bits roots.now ≡ true },
}

impl<'s> Schema<'s> {
    ghost use Rattle.std.specs.Prelude.{◌≡◌, ◌<◌, length, Some, slice_get};
    ghost use Rattle.exi_schema.specs.Steps.{texts_at};
    ghost use Rattle.exi_schema.specs.Told.{schema_of};

    /// The text of a name of the schema.
    pub fn name(&self, n: u16) -> &'s str
        requires { n < length (schema_of self.now).names }
        ensures { Some result.now ≡ slice_get (schema_of self.now).names n }
    {
        self.names[n as usize]
    }

    /// The text of a value of an enumeration of the schema.
    pub fn value_name(&self, kind: u16, ordinal: u32) -> &'s str
        requires { ordinal < length (texts_at (schema_of self.now).values kind) }
        ensures { Some result.now ≡ slice_get (texts_at (schema_of self.now).values kind) ordinal }
    {
        let texts = self.values[kind as usize];
        texts[ordinal as usize]
    }
}

impl Places for Schema<'_> {
    ghost use Rattle.std.specs.Prelude.{false};
    ghost use Rattle.exi_schema.specs.Told.{schema_of};

    ghost schema = { schema_of };

    ghost keeps_sequences = { λ _. false };

    fn alternatives(&self, place: Place) -> u16 {
        match &self.kinds[place.kind as usize] {
            Declaration::Simple(_) => 1,
            Declaration::Complex {
                attributes,
                particles,
            } => complex_count(attributes, particles, place),
        }
    }

    fn codes(&self, place: Place) -> Codes {
        let offered = self.alternatives(place);
        let width = width_for(u32::from(offered));
        Codes { offered, width }
    }

    fn find(&self, place: Place, sought: Sought) -> Option<Offer> {
        let codes = self.codes(place);
        for code in 0..codes.offered {
            let step = self.advance(place, code);
            if is_sought(&step, sought) {
                return Some(Offer {
                    code,
                    width: codes.width,
                    step,
                });
            }
        }
        None
    }

    fn width(&self, place: Place) -> u32 {
        width_for(u32::from(self.alternatives(place)))
    }

    fn advance(&self, place: Place, code: u16) -> Step {
        match &self.kinds[place.kind as usize] {
            Declaration::Simple(_) => simple_step(place),
            Declaration::Complex {
                attributes,
                particles,
            } => complex_step(attributes, particles, place, code),
        }
    }

    fn datatype(&self, kind: u16) -> Option<Datatype> {
        match &self.kinds[kind as usize] {
            Declaration::Simple(datatype) => Some(*datatype),
            Declaration::Complex { .. } => None,
        }
    }

    fn sequence(&self, _kind: u16) -> &[SequenceChild] {
        &[]
    }

    fn optional_sequence(&self, _kind: u16) -> Option<&OptionalSequence> {
        None
    }

    fn root_width(&self) -> u32 {
        self.root_bits
    }

    fn root(&self, number: u32) -> Root {
        if self.root_bits == 2 && number == 3 {
            return Root::NoSuch;
        }
        root_in(self.roots, number)
    }
}
