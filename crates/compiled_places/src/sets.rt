//! A schema with what no dialect has together: attributes of both kinds, a choice with a member out of profile, and a list without a
//! maximum.

use crate::comparing::{Comparison, compare};
use anyhow::Result;
use exi_schema::{
    AttributeOf, Datatype, Declaration, Member, MemberStanding, Particle, RootOf, Schema,
};
use exi_tables::{Declared, compile};
use std::alloc::Global;

const WORDS: [&'static str; 5] = ["Set", "Entry", "Name", "Small", "Large"];

const NONE: [&'static str; 0] = [];

const NO_VALUES: [&'static [&'static str]; 3] = [&NONE, &NONE, &NONE];

const SET_ROOTS: [RootOf; 1] = [RootOf {
    number: 0,
    name: 0,
    kind: 2,
}];

const REQUIRED: [AttributeOf; 1] = [AttributeOf {
    name: 2,
    kind: 0,
    required: true,
}];

const OPTIONAL: [AttributeOf; 1] = [AttributeOf {
    name: 2,
    kind: 0,
    required: false,
}];

const SIZES: [Member; 2] = [
    Member {
        name: 3,
        kind: 0,
        standing: MemberStanding::Taken,
    },
    Member {
        name: 4,
        kind: 0,
        standing: MemberStanding::OutOfProfile,
    },
];

const ENTRIES: [Member; 1] = [Member {
    name: 1,
    kind: 1,
    standing: MemberStanding::Taken,
}];

const CHOICE: [Particle<'static>; 1] = [Particle {
    members: &SIZES,
    least: 1,
    most: Some(1),
    profile: 1,
}];

const LIST: [Particle<'static>; 1] = [Particle {
    members: &ENTRIES,
    least: 1,
    most: None,
    profile: 2,
}];

const SET_KINDS: [Declaration<'static>; 3] = [
    Declaration::Simple(Datatype::Text { most: 64 }),
    Declaration::Complex {
        attributes: &REQUIRED,
        particles: &CHOICE,
    },
    Declaration::Complex {
        attributes: &OPTIONAL,
        particles: &LIST,
    },
];

/// Stands for the schema of these tables.
struct Sets;

impl Declared for Sets {
    ghost use Rattle.std.specs.Prelude.{[], ◌∷◌, true, false, codes, refl};
    ghost use Rattle.exi_schema.specs.declared.tables.Datatype.TheVariants.{Text};
    ghost use Rattle.exi_schema.specs.declared.tables.MemberStanding.TheVariants.{OutOfProfile};
    ghost use Rattle.exi_schema.specs.Plain.{valued, containing, choice, one_of, standing, at_least_one};

    ghost schema = { record {
      kinds = valued (Text 64)
          ∷ containing (record { name = 2; kind = 0; required = true } ∷ []) (choice (one_of 3 0 ∷ standing OutOfProfile 4 0 ∷ []) ∷ [])
          ∷ containing (record { name = 2; kind = 0; required = false } ∷ []) (at_least_one 2 1 1 ∷ []) ∷ [];
      names = codes "Set" ∷ codes "Entry" ∷ codes "Name" ∷ codes "Small" ∷ codes "Large" ∷ [];
      values = [] ∷ [] ∷ [] ∷ [];
      root_bits = 1;
      roots = record { number = 0; name = 0; kind = 2 } ∷ [];
      fits = refl;
    } };
}

pub fn compare_sets(alloc: Global) -> Result<Comparison> {
    let schema = Schema {
        kinds: &SET_KINDS,
        names: &WORDS,
        values: &NO_VALUES,
        root_bits: 1,
        roots: &SET_ROOTS,
    };
    let rows = compile::<Sets>(alloc, &schema)?;
    Ok(compare(&schema, &rows))
}
