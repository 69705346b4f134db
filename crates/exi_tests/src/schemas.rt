//! Schemas with an attribute, a choice with an abstract head and with an element out of profile, a list without a maximum, places with four
//! codes and with 37, and that of the negotiation.

use app_schema::negotiation;
use exi_schema::{
    AttributeOf, Datatype, Declaration, Member, MemberStanding, Particle, RootOf, Schema,
};

/// An element of this name, with a number of four bits.
macro_rules! member {
    ($name:expr, $standing:expr) => {
        Member {
            name: $name,
            kind: 0,
            standing: $standing,
        }
    };
}

/// One that may stand there.
macro_rules! taken {
    ($name:expr) => {
        member!($name, MemberStanding::Taken)
    };
}

const NUMBER: Declaration<'static> = Declaration::Simple(Datatype::Bounded {
    least: 0,
    count: 16,
});

const NONE: [&'static str; 0] = [];

static VALUES: [&'static [&'static str]; 2] = [&NONE, &NONE];

static ROOTS: [RootOf; 1] = [RootOf {
    number: 0,
    name: 0,
    kind: 1,
}];

static NAMES: [&'static str; 6] = ["Root", "Id", "Left", "Head", "Right", "Item"];

const ATTRIBUTES: [AttributeOf; 1] = [AttributeOf {
    name: 1,
    kind: 0,
    required: true,
}];

const CHOICE: [Member; 3] = [
    taken!(2),
    member!(3, MemberStanding::Abstract),
    member!(4, MemberStanding::OutOfProfile),
];

const ITEMS: [Member; 1] = [taken!(5)];

const PARTICLES: [Particle<'static>; 2] = [
    Particle {
        members: &CHOICE,
        least: 1,
        most: Some(1),
        profile: 1,
    },
    Particle {
        members: &ITEMS,
        least: 1,
        most: None,
        profile: 2,
    },
];

static KINDS: [Declaration<'static>; 2] = [
    NUMBER,
    Declaration::Complex {
        attributes: &ATTRIBUTES,
        particles: &PARTICLES,
    },
];

/// An attribute, then one of three elements, then items, of which two are accepted.
fn items() -> Schema<'static> {
    Schema {
        kinds: &KINDS,
        names: &NAMES,
        values: &VALUES,
        root_bits: 1,
        roots: &ROOTS,
    }
}

static MANY_NAMES: [&'static str; 38] = [
    "Root", "A1", "A2", "A3", "A4", "A5", "A6", "A7", "A8", "A9", "A10", "A11", "A12", "A13",
    "A14", "A15", "A16", "A17", "A18", "A19", "A20", "A21", "A22", "A23", "A24", "A25", "A26",
    "A27", "A28", "A29", "A30", "A31", "A32", "A33", "A34", "A35", "A36", "A37",
];

const MANY: [Member; 37] = [
    taken!(1),
    taken!(2),
    taken!(3),
    taken!(4),
    taken!(5),
    taken!(6),
    taken!(7),
    taken!(8),
    taken!(9),
    taken!(10),
    taken!(11),
    taken!(12),
    taken!(13),
    taken!(14),
    taken!(15),
    taken!(16),
    taken!(17),
    taken!(18),
    taken!(19),
    taken!(20),
    taken!(21),
    taken!(22),
    taken!(23),
    taken!(24),
    taken!(25),
    taken!(26),
    taken!(27),
    taken!(28),
    taken!(29),
    taken!(30),
    taken!(31),
    taken!(32),
    taken!(33),
    taken!(34),
    taken!(35),
    taken!(36),
    taken!(37),
];

const MANY_PARTICLES: [Particle<'static>; 1] = [Particle {
    members: &MANY,
    least: 1,
    most: Some(1),
    profile: 1,
}];

static MANY_KINDS: [Declaration<'static>; 2] = [
    NUMBER,
    Declaration::Complex {
        attributes: &[],
        particles: &MANY_PARTICLES,
    },
];

/// One of 37 elements.
fn many() -> Schema<'static> {
    Schema {
        kinds: &MANY_KINDS,
        names: &MANY_NAMES,
        values: &VALUES,
        root_bits: 1,
        roots: &ROOTS,
    }
}

static CHOICE_NAMES: [&'static str; 5] = ["Root", "First", "Second", "Third", "Fourth"];

const FOUR: [Member; 4] = [taken!(1), taken!(2), taken!(3), taken!(4)];

const FOUR_PARTICLES: [Particle<'static>; 1] = [Particle {
    members: &FOUR,
    least: 1,
    most: Some(1),
    profile: 1,
}];

static FOUR_KINDS: [Declaration<'static>; 2] = [
    Declaration::Simple(Datatype::Bounded {
        least: 1,
        count: 20,
    }),
    Declaration::Complex {
        attributes: &[],
        particles: &FOUR_PARTICLES,
    },
];

/// Four codes are offered at the start of the root.
fn four_choices() -> Schema<'static> {
    Schema {
        kinds: &FOUR_KINDS,
        names: &CHOICE_NAMES,
        values: &VALUES,
        root_bits: 2,
        roots: &ROOTS,
    }
}

/// A schema.
#[derive(Clone, Copy)]
pub(crate) enum Of {
    Negotiation,
    FourChoices,
    Items,
    Many,
}

pub(crate) fn schema(of: Of) -> Schema<'static> {
    match of {
        Of::Negotiation => negotiation(),
        Of::FourChoices => four_choices(),
        Of::Items => items(),
        Of::Many => many(),
    }
}
