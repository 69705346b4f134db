//! Payloads and the texts of their trees, in a schema with each form of a value.

ghost use Rattle.std.specs.Prelude.{◌≡◌, true};
ghost use Rattle.exi_schema.specs.Told.{schema_of};
ghost use Rattle.tree_text.specs.Consistent.{are_consistent};

use crate::cases::{Case, all_hold};
use exi_schema::{
    AttributeOf, Datatype, Declaration, Member, MemberStanding, Particle, RootOf, Schema,
};
use std::alloc::{AllocError, Global};
use tree_text::{PrintFault, Refusal, ScanFault, print_tree, scan_tree};

const NAMES: [&'static str; 8] = ["All", "Id", "Unit", "Flag", "Power", "Data", "Low", "Empty"];

const UNITS: [&'static str; 2] = ["W", "V"];

const NONE: [&'static str; 0] = [];

const VALUES: [&'static [&'static str]; 8] = [
    &NONE, &UNITS, &NONE, &NONE, &NONE, &NONE, &NONE, &NONE,
];

const ROOTS: [RootOf; 1] = [RootOf {
    number: 0,
    name: 0,
    kind: 7,
}];

const ATTRIBUTES: [AttributeOf; 2] = [
    AttributeOf {
        name: 1,
        kind: 0,
        required: false,
    },
    AttributeOf {
        name: 2,
        kind: 1,
        required: false,
    },
];

const FLAG: [Member; 1] = [Member {
    name: 3,
    kind: 2,
    standing: MemberStanding::Taken,
}];

const POWER: [Member; 1] = [Member {
    name: 4,
    kind: 3,
    standing: MemberStanding::Taken,
}];

const DATA: [Member; 1] = [Member {
    name: 5,
    kind: 4,
    standing: MemberStanding::Taken,
}];

const LOW: [Member; 1] = [Member {
    name: 6,
    kind: 5,
    standing: MemberStanding::Taken,
}];

const EMPTY: [Member; 1] = [Member {
    name: 7,
    kind: 6,
    standing: MemberStanding::Taken,
}];

const PARTS: [Particle<'static>; 5] = [
    Particle {
        members: &FLAG,
        least: 1,
        most: Some(1),
        profile: 1,
    },
    Particle {
        members: &POWER,
        least: 1,
        most: Some(1),
        profile: 1,
    },
    Particle {
        members: &DATA,
        least: 1,
        most: Some(1),
        profile: 1,
    },
    Particle {
        members: &LOW,
        least: 1,
        most: Some(1),
        profile: 1,
    },
    Particle {
        members: &EMPTY,
        least: 0,
        most: Some(1),
        profile: 1,
    },
];

const KINDS: [Declaration<'static>; 8] = [
    Declaration::Simple(Datatype::Text { most: 10 }),
    Declaration::Simple(Datatype::Named { count: 2 }),
    Declaration::Simple(Datatype::Bool),
    Declaration::Simple(Datatype::Signed {
        least: -1000,
        most: 1000,
    }),
    Declaration::Simple(Datatype::Binary { most: 4 }),
    Declaration::Simple(Datatype::Bounded {
        least: -2,
        count: 5,
    }),
    Declaration::Complex {
        attributes: &[],
        particles: &[],
    },
    Declaration::Complex {
        attributes: &ATTRIBUTES,
        particles: &PARTS,
    },
];

/// What is given: a payload in hexadecimal digits, or a text.
#[derive(Clone, Copy)]
enum Given {
    Payload,
    Text,
}

/// A payload or a text, and what is made of it: the text, or the payload in hexadecimal digits; or why and where it is refused.
struct Tree(Given, &'static str, &'static str);

/// What is printed of a payload in hexadecimal.
fn printed(alloc: Global, schema: &Schema, payload: &str) -> Result<String, AllocError> {
    let Ok(bytes) = hex::decode(alloc, payload) else {
        return String::from_str(alloc, "no payload");
    };
    if bytes.len() > 65536 {
        return String::from_str(alloc, "no payload");
    }
    match print_tree(alloc, schema, bytes.as_slice()) {
        Ok(text) => Ok(text),
        Err(PrintFault::Refused(Refusal { cause, bit })) => {
            format!(in alloc; "{cause:?} at bit {bit}")
        }
        Err(PrintFault::Memory) => String::from_str(alloc, "memory"),
    }
}

/// The encoding of the tree of a text in hexadecimal.
fn encoded(alloc: Global, schema: &Schema, text: &str) -> Result<String, AllocError>
    requires { are_consistent (schema_of schema.now).kinds ≡ true }
{
    match scan_tree(alloc, schema, text) {
        Ok(piece) => hex::encode(alloc, piece.bytes()),
        Err(ScanFault::Place(place)) => format!(in alloc; "fault at {place}"),
        Err(ScanFault::Memory) => String::from_str(alloc, "memory"),
    }
}

/// What is made of this.
fn made_of(alloc: Global, given: Given, text: &str) -> Result<String, AllocError> {
    let schema = Schema {
        kinds: &KINDS,
        names: &NAMES,
        values: &VALUES,
        root_bits: 2,
        roots: &ROOTS,
    };
    match given {
        Given::Payload => printed(alloc, &schema, text),
        Given::Text => encoded(alloc, &schema, text),
    }
}

impl Case for Tree {
    fn holds(&self, alloc: Global) -> bool {
        matches!(made_of(alloc, self.0, self.1), Ok(made) if made.as_str() == self.2)
    }
}

/// Header and root, @Id of three code points, @Unit by its ordinal, then Flag, Power, Data, Low, Empty and the ends.
const EACH_FORM: &'static str = "8000561220a24604080155860200";

const TREES: [Tree; 13] = [
    Tree(
        Given::Payload,
        EACH_FORM,
        r#"All{@Id="a\"\u{a}" @Unit=V Flag=true Power=-258 Data=ab0c Low=-1 Empty{}}"#,
    ),
    Tree(Given::Payload, "", "ShortInput at bit 0"),
    Tree(
        Given::Payload,
        "0000561220a24604080155860200",
        "BadHeader at bit 0",
    ),
    Tree(
        Given::Payload,
        "80c0561220a24604080155860200",
        "NoSuchCode at bit 8",
    ),
    Tree(
        Given::Payload,
        "8000561220a2460408015586020000",
        "Trailing at bit 112",
    ),
    Tree(
        Given::Text,
        r#"All{@Id="a\"\u{a}" @Unit=V Flag=true Power=-258 Data=ab0c Low=-1 Empty{}}"#,
        EACH_FORM,
    ),
    Tree(Given::Text, "x", "fault at 0"),
    Tree(Given::Text, "", "fault at 0"),
    Tree(Given::Text, "All{Flag=true", "fault at 13"),
    // Of the dialect: in another order, without what has to be there, and with a number outside its range.
    Tree(Given::Text, "All{Power=1 Flag=true}", "fault at 22"),
    Tree(Given::Text, "All{}", "fault at 5"),
    Tree(
        Given::Text,
        "All{Flag=true Power=1001 Data= Low=0}",
        "fault at 37",
    ),
    // None of the dialect, behind what is no document.
    Tree(Given::Text, "All{Low=7 Flag=Bad}", "fault at 15"),
];

#[test]
fn payloads_and_texts_of_trees(rt: HostRuntime) {
    all_hold(&rt, rt.alloc(), &TREES);
}
