//! What the published request and response of the negotiation spell, and what their schema declares.

ghost use Rattle.std.specs.Prelude.{◌≡◌, ◌<◌, length};
ghost use Rattle.exi_schema.specs.Offers.{IsPlace};
ghost use Rattle.exi_schema.specs.Steps.{IsStep};
ghost use Rattle.exi_schema.specs.Told.{schema_of};

use crate::cases::{Case, all_hold};
use app_schema::negotiation;
use exi_schema::{Datatype, Place, Places, Root, Schema, Step};
use std::alloc::Global;

fn name_of(step: Step) -> Option<u16> {
    match step {
        Step::Attribute { name, .. } => Some(name),
        Step::Element { name, .. } => Some(name),
        Step::End => None,
        Step::Characters { .. } => None,
    }
}

fn next_of(step: Step, here: Place, schema: &Schema) -> Place
    requires step { IsStep (schema_of schema.now).kinds (length (schema_of schema.now).names) here.kind step }
    requires here { IsPlace (schema_of schema.now).kinds here }
    ensures { IsPlace (schema_of schema.now).kinds result }
{
    match step {
        Step::Attribute { next, .. } => next,
        Step::Element { next, .. } => next,
        Step::End => here,
        Step::Characters { next } => next,
    }
}

/// Goes through an element of a kind, and says whether its codes are those of the rows.
fn follow(schema: &Schema, kind: u16, rows: &[(u32, u16, Option<u16>)]) -> bool
    requires { kind < length (schema_of schema.now).kinds }
{
    let mut place = Place::first(kind);
    for (width, code, name) in rows {
        if schema.width(place) != *width || *code >= schema.alternatives(place) {
            return false;
        }
        let step = schema.advance(place, *code);
        if name_of(step) != *name {
            return false;
        }
        place = next_of(step, place, schema);
    }
    true
}

/// A kind, and the way through an element of it: the width of each code, the code, and the name that it tells.
struct Way(u16, &'static [(u32, u16, Option<u16>)]);

impl Case for Way {
    fn holds(&self, _: Global) -> bool {
        let schema = negotiation();
        (self.0 as usize) < schema.kinds.len() && follow(&schema, self.0, self.1)
    }
}

/// The codes of the published request and response.
const WAYS: [Way; 4] = [
    Way(6, &[(1, 0, Some(2)), (2, 1, None)]),
    Way(
        5,
        &[
            (1, 0, Some(3)),
            (1, 0, Some(4)),
            (1, 0, Some(5)),
            (1, 0, Some(6)),
            (1, 0, Some(7)),
            (1, 0, None),
        ],
    ),
    Way(0, &[(1, 0, None), (1, 0, None)]),
    Way(7, &[(1, 0, Some(8)), (2, 0, Some(6)), (1, 0, None)]),
];

/// Whether the roots of the negotiation are numbered 0 and 1.
fn has_roots(schema: &Schema) -> bool {
    schema.root_width() == 2
        && schema.root(1) == Root::Kind { name: 1, kind: 7 }
        && schema.root(2) == Root::Unknown
        && schema.root(3) == Root::NoSuch
}

/// Whether the negotiation declares what is published.
fn is_declared() -> bool {
    let schema = negotiation();
    schema.kinds.len() == 8
        && schema.names.len() == 9
        && has_roots(&schema)
        && schema.datatype(0) == Some(Datatype::Text { most: 100 })
        && schema.datatype(6).is_none()
        && schema.name(7) == "Priority"
        && schema.value_name(4, 2) == "Failed_NoNegotiation"
}

#[test]
fn what_the_negotiation_declares(rt: HostRuntime) {
    all_hold(&rt, rt.alloc(), &WAYS);
    assert!(rt; is_declared());
}
