//! Two forms of one schema, compared place by place.

ghost use Rattle.std.specs.Prelude.{◌≡◌, ◌<◌, IfSome, length};
ghost use Rattle.exi_schema.specs.Offers.{IsPlace};
ghost use Rattle.exi_schema.specs.Told.{schema_of};

use exi_schema::{Place, Places, Schema, Step};

/// How many places of a kind are looked at, at most.
const MOST_PLACES: u32 = 100_000;

/// What was compared, and how much of it differs.
#[derive(Clone, Copy, Default)]
pub struct Comparison {
    pub kinds: u32,
    pub places: u32,
    pub codes: u32,
    pub differ: u32,
}

/// Compares what is offered at a place.
fn compare_at<A: Places, B: Places>(
    comparison: &mut Comparison,
    plain: &A,
    compiled: &B,
    place: Place,
)
    requires same { B.schema compiled.now ≡ A.schema plain.now }
    requires place { IsPlace (A.schema plain.now).kinds place }
{
    comparison.places = comparison.places.saturating_add(1);
    let count = plain.alternatives(place);
    if compiled.alternatives(place) != count || compiled.width(place) != plain.width(place) {
        comparison.differ = comparison.differ.saturating_add(1);
        return;
    }
    for code in 0..count {
        comparison.codes = comparison.codes.saturating_add(1);
        if compiled.advance(place, code) != plain.advance(place, code) {
            comparison.differ = comparison.differ.saturating_add(1);
        }
    }
}

/// The place behind the first step that is offered. By these steps an element comes to each of its places in turn.
fn next_place<A: Places>(plain: &A, place: Place) -> Option<Place>
    requires { IsPlace (A.schema plain.now).kinds place }
    ensures { IfSome result (λ next. IsPlace (A.schema plain.now).kinds next) }
{
    if plain.alternatives(place) == 0 {
        return None;
    }
    match plain.advance(place, 0) {
        Step::Attribute { next, .. } | Step::Element { next, .. } | Step::Characters { next } => {
            if next == place { None } else { Some(next) }
        }
        Step::End => None,
    }
}

/// Compares at each place of a kind.
fn compare_kind<A: Places, B: Places>(
    comparison: &mut Comparison,
    plain: &A,
    compiled: &B,
    kind: u16,
)
    requires same { B.schema compiled.now ≡ A.schema plain.now }
    requires kind { kind < length (A.schema plain.now).kinds }
{
    comparison.kinds = comparison.kinds.saturating_add(1);
    let mut place = Place::first(kind);
    for _ in 0..MOST_PLACES {
        compare_at(comparison, plain, compiled, place);
        match next_place(plain, place) {
            Some(next) => place = next,
            None => return,
        }
    }
}

/// Compares a schema with another form of it.
pub fn compare<B: Places>(plain: &Schema, compiled: &B) -> Comparison
    requires { B.schema compiled.now ≡ schema_of plain.now }
{
    let mut comparison = Comparison::default();
    let count = plain.kinds.len().min(65_536);
    for kind in 0..count {
        compare_kind(&mut comparison, plain, compiled, kind as u16);
    }
    comparison
}
