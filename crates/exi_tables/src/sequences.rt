//! The sequences of values among a schema's kinds.

ghost use Rattle.std.specs.Prelude.{◌≡◌, ◌<◌, true, false, length, None, IfSome, IfOk};
ghost use Rattle.exi_schema.specs.declared.tables.MemberStanding.TheVariants.{Taken};
ghost use Rattle.exi_schema.specs.Offers.{IsPlace};
ghost use Rattle.exi_schema.specs.Sequences.{TellsSequence, KeepsSequence};
ghost use Rattle.exi_schema.specs.Told.{schema_of};
ghost use Rattle.exi_tables.specs.Followed.{IsFollowed, NoSequence};

use charge_world::NoMemory;
use exi_schema::{MemberStanding, Place, Places, Schema, SequenceChild, Step};
use std::alloc::Global;

/// How many children a sequence that is kept has at most.
const MOST_CHILDREN: usize = 8;

/// What follows at a place of a sequence of values.
enum Following {
    /// A child, and the place behind it.
    Child { child: SequenceChild, next: Place },
    /// The end.
    End,
}

/// What follows at a place, if it is a child with a value or the end, and nothing else may stand there.
fn following_at(schema: &Schema, place: Place) -> Option<Following>
    requires { IsPlace (schema_of schema.now).kinds place }
    ensures followed { IfSome result (IsFollowed (schema_of schema.now).kinds place) }
    ensures none { result ≡ None → NoSequence (schema_of schema.now).kinds place }
{
    if schema.alternatives(place) != 1 {
        return None;
    }
    match schema.advance(place, 0) {
        Step::Element {
            name,
            kind,
            next,
            standing,
            past_limit,
        } => {
            if !may_stand(standing, past_limit) {
                return None;
            }
            let datatype = schema.datatype(kind)?;
            let child = SequenceChild { name, datatype };
            Some(Following::Child { child, next })
        }
        Step::End => Some(Following::End),
        Step::Attribute { .. } | Step::Characters { .. } => None,
    }
}

/// Whether a member may stand there.
pub(crate) fn may_stand(standing: MemberStanding, past_limit: bool) -> bool
    ensures here { result ≡ true → (standing ≡ Taken) × (past_limit ≡ false) }
    ensures other { result ≡ false → standing ≡ Taken → past_limit ≡ false → ⊥ }
{
    match standing {
        MemberStanding::Taken => !past_limit,
        _ => false,
    }
}

/// The children of a kind that is a sequence of at most eight values. Empty for any other kind.
pub(crate) fn sequence_of_kind(
    alloc: Global,
    schema: &Schema,
    kind: u16,
) -> Result<Vec<SequenceChild>, NoMemory>
    requires { kind < length (schema_of schema.now).kinds }
    ensures tells { IfOk result (λ children. TellsSequence (schema_of schema.now).kinds (record { kind = kind; particle = 0; copies = 0; attributes = 0 }) children.items) }
    ensures whole { IfOk result (λ children. KeepsSequence (schema_of schema.now).kinds (record { kind = kind; particle = 0; copies = 0; attributes = 0 }) children.items) }
{
    let mut children = Vec::new(alloc);
    let mut place = Place::first(kind);
    // One turn more than there are children: the end follows at the last.
    for _ in 0..=MOST_CHILDREN {
        match following_at(schema, place) {
            Some(Following::Child { child, next }) => {
                children.push(child)?;
                place = next;
            }
            Some(Following::End) => return Ok(children),
            None => break,
        }
    }
    Ok(Vec::new(alloc))
}
