//! Which set is picked.

ghost use Rattle.std.specs.Prelude.{◌≡◌, ◌↔◌, IsTrue, map, MatchOption};
ghost use Rattle.std.specs.Str.{chars};
ghost use Rattle.service_spec.specs.Services.{content_of, said_of, said_set_of, Meets, IsMet, Fits, IsPicked, PicksNone};

use crate::{Parameter, ParameterSet, Value};

/// Whether two texts have the same bytes.
fn has_same_bytes(one: &str, other: &str) -> bool
    ensures { IsTrue result ↔ (one.now ≡ other.now) }
{
    one == other
}

/// Whether two texts have the same characters.
fn is_same_text(one: &str, other: &str) -> bool
    ensures { IsTrue result ↔ (chars one.now ≡ chars other.now) }
{
    has_same_bytes(one, other)
}

/// Whether two values are the same.
fn is_same_value(one: &Value<'_>, other: &Value<'_>) -> bool
    ensures { IsTrue result ↔ (content_of one.now ≡ content_of other.now) }
{
    match one {
        Value::Truth(one) => matches!(other, Value::Truth(other) if one == other),
        Value::Number(one) => matches!(other, Value::Number(other) if one == other),
        Value::Text(one) => match other {
            Value::Text(other) => is_same_text(one, other),
            _ => false,
        },
    }
}

/// Whether a parameter meets a pair.
pub fn meets(pair: &Parameter<'_>, parameter: &Parameter<'_>) -> bool
    ensures { IsTrue result ↔ Meets (said_of pair.now) (said_of parameter.now) }
{
    is_same_text(parameter.name, pair.name) && is_same_value(&parameter.value, &pair.value)
}

/// Whether some parameter meets a pair.
fn is_met(parameters: &[Parameter<'_>], pair: &Parameter<'_>) -> bool
    ensures { IsTrue result ↔ IsMet (map said_of parameters.now) (said_of pair.now) }
{
    for parameter in parameters {
        if meets(pair, parameter) {
            return true;
        }
    }
    false
}

/// Whether each pair is met.
fn are_met(want: &[Parameter<'_>], parameters: &[Parameter<'_>]) -> bool
    ensures { IsTrue result ↔ Fits (map said_of want.now) (map said_of parameters.now) }
{
    for pair in want {
        if !is_met(parameters, pair) {
            return false;
        }
    }
    true
}

/// Whether each pair is met by some parameter of a set.
fn fits(want: &[Parameter<'_>], set: &ParameterSet<'_>) -> bool
    ensures { IsTrue result ↔ Fits (map said_of want.now) (said_set_of set.now).parameters }
{
    are_met(want, set.parameters.as_slice())
}

/// The identifier of the first set in which each pair is met by some parameter (own); `None` exactly where there is none.
pub fn pick(sets: &[ParameterSet<'_>], want: &[Parameter<'_>]) -> Option<i16>
    ensures { MatchOption result (PicksNone (map said_of want.now) (map said_set_of sets.now)) (IsPicked (map said_of want.now) (map said_set_of sets.now)) }
{
    for set in sets {
        if fits(want, set) {
            return Some(set.id);
        }
    }
    None
}
