//! Whether a parameter meets a pair.

ghost use Rattle.std.specs.Prelude.{◌≡◌, ◌↔◌, IsTrue, Some, ℤ, MatchOption};
ghost use Rattle.service_spec.specs.Services.{Number as SaidNumber, Content, content_of, said_of, Meets};
ghost use Rattle.service_messages.specs.Offers.{content_in, said_in};

use iso_details::{Parameter, ParameterValue};
use service_spec::{Parameter as Pair, Value};

/// The number of a value, of whichever kind.
fn number_in(value: &ParameterValue<'_>) -> Option<i32>
    ensures { MatchOption result ((number : ℤ) → content_in value.now ≡ Some (SaidNumber number) → ⊥) (λ number. content_in value.now ≡ Some (SaidNumber number)) }
{
    match value {
        ParameterValue::Byte(number) => Some(i32::from(*number)),
        ParameterValue::Short(number) => Some(i32::from(*number)),
        ParameterValue::Int(number) => Some(*number),
        _ => None,
    }
}

/// Whether a value is the one that is wanted.
fn is_value(value: &ParameterValue<'_>, wanted: &Value<'_>) -> bool
    ensures { IsTrue result ↔ (content_in value.now ≡ Some (content_of wanted.now)) }
{
    match wanted {
        Value::Truth(wanted) => matches!(value, ParameterValue::Bool(truth) if truth == wanted),
        Value::Number(wanted) => match number_in(value) {
            Some(number) => number == *wanted,
            None => false,
        },
        Value::Text(wanted) => match value {
            ParameterValue::String(text) => text.is(wanted),
            _ => false,
        },
    }
}

/// Whether a parameter meets a pair.
pub(crate) fn meets(pair: &Pair<'_>, parameter: &Parameter<'_>) -> bool
    ensures { IsTrue result ↔ Meets (said_of pair.now) (said_in parameter.now) }
{
    parameter.name.is(pair.name) && is_value(&parameter.value, &pair.value)
}
