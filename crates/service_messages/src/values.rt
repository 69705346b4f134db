//! Parameters as they are written.

ghost use Rattle.std.specs.Prelude.{◌≡◌};
ghost use Rattle.service_spec.specs.Wants.{IsValue, IsPair};
ghost use Rattle.service_spec.specs.Services.{is_below};
ghost use Rattle.service_messages.specs.Messages as rule;
ghost use Rattle.service_messages.specs.Held.{IsHeldValue, IsHeldParameter};

use iso_details::{Parameter, ParameterValue};
use message_parts::Text;
use service_spec::{Parameter as Pair, Value};

/// Whether a number has 8 bits.
fn is_byte(number: i32) -> bool
    ensures { result ≡ is_below 128 number }
{
    -128 <= number && number <= 127
}

/// Whether a number has 16 bits.
fn is_short(number: i32) -> bool
    ensures { result ≡ is_below 32768 number }
{
    -32768 <= number && number <= 32767
}

/// A number, by the first kind that holds it.
fn number_of(number: i32) -> ParameterValue<'static>
    ensures { result ≡ rule.number_of number }
{
    if is_byte(number) {
        return ParameterValue::Byte(number as i8);
    }
    if is_short(number) {
        return ParameterValue::Short(number as i16);
    }
    ParameterValue::Int(number)
}

/// A value as it is written.
fn value_of(value: Value<'_>) -> ParameterValue<'_>
    requires { IsValue value }
    ensures value { result ≡ rule.value_of value.entry }
    ensures held { IsHeldValue result }
{
    match value {
        Value::Truth(truth) => ParameterValue::Bool(truth),
        Value::Number(number) => number_of(number),
        Value::Text(text) => ParameterValue::String(Text::Written(text)),
    }
}

/// A parameter as it is written.
pub(crate) fn parameter_of(pair: Pair<'_>) -> Parameter<'_>
    requires { IsPair pair }
    ensures parameter { result ≡ rule.parameter_of pair.entry }
    ensures held { IsHeldParameter result }
{
    Parameter {
        name: Text::Written(pair.name),
        value: value_of(pair.value),
    }
}
