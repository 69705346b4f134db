//! What a value says by its form, or what is wrong with it.

ghost use Rattle.std.specs.Prelude.{◌≡◌, IsTrue, IfOk, if◌then◌else◌};
ghost use Rattle.toml.specs.View.{view};
ghost use Rattle.service_spec.specs.Services.{content_of, is_below};
ghost use Rattle.service_spec.specs.Texts.{is_a_name};
ghost use Rattle.service_spec.specs.Wants.{IsValue};
ghost use Rattle.plan_keys.specs.Keys.{seen};
ghost use Rattle.charging_files.specs.CatalogueKeys.{name_says, short_says, text_says as plain_says, value_says};

use plan_keys::Wrong;
use service_spec::{has_name_form, has_text_form, length_of};
use toml::Value;

/// A name: 1 to 64 letters, digits or `_`.
pub(crate) fn name_of(value: &Value) -> Result<&str, Wrong>
    ensures said { seen (λ s. s.now) result ≡ name_says (view value.now) }
    ensures name { IfOk result (λ s. IsTrue (is_a_name s.now)) }
{
    let name = value.as_str().ok_or(Wrong::BadValue)?;
    if !has_name_form(name) {
        return Err(Wrong::BadValue);
    }
    if 1 <= name.len() && name.len() <= 64 {
        Ok(name)
    } else {
        Err(Wrong::OverLimit)
    }
}

/// Whether a number has 16 bits.
fn is_short(number: i64) -> bool
    ensures { result ≡ is_below 32768 number }
{
    -32768 <= number && number <= 32767
}

/// Whether a number has 32 bits.
fn is_int(number: i64) -> bool
    ensures { result ≡ is_below 2147483648 number }
{
    -2_147_483_648 <= number && number <= 2_147_483_647
}

/// A number of 16 bits.
pub(crate) fn short_of(value: &Value) -> Result<i16, Wrong>
    ensures { result ≡ short_says (view value.now) }
{
    match value.as_integer() {
        None => Err(Wrong::BadValue),
        Some(number) if is_short(number) => Ok(number as i16),
        Some(_) => Err(Wrong::OverLimit),
    }
}

/// A number of 32 bits.
fn int_of(number: i64) -> Result<i32, Wrong>
    ensures { result ≡ (if is_below 2147483648 number then Ok number else Err Wrong.OverLimit) }
{
    if is_int(number) {
        Ok(number as i32)
    } else {
        Err(Wrong::OverLimit)
    }
}

/// A text of at most 64 characters, without `"` and `;`.
fn text_of(text: &str) -> Result<service_spec::Value<'_>, Wrong>
    ensures said { seen content_of result ≡ plain_says text.now }
    ensures value { IfOk result IsValue }
{
    if !has_text_form(text) {
        return Err(Wrong::BadValue);
    }
    if length_of(text) <= 64 {
        Ok(service_spec::Value::Text(text))
    } else {
        Err(Wrong::OverLimit)
    }
}

/// A truth value, a number or a text.
pub(crate) fn value_of(value: &Value) -> Result<service_spec::Value<'_>, Wrong>
    ensures said { seen content_of result ≡ value_says (view value.now) }
    ensures value { IfOk result IsValue }
{
    if let Some(truth) = value.as_bool() {
        return Ok(service_spec::Value::Truth(truth));
    }
    if let Some(number) = value.as_integer() {
        return match int_of(number) {
            Ok(number) => Ok(service_spec::Value::Number(number)),
            Err(wrong) => Err(wrong),
        };
    }
    match value.as_str() {
        Some(text) => text_of(text),
        None => Err(Wrong::BadValue),
    }
}
