//! Values, put behind a text.

ghost use Rattle.std.specs.Prelude.{◌≡◌, ℕ, ◌<◌, ◌++◌, Bool, true, false, List, codes, slice_index, OnOk};
ghost use Rattle.std.specs.Char.{IsScalar};
ghost use Rattle.std.specs.String.{string_bytes};
ghost use Rattle.hex.specs.Hex.{encode_lower, lower_digits};
ghost use Rattle.exi_bits.specs.Lent.{items_of};
ghost use Rattle.exi_schema.specs.Told.{schema_of};
ghost use Rattle.exi_values.specs.Meaning.{IsLent, value_of};
ghost use Rattle.tree_text.specs.TreeText.{character_text, quoted, IsValueText, IsName};

use charge_world::NoMemory;
use exi_bits::BitSpan;
use exi_schema::Schema;
use exi_values::Value;

/// A digit of lower-case hexadecimal.
fn lower_digit(n: u32) -> char
    requires { n < 16 }
    ensures digit { result ≡ slice_index lower_digits n }
    ensures ascii { result < 128 }
{
    const DIGITS: [u8; 16] = *b"0123456789abcdef";
    char::from(DIGITS[n as usize])
}

/// Puts the bytes of a Binary in lower-case hexadecimal.
fn put_bytes(text: &mut String, span: &BitSpan) -> Result<(), NoMemory>
    requires { span.now.is_text ≡ false }
    ensures { OnOk result (string_bytes text.new ≡ string_bytes text.old ++ encode_lower (items_of span.now)) }
{
    let mut contents = span.contents();
    while let Some(byte) = contents.next() {
        text.push(lower_digit(byte / 16))?;
        text.push(lower_digit(byte % 16))?;
    }
    Ok(())
}

/// Puts a character that stands between quotes.
fn put_character(text: &mut String, c: u32) -> Result<(), NoMemory>
    requires { IsScalar c }
    ensures { OnOk result (string_bytes text.new ≡ string_bytes text.old ++ character_text c) }
{
    if c == 34 {
        return text.push_str("\\\"");
    }
    if c == 92 {
        return text.push_str("\\\\");
    }
    if c < 32 {
        return write!(text, "\\u{{{c:x}}}");
    }
    match char::from_u32(c) {
        Some(character) => text.push(character),
        None => unreachable!(),
    }
}

/// Puts a text in quotes.
fn put_quoted(text: &mut String, span: &BitSpan) -> Result<(), NoMemory>
    requires { span.now.is_text ≡ true }
    ensures { OnOk result (string_bytes text.new ≡ string_bytes text.old ++ quoted (items_of span.now)) }
{
    text.push_str("\"")?;
    let mut contents = span.contents();
    while let Some(character) = contents.next() {
        put_character(text, character)?;
    }
    text.push_str("\"")
}

/// Puts a value of a kind.
fn put_value(text: &mut String, schema: &Schema, kind: u16, value: &Value) -> Result<(), NoMemory>
    requires lent { (bits : List Bool) × IsLent bits value.now }
    requires has_text { (said : List ℕ) × IsValueText (schema_of schema.now) kind (value_of value.now) said }
    ensures { OnOk result ((said : List ℕ) × IsValueText (schema_of schema.now) kind (value_of value.now) said × (string_bytes text.new ≡ string_bytes text.old ++ said)) }
{
    match value {
        Value::Bool(true) => text.push_str("true"),
        Value::Bool(false) => text.push_str("false"),
        Value::Ordinal(ordinal) => text.push_str(schema.value_name(kind, *ordinal)),
        Value::Number(number) => {
            let mut buffer = itoa::Buffer::new();
            text.push_str(buffer.format(*number))
        }
        Value::Binary(span) => put_bytes(text, span),
        Value::Text(span) => put_quoted(text, span),
        Value::Written(_) => unreachable!(),
    }
}

/// Puts the name of an element or of an attribute.
pub(crate) fn put_name(text: &mut String, schema: &Schema, name: u16) -> Result<(), NoMemory>
    requires { (word : List ℕ) × IsName (schema_of schema.now) name word }
    ensures { OnOk result ((word : List ℕ) × IsName (schema_of schema.now) name word × (string_bytes text.new ≡ string_bytes text.old ++ word)) }
{
    text.push_str(schema.name(name))
}

/// Puts a value of a kind behind an equals sign.
pub(crate) fn put_equals(
    text: &mut String,
    schema: &Schema,
    kind: u16,
    value: &Value,
) -> Result<(), NoMemory>
    requires lent { (bits : List Bool) × IsLent bits value.now }
    requires has_text { (said : List ℕ) × IsValueText (schema_of schema.now) kind (value_of value.now) said }
    ensures { OnOk result ((said : List ℕ) × IsValueText (schema_of schema.now) kind (value_of value.now) said × (string_bytes text.new ≡ string_bytes text.old ++ codes "=" ++ said)) }
{
    text.push_str("=")?;
    put_value(text, schema, kind, value)
}
