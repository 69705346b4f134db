//! The names and texts of parameters.

ghost use Rattle.std.specs.Prelude.{◌≡◌, length};
ghost use Rattle.std.specs.Str.{chars};
ghost use Rattle.service_spec.specs.Texts as rule;

/// Whether a byte is a letter, a digit or `_`.
fn is_name_byte(byte: u8) -> bool
    ensures { result ≡ rule.is_name_byte byte }
{
    matches!(byte, b'0'..=b'9' | b'A'..=b'Z' | b'a'..=b'z' | b'_')
}

/// Whether each character is a letter, a digit or `_`.
pub fn has_name_form(name: &str) -> bool
    ensures { result ≡ rule.is_word name.now }
{
    name.as_bytes().iter().all(|byte| is_name_byte(*byte))
}

/// Whether a text may name a parameter: 1 to 64 letters, digits or `_`.
pub fn is_name(name: &str) -> bool
    ensures { result ≡ rule.is_a_name name.now }
{
    has_name_form(name) && 1 <= name.len() && name.len() <= 64
}

/// Whether no character is `"` or `;`.
pub fn has_text_form(text: &str) -> bool
    ensures { result ≡ rule.is_plain text.now }
{
    text.as_bytes()
        .iter()
        .all(|byte| *byte != b'"' && *byte != b';')
}

/// How many characters a text has.
pub fn length_of(text: &str) -> usize
    ensures { result ≡ length (chars text.now) }
{
    text.chars().count()
}

/// Whether a parameter may have this text: at most 64 characters, without `"` and `;`.
pub fn is_text(text: &str) -> bool
    ensures { result ≡ rule.is_a_text text.now }
{
    has_text_form(text) && length_of(text) <= 64
}
