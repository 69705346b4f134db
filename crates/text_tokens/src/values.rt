//! Decimal numbers, and bytes in lower-case hexadecimal.

ghost use Rattle.std.specs.Prelude.{◌≡◌, ◌≤◌, ◌<◌, ◌^◌, ◌↔◌, ℕ, Some, IsTrue, MatchResult, decimal};
ghost use Rattle.std.specs.List.{list_all};
ghost use Rattle.hex.specs.Hex.{encode_lower, IsBytes};
ghost use Rattle.text_tokens.specs.Words.{identifier_text, is_lower_digit, IsHex, Reads};

use crate::words::Refused;
use itoa::Buffer;
use std::alloc::Global;

/// The number that a word spells, if it's one.
fn parsed(word: &[u8]) -> Option<u64>
    ensures { (n : ℕ) → n < 2 ^ 64 → word.now ≡ decimal n → result ≡ Some n }
{
    match str::from_utf8(word) {
        Ok(text) => text.parse::<u64>().ok(),
        Err(_) => None,
    }
}

/// The number from `least` to `most` that a word spells in decimal digits without a leading zero.
pub fn number(word: &[u8], least: u64, most: u64) -> Result<u64, Refused>
    ensures { Reads decimal (λ n. (least ≤ n) × (n ≤ most)) word.now result }
{
    let number = parsed(word).ok_or(Refused::Bad)?;
    let mut buffer = Buffer::new();
    let fits = least <= number && number <= most && buffer.format(number).as_bytes() == word;
    fits.then_some(number).ok_or(Refused::Bad)
}

/// Whether each byte of a word is a digit of lower-case hexadecimal.
fn all_digits(word: &[u8]) -> bool
    ensures { result ≡ list_all is_lower_digit word.now }
{
    word.iter()
        .all(|byte| matches!(*byte, b'0'..=b'9' | b'a'..=b'f'))
}

/// Whether a word spells bytes in lower-case hexadecimal. No bytes are spelled by a word without a letter.
pub fn is_hex(word: &[u8]) -> bool
    ensures { IsTrue result ↔ IsHex word.now }
{
    word.len() % 2 == 0 && all_digits(word)
}

/// The bytes that a word spells in lower-case hexadecimal.
pub fn hex_bytes(alloc: Global, word: &[u8]) -> Result<Vec<u8>, Refused>
    ensures { MatchResult result (λ bytes. IsBytes bytes.items × (word.now ≡ encode_lower bytes.items)) (λ refused. refused ≡ Refused.Bad → IsHex word.now → ⊥) }
{
    if !is_hex(word) {
        return Err(Refused::Bad);
    }
    match hex::decode(alloc, word) {
        Ok(bytes) => Ok(bytes),
        Err(_) => Err(Refused::Memory),
    }
}

/// The number that a word spells in sixteen digits of lower-case hexadecimal, the highest first.
pub fn identifier(word: &[u8]) -> Result<u64, Refused>
    ensures { Reads identifier_text (λ n. n < 2 ^ 64) word.now result }
{
    if !is_hex(word) {
        return Err(Refused::Bad);
    }
    let mut bytes = [0; 8];
    match hex::decode_to_slice(word, &mut bytes) {
        Ok(()) => Ok(u64::from_be_bytes(bytes)),
        Err(_) => Err(Refused::Bad),
    }
}
