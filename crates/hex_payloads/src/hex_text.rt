//! Bytes from hexadecimal text.

ghost use Rattle.std.specs.Prelude.{◌≡◌, ◌≤◌, length, position, IfOk, IfErr};
ghost use Rattle.std.specs.Str.{chars};
ghost use Rattle.hex_payloads.specs.HexText.{hex_fault, is_no_digit, IsHexOf, IsHexFault};

use std::alloc::Global;

/// The most characters of a text, which are 65,536 bytes.
const MOST_CHARACTERS: usize = 131_072;

/// Why a text has no bytes.
#[derive(Clone, Copy, Debug, PartialEq, Eq)]
pub enum HexFault {
    /// It spells none: this character, from 0, is out of place.
    Place(u64),
    /// Memory ran out.
    Memory,
}

/// The at most 65,536 bytes that a text spells, in digits of either case.
///
/// `Place` exactly where it spells none: the number of characters where that is odd, else the place of the first one that is no
/// digit, else 131,072 where there are more than that.
#[tactic(auto, using(crate::proofs::HexLengths::length_hex))]
pub fn bytes_of(alloc: Global, text: &str) -> Result<Vec<u8>, HexFault>
    ensures spelled { IfOk result (λ bytes. IsHexOf text.now bytes.items) }
    ensures few { IfOk result (λ bytes. length bytes.items ≤ 65536) }
    ensures fault { IfErr result (IsHexFault text.now) }
{
    if let Some(place) = fault_of(text) {
        return Err(HexFault::Place(place as u64));
    }
    // a text of pairs of digits is refused only for want of memory
    hex::decode(alloc, text).map_err(|_| HexFault::Memory)
}

/// What is wrong with a text.
fn fault_of(text: &str) -> Option<usize>
    ensures { result ≡ hex_fault (chars text.now) }
{
    let count = number_of_characters(text);
    if count % 2 == 1 {
        return Some(count);
    }
    if let Some(place) = place_of_no_digit(text) {
        return Some(place);
    }
    (count > MOST_CHARACTERS).then_some(MOST_CHARACTERS)
}

fn number_of_characters(text: &str) -> usize
    ensures { result ≡ length (chars text.now) }
{
    text.chars().count()
}

/// The place of the first character that is no digit.
fn place_of_no_digit(text: &str) -> Option<usize>
    ensures { result ≡ position is_no_digit (chars text.now) }
{
    text.chars().position(|c| !c.is_ascii_hexdigit())
}
