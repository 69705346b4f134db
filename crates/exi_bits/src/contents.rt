//! The code points or bytes of a span, one after the other.

ghost use Rattle.std.specs.Prelude.{◌≡◌, ℕ, ◌+◌, ◌-◌, ◌*◌, ◌<◌, ◌≤◌, ◌↔◌, [], ◌∷◌, ◌++◌, IsTrue, true, None, length, drop, IfSome, MatchOption};
ghost use Rattle.exi_spec.specs.Bits.{bits_of};

use crate::octets;
use std::marker::Model;

/// What is left of a text or a Binary. Contracts see the list.
#[derive(Drop)]
pub struct Contents<'a> {
    payload: &'a [u8],
    bit: u32,
    left: u32,
    is_text: bool,
}

impl<'a> Model for Contents<'a> {
    ghost use Rattle.std.specs.Prelude.{ℕ, List, ◌≤◌, ◌*◌, length, drop};
    ghost use Rattle.exi_spec.specs.Bits.{bits_of};
    ghost use Rattle.exi_bits.specs.Lent.{IsSpan, items_in};

    ghost Value = { List ℕ };

    ghost view = { λ c. items_in c.is_text c.left (drop c.bit (bits_of c.payload.now)) };

    ghost invariant = { λ c. (length c.payload.now ≤ 65536) × (c.bit ≤ 8 * length c.payload.now)
        × IsSpan (record { bits = bits_of c.payload.now; bit = c.bit; count = c.left; is_text = c.is_text }) };
}

impl<'a> Contents<'a> {
    ghost use Rattle.exi_bits.specs.Lent.{IsSpan, items_in, four_octets, AreAscii};

    /// What a span of a payload contains.
    pub(crate) fn new(payload: &'a [u8], bit: u32, count: u32, is_text: bool) -> Contents<'a>
        requires room { length payload.now ≤ 65536 }
        requires within { bit ≤ 8 * length payload.now }
        requires spelled { IsSpan (record { bits = bits_of payload.now; bit = bit; count = count; is_text = is_text }) }
        ensures { result ≡ items_in is_text count (drop bit (bits_of payload.now)) }
    {
        Contents {
            payload,
            bit,
            left: count,
            is_text,
        }
    }

    /// The next code point or byte.
    #[inline(always)]
    pub fn next(&mut self) -> Option<u32>
        ensures { MatchOption result ((self.old ≡ []) × (self.new ≡ [])) (λ item. self.old ≡ item ∷ self.new) }
    {
        if self.left == 0 {
            return None;
        }
        let (item, bits) = item_at(self.payload, self.bit, self.left, self.is_text);
        self.bit += bits;
        self.left -= 1;
        Some(item)
    }

    /// The next four bytes of a Binary, as one number. `None`, and nothing is passed, where fewer are left, and of a text.
    #[inline(always)]
    pub(crate) fn next_four_bytes(&mut self) -> Option<u32>
        ensures some { IfSome result (λ word. self.old ≡ four_octets word ++ self.new) }
        ensures none { result ≡ None → self.new ≡ self.old }
    {
        if self.is_text {
            return None;
        }
        let word = four_items_at(self.payload, self.bit, self.left, self.is_text, false)?;
        self.bit += 32;
        self.left -= 4;
        Some(word)
    }

    /// The next four code points below 128, each of which one octet spells, as one number. `None`, and nothing is passed, where others are next.
    #[inline(always)]
    pub(crate) fn next_four_ascii(&mut self) -> Option<u32>
        ensures some { IfSome result (λ word. self.old ≡ four_octets word ++ self.new) }
        ensures ascii { IfSome result (λ word. AreAscii (four_octets word)) }
        ensures none { result ≡ None → self.new ≡ self.old }
    {
        let word = four_items_at(self.payload, self.bit, self.left, self.is_text, true)?;
        self.bit += 32;
        self.left -= 4;
        Some(word)
    }
}

ghost use Rattle.exi_bits.specs.Lent.{IsSpan, items_in, four_octets, AreAscii};

/// Of n items at a bit the first four, each in one octet, as one number; `None` where there are fewer, and, if only those below 128 are asked
/// for, where others are there.
#[inline(always)]
fn four_items_at(payload: &[u8], bit: u32, n: u32, is_text: bool, ascii: bool) -> Option<u32>
    requires asked { is_text ≡ true → ascii ≡ true }
    requires room { length payload.now ≤ 65536 }
    requires within { bit ≤ 8 * length payload.now }
    requires spelled { IsSpan (record { bits = bits_of payload.now; bit = bit; count = n; is_text = is_text }) }
    ensures within { IfSome result (λ _. (4 ≤ n) × (bit + 32 ≤ 8 * length payload.now)) }
    ensures ascii { ascii ≡ true → IfSome result (λ word. AreAscii (four_octets word)) }
    ensures first { IfSome result (λ word. items_in is_text n (drop bit (bits_of payload.now))
        ≡ four_octets word ++ items_in is_text (n - 4) (drop (bit + 32) (bits_of payload.now))) }
    ensures rest { IfSome result (λ _. IsSpan (record { bits = bits_of payload.now; bit = bit + 32; count = n - 4; is_text = is_text })) }
{
    if n < 4 {
        return None;
    }
    let word = octets::four_at(payload, bit)?;
    if ascii && !octets::are_ascii(word) {
        return None;
    }
    Some(word)
}

/// The first of n items at a bit, and how many bits spell it.
fn item_at(payload: &[u8], bit: u32, n: u32, is_text: bool) -> (u32, u32)
    requires some { 0 < n }
    requires room { length payload.now ≤ 65536 }
    requires within { bit ≤ 8 * length payload.now }
    requires spelled { IsSpan (record { bits = bits_of payload.now; bit = bit; count = n; is_text = is_text }) }
    ensures within { bit + result.1 ≤ 8 * length payload.now }
    ensures first { items_in is_text n (drop bit (bits_of payload.now))
        ≡ result.0 ∷ items_in is_text (n - 1) (drop (bit + result.1) (bits_of payload.now)) }
    ensures rest { IsSpan (record { bits = bits_of payload.now; bit = bit + result.1; count = n - 1; is_text = is_text }) }
{
    if is_text {
        match octets::char_at(payload, bit) {
            Ok((c, bits)) => (u32::from(c), bits),
            Err(_) => unreachable!(),
        }
    } else {
        match octets::octet_at(payload, bit) {
            Some(byte) => (byte, 8),
            None => unreachable!(),
        }
    }
}
