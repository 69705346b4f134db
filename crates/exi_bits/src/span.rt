//! Texts and Binaries that are lent from the payload in which they stand.

ghost use Rattle.std.specs.Prelude.{◌≡◌, ℕ, ◌+◌, ◌*◌, ◌<◌, ◌≤◌, ◌^◌, ◌↔◌, List, IsTrue, length, true, false};
ghost use Rattle.std.specs.Char.{IsScalar};
ghost use Rattle.std.specs.List.{AllByRecursion};
ghost use Rattle.std.specs.Str.{chars};
ghost use Rattle.exi_spec.specs.Bits.{bits_of};
ghost use Rattle.exi_spec.specs.Items.{shortest_chars};

use crate::contents::Contents;
use crate::cursor::BitCursor;
use crate::lengths::unsigned_bits;
use std::marker::Model;

/// Where a text stands in a payload.
#[derive(Clone, Copy, Debug, PartialEq, Eq)]
pub struct SpanAt {
    /// The bit at which its first code point begins.
    pub bit: u32,
    /// How many code points it has.
    pub chars: u32,
}

/// A text or a Binary, lent from the payload that spells it, at any bit.
///
/// Contracts see where it stands; `items_of` of that is its list of code points or bytes.
#[derive(Drop)]
pub struct BitSpan<'a> {
    payload: &'a [u8],
    bit: u32,
    count: u32,
    is_text: bool,
}

impl<'a> Model for BitSpan<'a> {
    ghost use Rattle.std.specs.Prelude.{◌≤◌, length};
    ghost use Rattle.exi_spec.specs.Bits.{bits_of};
    ghost use Rattle.exi_bits.specs.Lent.{Span, Holds, items_of};

    ghost Value = { Span };

    ghost view = { λ s. record { bits = bits_of s.payload.now; bit = s.bit; count = s.count; is_text = s.is_text } };

    ghost invariant = { λ s.
        let span : Span = record { bits = bits_of s.payload.now; bit = s.bit; count = s.count; is_text = s.is_text } in
        (length s.payload.now ≤ 65536) × Holds span (items_of span) };
}

impl<'a> Default for BitSpan<'a> {
    ghost use Rattle.std.specs.Prelude.{[], true};

    /// The empty text.
    fn default() -> BitSpan<'a>
        ensures { result ≡ record { bits = []; bit = 0; count = 0; is_text = true } }
    {
        BitSpan::text_at(&[], 0, 0)
    }
}

impl<'a> BitSpan<'a> {
    ghost use Rattle.exi_bits.specs.Lent.{Span, Holds, IsSpan, items_of, text_at};

    /// The n bytes of a Binary at a bit.
    pub(crate) fn binary_at(payload: &'a [u8], bit: u32, n: u32) -> BitSpan<'a>
        requires room { length payload.now ≤ 65536 }
        requires within { bit + 8 * n ≤ 8 * length payload.now }
        ensures { result ≡ record { bits = bits_of payload.now; bit = bit; count = n; is_text = false } }
    {
        BitSpan {
            payload,
            bit,
            count: n,
            is_text: false,
        }
    }

    /// The n code points of a text at a bit.
    pub(crate) fn text_at(payload: &'a [u8], bit: u32, n: u32) -> BitSpan<'a>
        requires room { length payload.now ≤ 65536 }
        requires spelled { IsSpan (record { bits = bits_of payload.now; bit = bit; count = n; is_text = true }) }
        ensures { result ≡ record { bits = bits_of payload.now; bit = bit; count = n; is_text = true } }
    {
        BitSpan {
            payload,
            bit,
            count: n,
            is_text: true,
        }
    }

    /// How many code points a text has, or bytes a Binary.
    pub fn len(&self) -> u32
        ensures count { result ≡ self.now.count }
        ensures items { result ≡ length (items_of self.now) }
    {
        self.count
    }

    /// Where it stands; of a Binary `chars` is the number of bytes.
    pub fn at(&self) -> SpanAt
        ensures at { result ≡ record { bit = self.now.bit; chars = self.now.count } }
        ensures spelled { IsSpan self.now }
    {
        SpanAt {
            bit: self.bit,
            chars: self.count,
        }
    }

    /// The same text or Binary a second time: nothing of it is read.
    pub fn again(&self) -> BitSpan<'a>
        ensures same { result ≡ self.now }
        ensures items { items_of result ≡ items_of self.now }
        ensures spelled { IsSpan result }
    {
        BitSpan {
            payload: self.payload,
            bit: self.bit,
            count: self.count,
            is_text: self.is_text,
        }
    }

    /// A cursor at its first bit.
    pub fn cursor(&self) -> BitCursor<'a>
        ensures { result ≡ record { bits = self.now.bits; place = self.now.bit } }
    {
        BitCursor::at(self.payload, self.bit)
    }

    /// The text at a place of a payload. The bytes of an ASCII text spell its code points at bit 0.
    pub fn of(payload: &'a [u8], at: SpanAt) -> BitSpan<'a>
        requires room { length payload.now ≤ 65536 }
        requires spelled { IsSpan (text_at (bits_of payload.now) at) }
        ensures span { result ≡ text_at (bits_of payload.now) at }
        ensures items { (chars : List ℕ) → Holds (text_at (bits_of payload.now) at) chars → items_of result ≡ chars }
    {
        BitSpan::text_at(payload, at.bit, at.chars)
    }

    /// The Binary of these bytes, at most 65,536.
    pub fn of_bytes(bytes: &'a [u8]) -> BitSpan<'a>
        requires { length bytes.now ≤ 65536 }
        ensures span { result ≡ record { bits = bits_of bytes.now; bit = 0; count = length bytes.now; is_text = false } }
        ensures items { items_of result ≡ bytes.now }
    {
        BitSpan::binary_at(bytes, 0, bytes.len() as u32)
    }

    /// Whether both are the same code points, or of Binaries the same bytes, however long they are spelled.
    pub fn same(&self, other: &BitSpan<'_>) -> bool
        requires { self.now.is_text ≡ other.now.is_text }
        ensures { IsTrue result ↔ (items_of self.now ≡ items_of other.now) }
    {
        if self.len() != other.len() {
            return false;
        }
        let mut mine = self.contents();
        let mut theirs = other.contents();
        while let Some(item) = mine.next() {
            if theirs.next() != Some(item) {
                return false;
            }
        }
        true
    }

    /// Whether this text is the other one.
    pub fn same_str(&self, text: &str) -> bool
        requires { IsTrue self.now.is_text }
        ensures { IsTrue result ↔ (items_of self.now ≡ chars text.now) }
    {
        let mut mine = self.contents();
        for c in text.chars() {
            if mine.next() != Some(u32::from(c)) {
                return false;
            }
        }
        mine.next().is_none()
    }

    /// How many bits the shortest spellings of its code points have (7.1.10).
    pub fn chars_bits(&self) -> u64
        ensures bits { result ≡ length (shortest_chars (items_of self.now)) }
        ensures few { result ≤ 80 * length (items_of self.now) }
    {
        let mut chars = self.contents();
        let mut bits = 0;
        while let Some(char) = chars.next() {
            bits += u64::from(unsigned_bits(u64::from(char)));
        }
        bits
    }

    /// Its code points or bytes, one after the other.
    pub fn contents(&self) -> Contents<'a>
        ensures items { result ≡ items_of self.now }
        ensures few { length result < 2 ^ 32 }
        ensures characters { self.now.is_text ≡ true → AllByRecursion (λ char. IsScalar char) result }
        ensures bytes { self.now.is_text ≡ false → AllByRecursion (λ byte. byte < 256) result }
    {
        let count = self.count;
        Contents::new(self.payload, self.bit, count, self.is_text)
    }
}
