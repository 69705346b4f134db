//! The next bits of a payload, held in a number.

ghost use Rattle.std.specs.Prelude.{◌≡◌, ℕ, ℤ, ◌+◌, ◌*◌, ◌^◌, ◌<◌, ◌≤◌, length, take, drop, None, IfSome};
ghost use Rattle.exi_spec.specs.Bits.{bits_of, number_bits};
ghost use Rattle.exi_spec.specs.Items.{SpellsBool, SpellsNumber, SpellsOctets, SpellsUnsigned, SpellsInteger};

use crate::octets::{octets_value, signed};
use std::marker::Model;

/// How many bytes are held.
const HELD_BYTES: usize = 8;

/// The number of eight bytes from an index on, where there are so many.
#[inline(always)]
fn word_at(payload: &[u8], first: usize) -> Option<u64>
    requires room { length payload.now ≤ 65536 }
    requires within { first ≤ length payload.now }
    ensures within { IfSome result (λ _. first + 8 ≤ length payload.now) }
    ensures none { result ≡ None → length payload.now < first + 8 }
    ensures spelled { IfSome result (λ word. number_bits 64 word ≡ bits_of (take 8 (drop first payload.now))) }
{
    let front = payload.get(first..first + HELD_BYTES)?;
    match <&[u8; HELD_BYTES]>::try_from(front) {
        Ok(bytes) => Some(u64::from_be_bytes(*bytes)),
        Err(_) => None,
    }
}

/// The next bits of a payload, of which up to 64 are held in a number: items of few bits are taken from it without a look at the payload.
/// Contracts see a cursor, and how many bits are held.
///
/// Where an item isn't held as a whole, or can't be taken, `None` is answered and the window is of no more use: a cursor tells why.
#[derive(Drop)]
pub struct BitWindow<'a> {
    payload: &'a [u8],
    place: u32,
    /// The next bit is the highest; behind those that are held come others.
    word: u64,
    held: u32,
}

impl<'a> Model for BitWindow<'a> {
    ghost use Rattle.std.specs.Prelude.{◌≡◌, ◌+◌, ◌≤◌, ◌*◌, ◌++◌, length, take, drop};
    ghost use Rattle.exi_spec.specs.Bits.{bits_of, number_bits};
    ghost use Rattle.exi_bits.specs.Reading.{Window};

    ghost Value = { Window };

    ghost view = { λ w. record { cursor = record { bits = bits_of w.payload.now; place = w.place }; held = w.held } };

    ghost invariant = { λ w. (length w.payload.now ≤ 65536) × (w.place + w.held ≤ 8 * length w.payload.now) × (w.held ≤ 64)
        × (drop w.place (bits_of w.payload.now) ≡ take w.held (number_bits 64 w.word) ++ drop (w.place + w.held) (bits_of w.payload.now)) };
}

impl<'a> BitWindow<'a> {
    ghost use Rattle.std.specs.Prelude.{None, OnSome, ◌⊎◌};
    ghost use Rattle.exi_bits.specs.Reading.{HoldsNext, HoldsOn, HoldsWhole, Takes};

    /// The bits from a place of a payload on. `None` where the payload has less than eight bytes, or at its end.
    #[inline(always)]
    pub(crate) fn at(payload: &'a [u8], place: u32) -> Option<BitWindow<'a>>
        requires room { length payload.now ≤ 65536 }
        requires within { place ≤ 8 * length payload.now }
        ensures cursor { IfSome result (λ w. w.cursor ≡ record { bits = bits_of payload.now; place = place }) }
        ensures held { IfSome result HoldsNext }
        ensures none { result ≡ None → (length payload.now < 8) ⊎ (place ≡ 8 * length payload.now) }
    {
        let last = payload.len().checked_sub(HELD_BYTES)?;
        let first = (place as usize / 8).min(last);
        let passed = place - 8 * first as u32;
        if passed >= 64 {
            return None;
        }
        let word = word_at(payload, first)?;
        Some(BitWindow {
            payload,
            place,
            word: word << passed,
            held: 64 - passed,
        })
    }

    /// The number of the next bit.
    pub(crate) fn place(&self) -> u32
        ensures place { result ≡ self.now.cursor.place }
        ensures within { result ≤ length self.now.cursor.bits }
        ensures room { length self.now.cursor.bits ≤ 524288 }
    {
        self.place
    }

    /// Takes an n-bit Unsigned Integer (7.1.9), of at most 32 bits. `None` where fewer are held, and where n is 0, which has no bit to take.
    #[inline(always)]
    pub fn take_bits(&mut self, n: u32) -> Option<u32>
        requires { n ≤ 32 }
        ensures held { OnSome result (self.new.held + n ≡ self.old.held) }
        ensures end { HoldsOn self.old self.new }
        ensures none { result ≡ None → 0 < n → self.old.held < n }
        ensures taken { IfSome result (λ value. Takes (SpellsNumber n value) self.old.cursor self.new.cursor) }
        ensures same { self.new.cursor.bits ≡ self.old.cursor.bits }
    {
        if n == 0 || self.held < n {
            return None;
        }
        let value = (self.word >> (64 - n)) as u32;
        self.word <<= n;
        self.held -= n;
        self.place += n;
        Some(value)
    }

    /// Takes a Boolean (7.1.2). `None` where no bit is held.
    #[inline(always)]
    pub fn take_bit(&mut self) -> Option<bool>
        ensures held { OnSome result (self.new.held + 1 ≡ self.old.held) }
        ensures end { HoldsOn self.old self.new }
        ensures none { result ≡ None → self.old.held ≡ 0 }
        ensures taken { IfSome result (λ bit. Takes (SpellsBool bit) self.old.cursor self.new.cursor) }
        ensures same { self.new.cursor.bits ≡ self.old.cursor.bits }
    {
        let bit = self.take_bits(1)?;
        Some(bit == 1)
    }

    /// Takes an Unsigned Integer (7.1.6) of at most three octets. `None` where none is held as a whole.
    #[inline(always)]
    pub fn take_unsigned(&mut self) -> Option<u64>
        ensures few { IfSome result (λ value. value < 2 ^ 21) }
        ensures held { HoldsOn self.old self.new }
        ensures none { result ≡ None → (value : ℕ) → ¬ HoldsWhole (SpellsUnsigned value) 24 self.old }
        ensures taken { IfSome result (λ value. Takes (SpellsUnsigned value) self.old.cursor self.new.cursor) }
        ensures same { self.new.cursor.bits ≡ self.old.cursor.bits }
    {
        let first = self.take_bits(8)?;
        if first < 128 {
            return Some(u64::from(first));
        }
        let high = self.take_two_octets()?;
        Some(octets_value(first, high))
    }

    /// Takes what at most two octets spell.
    #[inline(always)]
    fn take_two_octets(&mut self) -> Option<u64>
        ensures few { IfSome result (λ value. value < 2 ^ 14) }
        ensures held { HoldsOn self.old self.new }
        ensures none { result ≡ None → (value : ℕ) → ¬ HoldsWhole (SpellsOctets 9 value) 16 self.old }
        ensures taken { IfSome result (λ value. Takes (SpellsOctets 9 value) self.old.cursor self.new.cursor) }
        ensures same { self.new.cursor.bits ≡ self.old.cursor.bits }
    {
        let first = self.take_bits(8)?;
        if first < 128 {
            return Some(u64::from(first));
        }
        let second = self.take_bits(8)?;
        if second >= 128 {
            return None;
        }
        Some(octets_value(first, u64::from(second)))
    }

    /// Takes an Integer (7.1.5) whose magnitude has at most three octets. `None` where none is held as a whole.
    #[inline(always)]
    pub fn take_integer(&mut self) -> Option<i64>
        ensures held { HoldsOn self.old self.new }
        ensures none { result ≡ None → (value : ℤ) → ¬ HoldsWhole (SpellsInteger value) 25 self.old }
        ensures taken { IfSome result (λ value. Takes (SpellsInteger value) self.old.cursor self.new.cursor) }
        ensures same { self.new.cursor.bits ≡ self.old.cursor.bits }
    {
        let negative = self.take_bit()?;
        let magnitude = self.take_unsigned()?;
        Some(signed(negative, magnitude) as i64)
    }
}
