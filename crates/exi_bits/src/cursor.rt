//! A place in a payload, from which items are taken.

ghost use Rattle.std.specs.Prelude.{◌≡◌, ℕ, ◌+◌, ◌*◌, ◌≤◌, ◌<◌, true, false, length, IfOk, IfErr, IfSome, OnErr};
ghost use Rattle.exi_spec.specs.Bits.{bits_of};
ghost use Rattle.exi_spec.specs.Items.{SpellsBool, SpellsNumber, SpellsUnsigned, SpellsInteger, SpellsBytes, SpellsChars, RefusesBits, RefusesUnsigned, RefusesInteger, RefusesChars};
ghost use Rattle.exi_bits.specs.Lent.{items_of, IsSpan};

use crate::octets;
use crate::span::BitSpan;
use crate::window::BitWindow;
use exi_spec::{BitCause, BitFault};
use std::marker::Model;

/// A place in the bits of a payload. Contracts see all bits of the payload, and the number of the next one.
///
/// A call that takes an item moves behind it, and one that is refused leaves the cursor where it was.
#[derive(Drop)]
pub struct BitCursor<'a> {
    payload: &'a [u8],
    place: u32,
}

impl<'a> Model for BitCursor<'a> {
    ghost use Rattle.std.specs.Prelude.{◌≤◌, ◌*◌, length};
    ghost use Rattle.exi_spec.specs.Bits.{bits_of};
    ghost use Rattle.exi_bits.specs.Reading.{Cursor};

    ghost Value = { Cursor };

    ghost view = { λ c. record { bits = bits_of c.payload.now; place = c.place } };

    ghost invariant = { λ c. (length c.payload.now ≤ 65536) × (c.place ≤ 8 * length c.payload.now) };
}

impl<'a> BitCursor<'a> {
    ghost use Rattle.std.specs.Prelude.{None, ◌⊎◌};
    ghost use Rattle.exi_bits.specs.Reading.{Cursor, HoldsNext, Takes, ahead};

    /// The first bit of a payload of at most 65,536 bytes.
    pub fn new(payload: &'a [u8]) -> BitCursor<'a>
        requires { length payload.now ≤ 65536 }
        ensures { result ≡ record { bits = bits_of payload.now; place = 0 } }
    {
        BitCursor { payload, place: 0 }
    }

    /// A place of a payload.
    pub(crate) fn at(payload: &'a [u8], place: u32) -> BitCursor<'a>
        requires room { length payload.now ≤ 65536 }
        requires within { place ≤ 8 * length payload.now }
        ensures { result ≡ record { bits = bits_of payload.now; place = place } }
    {
        BitCursor { payload, place }
    }

    /// The number of the next bit.
    pub fn place(&self) -> u32
        ensures place { result ≡ self.now.place }
        ensures within { result ≤ length self.now.bits }
        ensures room { length self.now.bits ≤ 524288 }
    {
        self.place
    }

    /// The next bits, to take small items from; `None` where the payload has less than eight bytes, or at its end.
    #[inline(always)]
    pub fn window(&self) -> Option<BitWindow<'a>>
        ensures cursor { IfSome result (λ window. window.cursor ≡ self.now) }
        ensures held { IfSome result HoldsNext }
        ensures none { result ≡ None → (length self.now.bits < 64) ⊎ (self.now.place ≡ length self.now.bits) }
    {
        BitWindow::at(self.payload, self.place)
    }

    /// Goes on behind what was taken from a window of the same bits.
    #[inline(always)]
    pub fn pass(&mut self, window: BitWindow<'a>)
        requires { window.cursor.bits ≡ self.old.bits }
        ensures { self.new ≡ window.entry.cursor }
    {
        self.place = window.place();
    }

    /// Takes a Boolean (7.1.2).
    ///
    /// `ShortInput` at the end of the payload.
    pub fn take_bit(&mut self) -> Result<bool, BitFault>
        ensures ok { IfOk result (λ bit. Takes (SpellsBool bit) self.old self.new) }
        ensures refused { IfErr result (λ fault. RefusesBits 1 (ahead self.old) fault.cause) }
        ensures at { IfErr result (λ fault. fault.bit ≡ self.old.place) }
        ensures stays { OnErr result (self.new ≡ self.old) }
    {
        if octets::bits_left(self.payload, self.place) < 1 {
            return Err(self.short());
        }
        let bit = octets::bit_at(self.payload, self.place);
        self.place += 1;
        Ok(bit)
    }

    /// Takes an n-bit Unsigned Integer (7.1.9), of at most 32 bits.
    ///
    /// `ShortInput` where fewer bits are left.
    #[inline(always)]
    pub fn take_bits(&mut self, n: u32) -> Result<u32, BitFault>
        requires { n ≤ 32 }
        ensures ok { IfOk result (λ value. Takes (SpellsNumber n value) self.old self.new) }
        ensures refused { IfErr result (λ fault. RefusesBits n (ahead self.old) fault.cause) }
        ensures at { IfErr result (λ fault. fault.bit ≡ self.old.place) }
        ensures stays { OnErr result (self.new ≡ self.old) }
    {
        if octets::bits_left(self.payload, self.place) < n {
            return Err(self.short());
        }
        let value = octets::number_at(self.payload, self.place, n);
        self.place += n;
        Ok(value)
    }

    /// Takes an Unsigned Integer (7.1.6).
    ///
    /// `ShortInput` where the payload ends within it, `WiderInteger` where its tenth octet says that more follow
    /// or its value is 2^64 or more.
    pub fn take_unsigned(&mut self) -> Result<u64, BitFault>
        ensures ok { IfOk result (λ value. Takes (SpellsUnsigned value) self.old self.new) }
        ensures refused { IfErr result (λ fault. RefusesUnsigned (ahead self.old) fault.cause) }
        ensures at { IfErr result (λ fault. fault.bit ≡ self.old.place) }
        ensures stays { OnErr result (self.new ≡ self.old) }
    {
        match octets::unsigned_at(self.payload, self.place) {
            Ok((value, bits)) => {
                self.place += bits;
                Ok(value)
            }
            Err(cause) => Err(BitFault {
                cause,
                bit: self.place,
            }),
        }
    }

    /// Takes an Integer (7.1.5): from -2^64 to 2^64 - 1.
    ///
    /// `ShortInput` at its sign bit or at the Unsigned Integer behind it, `WiderInteger` there.
    pub fn take_integer(&mut self) -> Result<i128, BitFault>
        ensures ok { IfOk result (λ value. Takes (SpellsInteger value) self.old self.new) }
        ensures refused { IfErr result (λ fault. (at : ℕ) × RefusesInteger (ahead self.old) fault.cause at
            × (fault.bit ≡ self.old.place + at)) }
        ensures stays { OnErr result (self.new ≡ self.old) }
    {
        if octets::bits_left(self.payload, self.place) < 1 {
            return Err(self.short());
        }
        let negative = octets::bit_at(self.payload, self.place);
        match octets::unsigned_at(self.payload, self.place + 1) {
            Ok((magnitude, bits)) => {
                self.place += 1 + bits;
                Ok(octets::signed(negative, magnitude))
            }
            Err(cause) => Err(BitFault {
                cause,
                bit: self.place + 1,
            }),
        }
    }

    /// Takes the n bytes of a Binary behind its length (7.1.1).
    ///
    /// `ShortInput` where fewer are left.
    pub fn take_bytes(&mut self, n: u32) -> Result<BitSpan<'a>, BitFault>
        ensures span { IfOk result (λ span. span ≡ record { bits = self.old.bits; bit = self.old.place; count = n; is_text = false }) }
        ensures count { IfOk result (λ span. length (items_of span) ≡ n) }
        ensures held { IfOk result IsSpan }
        ensures ok { IfOk result (λ span. Takes (SpellsBytes (items_of span)) self.old self.new) }
        ensures refused { IfErr result (λ fault. RefusesBits (8 * n) (ahead self.old) fault.cause) }
        ensures at { IfErr result (λ fault. fault.bit ≡ self.old.place) }
        ensures stays { OnErr result (self.new ≡ self.old) }
    {
        if octets::bits_left(self.payload, self.place) / 8 < n {
            return Err(self.short());
        }
        let span = BitSpan::binary_at(self.payload, self.place, n);
        self.place += 8 * n;
        Ok(span)
    }

    /// Takes the n code points of a String behind its length (7.1.10), and lends them.
    ///
    /// The first code point that can't be taken decides, at its own bit: `ShortInput` and `WiderInteger` as for
    /// an Unsigned Integer, `BadChar` where it is no Unicode scalar value.
    pub fn take_chars(&mut self, n: u32) -> Result<BitSpan<'a>, BitFault>
        ensures span { IfOk result (λ span. span ≡ record { bits = self.old.bits; bit = self.old.place; count = n; is_text = true }) }
        ensures count { IfOk result (λ span. length (items_of span) ≡ n) }
        ensures held { IfOk result IsSpan }
        ensures ok { IfOk result (λ span. Takes (SpellsChars (items_of span)) self.old self.new) }
        ensures refused { IfErr result (λ fault. (at : ℕ) × RefusesChars n (ahead self.old) fault.cause at
            × (fault.bit ≡ self.old.place + at)) }
        ensures stays { OnErr result (self.new ≡ self.old) }
    {
        match octets::chars_at(self.payload, self.place, n) {
            Ok(bits) => {
                let span = BitSpan::text_at(self.payload, self.place, n);
                self.place += bits;
                Ok(span)
            }
            Err(fault) => Err(fault),
        }
    }

    /// The payload ends too early for the item at the next bit.
    fn short(&self) -> BitFault
        ensures { result ≡ record { cause = BitCause.ShortInput; bit = self.now.place } }
    {
        BitFault {
            cause: BitCause::ShortInput,
            bit: self.place,
        }
    }
}
