//! A pen that writes items into a room of bytes.

ghost use Rattle.std.specs.Prelude.{◌≡◌, ◌+◌, ◌*◌, ◌<◌, ◌≤◌, ◌↔◌, ◌^◌, [], ◌∷◌, length, take, pos, negsuc, ◌≤ℤ◌, if◌then◌else◌, OnOk, OnErr, IfErr, IsErr};
ghost use Rattle.exi_spec.specs.Bits.{bits_of, number_bits};
ghost use Rattle.exi_spec.specs.Items.{shortest_unsigned, shortest_integer, shortest_chars};
ghost use Rattle.std.specs.List.{AllByRecursion};
ghost use Rattle.exi_bits.specs.Lent.{items_of};
ghost use Rattle.exi_bits.specs.Written.{PadsZero, HoldsBits};
ghost use Rattle.std.specs.Str.{chars};

use crate::span::BitSpan;
use crate::{lent, room};

/// The room is too small.
#[derive(Clone, Copy, Debug, PartialEq, Eq)]
pub struct Full {
    /// How many bits all that is written and the item need.
    pub bits: u64,
}

/// Writes items behind one another into a room of at most 65,536 bytes.
#[derive(Drop)]
pub struct BitPen<'b> {
    room: &'b mut [u8],
    bits: u32,
    ghost small: { length room.now ≤ 65536 },
    ghost within: { bits ≤ 8 * length room.now },
    ghost clean: { PadsZero room.now bits },
}

impl<'b> BitPen<'b> {
    ghost use Rattle.exi_bits.specs.Pens.{written_bits, Writes, Needs, SamePen};

    /// A pen at the start of a room.
    pub fn new(room: &'b mut [u8]) -> BitPen<'b>
        requires { length room.old ≤ 65536 }
        ensures same_reference { result.room.ghost_name ≡ room.entry.ghost_name }
        ensures room { result.room.now ≡ room.old }
        ensures nothing { written_bits result ≡ [] }
    {
        BitPen { room, bits: 0 }
    }

    /// A pen behind the first `bits` bits of a room, where the bits behind them are 0 up to a whole byte, as a pen leaves them.
    pub fn behind(room: &'b mut [u8], bits: u32) -> BitPen<'b>
        requires room { length room.old ≤ 65536 }
        requires within { bits ≤ 8 * length room.old }
        requires clean { PadsZero room.old bits }
        ensures same_reference { result.room.ghost_name ≡ room.entry.ghost_name }
        ensures room { result.room.now ≡ room.old }
        ensures written { written_bits result ≡ take bits (bits_of room.old) }
    {
        BitPen { room, bits }
    }

    /// The number of the next bit, which is how many are written.
    pub fn place(&self) -> u32
        ensures place { result ≡ length (written_bits self.now) }
        ensures room { length self.now.room.now ≤ 65536 }
    {
        self.bits
    }

    /// Ends at the next bit, and tells its number, which is how many bits are written. A pen behind them goes on.
    pub fn into_place(self) -> u32
        ensures place { result ≡ length (written_bits self.entry) }
        ensures written { take result (bits_of self.entry.room.now) ≡ written_bits self.entry }
        ensures within { result ≤ 8 * length self.entry.room.now }
        ensures clean { PadsZero self.entry.room.now result }
        ensures stays { self.exit.0.now ≡ self.entry.room.now }
    {
        self.bits
    }

    /// Whether n bits more have room.
    #[inline(always)]
    fn room_for(&self, n: u64) -> Result<(), Full>
        requires { n < 2 ^ 63 }
        ensures full { IsErr result ↔ Needs self.now n }
        ensures bits { IfErr result (λ full. full.bits ≡ length (written_bits self.now) + n) }
        ensures fits { OnOk result (self.now.bits + n ≤ 8 * length self.now.room.now) }
    {
        let needed = u64::from(self.bits) + n;
        if needed > 8 * self.room.len() as u64 {
            Err(Full { bits: needed })
        } else {
            Ok(())
        }
    }

    /// Writes a Boolean (7.1.2).
    ///
    /// `Full` exactly where the room is too small.
    pub fn put_bit(&mut self, bit: bool) -> Result<(), Full>
        ensures ok { OnOk result (Writes self.old self.new (bit ∷ [])) }
        ensures full { IsErr result ↔ Needs self.old 1 }
        ensures bits { IfErr result (λ full. full.bits ≡ length (written_bits self.old) + 1) }
        ensures stays { OnErr result (SamePen self.old self.new) }
    {
        self.room_for(1)?;
        room::push_bit(self.room, self.bits, bit);
        self.bits += 1;
        Ok(())
    }

    /// Writes an n-bit Unsigned Integer (7.1.9), of at most 32 bits.
    ///
    /// `Full` exactly where the room is too small.
    #[inline(always)]
    pub fn put_bits(&mut self, value: u32, n: u32) -> Result<(), Full>
        requires few { n ≤ 32 }
        requires range { value < 2 ^ n }
        ensures ok { OnOk result (Writes self.old self.new (number_bits n value)) }
        ensures full { IsErr result ↔ Needs self.old n }
        ensures bits { IfErr result (λ full. full.bits ≡ length (written_bits self.old) + n) }
        ensures stays { OnErr result (SamePen self.old self.new) }
    {
        self.room_for(u64::from(n))?;
        room::put_number(self.room, self.bits, value, n);
        self.bits += n;
        Ok(())
    }

    /// Writes an Unsigned Integer (7.1.6), in its shortest spelling.
    ///
    /// `Full` exactly where the room is too small.
    #[inline(always)]
    pub fn put_unsigned(&mut self, value: u64) -> Result<(), Full>
        ensures ok { OnOk result (Writes self.old self.new (shortest_unsigned value)) }
        ensures full { IsErr result ↔ Needs self.old (length (shortest_unsigned value)) }
        ensures bits { IfErr result (λ full. full.bits ≡ length (written_bits self.old) + length (shortest_unsigned value)) }
        ensures stays { OnErr result (SamePen self.old self.new) }
    {
        let count = room::octet_count(value);
        self.room_for(8 * u64::from(count))?;
        self.bits += room::put_octets(self.room, self.bits, value);
        Ok(())
    }

    /// Writes an Integer (7.1.5) from -2^64 to 2^64 - 1, in its shortest spelling.
    ///
    /// `Full` exactly where the room is too small.
    pub fn put_integer(&mut self, value: i128) -> Result<(), Full>
        requires least { negsuc 18446744073709551615 ≤ℤ value }
        requires most { value ≤ℤ pos 18446744073709551615 }
        ensures ok { OnOk result (Writes self.old self.new (shortest_integer value)) }
        ensures full { IsErr result ↔ Needs self.old (length (shortest_integer value)) }
        ensures bits { IfErr result (λ full. full.bits ≡ length (written_bits self.old) + length (shortest_integer value)) }
        ensures stays { OnErr result (SamePen self.old self.new) }
    {
        let (negative, magnitude) = parts_of(value);
        self.room_for(1 + 8 * u64::from(room::octet_count(magnitude)))?;
        self.bits += room::put_signed(self.room, self.bits, negative, magnitude);
        Ok(())
    }

    /// Writes the bytes of a Binary behind its length (7.1.1), at most 2^40.
    ///
    /// `Full` exactly where the room is too small.
    pub fn put_bytes(&mut self, bytes: &[u8]) -> Result<(), Full>
        requires { length bytes.now ≤ 2 ^ 40 }
        ensures ok { OnOk result (Writes self.old self.new (bits_of bytes.now)) }
        ensures full { IsErr result ↔ Needs self.old (8 * length bytes.now) }
        ensures bits { IfErr result (λ full. full.bits ≡ length (written_bits self.old) + 8 * length bytes.now) }
        ensures stays { OnErr result (SamePen self.old self.new) }
    {
        self.room_for(8 * bytes.len() as u64)?;
        room::put_all_bytes(self.room, self.bits, bytes);
        self.bits += 8 * bytes.len() as u32;
        Ok(())
    }

    /// Writes the bytes of a Binary that is lent, behind its length (7.1.1).
    ///
    /// `Full` exactly where the room is too small.
    pub fn put_lent_bytes(&mut self, span: &BitSpan) -> Result<(), Full>
        requires { AllByRecursion (λ byte. byte < 256) (items_of span.now) }
        ensures ok { OnOk result (Writes self.old self.new (bits_of (items_of span.now))) }
        ensures full { IsErr result ↔ Needs self.old (8 * length (items_of span.now)) }
        ensures bits { IfErr result (λ full. full.bits ≡ length (written_bits self.old) + 8 * length (items_of span.now)) }
        ensures stays { OnErr result (SamePen self.old self.new) }
    {
        self.room_for(8 * u64::from(span.len()))?;
        self.bits += lent::put_binary(self.room, self.bits, &mut span.contents());
        Ok(())
    }

    /// Writes the code points of a text that is lent, behind its length (7.1.10), each in its shortest spelling.
    ///
    /// `Full` exactly where the room is too small.
    pub fn put_lent_chars(&mut self, span: &BitSpan) -> Result<(), Full>
        ensures ok { OnOk result (Writes self.old self.new (shortest_chars (items_of span.now))) }
        ensures full { IsErr result ↔ Needs self.old (length (shortest_chars (items_of span.now))) }
        ensures bits { IfErr result (λ full. full.bits ≡ length (written_bits self.old) + length (shortest_chars (items_of span.now))) }
        ensures stays { OnErr result (SamePen self.old self.new) }
    {
        self.room_for_chars(span)?;
        self.bits += lent::put_text(self.room, self.bits, &mut span.contents());
        Ok(())
    }

    /// Whether the code points of a text have room, which are counted only where ten octets for each would have none.
    #[inline(always)]
    fn room_for_chars(&self, span: &BitSpan) -> Result<(), Full>
        ensures full { IsErr result ↔ Needs self.now (length (shortest_chars (items_of span.now))) }
        ensures bits { IfErr result (λ full. full.bits ≡ length (written_bits self.now) + length (shortest_chars (items_of span.now))) }
        ensures fits { OnOk result (self.now.bits + length (shortest_chars (items_of span.now)) ≤ 8 * length self.now.room.now) }
    {
        match self.room_for(80 * u64::from(span.len())) {
            Ok(()) => Ok(()),
            Err(_) => self.room_for(span.chars_bits()),
        }
    }

    /// Writes the code points of a String behind its length (7.1.10), each in its shortest spelling. The text has
    /// at most 2^40 bytes.
    ///
    /// `Full` exactly where the room is too small.
    pub fn put_chars(&mut self, text: &str) -> Result<(), Full>
        requires { length text.now ≤ 2 ^ 40 }
        ensures ok { OnOk result (Writes self.old self.new (shortest_chars (chars text.now))) }
        ensures full { IsErr result ↔ Needs self.old (length (shortest_chars (chars text.now))) }
        ensures bits { IfErr result (λ full. full.bits ≡ length (written_bits self.old) + length (shortest_chars (chars text.now))) }
        ensures stays { OnErr result (SamePen self.old self.new) }
    {
        self.room_for(room::chars_bits(text))?;
        self.bits += room::put_all_chars(self.room, self.bits, text);
        Ok(())
    }

    /// The bytes begun so far, with 0 behind the bits that are written.
    pub fn written(&self) -> &[u8]
        ensures holds { HoldsBits result.now (written_bits self.now) }
        ensures front { result.now ≡ take (length result.now) self.now.room.now }
    {
        room::begun_bytes(self.room, self.bits)
    }

    /// Ends with 0 up to a whole byte, and tells how many bytes of the room are written.
    pub fn finish(self) -> u32
        ensures holds { HoldsBits (take result self.entry.room.now) (written_bits self.entry) }
        ensures within { result ≤ length self.entry.room.now }
        ensures stays { self.exit.0.now ≡ self.entry.room.now }
    {
        self.bits.div_ceil(8)
    }
}

/// The sign of an Integer, and what it spells behind that: v, or -v - 1 (7.1.5).
pub(crate) fn parts_of(value: i128) -> (bool, u64)
    requires least { negsuc 18446744073709551615 ≤ℤ value }
    requires most { value ≤ℤ pos 18446744073709551615 }
    ensures { value ≡ (if result.0 then negsuc result.1 else pos result.1) }
{
    if value < 0 {
        (true, (-1 - value) as u64)
    } else {
        (false, value as u64)
    }
}
