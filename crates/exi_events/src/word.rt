//! Bits that are written at once.

ghost use Rattle.std.specs.Prelude.{◌≡◌, ◌+◌, ◌<◌, ◌≤◌, ◌^◌, ◌*◌, [], ◌++◌, length, None, OnSome, pos, negsuc, if◌then◌else◌};
ghost use Rattle.exi_spec.specs.Bits.{number_bits};
ghost use Rattle.exi_spec.specs.Items.{shortest_unsigned, shortest_integer};
ghost use Rattle.exi_bits.specs.Pens.{written_bits, Writes};

use exi_bits::BitPen;
use std::marker::Model;

/// How many bits a word holds.
pub(crate) const WORD_BITS: u32 = 64;

/// Up to 64 bits. Contracts see them as a list.
///
/// Where more would come than it holds, `None` is answered, and it is of no more use.
#[derive(Drop)]
pub(crate) struct BitWord {
    number: u64,
    count: u32,
}

impl Model for BitWord {
    ghost use Rattle.std.specs.Prelude.{◌≤◌, ◌<◌, ◌^◌, List, Bool};
    ghost use Rattle.exi_spec.specs.Bits.{number_bits};

    ghost Value = { List Bool };

    ghost view = { λ w. number_bits w.count w.number };

    ghost invariant = { λ w. (w.count ≤ 64) × (w.number < 2 ^ w.count) };
}

/// The sign of an Integer, and what it spells behind that: v, or -v - 1 (7.1.5).
#[inline(always)]
fn sign_and_magnitude(value: i64) -> (bool, u64)
    ensures { value ≡ (if result.0 then negsuc result.1 else pos result.1) }
{
    if value < 0 {
        (true, (-1 - value) as u64)
    } else {
        (false, value as u64)
    }
}

impl BitWord {
    /// No bits.
    #[inline(always)]
    pub(crate) fn new() -> BitWord
        ensures { result ≡ [] }
    {
        BitWord {
            number: 0,
            count: 0,
        }
    }

    /// A number in n bits (7.1.9) behind the others. `None` exactly where they would be more than 64.
    #[inline(always)]
    pub(crate) fn push(&mut self, value: u32, n: u32) -> Option<()>
        requires few { n ≤ 32 }
        requires range { value < 2 ^ n }
        ensures pushed { OnSome result (self.new ≡ self.old ++ number_bits n value) }
        ensures none { result ≡ None → 64 < length self.old + n }
    {
        if self.count + n > WORD_BITS {
            return None;
        }
        self.number = (self.number << n) + u64::from(value);
        self.count += n;
        Some(())
    }

    /// An Unsigned Integer (7.1.6) of at most three octets behind the others, in its shortest spelling. `None` only where it has more, or they
    /// would be more than 64 bits.
    #[inline(always)]
    pub(crate) fn push_unsigned(&mut self, value: u64) -> Option<()>
        ensures pushed { OnSome result (self.new ≡ self.old ++ shortest_unsigned value) }
        ensures none { result ≡ None → length (shortest_unsigned value) ≤ 24 → 64 < length self.old + length (shortest_unsigned value) }
    {
        if value < 128 {
            return self.push(value as u32, 8);
        }
        if value < 16_384 {
            self.push((value % 128) as u32 + 128, 8)?;
            return self.push((value / 128) as u32, 8);
        }
        if value < 2_097_152 {
            self.push((value % 128) as u32 + 128, 8)?;
            self.push((value / 128 % 128) as u32 + 128, 8)?;
            return self.push((value / 128 / 128) as u32, 8);
        }
        None
    }

    /// An Integer (7.1.5) whose magnitude has at most three octets behind the others, in its shortest spelling. `None` only where it has more, or
    /// they would be more than 64 bits.
    #[inline(always)]
    pub(crate) fn push_integer(&mut self, value: i64) -> Option<()>
        ensures pushed { OnSome result (self.new ≡ self.old ++ shortest_integer value) }
        ensures none { result ≡ None → length (shortest_integer value) ≤ 25 → 64 < length self.old + length (shortest_integer value) }
    {
        let (negative, magnitude) = sign_and_magnitude(value);
        self.push(u32::from(negative), 1)?;
        self.push_unsigned(magnitude)
    }

    /// Writes them with a pen.
    #[inline(always)]
    pub(crate) fn put(&self, pen: &mut BitPen)
        requires room { length (written_bits pen.old) + 64 ≤ 8 * length pen.old.room.now }
        ensures { Writes pen.old pen.new self.now }
    {
        if self.count > 32 {
            let _high = pen.put_bits((self.number >> 32) as u32, self.count - 32);
            let _low = pen.put_bits((self.number % (1 << 32)) as u32, 32);
        } else {
            let _all = pen.put_bits(self.number as u32, self.count);
        }
    }
}
