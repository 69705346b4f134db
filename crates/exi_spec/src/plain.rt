//! A plain reader of an Unsigned Integer, over a list of bits.

ghost use Rattle.std.specs.Prelude.{◌≡◌, ◌≤◌, ◌<◌, length, take, MatchResult};
ghost use Rattle.exi_spec.specs.Bits.{number_of};
ghost use Rattle.exi_spec.specs.Items.{SpellsUnsigned, RefusesUnsigned, SpellsOctets, RefusesOctets};

use crate::BitCause;

/// The Unsigned Integer that the bits begin with (7.1.6), and how many bits spell it.
pub fn unsigned_of(bits: &[bool]) -> Result<(u64, usize), BitCause>
    ensures { MatchResult result
        (λ found. (found.1 ≤ length bits.now) × SpellsUnsigned found.0 (take found.1 bits.now))
        (λ cause. RefusesUnsigned bits.now cause) }
{
    octets_of(bits, 10)
}

fn octets_of(bits: &[bool], most: u32) -> Result<(u64, usize), BitCause>
    requires { 0 < most }
    ensures { MatchResult result
        (λ found. (found.1 ≤ length bits.now) × SpellsOctets most found.0 (take found.1 bits.now))
        (λ cause. RefusesOctets most bits.now cause) }
{
    if bits.len() < 8 {
        return Err(BitCause::ShortInput);
    }
    let octet = octet_of(&bits[..8]);
    if octet < 128 {
        return Ok((octet, 8));
    }
    if most == 1 {
        return Err(BitCause::WiderInteger);
    }
    let (high, used) = octets_of(&bits[8..], most - 1)?;
    if high >= 1 << 57 {
        return Err(BitCause::WiderInteger);
    }
    Ok((octet - 128 + 128 * high, used + 8))
}

fn octet_of(bits: &[bool]) -> u64
    requires { length bits.now ≡ 8 }
    ensures value { result ≡ number_of bits.now }
    ensures range { result < 256 }
{
    let mut value: u64 = 0;
    for bit in bits {
        value = 2 * value + u64::from(*bit);
    }
    value
}
