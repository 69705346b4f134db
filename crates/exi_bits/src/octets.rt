//! Numbers at a bit of a payload.

ghost use Rattle.std.specs.Prelude.{◌≡◌, ℕ, ◌+◌, ◌-◌, ◌*◌, ◌%◌, ◌<◌, ◌≤◌, ◌^◌, List, ◌∷◌, ◌++◌, length, drop, pos, negsuc, ◌↔◌, IsTrue, if◌then◌else◌, MatchResult, MatchOption, IfOk, IfSome};
ghost use Rattle.exi_spec.specs.Bits.{bits_of, number_bits};
ghost use Rattle.exi_spec.specs.Items.{SpellsOctets, RefusesOctets, SpellsChar, RefusesChar, SpellsChars, RefusesChars};
ghost use Rattle.exi_bits.specs.Reading.{ItemAt};
ghost use Rattle.exi_bits.specs.Lent.{four_octets, AreAscii};

use exi_spec::{BitCause, BitFault};

/// How many bits are left from a place on.
pub fn bits_left(payload: &[u8], bit: u32) -> u32
    requires room { length payload.now ≤ 65536 }
    requires within { bit ≤ 8 * length payload.now }
    ensures sum { bit + result ≡ 8 * length payload.now }
    ensures left { result ≡ length (drop bit (bits_of payload.now)) }
{
    8 * payload.len() as u32 - bit
}

/// The bit at a place.
pub fn bit_at(payload: &[u8], bit: u32) -> bool
    requires { bit < 8 * length payload.now }
    ensures { drop bit (bits_of payload.now) ≡ result ∷ drop (bit + 1) (bits_of payload.now) }
{
    let byte = payload[(bit / 8) as usize];
    (byte >> (7 - bit % 8)) & 1 == 1
}

/// The number that n bits of one byte spell.
fn part_at(payload: &[u8], bit: u32, n: u32) -> u32
    requires one_byte { bit % 8 + n ≤ 8 }
    requires within { bit < 8 * length payload.now }
    ensures range { result < 2 ^ n }
    ensures there { drop bit (bits_of payload.now) ≡ number_bits n result ++ drop (bit + n) (bits_of payload.now) }
{
    let byte = u32::from(payload[(bit / 8) as usize]);
    (byte >> (8 - bit % 8 - n)) & ((1 << n) - 1)
}

/// The number that n bits spell.
#[inline(always)]
pub fn number_at(payload: &[u8], bit: u32, n: u32) -> u32
    requires small { n ≤ 32 }
    requires room { length payload.now ≤ 65536 }
    requires within { bit + n ≤ 8 * length payload.now }
    ensures range { result < 2 ^ n }
    ensures there { drop bit (bits_of payload.now) ≡ number_bits n result ++ drop (bit + n) (bits_of payload.now) }
{
    if n > 0 && bit % 8 + n <= 8 {
        part_at(payload, bit, n)
    } else if n > 0 && bit % 8 + n <= 16 {
        pair_number_at(payload, bit, n)
    } else {
        spread_number_at(payload, bit, n)
    }
}

/// The number that n bits of two bytes spell.
#[inline(always)]
fn pair_number_at(payload: &[u8], bit: u32, n: u32) -> u32
    requires small { n ≤ 32 }
    requires both { 8 < bit % 8 + n }
    requires two { bit % 8 + n ≤ 16 }
    requires room { length payload.now ≤ 65536 }
    requires within { bit + n ≤ 8 * length payload.now }
    ensures range { result < 2 ^ n }
    ensures there { drop bit (bits_of payload.now) ≡ number_bits n result ++ drop (bit + n) (bits_of payload.now) }
{
    let first = 8 - bit % 8;
    let rest = n - first;
    let high = part_at(payload, bit, first);
    let low = part_at(payload, bit + first, rest);
    (high << rest) + low
}

/// The number that n bits of several bytes spell, byte by byte.
fn spread_number_at(payload: &[u8], bit: u32, n: u32) -> u32
    requires small { n ≤ 32 }
    requires room { length payload.now ≤ 65536 }
    requires within { bit + n ≤ 8 * length payload.now }
    ensures range { result < 2 ^ n }
    ensures there { drop bit (bits_of payload.now) ≡ number_bits n result ++ drop (bit + n) (bits_of payload.now) }
{
    let mut value: u32 = 0;
    let mut read = 0;
    while read < n {
        let place = bit + read;
        let part = (n - read).min(8 - place % 8);
        value = (value << part) + part_at(payload, place, part);
        read += part;
    }
    value
}

/// The octet that 8 bits spell: one byte, or the end of one and the start of the next.
fn whole_octet_at(payload: &[u8], bit: u32) -> u8
    requires { bit + 8 ≤ 8 * length payload.now }
    ensures { drop bit (bits_of payload.now) ≡ number_bits 8 result ++ drop (bit + 8) (bits_of payload.now) }
{
    let index = (bit / 8) as usize;
    let shift = bit % 8;
    if shift == 0 {
        payload[index]
    } else {
        (payload[index] << shift) | (payload[index + 1] >> (8 - shift))
    }
}

/// The octet at a bit, and `None` where fewer than 8 bits are left.
pub fn octet_at(payload: &[u8], bit: u32) -> Option<u32>
    requires room { length payload.now ≤ 65536 }
    requires within { bit ≤ 8 * length payload.now }
    ensures { MatchOption result (8 * length payload.now < bit + 8)
        (λ octet. (octet < 256) × (bit + 8 ≤ 8 * length payload.now)
        × (drop bit (bits_of payload.now) ≡ number_bits 8 octet ++ drop (bit + 8) (bits_of payload.now))) }
{
    if bits_left(payload, bit) < 8 {
        return None;
    }
    Some(u32::from(whole_octet_at(payload, bit)))
}

/// The number that 32 bits spell, of four bytes and the next one where they don't begin with the first bit of a byte.
#[inline(always)]
fn whole_four_at(payload: &[u8], bit: u32) -> u32
    requires { bit + 32 ≤ 8 * length payload.now }
    ensures { drop bit (bits_of payload.now) ≡ number_bits 32 result ++ drop (bit + 32) (bits_of payload.now) }
{
    let index = (bit / 8) as usize;
    let shift = bit % 8;
    let word = u32::from_be_bytes([
        payload[index],
        payload[index + 1],
        payload[index + 2],
        payload[index + 3],
    ]);
    if shift == 0 {
        word
    } else {
        let five = 256 * u64::from(word) + u64::from(payload[index + 4]);
        ((five >> (8 - shift)) % (1 << 32)) as u32
    }
}

/// The four octets at a bit as one number, and `None` where fewer than 32 bits are left.
#[inline(always)]
pub fn four_at(payload: &[u8], bit: u32) -> Option<u32>
    requires room { length payload.now ≤ 65536 }
    requires within { bit ≤ 8 * length payload.now }
    ensures { MatchOption result (8 * length payload.now < bit + 32)
        (λ word. (bit + 32 ≤ 8 * length payload.now)
        × (drop bit (bits_of payload.now) ≡ number_bits 32 word ++ drop (bit + 32) (bits_of payload.now))) }
{
    if bits_left(payload, bit) < 32 {
        return None;
    }
    Some(whole_four_at(payload, bit))
}

/// Whether each of the four octets of a number is below 128.
#[inline(always)]
pub fn are_ascii(word: u32) -> bool
    ensures { IsTrue result ↔ AreAscii (four_octets word) }
{
    word >> 31 == 0 && (word >> 23) % 2 == 0 && (word >> 15) % 2 == 0 && (word >> 7) % 2 == 0
}

/// The Unsigned Integer at a bit, in at most ten octets, and how many bits spell it.
#[inline(always)]
pub fn unsigned_at(payload: &[u8], bit: u32) -> Result<(u64, u32), BitCause>
    requires room { length payload.now ≤ 65536 }
    requires within { bit ≤ 8 * length payload.now }
    ensures within { IfOk result (λ found. bit + found.1 ≤ 8 * length payload.now) }
    ensures found { MatchResult result
        (λ found. ItemAt (SpellsOctets 10 found.0) (bits_of payload.now) bit found.1)
        (λ cause. RefusesOctets 10 (drop bit (bits_of payload.now)) cause) }
{
    let Some(first) = octet_at(payload, bit) else {
        return Err(BitCause::ShortInput);
    };
    if first < 128 {
        return Ok((u64::from(first), 8));
    }
    match octet_at(payload, bit + 8) {
        Some(second) if second < 128 => { Ok((octets_value(first, u64::from(second)), 16)) }
        _ => octets_at(payload, bit, 10),
    }
}

/// The Unsigned Integer at a bit, in at most so many octets, and how many bits spell it.
fn octets_at(payload: &[u8], bit: u32, most: u32) -> Result<(u64, u32), BitCause>
    requires some { 0 < most }
    requires few { most ≤ 10 }
    requires room { length payload.now ≤ 65536 }
    requires within { bit ≤ 8 * length payload.now }
    ensures within { IfOk result (λ found. bit + found.1 ≤ 8 * length payload.now) }
    ensures found { MatchResult result
        (λ found. ItemAt (SpellsOctets most found.0) (bits_of payload.now) bit found.1)
        (λ cause. RefusesOctets most (drop bit (bits_of payload.now)) cause) }
{
    let Some(octet) = octet_at(payload, bit) else {
        return Err(BitCause::ShortInput);
    };
    if octet < 128 {
        return Ok((u64::from(octet), 8));
    }
    if most == 1 {
        return Err(BitCause::WiderInteger);
    }
    let (high, bits) = octets_at(payload, bit + 8, most - 1)?;
    if high >= 1 << 57 {
        return Err(BitCause::WiderInteger);
    }
    Ok((octets_value(octet, high), bits + 8))
}

/// The number of an octet that says that more follow, and of those behind it.
#[inline(always)]
pub(crate) fn octets_value(first: u32, rest: u64) -> u64
    requires more { 128 ≤ first }
    requires octet { first < 256 }
    requires small { rest < 2 ^ 57 }
    ensures { result ≡ first - 128 + 128 * rest }
{
    u64::from(first - 128) + 128 * rest
}

/// The number of a sign bit and a magnitude: v, or -v - 1 (7.1.5).
#[inline(always)]
pub(crate) fn signed(negative: bool, magnitude: u64) -> i128
    ensures { result ≡ (if negative then negsuc magnitude else pos magnitude) }
{
    if negative {
        -1 - i128::from(magnitude)
    } else {
        i128::from(magnitude)
    }
}

/// The code point at a bit, and how many bits spell it.
pub fn char_at(payload: &[u8], bit: u32) -> Result<(char, u32), BitCause>
    requires room { length payload.now ≤ 65536 }
    requires within { bit ≤ 8 * length payload.now }
    ensures within { IfOk result (λ found. bit + found.1 ≤ 8 * length payload.now) }
    ensures found { MatchResult result
        (λ found. ItemAt (SpellsChar found.0) (bits_of payload.now) bit found.1)
        (λ cause. RefusesChar (drop bit (bits_of payload.now)) cause) }
{
    match ascii_at(payload, bit) {
        Some(c) => Ok((c, 8)),
        None => any_char_at(payload, bit),
    }
}

/// The code point at a bit, where one octet below 128 spells it.
fn ascii_at(payload: &[u8], bit: u32) -> Option<char>
    requires room { length payload.now ≤ 65536 }
    requires within { bit ≤ 8 * length payload.now }
    ensures within { IfSome result (λ _. bit + 8 ≤ 8 * length payload.now) }
    ensures found { IfSome result (λ c. ItemAt (SpellsChar c) (bits_of payload.now) bit 8) }
{
    match octet_at(payload, bit) {
        Some(octet) if octet < 128 => Some(char::from(octet as u8)),
        _ => None,
    }
}

/// The code point at a bit, in any number of octets.
fn any_char_at(payload: &[u8], bit: u32) -> Result<(char, u32), BitCause>
    requires room { length payload.now ≤ 65536 }
    requires within { bit ≤ 8 * length payload.now }
    ensures within { IfOk result (λ found. bit + found.1 ≤ 8 * length payload.now) }
    ensures found { MatchResult result
        (λ found. ItemAt (SpellsChar found.0) (bits_of payload.now) bit found.1)
        (λ cause. RefusesChar (drop bit (bits_of payload.now)) cause) }
{
    let (value, bits) = unsigned_at(payload, bit)?;
    if value > 0x10_FFFF {
        return Err(BitCause::BadChar);
    }
    match char::from_u32(value as u32) {
        Some(c) => Ok((c, bits)),
        None => Err(BitCause::BadChar),
    }
}

/// How many bits spell the n code points at a bit.
pub fn chars_at(payload: &[u8], bit: u32, n: u32) -> Result<u32, BitFault>
    requires room { length payload.now ≤ 65536 }
    requires within { bit ≤ 8 * length payload.now }
    ensures within { IfOk result (λ found. bit + found ≤ 8 * length payload.now) }
    ensures found { MatchResult result
        (λ found. (chars : List ℕ) × (length chars ≡ n) × ItemAt (SpellsChars chars) (bits_of payload.now) bit found)
        (λ fault. (at : ℕ) × RefusesChars n (drop bit (bits_of payload.now)) fault.cause at × (fault.bit ≡ bit + at)) }
{
    let mut count = ascii_front_at(payload, bit, n);
    let mut found = 8 * count;
    while count < n {
        match char_at(payload, bit + found) {
            Ok((_, bits)) => {
                found += bits;
                count += 1;
            }
            Err(cause) => {
                return Err(BitFault {
                    cause,
                    bit: bit + found,
                });
            }
        }
    }
    Ok(found)
}

/// How many of n code points at a bit are below 128, each in one octet, as far as four at once are.
fn ascii_front_at(payload: &[u8], bit: u32, n: u32) -> u32
    requires room { length payload.now ≤ 65536 }
    requires within { bit ≤ 8 * length payload.now }
    ensures few { result ≤ n }
    ensures within { bit + 8 * result ≤ 8 * length payload.now }
    ensures found { (chars : List ℕ) × (length chars ≡ result) × ItemAt (SpellsChars chars) (bits_of payload.now) bit (8 * result) }
{
    let mut count = 0;
    while n - count >= 4 {
        match four_at(payload, bit + 8 * count) {
            Some(word) if are_ascii(word) => count += 4,
            _ => return count,
        }
    }
    count
}
