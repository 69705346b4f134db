//! Bits in a room of bytes, behind those that are written.

ghost use Rattle.std.specs.Prelude.{◌≡◌, ◌≢◌, ◌+◌, ◌*◌, ◌/◌, ◌%◌, ◌<◌, ◌≤◌, ◌^◌, [], ◌∷◌, length, slice_index, take};
ghost use Rattle.std.specs.Str.{chars};
ghost use Rattle.exi_spec.specs.Bits.{bits_of, number_bits};
ghost use Rattle.exi_spec.specs.Items.{shortest_unsigned, shortest_chars};
ghost use Rattle.exi_bits.specs.Written.{PadsZero, Extends, HoldsBits};

/// How many bytes are written at once.
const WORD_BYTES: usize = 8;

/// The bytes begun by the first `bits` bits of a room, where the bits behind them are 0 up to a whole byte, as a pen leaves them.
pub fn begun_bytes(room: &[u8], bits: u32) -> &[u8]
    requires within { bits ≤ 8 * length room.now }
    requires clean { PadsZero room.now bits }
    ensures holds { HoldsBits result.now (take bits (bits_of room.now)) }
    ensures front { result.now ≡ take (length result.now) room.now }
{
    &room[..bits.div_ceil(8) as usize]
}

/// The byte that a bit is put into: 0 where the bit begins it.
fn begun_byte(room: &[u8], at: u32) -> u8
    requires { at < 8 * length room.now }
    ensures fresh { at % 8 ≡ 0 → result ≡ 0 }
    ensures kept { at % 8 ≢ 0 → result ≡ slice_index room.now (at / 8) }
{
    if at % 8 == 0 {
        0
    } else {
        room[(at / 8) as usize]
    }
}

/// Writes a number in n bits of one byte, and 0 behind them in it.
fn put_part(room: &mut [u8], at: u32, value: u8, n: u32)
    requires some { 0 < n }
    requires one_byte { at % 8 + n ≤ 8 }
    requires range { value < 2 ^ n }
    requires within { at < 8 * length room.old }
    requires clean { PadsZero room.old at }
    ensures { Extends room.old room.new at n (number_bits n value) }
{
    let before = begun_byte(room, at);
    room[(at / 8) as usize] = before | (value << (8 - at % 8 - n));
}

/// Writes one bit, and 0 behind it where it begins a byte.
pub fn push_bit(room: &mut [u8], at: u32, bit: bool)
    requires within { at < 8 * length room.old }
    requires clean { PadsZero room.old at }
    ensures { Extends room.old room.new at 1 (bit ∷ []) }
{
    put_part(room, at, u8::from(bit), 1);
}

/// The lowest n bits of a number.
fn lowest_bits(number: u32, n: u32) -> u8
    requires { n ≤ 8 }
    ensures { result ≡ number % 2 ^ n }
{
    (number & ((1 << n) - 1)) as u8
}

/// Writes a number in n bits: as one word where eight bytes of the room are left, else byte by byte.
#[inline(always)]
pub fn put_number(room: &mut [u8], at: u32, value: u32, n: u32)
    requires small { n ≤ 32 }
    requires range { value < 2 ^ n }
    requires room { length room.old ≤ 65536 }
    requires within { at + n ≤ 8 * length room.old }
    requires clean { PadsZero room.old at }
    ensures { Extends room.old room.new at n (number_bits n value) }
{
    if n > 0 && (at / 8) as usize + WORD_BYTES <= room.len() {
        put_word(room, at, u64::from(value), n);
    } else {
        put_spread_number(room, at, value, n);
    }
}

/// Writes a number in n bits, behind the bits of the byte that they are put into, and 0 behind them, all as one word.
#[inline(always)]
fn put_word(room: &mut [u8], at: u32, value: u64, n: u32)
    requires some { 0 < n }
    requires one_word { at % 8 + n ≤ 64 }
    requires range { value < 2 ^ n }
    requires room { length room.old ≤ 65536 }
    requires within { at / 8 + 8 ≤ length room.old }
    ensures { Extends room.old room.new at n (number_bits n value) }
{
    let first = (at / 8) as usize;
    let free = 8 - at % 8;
    let before = u64::from(room[first]) >> free << free << 56;
    let word = before + (value << (56 + free - n));
    put_eight_bytes(room, first, word);
}

/// Writes the eight bytes of a word from an index on.
#[inline(always)]
fn put_eight_bytes(room: &mut [u8], first: usize, word: u64)
    requires { first + 8 ≤ length room.old }
    ensures { Extends room.old room.new (8 * first) 64 (number_bits 64 word) }
{
    for i in 0..WORD_BYTES {
        room[first + i] = ((word >> (56 - 8 * i as u32)) % 256) as u8;
    }
}

/// Writes a number in n bits of several bytes, byte by byte.
fn put_spread_number(room: &mut [u8], at: u32, value: u32, n: u32)
    requires small { n ≤ 32 }
    requires room { length room.old ≤ 65536 }
    requires within { at + n ≤ 8 * length room.old }
    requires clean { PadsZero room.old at }
    ensures { Extends room.old room.new at n (number_bits n value) }
{
    let mut left = n;
    while left > 0 {
        let place = at + (n - left);
        let part = left.min(8 - place % 8);
        left -= part;
        put_part(room, place, lowest_bits(value >> left, part), part);
    }
}

/// Writes an octet: the whole of a byte, or the rest of one and the start of the next.
#[inline(always)]
fn put_octet(room: &mut [u8], at: u32, octet: u8)
    requires room { length room.old ≤ 65536 }
    requires within { at + 8 ≤ 8 * length room.old }
    requires clean { PadsZero room.old at }
    ensures { Extends room.old room.new at 8 (number_bits 8 octet) }
{
    put_number(room, at, u32::from(octet), 8);
}

/// How many octets the shortest spelling of an Unsigned Integer has: 1 to 10.
#[inline(always)]
pub fn octet_count(value: u64) -> u32
    ensures count { 8 * result ≡ length (shortest_unsigned value) }
    ensures few { result ≤ 10 }
{
    if value < 128 {
        1
    } else {
        long_octet_count(value)
    }
}

/// How many octets it has, counted one by one.
fn long_octet_count(value: u64) -> u32
    ensures count { 8 * result ≡ length (shortest_unsigned value) }
    ensures few { result ≤ 10 }
{
    let mut rest = value;
    let mut count = 1;
    while rest >= 128 {
        rest /= 128;
        count += 1;
    }
    count
}

/// Writes the shortest spelling of an Unsigned Integer, and tells how many bits it has.
#[inline(always)]
pub fn put_octets(room: &mut [u8], at: u32, value: u64) -> u32
    requires room { length room.old ≤ 65536 }
    requires within { at + length (shortest_unsigned value) ≤ 8 * length room.old }
    requires clean { PadsZero room.old at }
    ensures { Extends room.old room.new at result (shortest_unsigned value) }
{
    if value < 128 {
        put_octet(room, at, value as u8);
        8
    } else {
        put_long_octets(room, at, value)
    }
}

/// Writes it octet by octet.
fn put_long_octets(room: &mut [u8], at: u32, value: u64) -> u32
    requires room { length room.old ≤ 65536 }
    requires within { at + length (shortest_unsigned value) ≤ 8 * length room.old }
    requires clean { PadsZero room.old at }
    ensures { Extends room.old room.new at result (shortest_unsigned value) }
{
    let mut rest = value;
    let mut wrote = 0;
    while rest >= 128 {
        put_octet(room, at + wrote, (rest % 128) as u8 + 128);
        rest /= 128;
        wrote += 8;
    }
    put_octet(room, at + wrote, rest as u8);
    wrote + 8
}

/// Writes a sign bit and the shortest spelling of a magnitude (7.1.5), and tells how many bits they have.
pub fn put_signed(room: &mut [u8], at: u32, negative: bool, magnitude: u64) -> u32
    requires room { length room.old ≤ 65536 }
    requires within { at + 1 + length (shortest_unsigned magnitude) ≤ 8 * length room.old }
    requires clean { PadsZero room.old at }
    ensures { Extends room.old room.new at result (negative ∷ shortest_unsigned magnitude) }
{
    push_bit(room, at, negative);
    1 + put_octets(room, at + 1, magnitude)
}

/// Writes bytes.
pub fn put_all_bytes(room: &mut [u8], at: u32, bytes: &[u8])
    requires room { length room.old ≤ 65536 }
    requires within { at + 8 * length bytes.now ≤ 8 * length room.old }
    requires clean { PadsZero room.old at }
    ensures { Extends room.old room.new at (8 * length bytes.now) (bits_of bytes.now) }
{
    for (i, byte) in bytes.iter().enumerate() {
        put_octet(room, at + 8 * i as u32, *byte);
    }
}

/// How many bits the shortest spelling of a text has.
pub fn chars_bits(text: &str) -> u64
    requires { length text.now ≤ 2 ^ 40 }
    ensures bits { result ≡ length (shortest_chars (chars text.now)) }
    ensures few { result ≤ 80 * length text.now }
{
    let mut bits = 0;
    for c in text.chars() {
        bits += 8 * u64::from(octet_count(u64::from(c)));
    }
    bits
}

/// Writes the shortest spelling of a text, and tells how many bits it has.
pub fn put_all_chars(room: &mut [u8], at: u32, text: &str) -> u32
    requires room { length room.old ≤ 65536 }
    requires within { at + length (shortest_chars (chars text.now)) ≤ 8 * length room.old }
    requires clean { PadsZero room.old at }
    ensures { Extends room.old room.new at result (shortest_chars (chars text.now)) }
{
    let mut wrote = 0;
    for c in text.chars() {
        wrote += put_octets(room, at + wrote, u64::from(c));
    }
    wrote
}
