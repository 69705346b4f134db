//! Texts and Binaries that are lent, put into a room by four.

ghost use Rattle.std.specs.Prelude.{◌≡◌, ◌+◌, ◌*◌, ◌<◌, ◌≤◌, length};
ghost use Rattle.std.specs.List.{AllByRecursion};
ghost use Rattle.exi_spec.specs.Bits.{bits_of};
ghost use Rattle.exi_spec.specs.Items.{shortest_chars};
ghost use Rattle.exi_bits.specs.Written.{PadsZero, Extends, PutsFront};

use crate::contents::Contents;
use crate::room::{put_number, put_octets};

/// Writes the bytes of a Binary, and tells how many bits they have.
pub fn put_binary(room: &mut [u8], at: u32, bytes: &mut Contents) -> u32
    requires range { AllByRecursion (λ byte. byte < 256) bytes.old }
    requires room { length room.old ≤ 65536 }
    requires within { at + 8 * length bytes.old ≤ 8 * length room.old }
    requires clean { PadsZero room.old at }
    ensures { Extends room.old room.new at result (bits_of bytes.old) }
{
    let fours = put_four_bytes(room, at, bytes);
    fours + put_each_byte(room, at + fours, bytes)
}

/// Writes bytes four by four, as long as four are left, and tells how many bits they have.
fn put_four_bytes(room: &mut [u8], at: u32, bytes: &mut Contents) -> u32
    requires room { length room.old ≤ 65536 }
    requires within { at + 8 * length bytes.old ≤ 8 * length room.old }
    requires clean { PadsZero room.old at }
    ensures { PutsFront bits_of room.old room.new at result bytes.old bytes.new }
{
    let mut wrote = 0;
    while let Some(word) = bytes.next_four_bytes() {
        put_number(room, at + wrote, word, 32);
        wrote += 32;
    }
    wrote
}

/// Writes bytes one by one, and tells how many bits they have.
fn put_each_byte(room: &mut [u8], at: u32, bytes: &mut Contents) -> u32
    requires range { AllByRecursion (λ byte. byte < 256) bytes.old }
    requires room { length room.old ≤ 65536 }
    requires within { at + 8 * length bytes.old ≤ 8 * length room.old }
    requires clean { PadsZero room.old at }
    ensures { Extends room.old room.new at result (bits_of bytes.old) }
{
    let mut wrote = 0;
    while let Some(byte) = bytes.next() {
        put_number(room, at + wrote, byte, 8);
        wrote += 8;
    }
    wrote
}

/// Writes the shortest spelling of a text, and tells how many bits it has.
pub fn put_text(room: &mut [u8], at: u32, chars: &mut Contents) -> u32
    requires room { length room.old ≤ 65536 }
    requires within { at + length (shortest_chars chars.old) ≤ 8 * length room.old }
    requires clean { PadsZero room.old at }
    ensures { Extends room.old room.new at result (shortest_chars chars.old) }
{
    let fours = put_four_chars(room, at, chars);
    fours + put_each_char(room, at + fours, chars)
}

/// Writes code points four by four, as long as the next four are below 128, and tells how many bits they have.
fn put_four_chars(room: &mut [u8], at: u32, chars: &mut Contents) -> u32
    requires room { length room.old ≤ 65536 }
    requires within { at + length (shortest_chars chars.old) ≤ 8 * length room.old }
    requires clean { PadsZero room.old at }
    ensures { PutsFront shortest_chars room.old room.new at result chars.old chars.new }
{
    let mut wrote = 0;
    while let Some(word) = chars.next_four_ascii() {
        put_number(room, at + wrote, word, 32);
        wrote += 32;
    }
    wrote
}

/// Writes code points one by one, and tells how many bits they have.
fn put_each_char(room: &mut [u8], at: u32, chars: &mut Contents) -> u32
    requires room { length room.old ≤ 65536 }
    requires within { at + length (shortest_chars chars.old) ≤ 8 * length room.old }
    requires clean { PadsZero room.old at }
    ensures { Extends room.old room.new at result (shortest_chars chars.old) }
{
    let mut wrote = 0;
    while let Some(char) = chars.next() {
        wrote += put_octets(room, at + wrote, u64::from(char));
    }
    wrote
}
