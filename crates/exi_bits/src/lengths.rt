//! How many bits the shortest spelling of an item has.

ghost use Rattle.std.specs.Prelude.{◌≡◌, ◌≤◌, length, pos, negsuc, ◌≤ℤ◌};
ghost use Rattle.exi_spec.specs.Items.{shortest_unsigned, shortest_integer};

use crate::pen::parts_of;
use crate::room::octet_count;

/// The bits of the shortest spelling of an Unsigned Integer (7.1.6).
pub fn unsigned_bits(value: u64) -> u32
    ensures bits { result ≡ length (shortest_unsigned value) }
    ensures few { result ≤ 80 }
{
    8 * octet_count(value)
}

/// The bits of the shortest spelling of an Integer (7.1.5) from -2^64 to 2^64 - 1.
pub fn integer_bits(value: i128) -> u32
    requires least { negsuc 18446744073709551615 ≤ℤ value }
    requires most { value ≤ℤ pos 18446744073709551615 }
    ensures bits { result ≡ length (shortest_integer value) }
    ensures few { result ≤ 81 }
{
    let (_, magnitude) = parts_of(value);
    1 + unsigned_bits(magnitude)
}
