use crate::cases::{Case, all_hold};
use exi_spec::BitCause;
use exi_spec::plain::unsigned_of;
use std::alloc::Global;

/// At most 88 bits, and the number that they begin with and its length, or why they begin with none.
struct Bits(&'static [u8], Result<(u64, usize), BitCause>);

impl Case for Bits {
    fn holds(&self, _: Global) -> bool {
        let mut list = [false; 88];
        for (bit, digit) in list.iter_mut().zip(self.0) {
            *bit = *digit == b'1';
        }
        self.0.len() <= 88 && unsigned_of(&list[..self.0.len()]) == self.1
    }
}

const SPELLINGS: [Bits; 9] = [
    Bits(b"00000000", Ok((0, 8))),
    Bits(b"0111111110", Ok((127, 8))),
    Bits(b"1010110000000010", Ok((300, 16))),
    Bits(b"1000000000000000", Ok((0, 16))),
    Bits(b"1010110", Err(BitCause::ShortInput)),
    Bits(b"10101100", Err(BitCause::ShortInput)),
    Bits(
        b"11111111111111111111111111111111111111111111111111111111111111111111111100000001",
        Ok((18446744073709551615, 80)),
    ),
    Bits(
        b"11111111111111111111111111111111111111111111111111111111111111111111111100000010",
        Err(BitCause::WiderInteger),
    ),
    Bits(
        b"11111111111111111111111111111111111111111111111111111111111111111111111110000000",
        Err(BitCause::WiderInteger),
    ),
];

#[test]
fn spellings_are_read_and_others_refused(rt: HostRuntime) {
    all_hold(&rt, rt.alloc(), &SPELLINGS);
}
