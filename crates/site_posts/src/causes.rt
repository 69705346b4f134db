//! The causes by which sessions ended, as a set.

ghost use Rattle.std.specs.Prelude.{◌≡◌, ◌<◌, ◌^◌, bit_or};

use bitflags::{Flag, Flags, bitflag_items};

/// A set of causes of a post: bit c is the cause of number c.
#[derive(Clone, Copy)]
pub struct CauseSet(u32);

bitflag_items! {
    impl CauseSet: u32 {
        const STOPPED = 1 << 1;
        const REFUSED = 1 << 2;
        const BAD_FRAME = 1 << 3;
        const WRONG_SIDE = 1 << 4;
        const NO_NEGOTIATION = 1 << 5;
        const FAILED_REPLY = 1 << 6;
        const SETUP_TIMEOUT = 1 << 7;
        const SEQUENCE_TIMEOUT = 1 << 8;
        const FEEDBACK_TIMEOUT = 1 << 9;
        const PILOT_LOST = 1 << 10;
        const EMERGENCY = 1 << 11;
        const ISOLATION_LOST = 1 << 12;
        const FEEDBACK_WRONG = 1 << 13;
        const OVER_POWER = 1 << 14;
        const GONE = 1 << 15;
        const SEND_FAILED = 1 << 16;
        const ORDER_FAILED = 1 << 17;
        const RUN_OVER = 1 << 18;
        const IMPATIENT = 1 << 19;
        const PAUSED = 1 << 29;
    }
}

impl Flags for CauseSet {
    ghost use Rattle.std.specs.Prelude.{⊤, [], ◌∷◌, codes};

    type Bits = u32;

    ghost exact = { ⊤ };

    ghost table = { (codes "STOPPED", 2) ∷ (codes "REFUSED", 4) ∷ (codes "BAD_FRAME", 8) ∷ (codes "WRONG_SIDE", 16) ∷
        (codes "NO_NEGOTIATION", 32) ∷ (codes "FAILED_REPLY", 64) ∷ (codes "SETUP_TIMEOUT", 128) ∷ (codes "SEQUENCE_TIMEOUT", 256) ∷
        (codes "FEEDBACK_TIMEOUT", 512) ∷ (codes "PILOT_LOST", 1024) ∷ (codes "EMERGENCY", 2048) ∷ (codes "ISOLATION_LOST", 4096) ∷
        (codes "FEEDBACK_WRONG", 8192) ∷ (codes "OVER_POWER", 16384) ∷ (codes "GONE", 32768) ∷ (codes "SEND_FAILED", 65536) ∷
        (codes "ORDER_FAILED", 131072) ∷ (codes "RUN_OVER", 262144) ∷ (codes "IMPATIENT", 524288) ∷ (codes "PAUSED", 536870912) ∷ [] };

    ghost set_of = { λ causes. causes.0 };

    fn flags<'a>() -> &'a [Flag<CauseSet>] {
        CauseSet::FLAGS
    }

    fn bits(&self) -> u32 {
        self.0
    }

    fn from_bits_retain(bits: u32) -> CauseSet {
        CauseSet(bits)
    }
}

impl CauseSet {
    /// The set with the cause of this number.
    pub fn with(self, number: u8) -> CauseSet
        requires { number < 32 }
        ensures { result.0 ≡ bit_or self.0 (2 ^ number) }
    {
        self.union(CauseSet::from_bits_retain(1 << u32::from(number)))
    }
}
