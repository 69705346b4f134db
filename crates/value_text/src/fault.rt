//! Faults in scanning.

use charge_world::NoMemory;

/// Why a text, or a value or name in one, is not scanned.
#[derive(Clone, Copy, Debug, PartialEq, Eq)]
pub enum ScanFault {
    /// No such text stands there: how many characters of the whole text are passed up to the end of the longest front that begins one.
    Place(u64),
    /// Want of memory.
    Memory,
}

impl ScanFault {
    ghost use Rattle.std.specs.Prelude.{◌≡◌};
    ghost use Rattle.value_text.specs.Faults.{place_in};

    /// Its place in the text, if it has one.
    pub fn place(self) -> Option<u64>
        ensures { result ≡ place_in self }
    {
        match self {
            ScanFault::Place(place) => Some(place),
            ScanFault::Memory => None,
        }
    }
}

impl From<NoMemory> for ScanFault {
    ghost use Rattle.std.specs.Prelude.{◌≡◌};
    ghost use Rattle.value_text.specs.declared.fault.ScanFault.TheVariants.{Memory};

    ghost from_gives = { λ _ fault. fault ≡ Memory };

    fn from(_none: NoMemory) -> ScanFault {
        ScanFault::Memory
    }
}
