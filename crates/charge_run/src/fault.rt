//! Faults of an input.

ghost use Rattle.std.specs.Prelude.{◌≡◌};

use charge_world::NoMemory;
use hex_payloads::HexFault;

/// Why an input has no answer.
#[derive(Clone, Copy)]
pub(crate) enum InputFault {
    /// It is refused at this character or bit, from 0.
    Place(u64),
    /// Want of memory.
    Memory,
}

impl From<NoMemory> for InputFault {
    ghost use Rattle.charge_run.specs.declared.fault.InputFault.TheVariants.{Memory};

    ghost from_gives = { λ _ fault. fault ≡ Memory };

    fn from(_none: NoMemory) -> InputFault {
        InputFault::Memory
    }
}

impl From<HexFault> for InputFault {
    ghost use Rattle.charge_run.specs.Runs.{input_fault};

    ghost from_gives = { λ hex fault. fault ≡ input_fault hex };

    fn from(fault: HexFault) -> InputFault {
        match fault {
            HexFault::Place(place) => InputFault::Place(place),
            HexFault::Memory => InputFault::Memory,
        }
    }
}
