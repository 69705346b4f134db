//! Faults in printing.

use charge_world::NoMemory;
use exi_documents::Refusal;

/// Why no text is printed.
#[derive(Clone, Copy, Debug)]
pub enum PrintFault {
    /// The payload spells no tree.
    Refused(Refusal),
    /// Want of memory.
    Memory,
}

impl From<NoMemory> for PrintFault {
    ghost use Rattle.std.specs.Prelude.{◌≡◌};
    ghost use Rattle.tree_text.specs.declared.fault.PrintFault.TheVariants.{Memory};

    ghost from_gives = { λ _ fault. fault ≡ Memory };

    fn from(_none: NoMemory) -> PrintFault {
        PrintFault::Memory
    }
}
