//! A sink in memory.

ghost use Rattle.std.specs.Prelude.{◌≡◌, length, IfOk, OnOk, OnErr, is_err};

use crate::failed::{Failed, NoMemory};
use crate::outages::Outages;
use crate::outside::Sink;
use crate::reserved::Reserved;
use std::alloc::Global;

/// A sink in memory. It takes all its memory when it is made; where its room is used up it takes pieces without keeping them,
/// and tells no bytes from then on. A call that fails takes nothing.
#[derive(Drop)]
pub struct MemorySink {
    bytes: Reserved<u8>,
    full: bool,
    outages: Outages,
}

impl MemorySink {
    ghost use Rattle.charge_world.specs.Scripts.{IsEmptySink};

    /// A sink whose writes of these numbers fail, counted from 1, with room for so many bytes.
    pub fn make(alloc: Global, failing: Vec<u32>, bytes: u32) -> Result<MemorySink, NoMemory>
        ensures { IfOk result (λ s. IsEmptySink failing.items bytes s) }
    {
        Ok(MemorySink {
            bytes: Reserved::make(alloc, bytes)?,
            full: false,
            outages: Outages::of(failing),
        })
    }

    /// The bytes taken and kept.
    pub fn bytes(&self) -> &[u8]
        ensures { result.now ≡ self.now.bytes.items }
    {
        self.bytes.items()
    }
}

impl Sink for MemorySink {
    ghost use Rattle.charge_world.specs.Outside.{IsFault, Appends, AppendsSome};
    ghost use Rattle.charge_world.specs.Fakes.{Counts};
    ghost use Rattle.charge_world.specs.Scripts.{SpendsBytes, bytes_told};

    ghost taken = { bytes_told };

    ghost faults = { λ s. s.outages.faults };

    fn write(&mut self, piece: &[u8]) -> Result<(), Failed>
        ensures ok { OnOk result (Appends (bytes_told self.old) (bytes_told self.new) piece.now) }
        ensures failed { OnErr result (AppendsSome (bytes_told self.old) (bytes_told self.new) piece.now) }
        ensures faults { IsFault self.old.outages.faults self.new.outages.faults result }
        ensures outage { Counts self.old.outages (is_err result) self.new.outages }
        ensures room { OnOk result (SpendsBytes self.old self.new (length piece.now)) }
        ensures same { OnErr result ((self.new.bytes ≡ self.old.bytes) × (self.new.full ≡ self.old.full)) }
    {
        if self.outages.fails() {
            return Err(Failed);
        }
        if self.full || !self.bytes.has_room(piece.len()) {
            self.full = true;
        } else {
            self.bytes.extend(piece);
        }
        Ok(())
    }
}
