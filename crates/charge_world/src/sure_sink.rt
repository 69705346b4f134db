//! A sink in memory of which no write fails.

ghost use Rattle.std.specs.Prelude.{◌≡◌, [], length, IfOk, IsOk};

use crate::failed::{Failed, NoMemory};
use crate::memory_sink::MemorySink;
use crate::outside::Sink;
use std::alloc::Global;
use std::marker::Model;

/// A sink in memory of which no write fails: its count of faults is the constant 0.
///
/// It is otherwise a `MemorySink`: it takes all its memory when it is made, and where its room is used up it takes pieces
/// without keeping them, and tells no bytes from then on. Contracts see the `MemorySink`.
#[derive(Drop)]
pub struct SureSink {
    sink: MemorySink,
}

impl Model for SureSink {
    ghost use Rattle.std.specs.Prelude.{◌≡◌, []};
    ghost use Rattle.charge_world.specs.declared.memory_sink.MemorySink.{MemorySink};

    ghost Value = { MemorySink };

    ghost view = { λ s. s.sink };

    ghost invariant = { λ s. s.sink.outages.failing ≡ [] };
}

impl SureSink {
    ghost use Rattle.charge_world.specs.Scripts.{IsEmptySink};

    /// A sink with room for so many bytes.
    pub fn make(alloc: Global, bytes: u32) -> Result<SureSink, NoMemory>
        ensures { IfOk result (λ s. IsEmptySink [] bytes s) }
    {
        let sink = MemorySink::make(alloc, Vec::new(alloc), bytes)?;
        Ok(SureSink { sink })
    }

    /// The bytes taken and kept.
    pub fn bytes(&self) -> &[u8]
        ensures { result.now ≡ self.now.bytes.items }
    {
        self.sink.bytes()
    }
}

impl Sink for SureSink {
    ghost use Rattle.charge_world.specs.Outside.{Appends};
    ghost use Rattle.charge_world.specs.Scripts.{SpendsBytes, bytes_told};

    ghost taken = { bytes_told };

    ghost faults = { λ s. 0 };

    fn write(&mut self, piece: &[u8]) -> Result<(), Failed>
        ensures done { IsOk result }
        ensures ok { Appends (bytes_told self.old) (bytes_told self.new) piece.now }
        ensures room { SpendsBytes self.old self.new (length piece.now) }
    {
        match self.sink.write(piece) {
            Ok(()) => Ok(()),
            Err(_) => unreachable!(),
        }
    }
}
