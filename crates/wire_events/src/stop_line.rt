//! The line that asks a program to stop.

ghost use Rattle.std.specs.Prelude.{◌≡◌, ◌↔◌, [], IsTrue, codes};
ghost use Rattle.wire_events.specs.Lines.{read_so_far};

use arrayvec::ArrayVec;
use std::marker::Model;

/// The line feed.
const LINE_FEED: u8 = 10;

/// Hears the line `stop` among lines that come byte by byte. Contracts see the first five bytes of the line that isn't ended yet.
#[derive(Drop)]
pub struct StopLine {
    begun: ArrayVec<u8, 5>,
}

impl Model for StopLine {
    ghost use Rattle.std.specs.Prelude.{ℕ, List};

    ghost Value = { List ℕ };

    ghost view = { λ line. line.begun.items };
}

impl StopLine {
    /// No byte was read.
    pub fn new() -> StopLine
        ensures { result ≡ [] }
    {
        StopLine {
            begun: ArrayVec::new(),
        }
    }

    /// Reads the next byte. True where it ends the line `stop`.
    pub fn hear(&mut self, byte: u8) -> bool
        ensures line { self.new ≡ read_so_far self.old byte }
        ensures stop { IsTrue result ↔ ((byte ≡ 10) × (self.old ≡ codes "stop")) }
    {
        if byte != LINE_FEED {
            let _ = self.begun.try_push(byte);
            return false;
        }
        let stops = self.begun.as_slice() == b"stop".as_slice();
        self.begun.clear();
        stops
    }
}
