//! Standard output, and the file of a trace.

ghost use Rattle.std.specs.Prelude.{◌≡◌, None};

use arrayvec::ArrayVec;
use charge_world::{Failed, Sink};
use std::io::Write;
use std::rt::Files;
use std::{fs, io};
use wire_events::Faults;

/// How many bytes are kept of what was written last.
const KEPT: usize = 32;

/// Standard output. A write to a pipe that nobody reads any more fails.
#[derive(Drop)]
pub struct StandardOutput<'r, R: Print> {
    rt: &'r R,
    last: ArrayVec<u8, 32>,
    trouble: Option<io::Error>,
    faults: Faults,
}

impl<'r, R: Print> StandardOutput<'r, R> {
    pub fn new(rt: &'r R) -> StandardOutput<'r, R> {
        StandardOutput {
            rt,
            last: ArrayVec::new(),
            trouble: None,
            faults: Faults::none(),
        }
    }

    /// The first 32 bytes of what was written last.
    pub fn last(&self) -> &[u8] {
        self.last.as_slice()
    }

    /// Why a write last failed.
    pub fn trouble(&self) -> Option<&io::Error> {
        self.trouble.as_ref()
    }
}

impl<'r, R: Print> Sink for StandardOutput<'r, R> {
    ghost taken = { λ _. None };

    ghost faults = { λ s. s.faults };

    fn write(&mut self, piece: &[u8]) -> Result<(), Failed> {
        self.last.clear();
        let _ = self
            .last
            .try_extend_from_slice(&piece[..piece.len().min(KEPT)]);
        match self.rt.write_all(piece) {
            Ok(()) => Ok(()),
            Err(reason) => {
                self.trouble = Some(reason);
                self.faults.fail(())
            }
        }
    }
}

/// A file that is made, or emptied, at the first write.
#[derive(Drop)]
pub struct TraceFile<'r, R: Files> {
    rt: &'r R,
    name: &'r str,
    file: Option<R::File>,
    trouble: Option<io::Error>,
    faults: Faults,
}

impl<'r, R: Files> TraceFile<'r, R> {
    /// The file of that name. Nothing is made yet.
    pub fn new(rt: &'r R, name: &'r str) -> TraceFile<'r, R> {
        TraceFile {
            rt,
            name,
            file: None,
            trouble: None,
            faults: Faults::none(),
        }
    }

    /// Its name.
    pub fn name(&self) -> &str {
        self.name
    }

    /// Why a write last failed.
    pub fn trouble(&self) -> Option<&io::Error> {
        self.trouble.as_ref()
    }

    /// Writes a piece to the file, which is made first where it wasn't.
    fn put(&mut self, piece: &[u8]) -> io::Result<()>
        ensures { self.new.faults ≡ self.old.faults }
    {
        if let Some(file) = &mut self.file {
            return file.write_all(piece);
        }
        let mut file = fs::create(self.rt, self.name)?;
        let written = file.write_all(piece);
        self.file = Some(file);
        written
    }
}

impl<'r, R: Files> Sink for TraceFile<'r, R> {
    ghost taken = { λ _. None };

    ghost faults = { λ s. s.faults };

    fn write(&mut self, piece: &[u8]) -> Result<(), Failed> {
        match self.put(piece) {
            Ok(()) => Ok(()),
            Err(reason) => {
                self.trouble = Some(reason);
                self.faults.fail(())
            }
        }
    }
}
