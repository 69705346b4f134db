//! Files that are read.

ghost use Rattle.std.specs.Prelude.{◌≡◌, ◌≤◌, None, IfOk, length};

use charge_world::{Failed, Source};
use std::alloc::Global;
use std::io::{ErrorKind, Read};
use std::rt::Files;
use std::{fs, io};
use wire_events::Faults;

/// Files by name, read piece by piece. It tells none of their bytes.
#[derive(Drop)]
pub struct FileSource<'r, R: Files> {
    rt: &'r R,
    alloc: Global,
    name: Option<String>,
    file: Option<R::File>,
    trouble: Option<io::Error>,
    faults: Faults,
}

impl<'r, R: Files> FileSource<'r, R> {
    /// A source of which no file was begun.
    pub fn new(rt: &'r R, alloc: Global) -> FileSource<'r, R> {
        FileSource {
            rt,
            alloc,
            name: None,
            file: None,
            trouble: None,
            faults: Faults::none(),
        }
    }

    /// The name of the file that was begun last, where memory sufficed to keep it.
    pub fn name(&self) -> Option<&str> {
        match &self.name {
            Some(name) => Some(name.as_str()),
            None => None,
        }
    }

    /// Why a file last couldn't be begun or read.
    pub fn trouble(&self) -> Option<&io::Error> {
        self.trouble.as_ref()
    }

    /// Reads the next bytes of the file that was begun.
    fn take(&mut self, room: &mut [u8]) -> io::Result<usize>
        ensures bound { IfOk result (λ n. n ≤ length room.new) }
        ensures faults { self.new.faults ≡ self.old.faults }
    {
        match &mut self.file {
            Some(file) => file.read(room),
            None => Err(io::Error::from(ErrorKind::NotFound)),
        }
    }
}

impl<'r, R: Files> Source for FileSource<'r, R> {
    ghost holds = { λ _ _. None };

    ghost left = { λ _. None };

    ghost faults = { λ s. s.faults };

    fn begin(&mut self, name: &str) -> Result<(), Failed> {
        self.name = String::from_str(self.alloc, name).ok();
        match fs::open(self.rt, name) {
            Ok(file) => {
                self.file = Some(file);
                Ok(())
            }
            Err(reason) => {
                self.file = None;
                self.trouble = Some(reason);
                self.faults.fail(())
            }
        }
    }

    fn read(&mut self, room: &mut [u8]) -> Result<usize, Failed> {
        match self.take(room) {
            Ok(n) => Ok(n),
            Err(reason) => {
                self.trouble = Some(reason);
                self.faults.fail(0)
            }
        }
    }
}
