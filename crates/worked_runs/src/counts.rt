//! What is counted.

use std::fmt;

/// How many there are of a file, how many changes were made of them, and how many of both come out otherwise.
#[derive(Clone, Copy, Default)]
pub(crate) struct Counts {
    pub(crate) all: u64,
    /// None where a file's kind has none.
    pub(crate) changes: Option<u64>,
    pub(crate) wrong: u64,
}

impl fmt::Display for Counts {
    fn fmt<W: fmt::Write>(&self, f: &mut fmt::Formatter<W>) -> fmt::Result {
        match self.changes {
            Some(changes) => write!(f, "{} changes {} wrong {}", self.all, changes, self.wrong),
            None => write!(f, "{} wrong {}", self.all, self.wrong),
        }
    }
}
