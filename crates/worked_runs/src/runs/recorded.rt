//! Runs as they were recorded.

use anyhow::Result;
use row_texts::add_line;
use std::alloc::Global;

/// A run: its plan and its trace, and, where these don't tell it, what its replay comes to.
#[derive(Drop)]
pub(crate) struct Run {
    pub(crate) plan: String,
    pub(crate) trace: String,
    pub(crate) wanted: String,
}

impl Run {
    pub(crate) fn new(alloc: Global) -> Run {
        Run {
            plan: String::new(alloc),
            trace: String::new(alloc),
            wanted: String::new(alloc),
        }
    }

    /// Takes in a line of its own, and tells whether it is one: any other line names the run.
    pub(crate) fn take_line(&mut self, line: &str) -> Result<bool> {
        if let Some(rest) = line.strip_prefix("p ") {
            add_line(&mut self.plan, rest)?;
        } else if let Some(rest) = line.strip_prefix("t ") {
            add_line(&mut self.trace, rest)?;
        } else if let Some(rest) = line.strip_prefix("w ") {
            add_line(&mut self.wanted, rest)?;
        } else {
            return Ok(false);
        }
        Ok(true)
    }
}
