//! What a run leaves.

use crate::rows::given::is_traced;
use anyhow::Result;
use row_texts::{add_line, lines_behind, numbers_behind};
use std::alloc::Global;
use std::fmt;

/// What a run leaves: its trace and its output, the moments until which its hearings waited and the orders that were driven, a line each,
/// and its status.
#[derive(Drop)]
pub(crate) struct Left {
    pub(crate) trace: String,
    pub(crate) out: String,
    pub(crate) untils: String,
    pub(crate) driven: String,
    pub(crate) status: u32,
}

impl Left {
    /// What the lines of a row tell; status 0 where they tell none.
    pub(crate) fn told(alloc: Global, lines: &str) -> Result<Left> {
        let status = numbers_behind(alloc, lines, "status ")?;
        Ok(Left {
            trace: traced(alloc, lines)?,
            out: lines_behind(alloc, lines, "out ")?,
            untils: lines_behind(alloc, lines, "until ")?,
            driven: lines_behind(alloc, lines, "driven ")?,
            status: status.last().copied().unwrap_or(0),
        })
    }

    /// Whether this is what was wanted. Moments and orders of which none is told are any.
    pub(crate) fn is_as(&self, wanted: &Left) -> bool {
        self.trace.as_str() == wanted.trace.as_str()
            && self.out.as_str() == wanted.out.as_str()
            && is_if_told(self.untils.as_str(), wanted.untils.as_str())
            && is_if_told(self.driven.as_str(), wanted.driven.as_str())
            && self.status == wanted.status
    }
}

/// Whether these are the lines that are wanted, where any is.
fn is_if_told(lines: &str, wanted: &str) -> bool {
    wanted.is_empty() || lines == wanted
}

/// The lines of the trace.
fn traced(alloc: Global, lines: &str) -> Result<String> {
    let mut trace = String::new(alloc);
    for line in lines.lines() {
        if is_traced(line) {
            add_line(&mut trace, line)?;
        }
    }
    Ok(trace)
}

impl fmt::Display for Left {
    fn fmt<W: fmt::Write>(&self, f: &mut fmt::Formatter<W>) -> fmt::Result {
        write!(
            f,
            "{}{}{}{}status {}\n",
            self.trace.as_str(),
            self.untils.as_str(),
            self.driven.as_str(),
            self.out.as_str(),
            self.status
        )
    }
}
