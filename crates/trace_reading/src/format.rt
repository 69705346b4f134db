//! The formats of a trace.

/// How the lines of a trace are written, which its first line tells.
#[derive(Clone, Copy)]
pub enum Format {
    /// Format 1: the line of each entry.
    Plain,
    /// Format 2: the number of the entry's hearing before it.
    Numbered,
}
