//! What the lines so far tell of the next one.

use crate::format::Format;

/// The format, how many posts there are, how many hearings were read, and whether the last of all was.
#[derive(Clone, Copy)]
pub(crate) struct Standing {
    pub(crate) format: Format,
    pub(crate) posts: u8,
    pub(crate) hearings: u64,
    pub(crate) is_over: bool,
}
