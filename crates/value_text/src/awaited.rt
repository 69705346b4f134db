//! Names that are awaited.

/// A name and the character that stands behind it.
#[derive(Clone, Copy)]
pub struct Awaited {
    /// The number of the name.
    pub name: u16,
    /// The character, as `=` or `{`.
    pub end: char,
}
