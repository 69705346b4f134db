//! What a text says.

use value_text::Scanned;

/// An event that a text says.
#[derive(Drop)]
pub enum Said {
    /// The document starts; its number names the root.
    Document(u32),
    /// An element of this name starts.
    Start(u16),
    /// An attribute of this name.
    Attribute(u16, Scanned),
    /// The value of the element that has started.
    Content(Scanned),
    /// The innermost element ends.
    EndElement,
}
