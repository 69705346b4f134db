//! How far a text is scanned.

/// Where a scanner stands.
#[derive(Clone, Copy)]
pub(crate) enum Phase {
    /// Nothing is taken.
    Before,
    /// The front of the root is taken, which names it.
    AtRoot { name: u16, kind: u16 },
    /// The root has started.
    Inside,
}
