//! The dialects.

/// Whose messages are spelled.
#[derive(Clone, Copy, Debug, PartialEq, Eq)]
pub enum MessageDialect {
    /// Those of the negotiation of a protocol (ISO 15118-2:2014, section 8.2).
    App,
    /// Those of ISO 15118-2:2014 in the profile.
    Iso,
    /// Those of DIN SPEC 70121:2014 in the profile.
    Din,
}
