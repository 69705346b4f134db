//! The dialects that an end speaks.

use arrayvec::ArrayVec;

/// A message set: ISO 15118-2:2014 or DIN SPEC 70121:2014.
#[derive(Clone, Copy, Debug, Default, PartialEq, Eq)]
pub enum Dialect {
    #[default]
    Iso,
    Din,
}

/// The dialects that an end offers, each at most once, in its order of preference.
#[derive(Drop)]
pub struct Offer {
    pub entries: ArrayVec<Dialect, 2>,
}
