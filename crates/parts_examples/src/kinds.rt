//! The numbers of the kinds.

/// Truth.
pub const BOOLEAN_KIND: u16 = 0;

/// A byte.
pub const BYTE_KIND: u16 = 1;

/// An unsigned byte.
pub const OCTET_KIND: u16 = 2;

/// A phase, 1 to 3.
pub const PHASE_KIND: u16 = 3;

/// Unsigned, of 16 bits.
pub const UNSIGNED_SHORT_KIND: u16 = 4;

/// Unsigned, of 32 bits.
pub const UNSIGNED_INT_KIND: u16 = 5;

/// Unsigned, of 64 bits.
pub const UNSIGNED_LONG_KIND: u16 = 6;

/// Signed, of 16 bits.
pub const SHORT_KIND: u16 = 7;

/// Signed, of 32 bits.
pub const INT_KIND: u16 = 8;

/// Signed, of 64 bits.
pub const LONG_KIND: u16 = 9;

/// A text of at most 20 code points.
pub const TEXT_KIND: u16 = 10;

/// A Binary of at most 4 bytes.
pub const SEAL_KIND: u16 = 11;

/// The enumeration of states.
pub const STATE_KIND: u16 = 12;

/// No content.
pub const EMPTY_KIND: u16 = 13;

/// A meter.
pub const METER_KIND: u16 = 14;

/// A reading.
pub const READING_KIND: u16 = 15;

/// Alternating current.
pub const AC_SUPPLY_KIND: u16 = 16;

/// Direct current.
pub const DC_SUPPLY_KIND: u16 = 17;

/// A stop.
pub const STOPPED_KIND: u16 = 18;

/// A day.
pub const DAY_KIND: u16 = 19;

/// A report.
pub const REPORT_KIND: u16 = 20;
