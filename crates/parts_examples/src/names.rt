//! The numbers of the names.

/// The report.
pub const REPORT: u16 = 0;

/// An attribute of a report: its number.
pub const NUMBER: u16 = 1;

/// An attribute of a report: how often it was corrected.
pub const REVISION: u16 = 2;

/// Where it was made.
pub const PLACE: u16 = 3;

/// The seal of the meter.
pub const SEAL: u16 = 4;

/// How the post is.
pub const STATE: u16 = 5;

/// What the meter reads.
pub const METER: u16 = 6;

/// The phase that is measured.
pub const PHASE: u16 = 7;

/// Pulses of the meter.
pub const PULSES: u16 = 8;

/// Energy of the session.
pub const ENERGY: u16 = 9;

/// Energy since the meter was made.
pub const TOTAL: u16 = 10;

/// The offset of the clock.
pub const OFFSET: u16 = 11;

/// Power, negative where it is fed back.
pub const POWER: u16 = 12;

/// Reactive power.
pub const REACTIVE: u16 = 13;

/// The time.
pub const TIME: u16 = 14;

/// Whether the meter is calibrated.
pub const VALID: u16 = 15;

/// The load in percent.
pub const LOAD: u16 = 16;

/// What else there is to say.
pub const REMARK: u16 = 17;

/// An amount: a truth.
pub const FLAG: u16 = 18;

/// An amount: a byte.
pub const STEP: u16 = 19;

/// An amount: a short number.
pub const SHORT: u16 = 20;

/// An amount: a number.
pub const WHOLE: u16 = 21;

/// An amount: a number and its scale.
pub const READING: u16 = 22;

/// An amount: a text.
pub const WORD: u16 = 23;

/// The scale of a reading.
pub const SCALE: u16 = 24;

/// The value of a reading.
pub const VALUE: u16 = 25;

/// A supply: alternating current.
pub const AC_SUPPLY: u16 = 26;

/// A supply: direct current.
pub const DC_SUPPLY: u16 = 27;

/// A supply that is left out of the profile.
pub const SOLAR_SUPPLY: u16 = 28;

/// The head of the supplies.
pub const SUPPLY: u16 = 29;

/// The voltage of direct current.
pub const VOLTAGE: u16 = 30;

/// The current of direct current.
pub const CURRENT: u16 = 31;

/// The head of the causes.
pub const CAUSE: u16 = 32;

/// A cause: after so many seconds.
pub const ENDED: u16 = 33;

/// A cause: in a state.
pub const STOPPED: u16 = 34;

/// The readings of a day.
pub const DAY: u16 = 35;

/// The reading of an hour.
pub const HOUR: u16 = 36;

/// An empty element: nothing follows.
pub const CLOSED: u16 = 37;
