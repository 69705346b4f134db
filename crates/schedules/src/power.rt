//! Power over time, and what the two ends need and answer.

use arrayvec::ArrayVec;

/// The seconds of a day.
pub const DAY: u32 = 86_400;

/// The most steps of a day's calendar, and of a charging profile (ISO 15118-2:2014, 8.5.2.10).
pub const STEPS: usize = 24;

/// The most entries of a schedule of the station (ISO 15118-2:2014, 8.5.2.14).
pub const ENTRIES: usize = 128;

/// From this second on, until the next step starts, this power.
#[derive(Clone, Copy, Debug, Default, PartialEq, Eq)]
pub struct Step {
    /// The second at which it starts.
    pub start: u32,
    /// Its power in watts.
    pub watts: u32,
}

/// The power of a station through each day.
#[derive(Debug, Drop)]
pub struct Calendar {
    /// 1 to 24 steps, the first at 0, with rising starts below 86,400.
    pub entries: ArrayVec<Step, 24>,
}

/// What a car needs until it leaves.
#[derive(Clone, Copy, Debug, PartialEq, Eq)]
pub struct Need {
    /// Energy in watt-hours, 0 to 1,000,000.
    pub energy: u32,
    /// The second at which the car leaves, 1 to 86,400.
    pub departure: u32,
    /// The most power that the car takes, in watts, 1 to 1,000,000.
    pub max_watts: u32,
}

/// What one schedule of a station allows: the power of its entries, and none from its end on.
#[derive(Debug, Drop)]
pub struct Schedule {
    /// The entries, the first at 0, with rising starts.
    pub entries: ArrayVec<Step, 128>,
    /// The second at which it ends, at or behind the last start.
    pub end: u32,
}

/// The charging profile with which a car answers a schedule.
#[derive(Debug, Drop)]
pub struct Profile {
    /// The identifier of the schedule's tuple.
    pub tuple: u8,
    /// Its energy in watt-seconds.
    pub energy: u64,
    /// Its steps.
    pub steps: ArrayVec<Step, 24>,
}
