//! What a site hears.

use crate::numbers::Tenths;

/// The state of the control pilot, as its voltage shows it (IEC 61851-1, annex A).
#[derive(Clone, Copy, Debug, PartialEq, Eq)]
pub enum PilotState {
    /// No vehicle.
    A,
    /// A vehicle that isn't ready to take energy.
    B,
    /// A vehicle that is ready to take energy.
    C,
    /// A vehicle that is ready and asks for ventilation.
    D,
    /// No pilot signal.
    E,
    /// A fault of the post.
    F,
}

/// What the isolation monitor of a DC post last found (IEC 61851-23).
#[derive(Clone, Copy, Debug, PartialEq, Eq)]
pub enum IsolationLevel {
    Invalid,
    Valid,
    Warning,
    Fault,
    /// The post has no isolation monitor.
    NoImd,
}

/// What a charger tells of its post.
#[derive(Clone, Copy, Debug, PartialEq, Eq)]
pub enum PlantEvent {
    Pilot(PilotState),
    Isolation(IsolationLevel),
    /// Tenths of a volt and of an ampere at the outlet.
    Measured { voltage: Tenths, current: Tenths },
    /// What the contactor's auxiliary contact shows.
    Feedback { closed: bool },
    /// Somebody paid at the post.
    Paid,
    /// The emergency stop was pressed.
    Emergency,
    /// Somebody asked to stop charging.
    StopAsked,
    /// The site asks the car to negotiate anew.
    RenewAsked,
}

/// One event. Posts are numbered from 1; a car's post is 1.
#[derive(Clone, Copy, Debug, PartialEq, Eq)]
pub enum What {
    /// A connection began. The token names it.
    Came { post: u8, token: u64 },
    /// So many bytes came on the connection, from 1 to 4,096.
    Bytes { post: u8, n: u32 },
    /// The connection ended.
    Gone { post: u8 },
    /// A datagram of so many bytes came, from 0 to 4,096.
    Datagram { post: u8, n: u32 },
    /// The charger told something.
    Plant { post: u8, event: PlantEvent },
    /// Time went on.
    Tick,
    /// Nothing more will be heard.
    Over,
}

/// What was heard, and when: `at` is in milliseconds.
#[derive(Clone, Copy, Debug, PartialEq, Eq)]
pub struct Heard {
    pub at: u64,
    pub what: What,
}
