//! What a basic post hears, orders and keeps.

use charge_world::PilotState;

/// What is heard.
#[derive(Clone, Copy)]
pub enum BasicEvent {
    /// Offer a current, in tenths of an ampere, from 60 to 800.
    Offer(u16),
    /// Ask for digital communication.
    GoDigital,
    /// Digital communication is over.
    DigitalEnded,
    /// The state of the control pilot.
    Pilot(PilotState),
    /// What the contactor's auxiliary contact shows.
    Feedback { closed: bool },
    /// Time went on.
    Tick,
}

/// What is ordered.
#[derive(Clone, Copy, Default, PartialEq, Eq)]
pub enum BasicOrder {
    /// Open the contactor.
    #[default]
    Open,
    /// Close the contactor.
    Close,
    /// Set the pilot's duty, in tenths of a percent.
    Duty(u16),
}

/// How a post charges.
#[derive(Clone, Copy)]
pub enum Mode {
    /// Not yet, or not any more.
    Off,
    /// By the duty alone.
    Basic,
    /// By digital communication.
    Digital,
    /// Not until 3,000 ms after this moment (own).
    Pause(u64),
}
