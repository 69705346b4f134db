//! What an end knows beside the messages.

use crate::phase::Standing;
use crate::session::SessionId;
use charge_world::{Dialect, IsolationLevel, PilotState, Tenths};

/// What the charger of a post told last, and what the post keeps.
#[derive(Drop)]
pub struct Facts {
    pub pilot: PilotState,
    /// What the isolation monitor found last since the connection came.
    pub isolation: Option<IsolationLevel>,
    /// The voltage at the outlet.
    pub voltage: Tenths,
    /// The current at the outlet.
    pub current: Tenths,
    /// Whether somebody paid since the last session ended.
    pub paid: bool,
    /// Whether somebody asked to stop since the connection came.
    pub stop: bool,
    pub contactor: Standing,
    /// The identifier of the paused session to which a car may come back.
    pub kept: Option<SessionId>,
    /// Whether this session joined a paused one.
    pub joined: bool,
    /// Whether the site asked for a renegotiation since the connection came and since the last one was accepted.
    pub renew: bool,
}

/// What a station's session takes from one phase to the next.
#[derive(Drop)]
pub struct Carried {
    pub dialect: Dialect,
    /// The session's identifier.
    pub session: SessionId,
    /// The watts that the post asks for.
    pub asked: u32,
    /// The watts that its replies told last.
    pub told: u32,
    /// The watts that the last schedule spells; 0 without one.
    pub schedule: u32,
}

/// What a car's session takes from one request to the next.
#[derive(Drop)]
pub struct CarCarried {
    pub dialect: Dialect,
    /// The session's identifier.
    pub session: SessionId,
    /// The charging replies so far.
    pub cycles: u32,
}
