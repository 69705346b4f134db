//! When one session of a post conforms; its requests are accepted, and what its charger tells ends nothing.
//!
//! Proved: `conforming_sessions_go_on`: a request that a conforming car makes is answered with a code of the OK class, and what the charger
//! tells while all goes well ends nothing.
#![tactic(auto)]

ghost use Rattle.conforming_runs.specs.Laws.{EventsEndNothing, RequestsAreAccepted};

/// A request that a conforming car makes is answered with a code of the OK class, and what the charger tells while all goes well is no
/// cause.
pub fn conforming_sessions_go_on()
    ensures requests { RequestsAreAccepted }
    ensures events { EventsEndNothing }
{}
