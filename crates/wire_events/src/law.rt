//! What holds of turns, whatever is due.

ghost use Rattle.wire_events.specs.Law.{TurnsComeCloser};

/// A post of which something is due comes closer with each turn of another one.
pub fn law_of_turns()
    ensures { TurnsComeCloser }
{}
