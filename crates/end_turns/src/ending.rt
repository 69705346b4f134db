//! How the turns of an end stop.

ghost use Rattle.std.specs.Prelude.{◌≡◌};
ghost use Rattle.end_turns.specs.Lasts.{ended_by, last_by};

use charge_world::What;

/// How the turns of an end stopped.
#[derive(Clone, Copy)]
pub enum Ended {
    /// The wire said that nothing more will be heard.
    Over,
    /// A hearing failed.
    Lost,
    /// A line of the trace couldn't be written.
    TraceFault,
    /// The last turn was made. An end that is over in a hearing that said something else makes no further turn.
    Turns,
}

/// Why no hearing follows, where each line could be written.
#[derive(Clone, Copy)]
pub(crate) enum Last {
    /// The wire said that nothing more will be heard.
    Over,
    /// A hearing failed.
    Lost,
    /// The last turn was made, or the end is over.
    Turns,
}

impl Last {
    /// How the turns stopped.
    pub(crate) fn ended(self) -> Ended
        ensures { result ≡ ended_by self }
    {
        match self {
            Last::Over => Ended::Over,
            Last::Lost => Ended::Lost,
            Last::Turns => Ended::Turns,
        }
    }

    /// Whether this was heard last, behind which the end is over or isn't.
    pub(crate) fn heard(what: What, over: bool) -> Option<Last>
        ensures { result ≡ last_by what over }
    {
        match what {
            What::Over => Some(Last::Over),
            What::Came { .. }
            | What::Bytes { .. }
            | What::Gone { .. }
            | What::Datagram { .. }
            | What::Plant { .. }
            | What::Tick => over.then_some(Last::Turns),
        }
    }
}
