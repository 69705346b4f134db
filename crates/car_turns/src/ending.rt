//! How driving ends.

ghost use Rattle.std.specs.Prelude.{◌≡◌};
ghost use Rattle.car_turns.specs.Ending.{ended_by};

/// How driving a car ended.
#[derive(Clone, Copy)]
pub enum Ended {
    /// The wire said that nothing more will be heard.
    Over,
    /// A hearing failed.
    Lost,
    /// A line of the trace couldn't be written.
    TraceFault,
    /// The last turn was made.
    Turns,
    /// The car ended in a hearing that said something else.
    Finished,
}

impl Ended {
    /// How driving ended, by how the turns stopped and whether the car had ended.
    pub fn by(stopped: end_turns::Ended, over: bool) -> Ended
        ensures { result ≡ ended_by stopped over }
    {
        match stopped {
            end_turns::Ended::Over => Ended::Over,
            end_turns::Ended::Lost => Ended::Lost,
            end_turns::Ended::TraceFault => Ended::TraceFault,
            end_turns::Ended::Turns if over => Ended::Finished,
            end_turns::Ended::Turns => Ended::Turns,
        }
    }
}
