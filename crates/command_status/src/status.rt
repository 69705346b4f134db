//! How the program ends.

ghost use Rattle.std.specs.Prelude.{◌≡◌};

/// The exit status.
#[derive(Clone, Copy, PartialEq, Eq)]
pub enum Status {
    /// The job was done; for `station`, Over was heard.
    Done,
    /// Want of memory, before anything was begun.
    NoMemory,
    /// The words are no command.
    Words,
    /// A plan is refused.
    Plan,
    /// An input is refused.
    Input,
    /// The wire could not be started, or a hearing failed.
    WireFault,
    /// A line of the report, or of the trace, could not be written.
    SinkFault,
    /// A file could not be read.
    SourceFault,
    /// The last turn was made, and Over wasn't heard in it.
    TurnsSpent,
    /// A check of a trace fails.
    AuditNo,
    /// No charging profile reaches the energy that is needed.
    Unreached,
    /// A payload offers no schedule.
    NoSchedule,
    /// A payload offers no set of parameters as it is wanted.
    NoSet,
}

impl Status {
    ghost use Rattle.command_status.specs.Statuses.{number_of};

    /// Its number.
    pub fn number(&self) -> u8
        ensures { result ≡ number_of self.now }
    {
        match self {
            Status::Done => 0,
            Status::NoMemory => 1,
            Status::Words => 2,
            Status::Plan => 3,
            Status::Input => 4,
            Status::WireFault => 5,
            Status::SinkFault => 6,
            Status::SourceFault => 7,
            Status::TurnsSpent => 8,
            Status::AuditNo => 9,
            Status::Unreached => 10,
            Status::NoSchedule => 11,
            Status::NoSet => 12,
        }
    }
}
