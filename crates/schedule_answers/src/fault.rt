//! Why a payload has no answer.

ghost use Rattle.std.specs.Prelude.{◌≡◌};

use crate::choosing::ScheduleFault;
use charge_world::NoMemory;

/// Why a payload has no answer.
#[derive(Clone, Copy, Debug, PartialEq, Eq)]
pub enum AnswerFault {
    /// It spells no message: this bit, from 0, can't be taken.
    Refused(u32),
    /// Its message has no schedules that can be answered, or none with a profile that reaches the energy.
    Unanswered(ScheduleFault),
    /// Memory ran out.
    Memory,
}

impl From<NoMemory> for AnswerFault {
    ghost use Rattle.schedule_answers.specs.declared.fault.AnswerFault.TheVariants.{Memory};

    ghost from_gives = { λ _ fault. fault ≡ Memory };

    fn from(_none: NoMemory) -> AnswerFault {
        AnswerFault::Memory
    }
}
