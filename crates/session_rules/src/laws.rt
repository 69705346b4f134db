//! What follows from the rules of a session, whatever it keeps and is asked.

ghost use Rattle.session_rules.specs.Laws.{AcceptsWithoutLine, NamesItsSession, AnswersInDialect, LeavesRefused, ClosesRight, RunsByRow, SpellsSchedule, SchedulesWithin};

/// What the code of a reply says: it is of the OK class exactly where no line of the verdict applies; a session that is set
/// up accepts only requests that name it; and each dialect has its codes.
pub fn law_of_verdicts()
    ensures accepted { AcceptsWithoutLine }
    ensures named { NamesItsSession }
    ensures codes { AnswersInDialect }
{}

/// A request that isn't accepted changes nothing.
pub fn law_of_refusals()
    ensures { LeavesRefused }
{}

/// The contactor is ordered closed only for an accepted PowerDelivery Start, with the pilot at C or D and the contactor open;
/// in DC only behind a pre-charge that came within 20.0 V of its target.
pub fn law_of_closing()
    ensures { ClosesRight }
{}

/// The deadline that runs in a session is the one of its row (`timeout_of`), by the rule of `session_timers`.
pub fn law_of_timeouts()
    ensures { RunsByRow }
{}

/// The watts of a schedule that profiles are held against are those that its message writes, and never more than are shown.
pub fn law_of_schedules()
    ensures spelled { SpellsSchedule }
    ensures within { SchedulesWithin }
{}
