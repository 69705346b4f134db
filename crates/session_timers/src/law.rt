//! What the deadlines answer, whatever was called.

ghost use Rattle.session_timers.specs.Law.{AnswersHit, AnswersNext, AnswersNever, TellsFirst, WaitsForLeast};

/// After any calls on the deadlines of a post, `hit` and `next_due` answer what the calls themselves say.
pub fn law_of_deadlines()
    ensures hit { AnswersHit }
    ensures next { AnswersNext }
    ensures never { AnswersNever }
    ensures first { TellsFirst }
    ensures least { WaitsForLeast }
{}
