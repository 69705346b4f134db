//! Definitions of what a trace tells that someone else's station may have written: what its posts went by, the ten checks, and the first that
//! fails (own).
//!
//! `specs/Steps.antt`, `Reading.antt` and `Site.antt` say what a post went by, `Mandated.antt` and `Causes.antt` when its contactor may be
//! closed and what opens it, `Checks.antt` and `Faults.antt` the checks, and `Safe.antt` what a safe trace is, and one within the limit.
//!
//! Proved: worked examples of the definitions: which contactor is left open at the end of a trace (`pasts_end`), which watts a physical value
//! writes (`watts_are_written`), and when a word is judged (`words_are_judged`).
//!
//! What a check that fails means on the post:
//!
//! 1. Its contactor was ordered closed before the session had come so far, or with a pilot, an isolation or a voltage at which it must stay open.
//! 2. A FAILED reply went out while its contactor was live: the car was told of the failure before the power was taken away.
//! 3. Something that ends a session (a lost pilot, an emergency, a deadline, a bad message, ..) came while its contactor was live, and it was not
//!    ordered open before the next reply or the next thing that was heard.
//! 4. An order to its contactor had failed, and the next block did not begin with an order to open it.
//! 5. A block ended with its contactor closed, although the session was no longer one in which it may be closed.
//! 6. The watts that all posts were told together passed the site's limit with this line.
//! 7. A reply told the car other watts than the post had at that moment.
//! 8. The trace ends with its contactor live: nothing opened it at the end.
//! 9. What was sent is not the reply to the request that waited for one.
//! 10. A block ended with a message of its car that was not answered.
#![tactic(auto)]

ghost use Rattle.told_pasts.specs.Examples as examples;

/// Worked examples of where a trace leaves its contactors, and of its blocks.
pub fn pasts_end()
    ensures opened_last { examples.OpenedLast }
    ensures opened_before_lost { examples.OpenedBeforeLost }
    ensures opened_before_end { examples.OpenedBeforeEnd }
    ensures other_ends { examples.OtherEnds }
    ensures lost_begins_none { examples.LostBeginsNone }
    ensures hearing_begins { examples.HearingBegins }
{}

/// Worked examples of the watts that are written (ISO 15118-2:2014, PhysicalValueType).
pub fn watts_are_written()
    ensures least_multiplier { examples.LeastMultiplier }
    ensures greater_multiplier { examples.GreaterMultiplier }
{}

/// Worked examples of when a word is judged.
pub fn words_are_judged()
    ensures judged_once { examples.JudgedOnce }
    ensures unread_behind_reply { examples.UnreadBehindReply }
    ensures unread_in_next_session { examples.UnreadInNextSession }
    ensures nothing_said { examples.NothingSaid }
{}
