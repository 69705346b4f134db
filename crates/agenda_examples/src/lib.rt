//! Worked examples of what a post has left to do, computed from its steps.
//!
//! Proved: worked examples that compute.
#![tactic(auto)]

ghost use Rattle.agenda_examples.specs.Examples as examples;

/// What is left behind a hearing, behind an answered datagram, behind a response and behind a repeated order; and what a late session asks for.
pub fn left_over()
    ensures hearing_leaves_nothing { examples.HearingLeavesNothing }
    ensures answer_leaves_nothing { examples.AnswerLeavesNothing }
    ensures unmatched_leaves_the_end { examples.UnmatchedLeavesTheEnd }
    ensures unsent_leaves_the_end { examples.UnsentLeavesTheEnd }
    ensures repeated_leaves_the_rows { examples.RepeatedLeavesTheRows }
    ensures late_is_asked_before_the_event { examples.LateIsAskedBeforeTheEvent }
{}
