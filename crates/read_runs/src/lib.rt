//! What a post keeps of its charger and of its session is what is read off its past.
//!
//! Proved: `facts_are_read` (behind any steps its clock, its charger's facts, its contactor, and whether a session lives),
//! `courses_are_read` (for any codecs, behind the steps of a post in a run, the stage of its session with row, dialect and identifier, the
//! watts that it asks for, was told and that stay allowed, and the facts by which words are judged, kept and joined identifiers among
//! them).
#![tactic(auto)]

ghost use Rattle.post_spec.specs.Codecs.{codecs};
ghost use Rattle.read_runs.specs.Facts.{FactsAreRead};
ghost use Rattle.read_runs.specs.Courses.{CoursesAreRead};

use post_spec::Coded;

/// Behind any steps the clock is the greatest moment heard, and what a post keeps of its charger is what its past tells.
pub fn facts_are_read()
    ensures { FactsAreRead }
{}

/// Behind the steps of any run, the stage of a session and its watts, and the facts by which words are judged, are those to which the
/// words of the past have led.
pub fn courses_are_read<C: Coded>()
    ensures { CoursesAreRead (codecs C.negotiates C.reads C.encodes) }
{}
