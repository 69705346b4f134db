//! What follows behind a past of a station is determined by it, but for what is heard and for the outcomes of calls.
//!
//! Proved: `next_is_determined`: with one outcome the same posts do one thing next, one hearing makes one thing of them, and nothing is
//! heard while something is to be done; `inputs_determine`: the hearings and outcomes of a run, in their order, determine it; where a
//! payload is judged one way and a reply has one encoding.
#![tactic(auto)]

ghost use Rattle.post_spec.specs.Codecs.{codecs};
ghost use Rattle.determined_runs.specs.Determined.{RunsAreDetermined, InputsDetermine};

use post_spec::Coded;

/// Where a payload is judged one way and a reply has one encoding, the same posts do the same next, and a hearing makes the same of them.
pub fn next_is_determined<C: Coded>()
    ensures { RunsAreDetermined (codecs C.negotiates C.reads C.encodes) }
{}

/// So the hearings and the outcomes of a run, in their order, determine the run.
pub fn inputs_determine<C: Coded>()
    ensures { InputsDetermine (codecs C.negotiates C.reads C.encodes) }
{}
