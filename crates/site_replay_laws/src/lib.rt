//! A run of a station that is replayed under the same plan is the same run, so its trace is the same text.
//!
//! Proved: `replays_itself`: a run that is heard off a whole run's trace, and whose calls failed by its marks, is that run.
#![tactic(auto)]

ghost use Rattle.post_spec.specs.Codecs.{codecs};
ghost use Rattle.site_replay_laws.specs.Replayed.{ReplaysItself};

use post_spec::Coded;

/// Where a payload is judged one way and a reply has one encoding, a run that is heard off a whole run's trace, and whose calls failed by
/// its marks, is that run.
pub fn replays_itself<C: Coded>()
    ensures { ReplaysItself (codecs C.negotiates C.reads C.encodes) }
{}
