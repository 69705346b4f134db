//! Where what ends a session comes, it opens a live contactor before anything else is heard or sent.
//!
//! Proved: `opens_at_causes`: where what ends a session comes while its contactor is live (what is heard of the connection or the charger,
//! a deadline, the next word, a negotiation without a match, a call that failed), the next thing that the post does is an order to open,
//! and no block ends before it; behind a failed order to open this is said of those that were no earlier cause's; where encoded replies
//! read back, a payload is judged one way and a reply has one encoding. `ends_at_causes`: a run that is cut there is closed by that order.
#![tactic(auto)]

ghost use Rattle.post_spec.specs.Codecs.{codecs};
ghost use Rattle.coming_causes_open.specs.Causing.{RunsOpenAtCauses, RunsEndAtCauses};

use post_spec::Coded;

/// In every run, where what ends a session comes while its contactor is live, the next thing that the post does is an order to open: before
/// anything else is heard, and before anything is sent (IEC 61851-1, annex A; IEC 61851-23; ISO 15118-2:2014, 8.7 and 8.8).
pub fn opens_at_causes<C: Coded>()
    ensures { RunsOpenAtCauses (codecs C.negotiates C.reads C.encodes) }
{}

/// Where a run, whole or cut, ends at a cause while the contactor is live, an order to open it follows.
pub fn ends_at_causes<C: Coded>()
    ensures { RunsEndAtCauses (codecs C.negotiates C.reads C.encodes) }
{}
