//! Whatever ends a session opens its live contactor before anything else, wherever it stands.
//!
//! Proved: `causes_come`, `opens_where_causes_stand`: wherever what ends a session stands while its contactor is live, and nothing came
//! earlier in that hearing's answers, the next thing that the post does is an order to open, before anything else is heard or sent; a
//! failed order to open counts where it repeated one or the car asked for it.
#![tactic(auto)]

ghost use Rattle.post_spec.specs.Codecs.{codecs};
ghost use Rattle.standing_causes_open.specs.Standing.{RunsHaveCome, CausesOpen};

use post_spec::Coded;

/// In every run, where what ends a session stands while its contactor is live, it came there, or one came earlier in that block: a
/// deadline by a hearing, a word by its bytes, by the reply to the word before it or by a Close, any other as it was heard or done.
pub fn causes_come<C: Coded>()
    ensures { RunsHaveCome (codecs C.negotiates C.reads C.encodes) }
{}

/// In every run, where what ends a session stands while its contactor is live, and none came earlier in that block, the next thing that
/// the post does is an order to open: before anything else is heard, and before anything is sent (IEC 61851-1, annex A; IEC 61851-23;
/// ISO 15118-2:2014, 8.7 and 8.8).
pub fn opens_where_causes_stand<C: Coded>()
    ensures { CausesOpen (codecs C.negotiates C.reads C.encodes) }
{}
