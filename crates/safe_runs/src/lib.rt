//! Every run of a station is safe, whatever its codecs are, as long as an encoded reply reads as that reply: a contactor closes only as
//! mandated, a failed order is repeated, a run ends open.
//!
//! Proved: for any codecs, in every run and of each post, `closes_as_mandated` (before each order to close, the session is mandated to it by
//! its words, their replies and what the charger told, and by a PowerDelivery Start that has its own Close, where encoded replies read back),
//! `opens_again` (while the last order has failed, each block begins with an Open), `ends_open` (at the end of a run, whole or cut, each live
//! contactor is ordered open, last of all).
#![tactic(auto)]

ghost use Rattle.post_spec.specs.Codecs.{codecs};
ghost use Rattle.safe_runs.specs.Closing.{RunsCloseMandated};
ghost use Rattle.safe_runs.specs.Opening.{RunsOpenAgain, RunsEndOpen};

use post_spec::Coded;

/// Before each order to close a contactor the session of its post is mandated to it: its words, their replies and what the charger told
/// allow it, and the PowerDelivery Start that is judged is the one behind which this Close stands (ISO 15118-2:2014, 8.8.4; IEC 61851-23).
pub fn closes_as_mandated<C: Coded>()
    ensures { RunsCloseMandated (codecs C.negotiates C.reads C.encodes) }
{}

/// While the last order to open or close a contactor has failed, the first thing that its post does in each block is to order it open.
pub fn opens_again<C: Coded>()
    ensures { RunsOpenAgain (codecs C.negotiates C.reads C.encodes) }
{}

/// At the end of every run, whole or cut, each post whose contactor is live is ordered open, behind all else that it did.
pub fn ends_open<C: Coded>()
    ensures { RunsEndOpen (codecs C.negotiates C.reads C.encodes) }
{}
