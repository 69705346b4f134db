//! No contactor is ordered open without a reason, so every cause that stands opens it, over codecs that judge each payload.
//!
//! Proved: `opens_for_reasons`, `every_cause_opens`: over codecs that judge each payload, every order to open repeats a failed one, was
//! asked for by the car, or has a cause that came in that block; so any cause opens, a failed order among them.
#![tactic(auto)]

ghost use Rattle.post_spec.specs.Codecs.{codecs};
ghost use Rattle.opens_have_reasons.specs.Reasons.{RunsOpenForReasons, EveryCauseOpens};

use post_spec::Coded;

/// In every run over codecs that judge each payload, an order to open repeats one that has failed, or the car asked to stop or to negotiate
/// anew, or what ends the session came in that block.
pub fn opens_for_reasons<C: Coded>()
    ensures { RunsOpenForReasons (codecs C.negotiates C.reads C.encodes) }
{}

/// In every run over codecs that judge each payload, where anything that ends a session stands while its contactor is live, and nothing
/// came before in that block, the next thing that the post does is an order to open: before anything else is heard, and before anything
/// is sent. An order to open that failed is no exception (IEC 61851-1, annex A; IEC 61851-23; ISO 15118-2:2014, 8.7 and 8.8).
pub fn every_cause_opens<C: Coded>()
    ensures { EveryCauseOpens (codecs C.negotiates C.reads C.encodes) }
{}
