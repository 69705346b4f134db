//! What whoever judges a record keeps of a session to tell whether its contactor may be closed (ISO 15118-2:2014, 8.8.4; IEC 61851-23): which of
//! the words that lead to it were answered, what the charger told since, and whether PowerDelivery Start was answered then.
//!
//! Proved: behind each step of a post the values are those that `told_pasts` reads off all its steps (`MandateValues::heard`, `acted`, `ended`,
//! `sent_response`, `sent_reply`, `sent_other`, `sent_unasked`), and `is_mandated` answers exactly where the post is mandated to close;
//! `starts_tell`: whether it is can be told wherever it can be told whether PowerDelivery Start is the first word without a reply.
#![tactic(auto)]

mod preparation;
mod values;

ghost use Rattle.faultless_pasts.specs.Faultless.{told_codecs};
ghost use Rattle.audit_mandates.specs.Laws.{StartsTell};

use faultless_pasts::ToldCoded;
pub use preparation::Preparation;
pub use values::MandateValues;

/// Whether a post is mandated to close can be told wherever it can be told whether PowerDelivery Start is the first word without a reply.
pub fn starts_tell<C: ToldCoded>()
    ensures { StartsTell (told_codecs C.negotiates C.reads C.encodes C.responds C.watts) }
{}
