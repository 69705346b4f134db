//! The schema of the negotiation (ISO 15118-2:2014, section 8.2): the declarations of supportedAppProtocolReq and supportedAppProtocolRes,
//! in tables and written out in code.
//!
//! Proved: `negotiation` tells the negotiation's schema (`negotiation_schema`), and so does `NegotiationPlaces`, in which what each place
//! offers is written out.
#![tactic(auto)]

pub mod names;
mod places;
mod tables;

pub use places::NegotiationPlaces;
pub use tables::negotiation;
