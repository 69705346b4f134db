//! Messages of a session's setup and stop of ISO 15118-2:2014: session setup, service discovery, payment selection, authorization, session
//! stop.
//!
//! `tools/message_types.py` writes its types, their definitions and their proofs from `tools/iso.schema` and `tools/iso.types`.
//!
//! Proved: each type is read and written as its declaration in `iso_schema` says.
#![tactic(auto)]

mod selection;
mod services;
mod session;

pub use iso_parts;
pub use selection::{
    PaymentServiceSelectionReq, PaymentServiceSelectionRes, SelectedService, SelectedServiceList,
};
pub use services::{
    ChargeService, PaymentOptionList, Service, ServiceDiscoveryReq, ServiceDiscoveryRes,
    ServiceList, SupportedEnergyTransferMode,
};
pub use session::{
    AuthorizationReq, AuthorizationRes, SessionSetupReq, SessionSetupRes, SessionStopReq,
    SessionStopRes,
};
