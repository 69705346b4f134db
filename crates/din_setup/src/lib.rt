//! Messages of a session's setup and stop of DIN SPEC 70121:2014: session setup, service discovery, payment selection, authentication,
//! session stop.
//!
//! `tools/message_types.py` writes its types, their definitions and their proofs from `tools/din.schema` and `tools/din.types`.
//!
//! Proved: each type is read and written as its declaration in `din_schema` says.
#![tactic(auto)]

mod selection;
mod services;
mod session;

pub use din_parts;
pub use selection::{
    SelectedService, SelectedServiceList, ServicePaymentSelectionReq, ServicePaymentSelectionRes,
};
pub use services::{
    ChargeService, PaymentOptions, Service, ServiceDiscoveryReq, ServiceDiscoveryRes, ServiceList,
    ServiceTag,
};
pub use session::{
    ContractAuthenticationReq, ContractAuthenticationRes, SessionSetupReq, SessionSetupRes,
    SessionStopReq, SessionStopRes,
};
