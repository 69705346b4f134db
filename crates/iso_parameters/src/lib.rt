//! Charge parameters of ISO 15118-2:2014: what both ends say of their limits.
//!
//! `tools/message_types.py` writes its types, their definitions and their proofs from `tools/iso.schema` and `tools/iso.types`.
//!
//! Proved: each type is read and written as its declaration in `iso_schema` says.
#![tactic(auto)]

mod discovery;
mod limits;

pub use discovery::{ChargeParameterDiscoveryReq, ChargeParameterDiscoveryRes};
pub use limits::{
    AcEvChargeParameter, AcEvseChargeParameter, DcEvChargeParameter, DcEvseChargeParameter,
    EvChargeParameter, EvseChargeParameter,
};
