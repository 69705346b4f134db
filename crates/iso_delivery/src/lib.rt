//! Messages of power delivery and of charging status of ISO 15118-2:2014.
//!
//! `tools/message_types.py` writes its types, their definitions and their proofs from `tools/iso.schema` and `tools/iso.types`.
//!
//! Proved: each type is read and written as its declaration in `iso_schema` says.
#![tactic(auto)]

mod delivery;

pub use delivery::{
    ChargingProfile, ChargingStatusReq, ChargingStatusRes, DcEvPowerDeliveryParameter,
    EvPowerDeliveryParameter, PowerDeliveryReq, PowerDeliveryRes, ProfileEntry,
};
