//! Messages of DC charging of ISO 15118-2:2014: cable check, pre-charge, current demand, welding detection.
//!
//! `tools/message_types.py` writes its types, their definitions and their proofs from `tools/iso.schema` and `tools/iso.types`.
//!
//! Proved: each type is read and written as its declaration in `iso_schema` says.
#![tactic(auto)]

mod charging;

pub use charging::{
    CableCheckReq, CableCheckRes, CurrentDemandReq, CurrentDemandRes, PreChargeReq, PreChargeRes,
    WeldingDetectionReq, WeldingDetectionRes,
};
