//! Messages of the details of a service of ISO 15118-2:2014: its sets of parameters.
//!
//! `tools/message_types.py` writes its types, their definitions and their proofs from `tools/iso.schema` and `tools/iso.types`.
//!
//! Proved: each type is read and written as its declaration in `iso_schema` says.
#![tactic(auto)]

mod details;

pub use details::{
    Parameter, ParameterSet, ParameterValue, ServiceDetailReq, ServiceDetailRes,
    ServiceParameterList,
};
