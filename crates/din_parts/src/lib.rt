//! What the messages of DIN SPEC 70121:2014 share: enumerations, physical values, the states of both ends, and the header of a message.
//!
//! `tools/message_types.py` writes its types, their definitions and their proofs from `tools/din.schema` and `tools/din.types`.
//!
//! Proved: each type is read and written as its declaration in `din_schema` says.
#![tactic(auto)]

mod codes;
mod enumerations;
mod frame;
mod values;

pub use codes::{
    EnergyTransferMode, EvseProcessing, PaymentOption, ResponseCode, ServiceCategory,
    SupportedEnergyTransferType,
};
pub use enumerations::{
    EvErrorCode, EvseNotification, EvseStatusCode, FaultCode, IsolationLevel, UnitSymbol,
};
pub use frame::{Header, Notification};
pub use message_fields;
pub use message_fields::message_parts;
pub use values::{DcEvStatus, DcEvseStatus, EvseStatus, PhysicalValue};
