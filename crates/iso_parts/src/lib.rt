//! What the messages of ISO 15118-2:2014 share: enumerations, physical values, the states of both ends, and the header of a message.
//!
//! `tools/message_types.py` writes its types, their definitions and their proofs from `tools/iso.schema` and `tools/iso.types`.
//!
//! Proved: each type is read and written as its declaration in `iso_schema` says (`PutRecord`, `Record`, `ReadRecord`, `PutChoice`,
//! `Choice`, `Simple` of `message_parts`): enumerations, structs, lists, groups, the choice of a parameter, attributes.
#![tactic(auto)]

mod codes;
mod enumerations;
mod frame;
mod values;

pub use codes::{
    ChargeProgress, ChargingSession, EnergyTransferMode, EvseProcessing, PaymentOption,
    ResponseCode, ServiceCategory,
};
pub use enumerations::{
    EvErrorCode, EvseNotification, EvseStatusCode, FaultCode, IsolationLevel, UnitSymbol,
};
pub use frame::{Header, Notification};
pub use message_fields;
pub use message_fields::message_parts;
pub use values::{AcEvseStatus, DcEvStatus, DcEvseStatus, EvseStatus, MeterInfo, PhysicalValue};
