//! Messages of charging of DIN SPEC 70121:2014: charge parameters and schedules, power delivery, cable check, pre-charge, current demand,
//! welding detection.
//!
//! `tools/message_types.py` writes its types, their definitions and their proofs from `tools/din.schema` and `tools/din.types`.
//!
//! Proved: each type is read and written as its declaration in `din_schema` says.
#![tactic(auto)]

mod charging;
mod delivery;
mod discovery;
mod limits;
mod schedules;

pub use charging::{
    CableCheckReq, CableCheckRes, CurrentDemandReq, CurrentDemandRes, PreChargeReq, PreChargeRes,
    WeldingDetectionReq, WeldingDetectionRes,
};
pub use delivery::{
    ChargingProfile, DcEvPowerDeliveryParameter, EvPowerDeliveryParameter, PowerDeliveryReq,
    PowerDeliveryRes, ProfileEntry,
};
pub use discovery::{ChargeParameterDiscoveryReq, ChargeParameterDiscoveryRes};
pub use limits::{
    DcEvChargeParameter, DcEvseChargeParameter, EvChargeParameter, EvseChargeParameter,
};
pub use schedules::{
    PMaxSchedule, PMaxScheduleEntry, RelativeTimeInterval, SaScheduleList, SaScheduleTuple,
    SaSchedules, TimeInterval,
};
