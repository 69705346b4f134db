//! The places of values in their enumerations, counted by hand.

use exi_events::Value;
use iso_parts::{
    ChargeProgress, ChargingSession, EnergyTransferMode, EvErrorCode, EvseNotification,
    EvseProcessing, EvseStatusCode, FaultCode, IsolationLevel, PaymentOption, ResponseCode,
    ServiceCategory, UnitSymbol,
};
use message_parts::Simple;

fn is_at<'a, T: Simple<'a>>(value: T, place: u32) -> bool {
    matches!(value.as_value(), Value::Ordinal(ordinal) if ordinal == place)
}

/// The last value of each enumeration.
fn last_of_requests() -> bool {
    is_at(ServiceCategory::OtherCustom, 3)
        && is_at(PaymentOption::ExternalPayment, 1)
        && is_at(EnergyTransferMode::DcUnique, 5)
        && is_at(ChargingSession::Pause, 1)
        && is_at(ChargeProgress::Renegotiate, 2)
        && is_at(UnitSymbol::Wh, 6)
        && is_at(EvErrorCode::NoData, 11)
}

fn last_of_responses() -> bool {
    is_at(ResponseCode::FailedCertificateRevoked, 25)
        && is_at(EvseProcessing::OngoingWaitingForCustomerInteraction, 2)
        && is_at(FaultCode::UnknownError, 2)
        && is_at(EvseNotification::ReNegotiation, 2)
        && is_at(IsolationLevel::NoImd, 4)
        && is_at(EvseStatusCode::ReservedC, 11)
}

#[test]
fn the_last_value_of_each_enumeration(rt: HostRuntime) {
    assert!(rt; last_of_requests());
    assert!(rt; last_of_responses());
}
