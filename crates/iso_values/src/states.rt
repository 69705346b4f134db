//! Enumerations of statuses and steps, as words have them and as ISO 15118-2:2014 writes them (8.5).

ghost use Rattle.std.specs.Prelude.{◌≡◌};
ghost use Rattle.iso_values.specs.States as rule;

use charge_world::IsolationLevel;
use iso_parts::{
    ChargeProgress, ChargingSession, EvseNotification, EvseProcessing, EvseStatusCode,
    IsolationLevel as IsoLevel, PaymentOption,
};
use session_words::{Notify, Processing, Progress, StatusCode};

/// A state of the isolation.
pub fn isolation_of(value: IsoLevel) -> IsolationLevel
    ensures { result ≡ rule.isolation_of value }
{
    match value {
        IsoLevel::Invalid => IsolationLevel::Invalid,
        IsoLevel::Valid => IsolationLevel::Valid,
        IsoLevel::Warning => IsolationLevel::Warning,
        IsoLevel::Fault => IsolationLevel::Fault,
        IsoLevel::NoImd => IsolationLevel::NoImd,
    }
}

/// A state of the isolation as it is written.
pub fn isolation_level(value: IsolationLevel) -> IsoLevel
    ensures { result ≡ rule.isolation_level value }
{
    match value {
        IsolationLevel::Invalid => IsoLevel::Invalid,
        IsolationLevel::Valid => IsoLevel::Valid,
        IsolationLevel::Warning => IsoLevel::Warning,
        IsolationLevel::Fault => IsoLevel::Fault,
        IsolationLevel::NoImd => IsoLevel::NoImd,
    }
}

/// The code of a status.
pub fn status_code_of(value: EvseStatusCode) -> StatusCode
    ensures { result ≡ rule.status_code_of value }
{
    match value {
        EvseStatusCode::EvseNotReady => StatusCode::EvseNotReady,
        EvseStatusCode::EvseReady => StatusCode::EvseReady,
        EvseStatusCode::EvseShutdown => StatusCode::EvseShutdown,
        EvseStatusCode::EvseUtilityInterruptEvent => StatusCode::EvseUtilityInterruptEvent,
        EvseStatusCode::EvseIsolationMonitoringActive => StatusCode::EvseIsolationMonitoringActive,
        EvseStatusCode::EvseEmergencyShutdown => StatusCode::EvseEmergencyShutdown,
        EvseStatusCode::EvseMalfunction => StatusCode::EvseMalfunction,
        EvseStatusCode::Reserved8 => StatusCode::Reserved8,
        EvseStatusCode::Reserved9 => StatusCode::Reserved9,
        EvseStatusCode::ReservedA => StatusCode::ReservedA,
        EvseStatusCode::ReservedB => StatusCode::ReservedB,
        EvseStatusCode::ReservedC => StatusCode::ReservedC,
    }
}

/// The code of a status as it is written.
pub fn evse_status_code(value: StatusCode) -> EvseStatusCode
    ensures { result ≡ rule.evse_status_code value }
{
    match value {
        StatusCode::EvseNotReady => EvseStatusCode::EvseNotReady,
        StatusCode::EvseReady => EvseStatusCode::EvseReady,
        StatusCode::EvseShutdown => EvseStatusCode::EvseShutdown,
        StatusCode::EvseUtilityInterruptEvent => EvseStatusCode::EvseUtilityInterruptEvent,
        StatusCode::EvseIsolationMonitoringActive => EvseStatusCode::EvseIsolationMonitoringActive,
        StatusCode::EvseEmergencyShutdown => EvseStatusCode::EvseEmergencyShutdown,
        StatusCode::EvseMalfunction => EvseStatusCode::EvseMalfunction,
        StatusCode::Reserved8 => EvseStatusCode::Reserved8,
        StatusCode::Reserved9 => EvseStatusCode::Reserved9,
        StatusCode::ReservedA => EvseStatusCode::ReservedA,
        StatusCode::ReservedB => EvseStatusCode::ReservedB,
        StatusCode::ReservedC => EvseStatusCode::ReservedC,
    }
}

/// What a post asks of the car.
pub fn notify_of(value: EvseNotification) -> Notify
    ensures { result ≡ rule.notify_of value }
{
    match value {
        EvseNotification::None => Notify::None,
        EvseNotification::StopCharging => Notify::StopCharging,
        EvseNotification::ReNegotiation => Notify::ReNegotiation,
    }
}

/// What a post asks of the car, as it is written.
pub fn evse_notification(value: Notify) -> EvseNotification
    ensures { result ≡ rule.evse_notification value }
{
    match value {
        Notify::None => EvseNotification::None,
        Notify::StopCharging => EvseNotification::StopCharging,
        Notify::ReNegotiation => EvseNotification::ReNegotiation,
    }
}

/// Whether a step is done.
pub fn processing_of(value: EvseProcessing) -> Processing
    ensures { result ≡ rule.processing_of value }
{
    match value {
        EvseProcessing::Finished => Processing::Finished,
        EvseProcessing::Ongoing => Processing::Ongoing,
        EvseProcessing::OngoingWaitingForCustomerInteraction =>
            Processing::OngoingWaitingForCustomerInteraction,
    }
}

/// Whether a step is done, as it is written.
pub fn evse_processing(value: Processing) -> EvseProcessing
    ensures { result ≡ rule.evse_processing value }
{
    match value {
        Processing::Finished => EvseProcessing::Finished,
        Processing::Ongoing => EvseProcessing::Ongoing,
        Processing::OngoingWaitingForCustomerInteraction =>
            EvseProcessing::OngoingWaitingForCustomerInteraction,
    }
}

/// What PowerDelivery asks for.
pub fn progress_of(value: ChargeProgress) -> Progress
    ensures { result ≡ rule.progress_of value }
{
    match value {
        ChargeProgress::Start => Progress::Start,
        ChargeProgress::Stop => Progress::Stop,
        ChargeProgress::Renegotiate => Progress::Renegotiate,
    }
}

/// What PowerDelivery asks for, as it is written.
pub fn charge_progress(value: Progress) -> ChargeProgress
    ensures { result ≡ rule.charge_progress value }
{
    match value {
        Progress::Start => ChargeProgress::Start,
        Progress::Stop => ChargeProgress::Stop,
        Progress::Renegotiate => ChargeProgress::Renegotiate,
    }
}

/// Whether a payment is external.
pub fn is_external(value: PaymentOption) -> bool
    ensures { result ≡ rule.is_external value }
{
    matches!(value, PaymentOption::ExternalPayment)
}

/// A payment as it is written.
pub fn payment_option(value: bool) -> PaymentOption
    ensures { result ≡ rule.payment_option value }
{
    if value {
        PaymentOption::ExternalPayment
    } else {
        PaymentOption::Contract
    }
}

/// Whether a session is paused.
pub fn is_pause(value: ChargingSession) -> bool
    ensures { result ≡ rule.is_pause value }
{
    matches!(value, ChargingSession::Pause)
}

/// How a session ends, as it is written.
pub fn charging_session(value: bool) -> ChargingSession
    ensures { result ≡ rule.charging_session value }
{
    if value {
        ChargingSession::Pause
    } else {
        ChargingSession::Terminate
    }
}
