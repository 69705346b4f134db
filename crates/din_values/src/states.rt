//! Enumerations of statuses and steps, as words have them and as DIN SPEC 70121:2014 writes them.

ghost use Rattle.std.specs.Prelude.{◌≡◌};
ghost use Rattle.din_values.specs.States as rule;

use charge_world::IsolationLevel;
use din_parts::{
    EvseNotification, EvseProcessing, EvseStatusCode, IsolationLevel as DinLevel, PaymentOption,
};
use session_words::{Notify, Processing, StatusCode};

/// A state of the isolation.
pub fn isolation_of(value: DinLevel) -> IsolationLevel
    ensures { result ≡ rule.isolation_of value }
{
    match value {
        DinLevel::Invalid => IsolationLevel::Invalid,
        DinLevel::Valid => IsolationLevel::Valid,
        DinLevel::Warning => IsolationLevel::Warning,
        DinLevel::Fault => IsolationLevel::Fault,
    }
}

/// A state of the isolation as it is written. DIN has no name for a post without a monitor, which is written as an invalid one.
pub fn isolation_level(value: IsolationLevel) -> DinLevel
    ensures { result ≡ rule.isolation_level value }
{
    match value {
        IsolationLevel::Invalid => DinLevel::Invalid,
        IsolationLevel::Valid => DinLevel::Valid,
        IsolationLevel::Warning => DinLevel::Warning,
        IsolationLevel::Fault => DinLevel::Fault,
        IsolationLevel::NoImd => DinLevel::Invalid,
    }
}

/// The code of a status.
pub fn status_code_of(value: EvseStatusCode) -> StatusCode
    ensures { result ≡ rule.status_code_of value }
{
    match value {
        EvseStatusCode::EvseNotReady => StatusCode::EvseNotReady,
        EvseStatusCode::EvseReady => StatusCode::EvseReady,
        EvseStatusCode::EvseShutdown => StatusCode::EvseShutdown,
        EvseStatusCode::EvseUtilityInterruptEvent => StatusCode::EvseUtilityInterruptEvent,
        EvseStatusCode::EvseIsolationMonitoringActive => StatusCode::EvseIsolationMonitoringActive,
        EvseStatusCode::EvseEmergencyShutdown => StatusCode::EvseEmergencyShutdown,
        EvseStatusCode::EvseMalfunction => StatusCode::EvseMalfunction,
        EvseStatusCode::Reserved8 => StatusCode::Reserved8,
        EvseStatusCode::Reserved9 => StatusCode::Reserved9,
        EvseStatusCode::ReservedA => StatusCode::ReservedA,
        EvseStatusCode::ReservedB => StatusCode::ReservedB,
        EvseStatusCode::ReservedC => StatusCode::ReservedC,
    }
}

/// The code of a status as it is written.
pub fn evse_status_code(value: StatusCode) -> EvseStatusCode
    ensures { result ≡ rule.evse_status_code value }
{
    match value {
        StatusCode::EvseNotReady => EvseStatusCode::EvseNotReady,
        StatusCode::EvseReady => EvseStatusCode::EvseReady,
        StatusCode::EvseShutdown => EvseStatusCode::EvseShutdown,
        StatusCode::EvseUtilityInterruptEvent => EvseStatusCode::EvseUtilityInterruptEvent,
        StatusCode::EvseIsolationMonitoringActive => EvseStatusCode::EvseIsolationMonitoringActive,
        StatusCode::EvseEmergencyShutdown => EvseStatusCode::EvseEmergencyShutdown,
        StatusCode::EvseMalfunction => EvseStatusCode::EvseMalfunction,
        StatusCode::Reserved8 => EvseStatusCode::Reserved8,
        StatusCode::Reserved9 => EvseStatusCode::Reserved9,
        StatusCode::ReservedA => EvseStatusCode::ReservedA,
        StatusCode::ReservedB => EvseStatusCode::ReservedB,
        StatusCode::ReservedC => EvseStatusCode::ReservedC,
    }
}

/// What a post asks of the car.
pub fn notify_of(value: EvseNotification) -> Notify
    ensures { result ≡ rule.notify_of value }
{
    match value {
        EvseNotification::None => Notify::None,
        EvseNotification::StopCharging => Notify::StopCharging,
        EvseNotification::ReNegotiation => Notify::ReNegotiation,
    }
}

/// What a post asks of the car, as it is written.
pub fn evse_notification(value: Notify) -> EvseNotification
    ensures { result ≡ rule.evse_notification value }
{
    match value {
        Notify::None => EvseNotification::None,
        Notify::StopCharging => EvseNotification::StopCharging,
        Notify::ReNegotiation => EvseNotification::ReNegotiation,
    }
}

/// Whether a step is done.
pub fn processing_of(value: EvseProcessing) -> Processing
    ensures { result ≡ rule.processing_of value }
{
    match value {
        EvseProcessing::Finished => Processing::Finished,
        EvseProcessing::Ongoing => Processing::Ongoing,
    }
}

/// Whether a step is done, as it is written. DIN doesn't say what a step waits for.
pub fn evse_processing(value: Processing) -> EvseProcessing
    ensures { result ≡ rule.evse_processing value }
{
    match value {
        Processing::Finished => EvseProcessing::Finished,
        Processing::Ongoing => EvseProcessing::Ongoing,
        Processing::OngoingWaitingForCustomerInteraction => EvseProcessing::Ongoing,
    }
}

/// Whether a payment is external.
pub fn is_external(value: PaymentOption) -> bool
    ensures { result ≡ rule.is_external value }
{
    matches!(value, PaymentOption::ExternalPayment)
}

/// A payment as it is written.
pub fn payment_option(value: bool) -> PaymentOption
    ensures { result ≡ rule.payment_option value }
{
    if value {
        PaymentOption::ExternalPayment
    } else {
        PaymentOption::Contract
    }
}
