//! Enumerations of the messages of DIN SPEC 70121.

ghost use Rattle.exi_documents.specs.Trees.{Ordinal};
ghost use Rattle.message_fields.specs.Values.{is_named};

use message_fields::message_parts::Simple;
use message_fields::message_parts::exi_events::Value;

/// FaultCode, its values in order from 0.
#[derive(Clone, Copy)]
pub enum FaultCode {
    /// ParsingError.
    ParsingError,
    /// NoTLSRootCertificatAvailable.
    NoTlsRootCertificatAvailable,
    /// UnknownError.
    UnknownError,
}

impl<'a> Simple<'a> for FaultCode {
    ghost use Rattle.din_parts.specs.Enumerations.{fault_code_ordinal};

    ghost takes = { is_named 3 };

    ghost value = { λ x. Ordinal (fault_code_ordinal x) };

    fn as_value(&self) -> Value<'_> {
        Value::Ordinal(match self {
            FaultCode::ParsingError => 0,
            FaultCode::NoTlsRootCertificatAvailable => 1,
            FaultCode::UnknownError => 2,
        })
    }

    fn of(read: Value<'a>) -> FaultCode {
        match read {
            Value::Ordinal(0) => FaultCode::ParsingError,
            Value::Ordinal(1) => FaultCode::NoTlsRootCertificatAvailable,
            _ => FaultCode::UnknownError,
        }
    }
}

/// UnitSymbol, its values in order from 0.
#[derive(Clone, Copy)]
pub enum UnitSymbol {
    /// h.
    H,
    /// m.
    M,
    /// s.
    S,
    /// A.
    A,
    /// Ah.
    Ah,
    /// V.
    V,
    /// VA.
    Va,
    /// W.
    W,
    /// W_s.
    WS,
    /// Wh.
    Wh,
}

impl<'a> Simple<'a> for UnitSymbol {
    ghost use Rattle.din_parts.specs.Enumerations.{unit_symbol_ordinal};

    ghost takes = { is_named 10 };

    ghost value = { λ x. Ordinal (unit_symbol_ordinal x) };

    fn as_value(&self) -> Value<'_> {
        Value::Ordinal(match self {
            UnitSymbol::H => 0,
            UnitSymbol::M => 1,
            UnitSymbol::S => 2,
            UnitSymbol::A => 3,
            UnitSymbol::Ah => 4,
            UnitSymbol::V => 5,
            UnitSymbol::Va => 6,
            UnitSymbol::W => 7,
            UnitSymbol::WS => 8,
            UnitSymbol::Wh => 9,
        })
    }

    fn of(read: Value<'a>) -> UnitSymbol {
        match read {
            Value::Ordinal(0) => UnitSymbol::H,
            Value::Ordinal(1) => UnitSymbol::M,
            Value::Ordinal(2) => UnitSymbol::S,
            Value::Ordinal(3) => UnitSymbol::A,
            Value::Ordinal(4) => UnitSymbol::Ah,
            Value::Ordinal(5) => UnitSymbol::V,
            Value::Ordinal(6) => UnitSymbol::Va,
            Value::Ordinal(7) => UnitSymbol::W,
            Value::Ordinal(8) => UnitSymbol::WS,
            _ => UnitSymbol::Wh,
        }
    }
}

/// EVErrorCode, its values in order from 0.
#[derive(Clone, Copy)]
pub enum EvErrorCode {
    /// NO_ERROR.
    NoError,
    /// FAILED_RESSTemperatureInhibit.
    FailedRessTemperatureInhibit,
    /// FAILED_EVShiftPosition.
    FailedEvShiftPosition,
    /// FAILED_ChargerConnectorLockFault.
    FailedChargerConnectorLockFault,
    /// FAILED_EVRESSMalfunction.
    FailedEvressMalfunction,
    /// FAILED_ChargingCurrentdifferential.
    FailedChargingCurrentdifferential,
    /// FAILED_ChargingVoltageOutOfRange.
    FailedChargingVoltageOutOfRange,
    /// Reserved_A.
    ReservedA,
    /// Reserved_B.
    ReservedB,
    /// Reserved_C.
    ReservedC,
    /// FAILED_ChargingSystemIncompatibility.
    FailedChargingSystemIncompatibility,
    /// NoData.
    NoData,
}

impl<'a> Simple<'a> for EvErrorCode {
    ghost use Rattle.din_parts.specs.Enumerations.{ev_error_code_ordinal};

    ghost takes = { is_named 12 };

    ghost value = { λ x. Ordinal (ev_error_code_ordinal x) };

    fn as_value(&self) -> Value<'_> {
        Value::Ordinal(match self {
            EvErrorCode::NoError => 0,
            EvErrorCode::FailedRessTemperatureInhibit => 1,
            EvErrorCode::FailedEvShiftPosition => 2,
            EvErrorCode::FailedChargerConnectorLockFault => 3,
            EvErrorCode::FailedEvressMalfunction => 4,
            EvErrorCode::FailedChargingCurrentdifferential => 5,
            EvErrorCode::FailedChargingVoltageOutOfRange => 6,
            EvErrorCode::ReservedA => 7,
            EvErrorCode::ReservedB => 8,
            EvErrorCode::ReservedC => 9,
            EvErrorCode::FailedChargingSystemIncompatibility => 10,
            EvErrorCode::NoData => 11,
        })
    }

    fn of(read: Value<'a>) -> EvErrorCode {
        match read {
            Value::Ordinal(0) => EvErrorCode::NoError,
            Value::Ordinal(1) => EvErrorCode::FailedRessTemperatureInhibit,
            Value::Ordinal(2) => EvErrorCode::FailedEvShiftPosition,
            Value::Ordinal(3) => EvErrorCode::FailedChargerConnectorLockFault,
            Value::Ordinal(4) => EvErrorCode::FailedEvressMalfunction,
            Value::Ordinal(5) => EvErrorCode::FailedChargingCurrentdifferential,
            Value::Ordinal(6) => EvErrorCode::FailedChargingVoltageOutOfRange,
            Value::Ordinal(7) => EvErrorCode::ReservedA,
            Value::Ordinal(8) => EvErrorCode::ReservedB,
            Value::Ordinal(9) => EvErrorCode::ReservedC,
            Value::Ordinal(10) => EvErrorCode::FailedChargingSystemIncompatibility,
            _ => EvErrorCode::NoData,
        }
    }
}

/// EVSENotification, its values in order from 0.
#[derive(Clone, Copy, Default)]
pub enum EvseNotification {
    /// None.
    #[default]
    None,
    /// StopCharging.
    StopCharging,
    /// ReNegotiation.
    ReNegotiation,
}

impl<'a> Simple<'a> for EvseNotification {
    ghost use Rattle.din_parts.specs.Enumerations.{evse_notification_ordinal};

    ghost takes = { is_named 3 };

    ghost value = { λ x. Ordinal (evse_notification_ordinal x) };

    fn as_value(&self) -> Value<'_> {
        Value::Ordinal(match self {
            EvseNotification::None => 0,
            EvseNotification::StopCharging => 1,
            EvseNotification::ReNegotiation => 2,
        })
    }

    fn of(read: Value<'a>) -> EvseNotification {
        match read {
            Value::Ordinal(0) => EvseNotification::None,
            Value::Ordinal(1) => EvseNotification::StopCharging,
            _ => EvseNotification::ReNegotiation,
        }
    }
}

/// IsolationLevel, its values in order from 0.
#[derive(Clone, Copy)]
pub enum IsolationLevel {
    /// Invalid.
    Invalid,
    /// Valid.
    Valid,
    /// Warning.
    Warning,
    /// Fault.
    Fault,
}

impl<'a> Simple<'a> for IsolationLevel {
    ghost use Rattle.din_parts.specs.Enumerations.{isolation_level_ordinal};

    ghost takes = { is_named 4 };

    ghost value = { λ x. Ordinal (isolation_level_ordinal x) };

    fn as_value(&self) -> Value<'_> {
        Value::Ordinal(match self {
            IsolationLevel::Invalid => 0,
            IsolationLevel::Valid => 1,
            IsolationLevel::Warning => 2,
            IsolationLevel::Fault => 3,
        })
    }

    fn of(read: Value<'a>) -> IsolationLevel {
        match read {
            Value::Ordinal(0) => IsolationLevel::Invalid,
            Value::Ordinal(1) => IsolationLevel::Valid,
            Value::Ordinal(2) => IsolationLevel::Warning,
            _ => IsolationLevel::Fault,
        }
    }
}

/// EVSEStatusCode, its values in order from 0.
#[derive(Clone, Copy, Default)]
pub enum EvseStatusCode {
    /// EVSE_NotReady.
    #[default]
    EvseNotReady,
    /// EVSE_Ready.
    EvseReady,
    /// EVSE_Shutdown.
    EvseShutdown,
    /// EVSE_UtilityInterruptEvent.
    EvseUtilityInterruptEvent,
    /// EVSE_IsolationMonitoringActive.
    EvseIsolationMonitoringActive,
    /// EVSE_EmergencyShutdown.
    EvseEmergencyShutdown,
    /// EVSE_Malfunction.
    EvseMalfunction,
    /// Reserved_8.
    Reserved8,
    /// Reserved_9.
    Reserved9,
    /// Reserved_A.
    ReservedA,
    /// Reserved_B.
    ReservedB,
    /// Reserved_C.
    ReservedC,
}

impl<'a> Simple<'a> for EvseStatusCode {
    ghost use Rattle.din_parts.specs.Enumerations.{evse_status_code_ordinal};

    ghost takes = { is_named 12 };

    ghost value = { λ x. Ordinal (evse_status_code_ordinal x) };

    fn as_value(&self) -> Value<'_> {
        Value::Ordinal(match self {
            EvseStatusCode::EvseNotReady => 0,
            EvseStatusCode::EvseReady => 1,
            EvseStatusCode::EvseShutdown => 2,
            EvseStatusCode::EvseUtilityInterruptEvent => 3,
            EvseStatusCode::EvseIsolationMonitoringActive => 4,
            EvseStatusCode::EvseEmergencyShutdown => 5,
            EvseStatusCode::EvseMalfunction => 6,
            EvseStatusCode::Reserved8 => 7,
            EvseStatusCode::Reserved9 => 8,
            EvseStatusCode::ReservedA => 9,
            EvseStatusCode::ReservedB => 10,
            EvseStatusCode::ReservedC => 11,
        })
    }

    fn of(read: Value<'a>) -> EvseStatusCode {
        match read {
            Value::Ordinal(0) => EvseStatusCode::EvseNotReady,
            Value::Ordinal(1) => EvseStatusCode::EvseReady,
            Value::Ordinal(2) => EvseStatusCode::EvseShutdown,
            Value::Ordinal(3) => EvseStatusCode::EvseUtilityInterruptEvent,
            Value::Ordinal(4) => EvseStatusCode::EvseIsolationMonitoringActive,
            Value::Ordinal(5) => EvseStatusCode::EvseEmergencyShutdown,
            Value::Ordinal(6) => EvseStatusCode::EvseMalfunction,
            Value::Ordinal(7) => EvseStatusCode::Reserved8,
            Value::Ordinal(8) => EvseStatusCode::Reserved9,
            Value::Ordinal(9) => EvseStatusCode::ReservedA,
            Value::Ordinal(10) => EvseStatusCode::ReservedB,
            _ => EvseStatusCode::ReservedC,
        }
    }
}
