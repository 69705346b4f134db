//! Enumerations of the messages of ISO 15118-2.

ghost use Rattle.exi_documents.specs.Trees.{Ordinal};
ghost use Rattle.message_fields.specs.Values.{is_named};

use message_fields::message_parts::Simple;
use message_fields::message_parts::exi_events::Value;

/// ResponseCode, its values in order from 0.
#[derive(Clone, Copy, Default)]
pub enum ResponseCode {
    /// OK.
    #[default]
    Ok,
    /// OK_NewSessionEstablished.
    OkNewSessionEstablished,
    /// OK_OldSessionJoined.
    OkOldSessionJoined,
    /// OK_CertificateExpiresSoon.
    OkCertificateExpiresSoon,
    /// FAILED.
    Failed,
    /// FAILED_SequenceError.
    FailedSequenceError,
    /// FAILED_ServiceIDInvalid.
    FailedServiceIdInvalid,
    /// FAILED_UnknownSession.
    FailedUnknownSession,
    /// FAILED_ServiceSelectionInvalid.
    FailedServiceSelectionInvalid,
    /// FAILED_PaymentSelectionInvalid.
    FailedPaymentSelectionInvalid,
    /// FAILED_CertificateExpired.
    FailedCertificateExpired,
    /// FAILED_SignatureError.
    FailedSignatureError,
    /// FAILED_NoCertificateAvailable.
    FailedNoCertificateAvailable,
    /// FAILED_CertChainError.
    FailedCertChainError,
    /// FAILED_ChallengeInvalid.
    FailedChallengeInvalid,
    /// FAILED_ContractCanceled.
    FailedContractCanceled,
    /// FAILED_WrongChargeParameter.
    FailedWrongChargeParameter,
    /// FAILED_PowerDeliveryNotApplied.
    FailedPowerDeliveryNotApplied,
    /// FAILED_TariffSelectionInvalid.
    FailedTariffSelectionInvalid,
    /// FAILED_ChargingProfileInvalid.
    FailedChargingProfileInvalid,
    /// FAILED_MeteringSignatureNotValid.
    FailedMeteringSignatureNotValid,
    /// FAILED_NoChargeServiceSelected.
    FailedNoChargeServiceSelected,
    /// FAILED_WrongEnergyTransferMode.
    FailedWrongEnergyTransferMode,
    /// FAILED_ContactorError.
    FailedContactorError,
    /// FAILED_CertificateNotAllowedAtThisEVSE.
    FailedCertificateNotAllowedAtThisEvse,
    /// FAILED_CertificateRevoked.
    FailedCertificateRevoked,
}

impl<'a> Simple<'a> for ResponseCode {
    ghost use Rattle.iso_parts.specs.Codes.{response_code_ordinal};

    ghost takes = { is_named 26 };

    ghost value = { λ x. Ordinal (response_code_ordinal x) };

    fn as_value(&self) -> Value<'_> {
        Value::Ordinal(match self {
            ResponseCode::Ok => 0,
            ResponseCode::OkNewSessionEstablished => 1,
            ResponseCode::OkOldSessionJoined => 2,
            ResponseCode::OkCertificateExpiresSoon => 3,
            ResponseCode::Failed => 4,
            ResponseCode::FailedSequenceError => 5,
            ResponseCode::FailedServiceIdInvalid => 6,
            ResponseCode::FailedUnknownSession => 7,
            ResponseCode::FailedServiceSelectionInvalid => 8,
            ResponseCode::FailedPaymentSelectionInvalid => 9,
            ResponseCode::FailedCertificateExpired => 10,
            ResponseCode::FailedSignatureError => 11,
            ResponseCode::FailedNoCertificateAvailable => 12,
            ResponseCode::FailedCertChainError => 13,
            ResponseCode::FailedChallengeInvalid => 14,
            ResponseCode::FailedContractCanceled => 15,
            ResponseCode::FailedWrongChargeParameter => 16,
            ResponseCode::FailedPowerDeliveryNotApplied => 17,
            ResponseCode::FailedTariffSelectionInvalid => 18,
            ResponseCode::FailedChargingProfileInvalid => 19,
            ResponseCode::FailedMeteringSignatureNotValid => 20,
            ResponseCode::FailedNoChargeServiceSelected => 21,
            ResponseCode::FailedWrongEnergyTransferMode => 22,
            ResponseCode::FailedContactorError => 23,
            ResponseCode::FailedCertificateNotAllowedAtThisEvse => 24,
            ResponseCode::FailedCertificateRevoked => 25,
        })
    }

    fn of(read: Value<'a>) -> ResponseCode {
        match read {
            Value::Ordinal(0) => ResponseCode::Ok,
            Value::Ordinal(1) => ResponseCode::OkNewSessionEstablished,
            Value::Ordinal(2) => ResponseCode::OkOldSessionJoined,
            Value::Ordinal(3) => ResponseCode::OkCertificateExpiresSoon,
            Value::Ordinal(4) => ResponseCode::Failed,
            Value::Ordinal(5) => ResponseCode::FailedSequenceError,
            Value::Ordinal(6) => ResponseCode::FailedServiceIdInvalid,
            Value::Ordinal(7) => ResponseCode::FailedUnknownSession,
            Value::Ordinal(8) => ResponseCode::FailedServiceSelectionInvalid,
            Value::Ordinal(9) => ResponseCode::FailedPaymentSelectionInvalid,
            Value::Ordinal(10) => ResponseCode::FailedCertificateExpired,
            Value::Ordinal(11) => ResponseCode::FailedSignatureError,
            Value::Ordinal(12) => ResponseCode::FailedNoCertificateAvailable,
            Value::Ordinal(13) => ResponseCode::FailedCertChainError,
            Value::Ordinal(14) => ResponseCode::FailedChallengeInvalid,
            Value::Ordinal(15) => ResponseCode::FailedContractCanceled,
            Value::Ordinal(16) => ResponseCode::FailedWrongChargeParameter,
            Value::Ordinal(17) => ResponseCode::FailedPowerDeliveryNotApplied,
            Value::Ordinal(18) => ResponseCode::FailedTariffSelectionInvalid,
            Value::Ordinal(19) => ResponseCode::FailedChargingProfileInvalid,
            Value::Ordinal(20) => ResponseCode::FailedMeteringSignatureNotValid,
            Value::Ordinal(21) => ResponseCode::FailedNoChargeServiceSelected,
            Value::Ordinal(22) => ResponseCode::FailedWrongEnergyTransferMode,
            Value::Ordinal(23) => ResponseCode::FailedContactorError,
            Value::Ordinal(24) => ResponseCode::FailedCertificateNotAllowedAtThisEvse,
            _ => ResponseCode::FailedCertificateRevoked,
        }
    }
}

/// ServiceCategory, its values in order from 0.
#[derive(Clone, Copy, Default)]
pub enum ServiceCategory {
    /// EVCharging.
    #[default]
    EvCharging,
    /// Internet.
    Internet,
    /// ContractCertificate.
    ContractCertificate,
    /// OtherCustom.
    OtherCustom,
}

impl<'a> Simple<'a> for ServiceCategory {
    ghost use Rattle.iso_parts.specs.Codes.{service_category_ordinal};

    ghost takes = { is_named 4 };

    ghost value = { λ x. Ordinal (service_category_ordinal x) };

    fn as_value(&self) -> Value<'_> {
        Value::Ordinal(match self {
            ServiceCategory::EvCharging => 0,
            ServiceCategory::Internet => 1,
            ServiceCategory::ContractCertificate => 2,
            ServiceCategory::OtherCustom => 3,
        })
    }

    fn of(read: Value<'a>) -> ServiceCategory {
        match read {
            Value::Ordinal(0) => ServiceCategory::EvCharging,
            Value::Ordinal(1) => ServiceCategory::Internet,
            Value::Ordinal(2) => ServiceCategory::ContractCertificate,
            _ => ServiceCategory::OtherCustom,
        }
    }
}

/// PaymentOption, its values in order from 0.
#[derive(Clone, Copy, Default)]
pub enum PaymentOption {
    /// Contract.
    #[default]
    Contract,
    /// ExternalPayment.
    ExternalPayment,
}

impl<'a> Simple<'a> for PaymentOption {
    ghost use Rattle.iso_parts.specs.Codes.{payment_option_ordinal};

    ghost takes = { is_named 2 };

    ghost value = { λ x. Ordinal (payment_option_ordinal x) };

    fn as_value(&self) -> Value<'_> {
        Value::Ordinal(match self {
            PaymentOption::Contract => 0,
            PaymentOption::ExternalPayment => 1,
        })
    }

    fn of(read: Value<'a>) -> PaymentOption {
        match read {
            Value::Ordinal(0) => PaymentOption::Contract,
            _ => PaymentOption::ExternalPayment,
        }
    }
}

/// EnergyTransferMode, its values in order from 0.
#[derive(Clone, Copy, Default)]
pub enum EnergyTransferMode {
    /// AC_single_phase_core.
    #[default]
    AcSinglePhaseCore,
    /// AC_three_phase_core.
    AcThreePhaseCore,
    /// DC_core.
    DcCore,
    /// DC_extended.
    DcExtended,
    /// DC_combo_core.
    DcComboCore,
    /// DC_unique.
    DcUnique,
}

impl<'a> Simple<'a> for EnergyTransferMode {
    ghost use Rattle.iso_parts.specs.Codes.{energy_transfer_mode_ordinal};

    ghost takes = { is_named 6 };

    ghost value = { λ x. Ordinal (energy_transfer_mode_ordinal x) };

    fn as_value(&self) -> Value<'_> {
        Value::Ordinal(match self {
            EnergyTransferMode::AcSinglePhaseCore => 0,
            EnergyTransferMode::AcThreePhaseCore => 1,
            EnergyTransferMode::DcCore => 2,
            EnergyTransferMode::DcExtended => 3,
            EnergyTransferMode::DcComboCore => 4,
            EnergyTransferMode::DcUnique => 5,
        })
    }

    fn of(read: Value<'a>) -> EnergyTransferMode {
        match read {
            Value::Ordinal(0) => EnergyTransferMode::AcSinglePhaseCore,
            Value::Ordinal(1) => EnergyTransferMode::AcThreePhaseCore,
            Value::Ordinal(2) => EnergyTransferMode::DcCore,
            Value::Ordinal(3) => EnergyTransferMode::DcExtended,
            Value::Ordinal(4) => EnergyTransferMode::DcComboCore,
            _ => EnergyTransferMode::DcUnique,
        }
    }
}

/// EVSEProcessing, its values in order from 0.
#[derive(Clone, Copy, Default)]
pub enum EvseProcessing {
    /// Finished.
    #[default]
    Finished,
    /// Ongoing.
    Ongoing,
    /// Ongoing_WaitingForCustomerInteraction.
    OngoingWaitingForCustomerInteraction,
}

impl<'a> Simple<'a> for EvseProcessing {
    ghost use Rattle.iso_parts.specs.Codes.{evse_processing_ordinal};

    ghost takes = { is_named 3 };

    ghost value = { λ x. Ordinal (evse_processing_ordinal x) };

    fn as_value(&self) -> Value<'_> {
        Value::Ordinal(match self {
            EvseProcessing::Finished => 0,
            EvseProcessing::Ongoing => 1,
            EvseProcessing::OngoingWaitingForCustomerInteraction => 2,
        })
    }

    fn of(read: Value<'a>) -> EvseProcessing {
        match read {
            Value::Ordinal(0) => EvseProcessing::Finished,
            Value::Ordinal(1) => EvseProcessing::Ongoing,
            _ => EvseProcessing::OngoingWaitingForCustomerInteraction,
        }
    }
}

/// ChargingSession, its values in order from 0.
#[derive(Clone, Copy)]
pub enum ChargingSession {
    /// Terminate.
    Terminate,
    /// Pause.
    Pause,
}

impl<'a> Simple<'a> for ChargingSession {
    ghost use Rattle.iso_parts.specs.Codes.{charging_session_ordinal};

    ghost takes = { is_named 2 };

    ghost value = { λ x. Ordinal (charging_session_ordinal x) };

    fn as_value(&self) -> Value<'_> {
        Value::Ordinal(match self {
            ChargingSession::Terminate => 0,
            ChargingSession::Pause => 1,
        })
    }

    fn of(read: Value<'a>) -> ChargingSession {
        match read {
            Value::Ordinal(0) => ChargingSession::Terminate,
            _ => ChargingSession::Pause,
        }
    }
}

/// ChargeProgress, its values in order from 0.
#[derive(Clone, Copy)]
pub enum ChargeProgress {
    /// Start.
    Start,
    /// Stop.
    Stop,
    /// Renegotiate.
    Renegotiate,
}

impl<'a> Simple<'a> for ChargeProgress {
    ghost use Rattle.iso_parts.specs.Codes.{charge_progress_ordinal};

    ghost takes = { is_named 3 };

    ghost value = { λ x. Ordinal (charge_progress_ordinal x) };

    fn as_value(&self) -> Value<'_> {
        Value::Ordinal(match self {
            ChargeProgress::Start => 0,
            ChargeProgress::Stop => 1,
            ChargeProgress::Renegotiate => 2,
        })
    }

    fn of(read: Value<'a>) -> ChargeProgress {
        match read {
            Value::Ordinal(0) => ChargeProgress::Start,
            Value::Ordinal(1) => ChargeProgress::Stop,
            _ => ChargeProgress::Renegotiate,
        }
    }
}
