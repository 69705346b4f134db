//! What a reply answers, and what it tells of its post.

ghost use Rattle.std.specs.Prelude.{◌↔◌, IsTrue};
ghost use Rattle.session_words.specs.Codes.{IsOkClass};

/// The response codes of ISO 15118-2:2014 (responseCodeType) and of DIN SPEC 70121:2014, each once.
#[derive(Clone, Copy, PartialEq, Eq)]
pub enum Code {
    Ok,
    OkNewSessionEstablished,
    OkOldSessionJoined,
    OkCertificateExpiresSoon,
    Failed,
    FailedSequenceError,
    FailedServiceIdInvalid,
    FailedUnknownSession,
    FailedServiceSelectionInvalid,
    FailedPaymentSelectionInvalid,
    FailedCertificateExpired,
    FailedSignatureError,
    FailedNoCertificateAvailable,
    FailedCertChainError,
    FailedChallengeInvalid,
    FailedContractCanceled,
    FailedWrongChargeParameter,
    FailedPowerDeliveryNotApplied,
    FailedTariffSelectionInvalid,
    FailedChargingProfileInvalid,
    FailedMeteringSignatureNotValid,
    FailedNoChargeServiceSelected,
    FailedWrongEnergyTransferMode,
    FailedContactorError,
    FailedCertificateNotAllowedAtThisEvse,
    FailedCertificateRevoked,
    /// DIN alone.
    FailedEvsePresentVoltageToLow,
    /// DIN alone.
    FailedWrongEnergyTransferType,
}

impl Code {
    /// Whether the request was accepted: the code is one of the four whose name begins with OK.
    pub fn is_ok(&self) -> bool
        ensures { IsTrue result ↔ IsOkClass self.now }
    {
        matches!(
            self,
            Code::Ok
                | Code::OkNewSessionEstablished
                | Code::OkOldSessionJoined
                | Code::OkCertificateExpiresSoon
        )
    }
}

/// What a DC post tells of itself (DC_EVSEStatusCodeType).
#[derive(Clone, Copy, PartialEq, Eq)]
pub enum StatusCode {
    EvseNotReady,
    EvseReady,
    EvseShutdown,
    EvseUtilityInterruptEvent,
    EvseIsolationMonitoringActive,
    EvseEmergencyShutdown,
    EvseMalfunction,
    Reserved8,
    Reserved9,
    ReservedA,
    ReservedB,
    ReservedC,
}

/// What the post asks of the car (EVSENotificationType).
#[derive(Clone, Copy, PartialEq, Eq)]
pub enum Notify {
    None,
    StopCharging,
    ReNegotiation,
}

/// Whether a step is done (EVSEProcessingType). `OngoingWaitingForCustomerInteraction` is ISO's alone.
#[derive(Clone, Copy, PartialEq, Eq)]
pub enum Processing {
    Finished,
    Ongoing,
    OngoingWaitingForCustomerInteraction,
}

/// What PowerDelivery asks for (chargeProgressType). In DIN, ReadyToChargeState is `Start` or `Stop`.
#[derive(Clone, Copy)]
pub enum Progress {
    Start,
    Stop,
    Renegotiate,
}
