//! The codes of replies, as words have them and as ISO 15118-2:2014 writes them (responseCodeType).

ghost use Rattle.std.specs.Prelude.{◌≡◌};
ghost use Rattle.iso_values.specs.Codes as rule;

use iso_parts::ResponseCode;
use session_words::Code;

/// The code of a reply.
pub fn code_of(value: ResponseCode) -> Code
    ensures { result ≡ rule.code_of value }
{
    match value {
        ResponseCode::Ok => Code::Ok,
        ResponseCode::OkNewSessionEstablished => Code::OkNewSessionEstablished,
        ResponseCode::OkOldSessionJoined => Code::OkOldSessionJoined,
        ResponseCode::OkCertificateExpiresSoon => Code::OkCertificateExpiresSoon,
        ResponseCode::Failed => Code::Failed,
        ResponseCode::FailedSequenceError => Code::FailedSequenceError,
        ResponseCode::FailedServiceIdInvalid => Code::FailedServiceIdInvalid,
        ResponseCode::FailedUnknownSession => Code::FailedUnknownSession,
        ResponseCode::FailedServiceSelectionInvalid => Code::FailedServiceSelectionInvalid,
        ResponseCode::FailedPaymentSelectionInvalid => Code::FailedPaymentSelectionInvalid,
        ResponseCode::FailedCertificateExpired => Code::FailedCertificateExpired,
        ResponseCode::FailedSignatureError => Code::FailedSignatureError,
        ResponseCode::FailedNoCertificateAvailable => Code::FailedNoCertificateAvailable,
        ResponseCode::FailedCertChainError => Code::FailedCertChainError,
        ResponseCode::FailedChallengeInvalid => Code::FailedChallengeInvalid,
        ResponseCode::FailedContractCanceled => Code::FailedContractCanceled,
        ResponseCode::FailedWrongChargeParameter => Code::FailedWrongChargeParameter,
        ResponseCode::FailedPowerDeliveryNotApplied => Code::FailedPowerDeliveryNotApplied,
        ResponseCode::FailedTariffSelectionInvalid => Code::FailedTariffSelectionInvalid,
        ResponseCode::FailedChargingProfileInvalid => Code::FailedChargingProfileInvalid,
        ResponseCode::FailedMeteringSignatureNotValid => Code::FailedMeteringSignatureNotValid,
        ResponseCode::FailedNoChargeServiceSelected => Code::FailedNoChargeServiceSelected,
        ResponseCode::FailedWrongEnergyTransferMode => Code::FailedWrongEnergyTransferMode,
        ResponseCode::FailedContactorError => Code::FailedContactorError,
        ResponseCode::FailedCertificateNotAllowedAtThisEvse =>
            Code::FailedCertificateNotAllowedAtThisEvse,
        ResponseCode::FailedCertificateRevoked => Code::FailedCertificateRevoked,
    }
}

/// The code of a reply as it is written. ISO has no name for the two codes of DIN alone.
pub fn response_code(value: Code) -> ResponseCode
    ensures { result ≡ rule.response_code value }
{
    match value {
        Code::Ok => ResponseCode::Ok,
        Code::OkNewSessionEstablished => ResponseCode::OkNewSessionEstablished,
        Code::OkOldSessionJoined => ResponseCode::OkOldSessionJoined,
        Code::OkCertificateExpiresSoon => ResponseCode::OkCertificateExpiresSoon,
        Code::Failed => ResponseCode::Failed,
        Code::FailedSequenceError => ResponseCode::FailedSequenceError,
        Code::FailedServiceIdInvalid => ResponseCode::FailedServiceIdInvalid,
        Code::FailedUnknownSession => ResponseCode::FailedUnknownSession,
        Code::FailedServiceSelectionInvalid => ResponseCode::FailedServiceSelectionInvalid,
        Code::FailedPaymentSelectionInvalid => ResponseCode::FailedPaymentSelectionInvalid,
        Code::FailedCertificateExpired => ResponseCode::FailedCertificateExpired,
        Code::FailedSignatureError => ResponseCode::FailedSignatureError,
        Code::FailedNoCertificateAvailable => ResponseCode::FailedNoCertificateAvailable,
        Code::FailedCertChainError => ResponseCode::FailedCertChainError,
        Code::FailedChallengeInvalid => ResponseCode::FailedChallengeInvalid,
        Code::FailedContractCanceled => ResponseCode::FailedContractCanceled,
        Code::FailedWrongChargeParameter => ResponseCode::FailedWrongChargeParameter,
        Code::FailedPowerDeliveryNotApplied => ResponseCode::FailedPowerDeliveryNotApplied,
        Code::FailedTariffSelectionInvalid => ResponseCode::FailedTariffSelectionInvalid,
        Code::FailedChargingProfileInvalid => ResponseCode::FailedChargingProfileInvalid,
        Code::FailedMeteringSignatureNotValid => ResponseCode::FailedMeteringSignatureNotValid,
        Code::FailedNoChargeServiceSelected => ResponseCode::FailedNoChargeServiceSelected,
        Code::FailedWrongEnergyTransferMode => ResponseCode::FailedWrongEnergyTransferMode,
        Code::FailedContactorError => ResponseCode::FailedContactorError,
        Code::FailedCertificateNotAllowedAtThisEvse =>
            ResponseCode::FailedCertificateNotAllowedAtThisEvse,
        Code::FailedCertificateRevoked => ResponseCode::FailedCertificateRevoked,
        Code::FailedEvsePresentVoltageToLow => ResponseCode::Failed,
        Code::FailedWrongEnergyTransferType => ResponseCode::Failed,
    }
}
