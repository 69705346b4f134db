//! How energy goes into the car, as words have it and as DIN SPEC 70121:2014 writes it (EVRequestedEnergyTransferType,
//! EVSESupportedEnergyTransferType).

ghost use Rattle.std.specs.Prelude.{◌≡◌};
ghost use Rattle.din_values.specs.Modes as rule;

use din_parts::{EnergyTransferMode, SupportedEnergyTransferType};
use session_words::{Mode, OfferedMode};

/// The mode that a car asks for.
pub fn mode_of(value: EnergyTransferMode) -> Mode
    ensures { result ≡ rule.mode_of value }
{
    match value {
        EnergyTransferMode::AcSinglePhaseCore => Mode::AcSinglePhaseCore,
        EnergyTransferMode::AcThreePhaseCore => Mode::AcThreePhaseCore,
        EnergyTransferMode::DcCore => Mode::DcCore,
        EnergyTransferMode::DcExtended => Mode::DcExtended,
        EnergyTransferMode::DcComboCore => Mode::DcComboCore,
        EnergyTransferMode::DcUnique => Mode::DcUnique,
    }
}

/// The mode that a car asks for, as it is written.
pub fn energy_transfer_mode(value: Mode) -> EnergyTransferMode
    ensures { result ≡ rule.energy_transfer_mode value }
{
    match value {
        Mode::AcSinglePhaseCore => EnergyTransferMode::AcSinglePhaseCore,
        Mode::AcThreePhaseCore => EnergyTransferMode::AcThreePhaseCore,
        Mode::DcCore => EnergyTransferMode::DcCore,
        Mode::DcExtended => EnergyTransferMode::DcExtended,
        Mode::DcComboCore => EnergyTransferMode::DcComboCore,
        Mode::DcUnique => EnergyTransferMode::DcUnique,
    }
}

/// A mode that a post offers.
pub fn offered_of(value: SupportedEnergyTransferType) -> OfferedMode
    ensures { result ≡ rule.offered_of value }
{
    match value {
        SupportedEnergyTransferType::AcSinglePhaseCore => OfferedMode::AcSinglePhaseCore,
        SupportedEnergyTransferType::AcThreePhaseCore => OfferedMode::AcThreePhaseCore,
        SupportedEnergyTransferType::DcCore => OfferedMode::DcCore,
        SupportedEnergyTransferType::DcExtended => OfferedMode::DcExtended,
        SupportedEnergyTransferType::DcComboCore => OfferedMode::DcComboCore,
        SupportedEnergyTransferType::DcDual => OfferedMode::DcDual,
        SupportedEnergyTransferType::AcCore1pDcExtended => OfferedMode::AcCore1pDcExtended,
        SupportedEnergyTransferType::AcSingleDcCore => OfferedMode::AcSingleDcCore,
        SupportedEnergyTransferType::AcSinglePhaseThreePhaseCoreDcExtended =>
            OfferedMode::AcSinglePhaseThreePhaseCoreDcExtended,
        SupportedEnergyTransferType::AcCore3pDcExtended => OfferedMode::AcCore3pDcExtended,
    }
}

/// A mode that a post offers, as it is written. DIN has no name for the one of ISO alone.
pub fn offered_mode(value: OfferedMode) -> SupportedEnergyTransferType
    ensures { result ≡ rule.offered_mode value }
{
    match value {
        OfferedMode::AcSinglePhaseCore => SupportedEnergyTransferType::AcSinglePhaseCore,
        OfferedMode::AcThreePhaseCore => SupportedEnergyTransferType::AcThreePhaseCore,
        OfferedMode::DcCore => SupportedEnergyTransferType::DcCore,
        OfferedMode::DcExtended => SupportedEnergyTransferType::DcExtended,
        OfferedMode::DcComboCore => SupportedEnergyTransferType::DcComboCore,
        OfferedMode::DcDual => SupportedEnergyTransferType::DcDual,
        OfferedMode::AcCore1pDcExtended => SupportedEnergyTransferType::AcCore1pDcExtended,
        OfferedMode::AcSingleDcCore => SupportedEnergyTransferType::AcSingleDcCore,
        OfferedMode::AcSinglePhaseThreePhaseCoreDcExtended =>
            SupportedEnergyTransferType::AcSinglePhaseThreePhaseCoreDcExtended,
        OfferedMode::AcCore3pDcExtended => SupportedEnergyTransferType::AcCore3pDcExtended,
        OfferedMode::DcUnique => SupportedEnergyTransferType::DcExtended,
    }
}
