//! How energy goes into the car, as words have it and as ISO 15118-2:2014 writes it (EnergyTransferModeType).

ghost use Rattle.std.specs.Prelude.{◌≡◌};
ghost use Rattle.iso_values.specs.Modes as rule;

use iso_parts::EnergyTransferMode;
use session_words::{Mode, OfferedMode};

/// The mode that a car asks for.
pub fn mode_of(value: EnergyTransferMode) -> Mode
    ensures { result ≡ rule.mode_of value }
{
    match value {
        EnergyTransferMode::AcSinglePhaseCore => Mode::AcSinglePhaseCore,
        EnergyTransferMode::AcThreePhaseCore => Mode::AcThreePhaseCore,
        EnergyTransferMode::DcCore => Mode::DcCore,
        EnergyTransferMode::DcExtended => Mode::DcExtended,
        EnergyTransferMode::DcComboCore => Mode::DcComboCore,
        EnergyTransferMode::DcUnique => Mode::DcUnique,
    }
}

/// The mode that a car asks for, as it is written.
pub fn energy_transfer_mode(value: Mode) -> EnergyTransferMode
    ensures { result ≡ rule.energy_transfer_mode value }
{
    match value {
        Mode::AcSinglePhaseCore => EnergyTransferMode::AcSinglePhaseCore,
        Mode::AcThreePhaseCore => EnergyTransferMode::AcThreePhaseCore,
        Mode::DcCore => EnergyTransferMode::DcCore,
        Mode::DcExtended => EnergyTransferMode::DcExtended,
        Mode::DcComboCore => EnergyTransferMode::DcComboCore,
        Mode::DcUnique => EnergyTransferMode::DcUnique,
    }
}

/// A mode that a post offers.
pub fn offered_of(value: EnergyTransferMode) -> OfferedMode
    ensures { result ≡ rule.offered_of value }
{
    match value {
        EnergyTransferMode::AcSinglePhaseCore => OfferedMode::AcSinglePhaseCore,
        EnergyTransferMode::AcThreePhaseCore => OfferedMode::AcThreePhaseCore,
        EnergyTransferMode::DcCore => OfferedMode::DcCore,
        EnergyTransferMode::DcExtended => OfferedMode::DcExtended,
        EnergyTransferMode::DcComboCore => OfferedMode::DcComboCore,
        EnergyTransferMode::DcUnique => OfferedMode::DcUnique,
    }
}

/// A mode that a post offers, as it is written. ISO has no name for the modes of DIN alone.
pub fn offered_mode(value: OfferedMode) -> EnergyTransferMode
    ensures { result ≡ rule.offered_mode value }
{
    match value {
        OfferedMode::AcSinglePhaseCore => EnergyTransferMode::AcSinglePhaseCore,
        OfferedMode::AcThreePhaseCore => EnergyTransferMode::AcThreePhaseCore,
        OfferedMode::DcCore => EnergyTransferMode::DcCore,
        OfferedMode::DcExtended => EnergyTransferMode::DcExtended,
        OfferedMode::DcComboCore => EnergyTransferMode::DcComboCore,
        OfferedMode::DcUnique => EnergyTransferMode::DcUnique,
        OfferedMode::DcDual => EnergyTransferMode::DcExtended,
        OfferedMode::AcCore1pDcExtended => EnergyTransferMode::DcExtended,
        OfferedMode::AcSingleDcCore => EnergyTransferMode::DcExtended,
        OfferedMode::AcSinglePhaseThreePhaseCoreDcExtended => EnergyTransferMode::DcExtended,
        OfferedMode::AcCore3pDcExtended => EnergyTransferMode::DcExtended,
    }
}
