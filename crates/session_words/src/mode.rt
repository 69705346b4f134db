//! How energy goes from the post into the car.

ghost use Rattle.std.specs.Prelude.{◌≡◌, ◌↔◌, IsTrue};
ghost use Rattle.session_words.specs.Modes.{phases_of, IsAc, speaks_din, CanSpeakDin, offered_of};

/// The energy transfer modes of ISO 15118-2:2014 (EnergyTransferModeType).
#[derive(Clone, Copy, Default, PartialEq, Eq)]
pub enum Mode {
    AcSinglePhaseCore,
    AcThreePhaseCore,
    DcCore,
    #[default]
    DcExtended,
    DcComboCore,
    DcUnique,
}

/// The energy transfer modes that a post may offer: those of ISO 15118-2:2014 and of DIN SPEC 70121:2014
/// (EVSESupportedEnergyTransferType), each once.
#[derive(Clone, Copy, Default, PartialEq, Eq)]
pub enum OfferedMode {
    AcSinglePhaseCore,
    AcThreePhaseCore,
    DcCore,
    #[default]
    DcExtended,
    DcComboCore,
    DcUnique,
    DcDual,
    AcCore1pDcExtended,
    AcSingleDcCore,
    AcSinglePhaseThreePhaseCoreDcExtended,
    AcCore3pDcExtended,
}

impl Mode {
    /// Whether the car charges with alternating current.
    pub fn is_ac(&self) -> bool
        ensures { IsTrue result ↔ IsAc self.now }
    {
        matches!(self, Mode::AcSinglePhaseCore | Mode::AcThreePhaseCore)
    }

    /// How many phases carry the current: 3 or 1. Direct current counts as one.
    pub fn phases(&self) -> u8
        ensures { result ≡ phases_of self.now }
    {
        match self {
            Mode::AcThreePhaseCore => 3,
            _ => 1,
        }
    }

    /// Whether a post of this mode can speak DIN SPEC 70121, which has direct current through the basic, the
    /// extended and the combined plug alone.
    pub fn can_speak_din(&self) -> bool
        ensures value { result ≡ speaks_din self.now }
        ensures din { IsTrue result ↔ CanSpeakDin self.now }
    {
        matches!(self, Mode::DcCore | Mode::DcExtended | Mode::DcComboCore)
    }
}

impl From<Mode> for OfferedMode {
    ghost from_gives = { λ mode offered. offered ≡ offered_of mode };

    fn from(mode: Mode) -> OfferedMode {
        match mode {
            Mode::AcSinglePhaseCore => OfferedMode::AcSinglePhaseCore,
            Mode::AcThreePhaseCore => OfferedMode::AcThreePhaseCore,
            Mode::DcCore => OfferedMode::DcCore,
            Mode::DcExtended => OfferedMode::DcExtended,
            Mode::DcComboCore => OfferedMode::DcComboCore,
            Mode::DcUnique => OfferedMode::DcUnique,
        }
    }
}
