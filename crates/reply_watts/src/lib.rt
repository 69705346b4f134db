//! The watts that a reply spells, as its message writes them (ISO 15118-2:2014, 8.4.3.8, 8.4.4.2 and 8.4.5.4; DIN SPEC 70121:2014, 9.4):
//! EVSEMaximumPowerLimit, EVSEMaxCurrent, and each PMax of the schedules. `specs/Iso.antt` and `specs/Din.antt` say them of a tree, by the
//! names of its elements.
//!
//! Proved: `iso_watts` and `din_watts` keep of a message what `audit_watts` keeps of the watts of its tree, and nothing of one that is no
//! reply; `watts_are_told_once`: a payload spells watts in one way (`Watts`).
#![tactic(auto)]

mod din;
mod din_bodies;
mod iso;
mod iso_bodies;
mod values;

ghost use Rattle.std.specs.Prelude.{ℕ, List};
ghost use Rattle.charge_world.specs.declared.offer.Dialect.{Dialect};
ghost use Rattle.v2gtp_frames.specs.Frames.{IsPayload};
ghost use Rattle.told_pasts.specs.Spelling.{SpelledWatts};
ghost use Rattle.audit_streams.specs.Words.{SpeaksOnce};
ghost use Rattle.reply_watts.specs.Watts.{Watts};

pub use din_bodies::din_watts;
pub use iso_bodies::iso_watts;

/// A payload spells watts in one way, and only one that fits a frame does. The function does nothing: its contract is the law.
pub fn watts_are_told_once()
    ensures once { SpeaksOnce Watts }
    ensures short { (spoken : Dialect) (payload : List ℕ) (s : SpelledWatts) → Watts spoken payload s → IsPayload payload }
{}
