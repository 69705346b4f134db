//! When a contactor may be closed.

ghost use Rattle.std.specs.Prelude.{◌≡◌, ◌≤◌, IsTrue, Some, None};
ghost use Rattle.charge_world.specs.declared.heard.IsolationLevel.TheVariants.{Valid};
ghost use Rattle.contactor.specs.Rights.{is_ready as is_ready_pilot, is_safe};

use charge_world::{IsolationLevel, PilotState, Tenths};
use std::marker::Model;

/// Whether a car is ready to take energy: its control pilot is C or D (IEC 61851-1, annex A).
pub fn is_ready(pilot: PilotState) -> bool
    ensures { result ≡ is_ready_pilot pilot }
{
    matches!(pilot, PilotState::C | PilotState::D)
}

/// The right to close the contactor once. It has to be spent, and exists only where its conditions held.
///
/// Contracts see the conditions.
pub struct CloseRight {
    pilot: PilotState,
    /// For DC, the isolation and how far the pre-charge is off.
    check: Option<(IsolationLevel, Tenths)>,
}

impl Model for CloseRight {
    ghost use Rattle.std.specs.Prelude.{IsTrue};
    ghost use Rattle.contactor.specs.Rights.{Right, is_ready, is_safe};

    ghost Value = { Right };

    ghost view = { λ r. record { pilot = r.pilot; check = r.check } };

    ghost invariant = { λ r. IsTrue (is_ready r.pilot) × IsTrue (is_safe r.check) };
}

impl CloseRight {
    /// The right for AC charging, with the pilot at C or D.
    pub fn ac(pilot: PilotState) -> CloseRight
        requires { IsTrue (is_ready_pilot pilot) }
        ensures { result ≡ record { pilot = pilot; check = None } }
    {
        CloseRight { pilot, check: None }
    }

    /// The right for DC charging: the pilot is at C or D, the isolation is valid, and the voltage at the outlet is off
    /// the car's target by at most 20.0 V (`off` is in tenths of a volt).
    pub fn dc(pilot: PilotState, isolation: IsolationLevel, off: Tenths) -> CloseRight
        requires pilot { IsTrue (is_ready_pilot pilot) }
        requires isolation { isolation ≡ Valid }
        requires off { off ≤ 200 }
        ensures { result ≡ record { pilot = pilot; check = Some (isolation, off) } }
    {
        CloseRight {
            pilot,
            check: Some((isolation, off)),
        }
    }

    /// Spends the right. Whatever right it is, its conditions held.
    pub(crate) fn spend(self)
        ensures pilot { IsTrue (is_ready_pilot self.pilot) }
        ensures check { IsTrue (is_safe self.check) }
    {
        let CloseRight { pilot: _, check: _ } = self;
    }
}
