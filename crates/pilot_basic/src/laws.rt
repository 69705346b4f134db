//! What holds of every run.

ghost use Rattle.std.specs.Prelude.{◌≡◌, ◌≢◌, ℕ, ◌+◌, ◌≤◌, List, [], ◌∷◌, ◌++◌, Some, true, IsTrue};
ghost use Rattle.pilot_basic.specs.Duty.{offered, IsDuty, OffersUpTo};
ghost use Rattle.contactor.specs.Standing.{last_order, Close};
ghost use Rattle.contactor.specs.Calls.{acts_of};
ghost use Rattle.contactor.specs.Rights.{is_ready};
ghost use Rattle.pilot_basic.specs.Machine.{Step, IsRun, calls_of, mode_of, pilot_of, now_of};

use crate::words::{BasicEvent, Mode};

/// The duty for a current is one, and it offers a current, no more than that one.
pub fn offers_no_more()
    ensures one { (amps d other : ℕ) → IsDuty amps d → IsDuty amps other → d ≡ other }
    ensures up_to { (amps d : ℕ) → 60 ≤ amps → amps ≤ 800 → IsDuty amps d → OffersUpTo amps (offered d) }
{}

/// After each step the last order to the contactor is Close only in basic charging, for a vehicle that is ready.
pub fn closes_for_ready_vehicles()
    ensures { (past : List Step) → IsRun past → last_order (acts_of (calls_of past)) ≡ Some (Close, true) →
        (mode_of past ≡ Mode.Basic) × IsTrue (is_ready (pilot_of past)) }
{}

/// After digital communication ended nothing is ordered, and so no duty is set, for 3,000 ms.
pub fn pauses()
    ensures { (past later : List Step) (ended next : Step) → IsRun (next ∷ (later ++ ended ∷ past)) →
        ended.event ≡ BasicEvent.DigitalEnded → mode_of past ≡ Mode.Digital → next.orders ≢ [] →
        now_of (ended ∷ past) + 3000 ≤ now_of (next ∷ (later ++ ended ∷ past)) }
{}
