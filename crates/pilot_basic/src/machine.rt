//! The machine of basic charging.

ghost use Rattle.std.specs.Prelude.{◌≡◌, List, [], ◌∷◌};
ghost use Rattle.pilot_basic.specs.Machine.{Step, State, IsInRange, LeadsTo, state_of};

use crate::parts::{act, follow, hear, next_mode, next_pilot, reached, with_order};
use crate::words::{BasicEvent, BasicOrder, Mode};
use arrayvec::ArrayVec;
use charge_world::PilotState;
use contactor::{Contactor, law_of_contactor};
use std::marker::Model;

/// A post that charges by the duty of its pilot (own).
///
/// It offers a current by the duty, closes its contactor for a vehicle that is ready and opens it for another. It may
/// go over to digital communication, after whose end it pauses for 3,000 ms.
///
/// Contracts see the moment as it counts, the mode, the pilot and what the contactor keeps.
#[derive(Drop)]
pub struct Basic {
    now: u64,
    mode: Mode,
    pilot: PilotState,
    contactor: Contactor,
}

impl Model for Basic {
    ghost use Rattle.pilot_basic.specs.Machine.{State};

    ghost Value = { State };

    ghost view = { λ s. record { now = s.now; mode = s.mode; pilot = s.pilot; contactor = s.contactor } };
}

impl Basic {
    /// A post that is off, without a vehicle, its contactor open.
    pub fn new() -> Basic
        ensures { result ≡ state_of [] }
    {
        Basic {
            now: 0,
            mode: Mode::Off,
            pilot: PilotState::A,
            contactor: Contactor::new(),
        }
    }

    /// Hears an event at a moment (milliseconds), and answers the orders that it leads to, in order. A moment below the
    /// greatest so far counts as that one.
    pub fn step(&mut self, now: u64, event: &BasicEvent) -> ArrayVec<BasicOrder, 3>
        requires { IsInRange event.now }
        ensures orders { (past : List Step) → self.old ≡ state_of past → LeadsTo past now event.now result.items }
        ensures state { (past : List Step) → self.old ≡ state_of past →
            self.new ≡ state_of (record { at = now; event = event.now; orders = result.items } ∷ past) }
    {
        // How the contactor stands, and whether it is live, is told by the calls on it.
        law_of_contactor();
        let at = self.now.max(now);
        let mode = reached(self.mode, at);
        self.now = at;
        self.mode = next_mode(mode, event, at);
        self.pilot = next_pilot(self.pilot, event);
        hear(&mut self.contactor, event);
        let first = act(&mut self.contactor, mode, event);
        let more = follow(&mut self.contactor, self.mode, self.pilot);
        with_order(first, more)
    }
}
