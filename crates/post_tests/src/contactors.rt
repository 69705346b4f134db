use crate::cases::{Case, all_hold};
use charge_world::{IsolationLevel, Order, PilotState, Tenths};
use contactor::{CloseRight, Contactor, Standing, is_ready};
use std::alloc::Global;

/// What happens to a contactor, or what it shows.
enum Step {
    /// An open one is closed, for AC, and for DC with a pre-charge that is so many tenths of a volt off.
    CloseAc,
    CloseDc(u16),
    /// Whether its order was taken.
    Told(bool),
    /// What feedback came, and whether it is against what was confirmed.
    Feedback(bool, bool),
    /// It is opened.
    Release,
    State(Standing),
    Live(bool),
}

/// Steps of a new contactor.
struct Run(&'static [Step]);

/// Closes an open contactor, for AC, or for DC with a pre-charge that is so many tenths of a volt off.
fn closes(contactor: &mut Contactor, off: Option<u16>) -> bool {
    let Standing::Opened = contactor.state() else {
        return false;
    };
    let Some(off) = off else {
        return contactor.close(CloseRight::ac(PilotState::C)) == Order::Close;
    };
    match Tenths::of(off) {
        Some(off) if off.get() <= 200 => {
            let right = CloseRight::dc(PilotState::C, IsolationLevel::Valid, off);
            contactor.close(right) == Order::Close
        }
        _ => false,
    }
}

/// Takes a step, and says whether its answer is right.
fn takes(contactor: &mut Contactor, step: &Step) -> bool {
    match step {
        Step::CloseAc => closes(contactor, None),
        Step::CloseDc(off) => closes(contactor, Some(*off)),
        Step::Told(taken) => {
            contactor.told(*taken);
            true
        }
        Step::Feedback(closed, against) => contactor.feedback(*closed) == *against,
        Step::Release => contactor.release() == Order::Open,
        Step::State(standing) => contactor.state() == *standing,
        Step::Live(live) => contactor.live() == *live,
    }
}

impl Case for Run {
    fn holds(&self, _: Global) -> bool {
        let mut contactor = Contactor::new();
        for step in self.0 {
            if !takes(&mut contactor, step) {
                return false;
            }
        }
        true
    }
}

const RUNS: [Run; 3] = [
    // A pre-charge that is 20 volts off may close.
    Run(&[Step::CloseDc(200), Step::State(Standing::Closing)]),
    // Feedback of open is against a close only once that was confirmed.
    Run(&[
        Step::CloseAc,
        Step::Told(true),
        Step::Feedback(false, false),
        Step::Feedback(true, false),
        Step::State(Standing::Closed),
        Step::Feedback(false, true),
    ]),
    // A close that fails has to be opened, and leaves it live.
    Run(&[
        Step::CloseAc,
        Step::Told(false),
        Step::State(Standing::MustOpen),
        Step::Live(true),
        Step::Release,
        Step::Live(false),
        Step::Told(false),
        Step::State(Standing::MustOpen),
        Step::Live(true),
    ]),
];

#[test]
fn contactors_are_closed_and_opened(rt: HostRuntime) {
    all_hold(&rt, rt.alloc(), &RUNS);
    assert!(rt; is_ready(PilotState::D));
}
