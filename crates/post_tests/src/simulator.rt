use crate::cases::{Case, all_hold};
use charge_world::{IsolationLevel, Order, PilotState, PlantEvent, Tenths};
use plant_sim::Sim;
use std::alloc::Global;

/// What a charger tells.
#[derive(Clone, Copy)]
enum Told {
    Nothing,
    Pilot(PilotState),
    Isolation(IsolationLevel),
    Paid,
    Feedback(bool),
    /// A voltage and a current, in tenths.
    Measured(u16, u16),
}

/// What is ordered of a charger at a moment, or what it tells.
enum Step {
    Close(u64),
    Open(u64),
    /// A voltage and a current in tenths, and watts.
    Limits(u16, u16, u32, u64),
    /// This is told at this moment.
    Next(u64, Told),
    /// This comes next, at this moment and not before.
    At(u64, Told),
    Due(u64),
}

/// A charger, free or not, to which a car came at this moment, and what follows.
struct Run(bool, u64, &'static [Step]);

/// So many tenths of a volt or of an ampere, of which there are at most 30,000.
fn tenths(n: u16) -> Tenths {
    Tenths::exactly(n.min(30000))
}

fn event_of(told: Told) -> Option<PlantEvent> {
    match told {
        Told::Nothing => None,
        Told::Pilot(state) => Some(PlantEvent::Pilot(state)),
        Told::Isolation(level) => Some(PlantEvent::Isolation(level)),
        Told::Paid => Some(PlantEvent::Paid),
        Told::Feedback(closed) => Some(PlantEvent::Feedback { closed }),
        Told::Measured(voltage, current) => Some(PlantEvent::Measured {
            voltage: tenths(voltage),
            current: tenths(current),
        }),
    }
}

/// Whether the charger's next event is this one, at this moment and not before.
fn comes(sim: &mut Sim, moment: u64, told: Told) -> bool {
    sim.due() == moment
        && sim.next(moment.saturating_sub(1)).is_none()
        && sim.next(moment) == event_of(told)
}

/// Takes a step, and says whether its answer is right.
fn takes(sim: &mut Sim, step: &Step) -> bool {
    match step {
        Step::Close(now) => {
            sim.order(Order::Close, *now);
            true
        }
        Step::Open(now) => {
            sim.order(Order::Open, *now);
            true
        }
        Step::Limits(voltage, current, watts, now) => {
            let limits = Order::Limits {
                voltage: tenths(*voltage),
                current: tenths(*current),
                watts: *watts,
            };
            sim.order(limits, *now);
            true
        }
        Step::Next(now, told) => sim.next(*now) == event_of(*told),
        Step::At(moment, told) => comes(sim, *moment, *told),
        Step::Due(moment) => sim.due() == *moment,
    }
}

impl Case for Run {
    fn holds(&self, _: Global) -> bool {
        let mut sim = Sim::new(self.0);
        sim.came(self.1);
        for step in self.2 {
            if !takes(&mut sim, step) {
                return false;
            }
        }
        true
    }
}

const RUNS: [Run; 2] = [
    // A free charger tells pilot and isolation at once, and waits for 300 ms.
    Run(
        true,
        0,
        &[
            Step::Due(0),
            Step::Next(0, Told::Pilot(PilotState::C)),
            Step::Next(0, Told::Isolation(IsolationLevel::Invalid)),
            Step::Next(0, Told::Nothing),
            Step::Due(300),
        ],
    ),
    // Each event comes at its moment.
    Run(
        false,
        1000,
        &[
            Step::Next(1000, Told::Pilot(PilotState::C)),
            Step::Next(1000, Told::Isolation(IsolationLevel::Invalid)),
            Step::At(1100, Told::Paid),
            Step::At(1300, Told::Isolation(IsolationLevel::Valid)),
            Step::Close(2000),
            Step::At(2050, Told::Feedback(true)),
            Step::Limits(1900, 500, 60_000, 3000),
            Step::At(3020, Told::Measured(1000, 500)),
            Step::Limits(1900, 500, 4000, 4000),
            Step::At(4020, Told::Measured(1900, 210)),
            Step::Open(5000),
            Step::At(5050, Told::Feedback(false)),
            Step::Next(5050, Told::Measured(0, 0)),
            Step::Due(18446744073709551615),
        ],
    ),
];

#[test]
fn a_charger_tells_each_event_at_its_moment(rt: HostRuntime) {
    all_hold(&rt, rt.alloc(), &RUNS);
}
