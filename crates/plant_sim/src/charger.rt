//! The simulated charger.

ghost use Rattle.std.specs.Prelude.{◌≡◌, MatchOption};
ghost use Rattle.plant_sim.specs.Charger.{idle, came, ordered, IsDue, Comes, NoneReached};

use crate::amounts::{current_of, event_of, moved, tenths, voltage_after};
use crate::moments::{PLACES, Place, first, later_by};
use charge_world::{Order, PlantEvent, Tenths};
use std::marker::Model;

/// How long after a car came somebody pays, in milliseconds.
const PAYMENT: u64 = 100;

/// How long after a car came the isolation is found valid.
const ISOLATION: u64 = 300;

/// How long after limits the charger measures.
const MEASUREMENT: u64 = 20;

/// How long after an order the contactor has moved.
const CONTACTOR: u64 = 50;

/// What the charger was ordered last.
#[derive(Clone, Copy)]
struct Limits {
    voltage: Tenths,
    current: Tenths,
    watts: u32,
}

/// A simulated charger (own).
///
/// After a car came it tells pilot C and an isolation that isn't known, 100 ms later that somebody paid, unless
/// charging is free, and 300 ms later that the isolation is valid. 20 ms after limits it measures, with a voltage
/// that has moved by at most 100.0 V; 50 ms after Close and Open the contactor follows.
///
/// Contracts see whether it is free, the moments of what is to come, the limits ordered last, whether the last Open
/// or Close order was a Close, and the voltage measured last.
#[derive(Drop)]
pub struct Sim {
    free: bool,
    moments: [Option<u64>; PLACES],
    limits: Limits,
    closed: bool,
    voltage: Tenths,
}

impl Model for Sim {
    ghost use Rattle.plant_sim.specs.Charger.{Charger};

    ghost Value = { Charger };

    ghost view = { λ s. record {
      free = s.free;
      moments = s.moments;
      limits = record { voltage = s.limits.voltage; current = s.limits.current; watts = s.limits.watts };
      closed = s.closed;
      voltage = s.voltage;
    } };
}

impl Sim {
    /// A charger of which nothing is to come; `free` where nobody has to pay.
    pub fn new(free: bool) -> Sim
        ensures { result ≡ idle free }
    {
        Sim {
            free,
            moments: [None; PLACES],
            limits: Limits {
                voltage: tenths(0),
                current: tenths(0),
                watts: 0,
            },
            closed: false,
            voltage: tenths(0),
        }
    }

    /// A car came at this moment (milliseconds). What is to come of an earlier one is dropped.
    pub fn came(&mut self, now: u64)
        ensures { self.new ≡ came self.old now }
    {
        self.moments[Place::Pilot as usize] = Some(now);
        self.moments[Place::Isolation as usize] = Some(now);
        self.moments[Place::Paid as usize] = if self.free {
            None
        } else {
            later_by(now, PAYMENT)
        };
        self.moments[Place::Valid as usize] = later_by(now, ISOLATION);
    }

    /// An order at this moment (milliseconds). What is to come of an earlier one of its kind is dropped.
    pub fn order(&mut self, order: Order, now: u64)
        ensures { self.new ≡ ordered self.old order now }
    {
        match order {
            Order::Limits {
                voltage,
                current,
                watts,
            } => {
                self.moments[Place::Measured as usize] = later_by(now, MEASUREMENT);
                self.limits = Limits {
                    voltage,
                    current,
                    watts,
                };
            }
            Order::Close => {
                self.moments[Place::Closed as usize] = later_by(now, CONTACTOR);
                self.closed = true;
            }
            Order::Open => {
                self.moments[Place::Opened as usize] = later_by(now, CONTACTOR);
                self.moments[Place::Dead as usize] = later_by(now, CONTACTOR);
                self.closed = false;
            }
        }
    }

    /// The moment of the next event (milliseconds), `u64::MAX` where none is to come.
    pub fn due(&self) -> u64
        ensures { IsDue self.now.moments result }
    {
        match first(&self.moments) {
            Some((_, moment)) => moment,
            None => u64::MAX,
        }
    }

    /// The first event that is to come, if its moment is at most `now` (milliseconds). `None` exactly where no event is due,
    /// and it changes nothing.
    pub fn next(&mut self, now: u64) -> Option<PlantEvent>
        ensures { MatchOption result
            (NoneReached self.old.moments now × (self.new ≡ self.old))
            (λ e. Comes self.old now e self.new) }
    {
        let (place, moment) = first(&self.moments)?;
        if now < moment {
            return None;
        }
        let voltage = moved(self.voltage, self.limits.voltage);
        let current = current_of(self.closed, voltage, self.limits.current, self.limits.watts);
        let event = event_of(place, voltage, current);
        self.moments[place] = None;
        self.voltage = voltage_after(&event, self.voltage);
        Some(event)
    }
}
