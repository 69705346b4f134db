//! What a simulated charger measures.

ghost use Rattle.std.specs.Prelude.{◌≡◌, ◌<◌, ◌≤◌, Some, MatchBool, slice_get};
ghost use Rattle.plant_sim.specs.Charger.{towards, IsCut, events, measured};

use crate::moments::PLACES;
use charge_world::{IsolationLevel, PilotState, PlantEvent, Tenths};

/// So many tenths of a volt or of an ampere.
pub(crate) fn tenths(n: u16) -> Tenths
    requires { n ≤ 30000 }
    ensures { result ≡ n }
{
    Tenths::of(n).unwrap()
}

/// The voltage moved by at most 100.0 V towards the ordered one.
pub(crate) fn moved(from: Tenths, to: Tenths) -> Tenths
    ensures { result ≡ towards from to }
{
    let start = from.get();
    let end = to.get();
    if start <= end {
        tenths(end.min(start + 1000))
    } else {
        tenths(end.max(start.saturating_sub(1000)))
    }
}

/// The greatest current up to the ordered one at which the watts hold.
fn cut(voltage: Tenths, most: Tenths, watts: u32) -> Tenths
    ensures { IsCut voltage most watts result }
{
    let volts = u64::from(voltage.get());
    if volts == 0 {
        return most;
    }
    let held = 100 * u64::from(watts) / volts;
    if held < u64::from(most.get()) {
        tenths(held as u16)
    } else {
        most
    }
}

/// The current behind a contactor that counts as closed, or as open.
pub(crate) fn current_of(closed: bool, voltage: Tenths, most: Tenths, watts: u32) -> Tenths
    ensures { MatchBool closed (IsCut voltage most watts result) (result ≡ 0) }
{
    if closed {
        cut(voltage, most, watts)
    } else {
        tenths(0)
    }
}

/// The event of a place, with what a charger under these limits measures.
pub(crate) fn event_of(place: usize, voltage: Tenths, current: Tenths) -> PlantEvent
    requires { place < 8 }
    ensures { slice_get (events voltage current) place ≡ Some result }
{
    let events: [PlantEvent; PLACES] = [
        PlantEvent::Pilot(PilotState::C),
        PlantEvent::Isolation(IsolationLevel::Invalid),
        PlantEvent::Paid,
        PlantEvent::Isolation(IsolationLevel::Valid),
        PlantEvent::Measured { voltage, current },
        PlantEvent::Feedback { closed: true },
        PlantEvent::Feedback { closed: false },
        PlantEvent::Measured {
            voltage: tenths(0),
            current: tenths(0),
        },
    ];
    events[place]
}

/// The voltage measured last, after this event.
pub(crate) fn voltage_after(event: &PlantEvent, before: Tenths) -> Tenths
    ensures { result ≡ measured event.now before }
{
    match event {
        PlantEvent::Measured { voltage, .. } => *voltage,
        _ => before,
    }
}
