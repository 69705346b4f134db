//! A day's calendar, turned so that it begins at a moment.

ghost use Rattle.std.specs.Prelude.{◌≡◌, ◌<◌, ◌≤◌, ◌++◌, ◌∷◌, List, length};
ghost use Rattle.schedules.specs.Offers.{IsCalendar, IsOffer};
ghost use Rattle.schedules.specs.Steps.{watts_at as held_watts};
ghost use Rattle.schedules.specs.Turning.{ahead, past, merged};

use crate::power::{DAY, Step};
use arrayvec::ArrayVec;

/// The one offer of a calendar at a moment, a second of the day: at each second of the 86,400 from then on the power of the calendar, in
/// steps that each change it.
pub fn offer_of(calendar: &[Step], moment: u32) -> ArrayVec<Step, 25>
    requires calendar { IsCalendar calendar.now }
    requires moment { moment < 86400 }
    ensures { IsOffer calendar.now moment result.items }
{
    merged_with(
        watts_at(calendar, moment),
        turned(calendar, moment).as_slice(),
    )
}

/// The power at a second, in watts.
fn watts_at(steps: &[Step], second: u32) -> u32
    ensures { result ≡ held_watts steps.now second }
{
    let mut watts = 0;
    for step in steps {
        if step.start <= second {
            watts = step.watts;
        }
    }
    watts
}

/// The steps that start behind the moment, in seconds from the moment.
fn ahead_of(calendar: &[Step], moment: u32) -> ArrayVec<Step, 24>
    requires { length calendar.now ≤ 24 }
    ensures { result.items ≡ ahead moment calendar.now }
{
    let mut found = ArrayVec::new();
    for step in calendar {
        if step.start > moment {
            found.push(Step {
                start: step.start - moment,
                watts: step.watts,
            });
        }
    }
    found
}

/// The steps that start behind the moment, and then those of the next day that start before it, in seconds from the moment.
fn turned(calendar: &[Step], moment: u32) -> ArrayVec<Step, 24>
    requires few { length calendar.now ≤ 24 }
    requires moment { moment < 86400 }
    ensures { result.items ≡ ahead moment calendar.now ++ past moment calendar.now }
{
    let mut turned = ahead_of(calendar, moment);
    for step in calendar {
        if step.start < moment {
            turned.push(Step {
                start: step.start + (DAY - moment),
                watts: step.watts,
            });
        }
    }
    turned
}

/// A step at 0 with these watts, and of the others those that change the power.
fn merged_with(watts: u32, steps: &[Step]) -> ArrayVec<Step, 25>
    requires { length steps.now ≤ 24 }
    ensures { result.items ≡ (record { start = 0; watts = watts }) ∷ merged watts steps.now }
{
    let mut held = watts;
    let mut offer = ArrayVec::new();
    offer.push(Step { start: 0, watts });
    for step in steps {
        if step.watts != held {
            held = step.watts;
            offer.push(*step);
        }
    }
    offer
}
