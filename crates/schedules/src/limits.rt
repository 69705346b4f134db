//! What a schedule allows, as steps.

ghost use Rattle.std.specs.Prelude.{◌≡◌, ◌<◌, ◌≤◌, length};
ghost use Rattle.schedules.specs.Profiles.{IsSchedule};
ghost use Rattle.schedules.specs.Limits.{AreLimits, kept};

use crate::power::{Schedule, Step};
use arrayvec::ArrayVec;

/// What the schedule allows until the departure, below the cap (watts).
pub(crate) fn limits_of(schedule: &Schedule, cap: u32, departure: u32) -> ArrayVec<Step, 129>
    requires schedule { IsSchedule schedule.now }
    requires departs { 0 < departure }
    ensures { AreLimits schedule.now cap departure result.items }
{
    let mut limits = capped(
        schedule.entries.as_slice(),
        cap,
        schedule.end.min(departure),
    );
    if schedule.end < departure {
        limits.push(Step {
            start: schedule.end,
            watts: 0,
        });
    }
    limits
}

/// The entries that start below `end`, each with no more than the cap.
fn capped(entries: &[Step], cap: u32, end: u32) -> ArrayVec<Step, 129>
    requires { length entries.now ≤ 128 }
    ensures kept { result.items ≡ kept cap end entries.now }
    ensures few { length result.items ≤ 128 }
{
    let mut limits = ArrayVec::new();
    for entry in entries {
        if entry.start < end {
            limits.push(Step {
                start: entry.start,
                watts: cap.min(entry.watts),
            });
        }
    }
    limits
}
