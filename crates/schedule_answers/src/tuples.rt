//! What a tuple allows.

ghost use Rattle.std.specs.Prelude.{◌≡◌, ◌↔◌, ◌≤◌, IsTrue, All, map, length};
ghost use Rattle.std.specs.List.{list_all};
ghost use Rattle.schedule_answers.specs.Schedules as rule;
ghost use Rattle.schedule_answers.specs.Schedules.{IsUsable};
ghost use Rattle.schedule_answers.specs.Usable.{begins_at_zero, rises, passes, usable};

use arrayvec::ArrayVec;
use iso_parts::PhysicalValue;
use iso_schedules::{PMaxScheduleEntry, RelativeTimeInterval, SaScheduleTuple, TimeInterval};
use iso_values::physical::power_in;
use schedules::{DAY, ENTRIES, Schedule, Step};

/// The interval of an entry.
fn interval_of(entry: PMaxScheduleEntry) -> RelativeTimeInterval
    ensures { result ≡ rule.interval_of entry }
{
    let TimeInterval::Relative(interval) = entry.time_interval;
    interval
}

/// An entry as a step.
fn step_of(entry: PMaxScheduleEntry) -> Step
    ensures { result ≡ rule.step_of entry }
{
    Step {
        start: interval_of(entry).start,
        watts: power_in(entry.p_max).size,
    }
}

/// The second at which an entry ends, if no other follows: a day behind its start, where it has no duration.
fn end_of(entry: PMaxScheduleEntry) -> u32
    ensures { result ≡ rule.end_of entry }
{
    let interval = interval_of(entry);
    interval
        .start
        .saturating_add(interval.duration.unwrap_or(DAY))
}

/// The entries as steps.
fn steps_of(entries: &[PMaxScheduleEntry]) -> ArrayVec<Step, 128>
    requires { length entries.now ≤ 128 }
    ensures { result.items ≡ map rule.step_of entries.now }
{
    let mut steps = ArrayVec::new();
    for entry in entries {
        steps.push(step_of(*entry));
    }
    steps
}

/// The second at which the last entry ends, or 0 of none.
fn last_end(entries: &[PMaxScheduleEntry]) -> u32
    ensures { result ≡ rule.last_end entries.now }
{
    let mut end = 0;
    for entry in entries {
        end = end_of(*entry);
    }
    end
}

/// What a tuple allows.
pub(crate) fn schedule_of(tuple: &SaScheduleTuple) -> Schedule
    ensures { result ≡ rule.schedule_of tuple.now }
{
    let entries = tuple.p_max_schedule.p_max_schedule_entry.as_slice();
    Schedule {
        entries: steps_of(entries),
        end: last_end(entries),
    }
}

/// Whether the first step starts at 0.
fn begins(steps: &[Step]) -> bool
    ensures { result ≡ begins_at_zero steps.now }
{
    match steps {
        [] => false,
        [first, ..] => first.start == 0,
    }
}

/// Whether the starts rise from 0 on, up to this end.
fn are_rising(steps: &[Step], end: u32) -> bool
    ensures { result ≡ rises 0 end steps.now }
{
    let mut least = 0_u64;
    for step in steps {
        if u64::from(step.start) < least || end < step.start {
            return false;
        }
        least = u64::from(step.start) + 1;
    }
    true
}

/// Whether a schedule can be answered.
fn is_schedule(schedule: &Schedule) -> bool
    ensures { result ≡ passes schedule.now }
{
    let steps = schedule.entries.as_slice();
    begins(steps) && are_rising(steps, schedule.end)
}

/// Whether a power is in watts.
fn is_in_watts(power: PhysicalValue) -> bool
    ensures { result ≡ rule.is_in_watts power }
{
    power_in(power).right
}

/// Whether the power of each entry is in watts.
fn are_in_watts(entries: &[PMaxScheduleEntry]) -> bool
    ensures { result ≡ list_all (λ e. rule.is_in_watts e.p_max) entries.now }
{
    for entry in entries {
        if !is_in_watts(entry.p_max) {
            return false;
        }
    }
    true
}

/// Whether a tuple can be answered.
fn is_usable(tuple: &SaScheduleTuple) -> bool
    ensures { result ≡ usable tuple.now }
{
    let entries = tuple.p_max_schedule.p_max_schedule_entry.as_slice();
    1 <= tuple.sa_schedule_tuple_id && is_schedule(&schedule_of(tuple)) && are_in_watts(entries)
}

/// Whether each tuple can be answered.
fn all_usable(tuples: &[SaScheduleTuple]) -> bool
    ensures { result ≡ list_all usable tuples.now }
{
    for tuple in tuples {
        if !is_usable(tuple) {
            return false;
        }
    }
    true
}

/// Whether each tuple can be answered.
pub(crate) fn are_usable(tuples: &[SaScheduleTuple]) -> bool
    ensures { IsTrue result ↔ All IsUsable tuples.now }
{
    all_usable(tuples)
}
