//! The best answer to a schedule.

ghost use Rattle.std.specs.Prelude.{◌≡◌, ◌<◌, ◌≤◌};
ghost use Rattle.schedules.specs.Profiles.{IsSchedule, IsBest};
ghost use Rattle.schedules.specs.Steps.{energy as energy_of};

use crate::limits::limits_of;
use crate::plan::Plan;
use crate::power::Schedule;
use crate::rounds::plan_of;

/// The best charging profile of at most 24 steps that a schedule allows a car that takes at most `cap` watts and leaves at the second
/// `departure`, 1 to 86,400.
pub fn best_plan(schedule: &Schedule, cap: u32, departure: u32) -> Plan
    requires schedule { IsSchedule schedule.now }
    requires departs { 0 < departure }
    requires day { departure ≤ 86400 }
    ensures best { IsBest schedule.now cap departure result.steps.items }
    ensures energy { result.energy ≡ energy_of result.steps.items departure }
{
    plan_of(&limits_of(schedule, cap, departure), departure)
}
