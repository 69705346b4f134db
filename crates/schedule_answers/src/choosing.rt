//! The profile that a car answers.

ghost use Rattle.std.specs.Prelude.{◌≡◌, ◌<◌, ◌≤◌, All, IfOk, IfErr, MatchOption};
ghost use Rattle.schedules.specs.Profiles.{IsBest};
ghost use Rattle.schedules.specs.Steps.{energy as energy_of};
ghost use Rattle.schedule_answers.specs.Schedules as rule;
ghost use Rattle.schedule_answers.specs.Schedules.{schedule_of as schedule_in, IsUsable};
ghost use Rattle.schedule_answers.specs.Choosing.{IsAnswerTo, IsFirstAnswer, Misses, IsAnswer, IsFault};

use crate::told::tuples_in;
use crate::tuples::{are_usable, schedule_of};
use iso_message::IsoMessage;
use iso_schedules::SaScheduleTuple;
use iso_values::physical::{power_in, power_of};
use schedules::{Need, Plan, Profile, best_plan};
use session_words::Amount;

/// Why there is no profile.
#[derive(Clone, Copy, Debug, PartialEq, Eq)]
pub enum ScheduleFault {
    /// The message is no ChargeParameterDiscoveryRes of the OK class with schedules, or one of them can't be answered: its first start isn't
    /// 0, its starts don't rise, or a power isn't in watts.
    NoSchedule,
    /// No schedule has a profile that reaches the energy.
    Unreached,
}

/// The most power that a car takes, as it writes it.
fn cap_of(max_watts: u32) -> u32
    requires { max_watts < 32768000 }
    ensures { result ≡ rule.cap_of max_watts }
{
    power_in(power_of(Amount {
        size: max_watts,
        right: true,
    }))
    .size
}

/// The best profile that a tuple allows.
fn plan_in(tuple: &SaScheduleTuple, need: Need) -> Plan
    requires usable { IsUsable tuple.now }
    requires departs { 0 < need.departure }
    requires day { need.departure ≤ 86400 }
    requires watts { need.max_watts < 32768000 }
    ensures best { IsBest (schedule_in tuple.now) (rule.cap_of need.max_watts) need.departure result.steps.items }
    ensures energy { result.energy ≡ energy_of result.steps.items need.departure }
{
    best_plan(&schedule_of(tuple), cap_of(need.max_watts), need.departure)
}

/// The best profile that a tuple allows, where it reaches the energy.
fn profile_in(tuple: &SaScheduleTuple, need: Need) -> Option<Profile>
    requires usable { IsUsable tuple.now }
    requires departs { 0 < need.departure }
    requires day { need.departure ≤ 86400 }
    requires watts { need.max_watts < 32768000 }
    ensures { MatchOption result (Misses need tuple.now) (IsAnswerTo need tuple.now) }
{
    let plan = plan_in(tuple, need);
    if plan.energy < 3600 * u64::from(need.energy) {
        return None;
    }
    Some(Profile {
        tuple: tuple.sa_schedule_tuple_id,
        energy: plan.energy,
        steps: plan.steps,
    })
}

/// The profile of the first tuple that has one which reaches the energy.
fn first_profile(tuples: &[SaScheduleTuple], need: Need) -> Option<Profile>
    requires usable { All IsUsable tuples.now }
    requires departs { 0 < need.departure }
    requires day { need.departure ≤ 86400 }
    requires watts { need.max_watts < 32768000 }
    ensures { MatchOption result (All (Misses need) tuples.now) (IsFirstAnswer need tuples.now) }
{
    for tuple in tuples {
        match profile_in(tuple, need) {
            Some(profile) => return Some(profile),
            None => {}
        }
    }
    None
}

/// The charging profile with which a car that needs so much answers a ChargeParameterDiscoveryRes (ISO 15118-2:2014, 8.4.3.8, 8.5.2.10): for
/// the first of its schedules that has a profile which reaches the energy, the best.
///
/// The car leaves at a second from 1 to 86,400, and takes less than 32,768,000 watts. `NoSchedule` exactly where the message has no schedules
/// that can be answered, and else `Unreached` exactly where no profile of any of them reaches the energy.
pub fn profile_of(message: &IsoMessage<'_>, need: Need) -> Result<Profile, ScheduleFault>
    requires departs { 0 < need.departure }
    requires day { need.departure ≤ 86400 }
    requires watts { need.max_watts < 32768000 }
    ensures profile { IfOk result (IsAnswer message.now need) }
    ensures fault { IfErr result (IsFault message.now need) }
{
    let Some(tuples) = tuples_in(message) else {
        return Err(ScheduleFault::NoSchedule);
    };
    if !are_usable(tuples) {
        return Err(ScheduleFault::NoSchedule);
    }
    match first_profile(tuples, need) {
        Some(profile) => Ok(profile),
        None => Err(ScheduleFault::Unreached),
    }
}
