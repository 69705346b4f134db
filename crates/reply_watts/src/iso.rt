//! The watts of a reply of ISO 15118-2:2014 (8.4.3.8, 8.4.4.2 and 8.4.5.4).

ghost use Rattle.std.specs.Prelude.{◌≡◌, ◌<◌, [], ◌∷◌, map, Some};
ghost use Rattle.std.specs.List.{flat_map};
ghost use Rattle.std.specs.Option.{option_map};
ghost use Rattle.message_parts.specs.Contents.{one, holding};
ghost use Rattle.session_words.specs.Amounts.{IsMultiplier};
ghost use Rattle.session_words.specs.declared.plan.PostPlan.{PostPlan};
ghost use Rattle.iso_parts.specs.Values.{physical_value_parts};
ghost use Rattle.iso_schedules.specs.Schedules.{p_max_schedule_entry_parts, sa_schedule_tuple_parts, sa_schedule_list_parts, sa_schedules_inside};
ghost use Rattle.iso_parameters.specs.Limits.{evse_charge_parameter_name, evse_charge_parameter_inside};
ghost use Rattle.iso_parameters.specs.Discovery.{charge_parameter_discovery_res_parts};
ghost use Rattle.iso_power.specs.Charging.{current_demand_res_parts};
ghost use Rattle.iso_delivery.specs.Delivery.{charging_status_res_parts};
ghost use Rattle.tree_words.specs.Named.{children};
ghost use Rattle.audit_watts.specs.Values.{written_of, AreOf};
ghost use Rattle.reply_watts.specs.Values.{AreAdded, power_alone, current_alone};
ghost use Rattle.reply_watts.specs.Iso as rule;

use crate::values::nearest;
use audit_watts::{WattValues, WrittenValue};
use charge_world::Dialect;
use iso_delivery::ChargingStatusRes;
use iso_parameters::{ChargeParameterDiscoveryRes, EvseChargeParameter};
use iso_parts::PhysicalValue;
use iso_power::CurrentDemandRes;
use iso_schedules::{PMaxScheduleEntry, SaScheduleList, SaScheduleTuple, SaSchedules};
use session_words::PostPlan;

/// A physical value as it is written.
fn written(value: PhysicalValue) -> WrittenValue
    ensures value { written_of result ≡ rule.written_in (children (holding (physical_value_parts value))) }
    ensures multiplier { IsMultiplier result.multiplier }
{
    WrittenValue {
        multiplier: nearest(value.multiplier),
        value: value.value,
    }
}

/// The PMax of an entry.
fn p_max(entry: &PMaxScheduleEntry) -> WrittenValue
    ensures value { written_of result ≡ rule.entry_in (holding (p_max_schedule_entry_parts entry.now)) }
    ensures multiplier { IsMultiplier result.multiplier }
{
    written(entry.p_max)
}

/// With each PMax of these entries, the last one first.
fn with_entries(
    values: WattValues,
    spoken: Dialect,
    told: u32,
    entries: &[PMaxScheduleEntry],
) -> WattValues
    requires { told < 32768000 }
    ensures { AreAdded spoken told (map (λ e. rule.entry_in (holding (p_max_schedule_entry_parts e))) entries.now) values result }
{
    match entries {
        [] => values,
        [first, others @ ..] => {
            let later = with_entries(values, spoken, told, others);
            later.with_p_max(spoken, told, p_max(first))
        }
    }
}

/// With each PMax of these tuples, the last one first.
fn with_tuples(
    values: WattValues,
    spoken: Dialect,
    told: u32,
    tuples: &[SaScheduleTuple],
) -> WattValues
    requires { told < 32768000 }
    ensures { AreAdded spoken told (flat_map (λ t. rule.tuple_in (holding (sa_schedule_tuple_parts t))) tuples.now) values result }
{
    match tuples {
        [] => values,
        [first, others @ ..] => {
            let later = with_tuples(values, spoken, told, others);
            let entries = first.p_max_schedule.p_max_schedule_entry.as_slice();
            with_entries(later, spoken, told, entries)
        }
    }
}

/// With each PMax of a list of schedules.
fn with_list(values: WattValues, spoken: Dialect, told: u32, list: &SaScheduleList) -> WattValues
    requires { told < 32768000 }
    ensures { AreAdded spoken told (rule.schedules_in (holding (sa_schedule_list_parts list.now) ∷ [])) values result }
{
    with_tuples(values, spoken, told, list.sa_schedule_tuple.as_slice())
}

/// With each PMax of these schedules.
fn with_schedules(
    values: WattValues,
    spoken: Dialect,
    told: u32,
    schedules: &SaSchedules,
) -> WattValues
    requires { told < 32768000 }
    ensures { AreAdded spoken told (rule.schedules_in (sa_schedules_inside schedules.now ∷ [])) values result }
{
    let SaSchedules::SaScheduleList(list) = schedules;
    with_list(values, spoken, told, list)
}

/// What is kept of the limits of a post.
fn limits(
    plan: &PostPlan,
    spoken: Dialect,
    told: u32,
    parameter: &EvseChargeParameter,
) -> WattValues
    requires told { told < 32768000 }
    requires nominal { 0 < plan.now.nominal }
    ensures { AreOf plan.now spoken told
        (rule.limits_in (children (holding (one (evse_charge_parameter_name parameter.now) (evse_charge_parameter_inside parameter.now) ∷ []))))
        result }
{
    let none = WattValues::new();
    match parameter {
        EvseChargeParameter::Ac(ac) => none.with_current(plan, told, written(ac.evse_max_current)),
        EvseChargeParameter::Dc(dc) => none.with_power(told, written(dc.evse_maximum_power_limit)),
    }
}

/// What is kept of ChargeParameterDiscoveryRes.
pub(crate) fn parameters(
    plan: &PostPlan,
    spoken: Dialect,
    told: u32,
    reply: &ChargeParameterDiscoveryRes,
) -> WattValues
    requires told { told < 32768000 }
    requires nominal { 0 < plan.now.nominal }
    ensures { AreOf plan.now spoken told (rule.parameters_in (children (holding (charge_parameter_discovery_res_parts reply.now)))) result }
{
    let values = limits(plan, spoken, told, &reply.evse_charge_parameter);
    match &reply.sa_schedules {
        Some(schedules) => with_schedules(values, spoken, told, schedules),
        None => values,
    }
}

/// What is kept of EVSEMaximumPowerLimit, where it is there.
fn limit(spoken: Dialect, told: u32, power: Option<PhysicalValue>) -> WattValues
    requires { told < 32768000 }
    ensures { (plan : PostPlan) → AreOf plan spoken told
        (power_alone (option_map (λ v. rule.written_in (children (holding (physical_value_parts v)))) power)) result }
{
    let none = WattValues::new();
    match power {
        Some(power) => none.with_power(told, written(power)),
        None => none,
    }
}

/// What is kept of CurrentDemandRes.
pub(crate) fn demand(spoken: Dialect, told: u32, reply: &CurrentDemandRes<'_>) -> WattValues
    requires { told < 32768000 }
    ensures { (plan : PostPlan) → AreOf plan spoken told (rule.demand_in (children (holding (current_demand_res_parts reply.now)))) result }
{
    limit(spoken, told, reply.evse_maximum_power_limit)
}

/// What is kept of EVSEMaxCurrent, where it is there.
fn current(
    plan: &PostPlan,
    spoken: Dialect,
    told: u32,
    current: Option<PhysicalValue>,
) -> WattValues
    requires { 0 < plan.now.nominal }
    ensures { AreOf plan.now spoken told
        (current_alone (option_map (λ v. rule.written_in (children (holding (physical_value_parts v)))) current)) result }
{
    let none = WattValues::new();
    match current {
        Some(current) => none.with_current(plan, told, written(current)),
        None => none,
    }
}

/// What is kept of ChargingStatusRes.
pub(crate) fn status(
    plan: &PostPlan,
    spoken: Dialect,
    told: u32,
    reply: &ChargingStatusRes<'_>,
) -> WattValues
    requires { 0 < plan.now.nominal }
    ensures { AreOf plan.now spoken told (rule.status_in (children (holding (charging_status_res_parts reply.now)))) result }
{
    current(plan, spoken, told, reply.evse_max_current)
}
