//! ChargeParameterDiscovery, as it is written of words (ISO 15118-2:2014, 8.4.3.8).

ghost use Rattle.std.specs.Prelude.{◌≡◌, ◌≤◌, ℕ, IfSome, [], ◌∷◌, map, pos};
ghost use Rattle.std.specs.List.{range_with_len};
ghost use Rattle.std.specs.Option.{option_map};
ghost use Rattle.message_parts.specs.Contents.{Inside, one, mapped, trees_of};
ghost use Rattle.session_words.specs.Amounts.{above_zero};
ghost use Rattle.iso_parts.specs.declared.enumerations.UnitSymbol.TheVariants.{Wh};
ghost use Rattle.iso_parameters.specs.Discovery.{charge_parameter_discovery_req_parts, charge_parameter_discovery_res_parts};
ghost use Rattle.iso_parameters.specs.Limits.{ev_charge_parameter_name, ev_charge_parameter_inside, evse_charge_parameter_name, evse_charge_parameter_inside};
ghost use Rattle.iso_schedules.specs.Schedules.{sa_schedules_name, sa_schedules_inside};
ghost use Rattle.iso_schema.specs.declared.names.TheConstants.{SA_SCHEDULE_LIST};
ghost use Rattle.iso_values.specs.Physical.{power_of as power_as};
ghost use Rattle.word_tables.specs.Tables.{written};
ghost use Rattle.iso_tables.specs.Values.{or_no_power};
ghost use Rattle.iso_tables.specs.Parameters as table;
ghost use Rattle.iso_word_messages.specs.Schedules as rule;
ghost use Rattle.iso_word_messages.specs.Spellable.{CanCarLimits, CanPostLimits, CanTuple, CanTuples, IsSomeWatts, IsTupleNumber};

use arrayvec::ArrayVec;
use iso_parameters::{
    AcEvChargeParameter, AcEvseChargeParameter, ChargeParameterDiscoveryReq,
    ChargeParameterDiscoveryRes, DcEvChargeParameter, DcEvseChargeParameter, EvChargeParameter,
    EvseChargeParameter,
};
use iso_parts::{PhysicalValue, UnitSymbol};
use iso_schedules::{
    PMaxSchedule, PMaxScheduleEntry, RelativeTimeInterval, SaScheduleList, SaScheduleTuple,
    SaSchedules, TimeInterval,
};
use iso_values::codes::response_code;
use iso_values::modes::energy_transfer_mode;
use iso_values::physical::{current_of, nominal_of, power_if, power_of, voltage_of};
use iso_values::states::evse_processing;
use iso_values::statuses::{ac_evse_status, dc_ev_status, dc_evse_status};
use session_words::{Amount, CarLimits, Code, Mode, PostLimits, Processing, Tuple};

/// No energy.
fn no_energy() -> PhysicalValue
    ensures { result ≡ record { multiplier = pos 0; unit = Wh; value = pos 0 } }
{
    PhysicalValue {
        multiplier: 0,
        unit: UnitSymbol::Wh,
        value: 0,
    }
}

/// What a car can take.
#[tactic(auto, using(crate::proofs::Values::volt_written, crate::proofs::Values::ampere_written, crate::proofs::Values::powers_written))]
fn ev_parameter(limits: &CarLimits) -> EvChargeParameter
    requires { CanCarLimits limits.now }
    ensures { trees_of (one (ev_charge_parameter_name result) (ev_charge_parameter_inside result) ∷ []) ≡ written table.car_row (table.car_parts limits.now, tt) }
{
    match limits {
        CarLimits::Ac {
            most_current,
            least_current,
            most_voltage,
        } => EvChargeParameter::Ac(AcEvChargeParameter {
            departure_time: None,
            e_amount: no_energy(),
            ev_max_voltage: voltage_of(*most_voltage),
            ev_max_current: current_of(*most_current),
            ev_min_current: current_of(*least_current),
        }),
        CarLimits::Dc {
            ready,
            soc,
            current,
            watts,
            voltage,
        } => EvChargeParameter::Dc(DcEvChargeParameter {
            departure_time: None,
            dc_ev_status: dc_ev_status(*ready, *soc),
            ev_maximum_current_limit: current_of(*current),
            ev_maximum_power_limit: power_if(*watts),
            ev_maximum_voltage_limit: voltage_of(*voltage),
            ev_energy_capacity: None,
            ev_energy_request: None,
            full_soc: None,
            bulk_soc: None,
        }),
    }
}

/// ChargeParameterDiscoveryReq.
#[tactic(auto, using(crate::proofs::Values::mode_written))]
pub(crate) fn parameters_req(mode: Mode, limits: &CarLimits) -> ChargeParameterDiscoveryReq
    requires { CanCarLimits limits.now }
    ensures { trees_of (charge_parameter_discovery_req_parts result) ≡ written table.parameters_req (mode, (table.car_parts limits.now, tt)) }
{
    ChargeParameterDiscoveryReq {
        max_entries_sa_schedule_tuple: None,
        requested_energy_transfer_mode: energy_transfer_mode(mode),
        ev_charge_parameter: ev_parameter(limits),
    }
}

/// The greatest power, and none where a word has none.
fn power_or_none(watts: Option<Amount>) -> PhysicalValue
    requires { IsSomeWatts watts }
    ensures { result ≡ power_as (or_no_power watts) }
{
    match watts {
        Some(watts) => power_of(watts),
        None => PhysicalValue {
            multiplier: 0,
            unit: UnitSymbol::W,
            value: 0,
        },
    }
}

/// What a post can give.
#[tactic(auto, using(crate::proofs::Values::volt_written, crate::proofs::Values::ampere_written, crate::proofs::Values::watt_written, crate::proofs::Values::levels_written, crate::proofs::Values::status_written, crate::proofs::Values::notify_written))]
fn evse_parameter(limits: &PostLimits) -> EvseChargeParameter
    requires { CanPostLimits limits.now }
    ensures { trees_of (one (evse_charge_parameter_name result) (evse_charge_parameter_inside result) ∷ []) ≡ written table.post_row (table.limit_parts limits.now, tt) }
{
    match limits {
        PostLimits::Ac {
            notify,
            nominal,
            current,
        } => EvseChargeParameter::Ac(AcEvseChargeParameter {
            ac_evse_status: ac_evse_status(*notify),
            evse_nominal_voltage: nominal_of(*nominal),
            evse_max_current: current_of(*current),
        }),
        PostLimits::Dc {
            status,
            current,
            watts,
            voltage,
            least_current,
            least_voltage,
            ripple,
        } => EvseChargeParameter::Dc(DcEvseChargeParameter {
            dc_evse_status: dc_evse_status(*status),
            evse_maximum_current_limit: current_of(*current),
            evse_maximum_power_limit: power_or_none(*watts),
            evse_maximum_voltage_limit: voltage_of(*voltage),
            evse_minimum_current_limit: current_of(*least_current),
            evse_minimum_voltage_limit: voltage_of(*least_voltage),
            evse_current_regulation_tolerance: None,
            evse_peak_current_ripple: current_of(*ripple),
            evse_energy_to_be_delivered: None,
        }),
    }
}

/// An entry of a schedule: this power from this second on, for a day.
fn entry_at(power: PhysicalValue, start: u32) -> PMaxScheduleEntry
    ensures { result ≡ rule.entry_at power start }
{
    PMaxScheduleEntry {
        time_interval: TimeInterval::Relative(RelativeTimeInterval {
            start,
            duration: Some(86400),
        }),
        p_max: power,
    }
}

/// So many entries, from second 0 on, each of this power.
fn entries_of(n: u32, power: PhysicalValue) -> ArrayVec<PMaxScheduleEntry, 128>
    requires { n ≤ 128 }
    ensures { result.items ≡ map (rule.entry_at power) (range_with_len 0 n) }
{
    let mut entries = ArrayVec::new();
    for start in 0..n {
        entries.push(entry_at(power, start));
    }
    entries
}

/// The number of a schedule tuple.
fn number_of(id: i16) -> u8
    requires { IsTupleNumber id }
    ensures { result ≡ above_zero id }
{
    id as u8
}

/// A schedule tuple.
fn schedule_tuple(tuple: &Tuple) -> SaScheduleTuple
    requires { CanTuple tuple.now }
    ensures { result ≡ rule.schedule_tuple tuple.now }
{
    SaScheduleTuple {
        sa_schedule_tuple_id: number_of(tuple.id),
        p_max_schedule: PMaxSchedule {
            p_max_schedule_entry: entries_of(tuple.entries, power_of(tuple.least)),
        },
    }
}

/// The schedules of a post.
fn schedules_of(tuples: &ArrayVec<Tuple, 3>) -> SaSchedules
    requires { CanTuples tuples.now }
    ensures name { sa_schedules_name result ≡ SA_SCHEDULE_LIST }
    ensures inside { sa_schedules_inside result ≡ written table.schedules tuples.now.items }
{
    let all = tuples.as_slice();
    let mut list = ArrayVec::new();
    for tuple in all {
        list.push(schedule_tuple(tuple));
    }
    SaSchedules::SaScheduleList(SaScheduleList {
        sa_schedule_tuple: list,
    })
}

/// The schedules of a post, where it tells them.
fn schedules_if(schedule: &Option<ArrayVec<Tuple, 3>>) -> Option<SaSchedules>
    requires { IfSome schedule.now CanTuples }
    ensures { mapped {Y = ℕ × Inside} (λ s. (sa_schedules_name s, sa_schedules_inside s)) result
        ≡ option_map (λ ts. (SA_SCHEDULE_LIST, written table.schedules ts)) (option_map (λ v. v.items) schedule.now) }
{
    match schedule {
        Some(tuples) => Some(schedules_of(tuples)),
        None => None,
    }
}

/// ChargeParameterDiscoveryRes.
#[tactic(auto, using(crate::proofs::Values::code_written, crate::proofs::Values::step_written, crate::proofs::Parts::schedules_written))]
pub(crate) fn parameters_res(
    code: Code,
    processing: Processing,
    schedule: &Option<ArrayVec<Tuple, 3>>,
    limits: &PostLimits,
) -> ChargeParameterDiscoveryRes
    requires schedule { IfSome schedule.now CanTuples }
    requires limits { CanPostLimits limits.now }
    ensures { trees_of (charge_parameter_discovery_res_parts result) ≡ written table.parameters_res (code, (processing, (option_map (λ tuples. tuples.items) schedule.now, (table.limit_parts limits.now, tt)))) }
{
    ChargeParameterDiscoveryRes {
        response_code: response_code(code),
        evse_processing: evse_processing(processing),
        sa_schedules: schedules_if(schedule),
        evse_charge_parameter: evse_parameter(limits),
    }
}
