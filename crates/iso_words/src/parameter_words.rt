//! ChargeParameterDiscovery, as words have it (ISO 15118-2:2014, 8.4.3.8).

ghost use Rattle.std.specs.Prelude.{◌≡◌, [], ◌∷◌, fold, map, min};
ghost use Rattle.std.specs.List.{list_all};
ghost use Rattle.std.specs.Option.{option_map};
ghost use Rattle.message_parts.specs.Contents.{one, holding};
ghost use Rattle.tree_words.specs.Named.{children};
ghost use Rattle.iso_parameters.specs.Discovery.{charge_parameter_discovery_req_parts, charge_parameter_discovery_res_parts};
ghost use Rattle.iso_parameters.specs.Limits.{ev_charge_parameter_name, ev_charge_parameter_inside, evse_charge_parameter_name, evse_charge_parameter_inside};
ghost use Rattle.iso_schedules.specs.Schedules.{sa_schedule_list_parts, sa_schedule_tuple_parts, sa_schedules_inside};
ghost use Rattle.iso_values.specs.Physical.{power_in as power_as};
ghost use Rattle.word_tables.specs.Tables.{read};
ghost use Rattle.message_tables.specs.Values.{least_of};
ghost use Rattle.iso_tables.specs.Parameters.{car_of, car_row, parameters_req, parameters_asked, tuple as tuple_table, schedules as schedules_table, limits_of, post_row, parameters_res, parameters_told};

use arrayvec::ArrayVec;
use iso_parameters::{
    ChargeParameterDiscoveryReq, ChargeParameterDiscoveryRes, EvChargeParameter,
    EvseChargeParameter,
};
use iso_schedules::{PMaxScheduleEntry, SaScheduleList, SaScheduleTuple, SaSchedules};
use iso_values::modes::mode_of;
use iso_values::physical::{current_in, power_in, voltage_in};
use iso_values::states::{notify_of, processing_of};
use iso_values::statuses::dc_status_of;
use session_words::{Amount, Ask, CarLimits, PostLimits, Tell, Tuple};

/// What a car can take.
#[tactic(auto, using(crate::proofs::Parts::ac_car_read, crate::proofs::Parts::dc_car_read))]
fn car_limits(parameter: &EvChargeParameter) -> CarLimits
    ensures { result ≡ car_of (read car_row (children (holding (one (ev_charge_parameter_name parameter.now) (ev_charge_parameter_inside parameter.now) ∷ [])))).0 }
{
    match parameter {
        EvChargeParameter::Ac(ac) => CarLimits::Ac {
            most_current: current_in(ac.ev_max_current),
            least_current: current_in(ac.ev_min_current),
            most_voltage: voltage_in(ac.ev_max_voltage),
        },
        EvChargeParameter::Dc(dc) => CarLimits::Dc {
            ready: dc.dc_ev_status.ev_ready,
            soc: dc.dc_ev_status.evress_soc,
            current: current_in(dc.ev_maximum_current_limit),
            watts: dc.ev_maximum_power_limit.map(power_in),
            voltage: voltage_in(dc.ev_maximum_voltage_limit),
        },
    }
}

/// What ChargeParameterDiscoveryReq asks.
#[tactic(auto, using(crate::proofs::Parts::parameters_req_read, crate::proofs::Values::mode_read))]
pub(crate) fn parameters_ask(request: &ChargeParameterDiscoveryReq) -> Ask
    ensures { result ≡ parameters_asked (read parameters_req (children (holding (charge_parameter_discovery_req_parts request.now)))) }
{
    Ask::ChargeParameters {
        mode: mode_of(request.requested_energy_transfer_mode),
        limits: car_limits(&request.ev_charge_parameter),
    }
}

/// What a post can give.
#[tactic(auto, using(crate::proofs::Parts::ac_post_read, crate::proofs::Parts::dc_post_read))]
fn post_limits(parameter: &EvseChargeParameter) -> PostLimits
    ensures { result ≡ limits_of (read post_row (children (holding (one (evse_charge_parameter_name parameter.now) (evse_charge_parameter_inside parameter.now) ∷ [])))).0 }
{
    match parameter {
        EvseChargeParameter::Ac(ac) => PostLimits::Ac {
            notify: notify_of(ac.ac_evse_status.evse_notification),
            nominal: voltage_in(ac.evse_nominal_voltage),
            current: current_in(ac.evse_max_current),
        },
        EvseChargeParameter::Dc(dc) => PostLimits::Dc {
            status: dc_status_of(dc.dc_evse_status),
            current: current_in(dc.evse_maximum_current_limit),
            watts: Some(power_in(dc.evse_maximum_power_limit)),
            voltage: voltage_in(dc.evse_maximum_voltage_limit),
            least_current: current_in(dc.evse_minimum_current_limit),
            least_voltage: voltage_in(dc.evse_minimum_voltage_limit),
            ripple: current_in(dc.evse_peak_current_ripple),
        },
    }
}

/// The power of an entry.
fn entry_power(entry: &PMaxScheduleEntry) -> Amount
    ensures { result ≡ power_as entry.now.p_max }
{
    power_in(entry.p_max)
}

/// The least of this power and those of entries.
fn least_with(first: u32, entries: &[PMaxScheduleEntry]) -> u32
    ensures { result ≡ fold min first (map (λ e. (power_as e.p_max).size) entries.now) }
{
    let mut least = first;
    for entry in entries {
        least = least.min(entry_power(entry).size);
    }
    least
}

/// The least power of a schedule, 0 of none.
fn least_watts(entries: &[PMaxScheduleEntry]) -> u32
    ensures { result ≡ least_of (map (λ e. (power_as e.p_max).size) entries.now) }
{
    match entries {
        [] => 0,
        [first, others @ ..] => least_with(entry_power(first).size, others),
    }
}

/// Whether the units of all entries are right.
fn are_right(entries: &[PMaxScheduleEntry]) -> bool
    ensures { result ≡ list_all (λ e. (power_as e.p_max).right) entries.now }
{
    for entry in entries {
        if !entry_power(entry).right {
            return false;
        }
    }
    true
}

/// The least power of a schedule, right where all its units are.
fn least_power(entries: &[PMaxScheduleEntry]) -> Amount
    ensures { result ≡ record {
      size = least_of (map (λ e. (power_as e.p_max).size) entries.now);
      right = list_all (λ e. (power_as e.p_max).right) entries.now;
    } }
{
    Amount {
        size: least_watts(entries),
        right: are_right(entries),
    }
}

/// A schedule tuple.
#[tactic(auto, using(crate::proofs::Parts::tuple_read))]
fn tuple_in(tuple: &SaScheduleTuple) -> Tuple
    ensures { result ≡ read tuple_table (holding (sa_schedule_tuple_parts tuple.now)) }
{
    let entries = tuple.p_max_schedule.p_max_schedule_entry.as_slice();
    Tuple {
        id: i16::from(tuple.sa_schedule_tuple_id),
        entries: entries.len() as u32,
        least: least_power(entries),
    }
}

/// The schedules of a post.
fn schedules_in(list: &SaScheduleList) -> ArrayVec<Tuple, 3>
    ensures { result.items ≡ read schedules_table (holding (sa_schedule_list_parts list.now)) }
{
    let all = list.sa_schedule_tuple.as_slice();
    let mut tuples = ArrayVec::new();
    for tuple in all {
        tuples.push(tuple_in(tuple));
    }
    tuples
}

/// The schedules of a post, where it tells them.
fn schedules_if(schedules: &Option<SaSchedules>) -> Option<ArrayVec<Tuple, 3>>
    ensures { result ≡ option_map (λ s. record { items = read schedules_table (sa_schedules_inside s) }) schedules.now }
{
    match schedules {
        Some(SaSchedules::SaScheduleList(list)) => Some(schedules_in(list)),
        None => None,
    }
}

/// What ChargeParameterDiscoveryRes tells.
#[tactic(auto, using(crate::proofs::Parts::parameters_res_read, crate::proofs::Values::step_read))]
pub(crate) fn parameters_tell(reply: &ChargeParameterDiscoveryRes) -> Tell
    ensures { result ≡ parameters_told (read parameters_res (children (holding (charge_parameter_discovery_res_parts reply.now)))).1 }
{
    Tell::ChargeParameters {
        processing: processing_of(reply.evse_processing),
        schedule: schedules_if(&reply.sa_schedules),
        limits: post_limits(&reply.evse_charge_parameter),
    }
}
