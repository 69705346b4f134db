//! ChargeParameterDiscovery, as words have it (DIN SPEC 70121:2014).

ghost use Rattle.std.specs.Prelude.{◌≡◌, true, fold, map, min};
ghost use Rattle.std.specs.Option.{option_map};
ghost use Rattle.message_parts.specs.Contents.{holding};
ghost use Rattle.session_words.specs.Amounts.{above_zero};
ghost use Rattle.session_words.specs.declared.mode.Mode.{Mode};
ghost use Rattle.session_words.specs.declared.word.Ask.TheVariants as ask;
ghost use Rattle.tree_words.specs.Named.{children};
ghost use Rattle.din_power.specs.Discovery.{charge_parameter_discovery_req_parts, charge_parameter_discovery_res_parts};
ghost use Rattle.din_power.specs.Limits.{ev_charge_parameter_inside, evse_charge_parameter_inside};
ghost use Rattle.din_power.specs.Schedules.{sa_schedule_list_parts, sa_schedule_tuple_parts, sa_schedules_inside};
ghost use Rattle.word_tables.specs.Tables.{read};
ghost use Rattle.message_tables.specs.Values.{least_of};
ghost use Rattle.din_tables.specs.Parameters.{car_parameters, parameters_req, parameters_asked, tuple as tuple_table, schedules as schedules_table, post_parameters, parameters_res, limits_of, parameters_told};

use arrayvec::ArrayVec;
use din_power::{
    ChargeParameterDiscoveryReq, ChargeParameterDiscoveryRes, EvChargeParameter,
    EvseChargeParameter, PMaxScheduleEntry, SaScheduleList, SaScheduleTuple, SaSchedules,
};
use din_values::modes::mode_of;
use din_values::physical::{current_in, power_in, voltage_in, watts_in};
use din_values::states::processing_of;
use din_values::statuses::dc_status_of;
use session_words::{Amount, Ask, CarLimits, PostLimits, Tell, Tuple};

/// What a car can take.
#[tactic(auto, using(crate::proofs::Parts::car_read, crate::proofs::Values::charge_read, crate::proofs::Values::current_read, crate::proofs::Values::voltage_read, crate::proofs::Values::powers_read))]
fn car_limits(parameter: &EvChargeParameter) -> CarLimits
    ensures { (mode : Mode) → parameters_asked (mode, (read car_parameters (ev_charge_parameter_inside parameter.now), tt)) ≡ ask.ChargeParameters mode result }
{
    match parameter {
        EvChargeParameter::Dc(dc) => CarLimits::Dc {
            ready: dc.dc_ev_status.ev_ready,
            soc: dc.dc_ev_status.evress_soc,
            current: current_in(dc.ev_maximum_current_limit),
            watts: dc.ev_maximum_power_limit.map(power_in),
            voltage: voltage_in(dc.ev_maximum_voltage_limit),
        },
    }
}

/// What ChargeParameterDiscoveryReq asks.
pub(crate) fn parameters_ask(request: &ChargeParameterDiscoveryReq) -> Ask
    ensures { result ≡ parameters_asked (read parameters_req (children (holding (charge_parameter_discovery_req_parts request.now)))) }
{
    Ask::ChargeParameters {
        mode: mode_of(request.ev_requested_energy_transfer_type),
        limits: car_limits(&request.ev_charge_parameter),
    }
}

/// What a post can give.
#[tactic(auto, using(crate::proofs::Parts::post_read, crate::proofs::Values::status_read, crate::proofs::Values::current_read, crate::proofs::Values::voltage_read, crate::proofs::Values::powers_read))]
fn post_limits(parameter: &EvseChargeParameter) -> PostLimits
    ensures { result ≡ limits_of (read post_parameters (evse_charge_parameter_inside parameter.now)) }
{
    match parameter {
        EvseChargeParameter::Dc(dc) => PostLimits::Dc {
            status: dc_status_of(dc.dc_evse_status),
            current: current_in(dc.evse_maximum_current_limit),
            watts: dc.evse_maximum_power_limit.map(power_in),
            voltage: voltage_in(dc.evse_maximum_voltage_limit),
            least_current: current_in(dc.evse_minimum_current_limit),
            least_voltage: voltage_in(dc.evse_minimum_voltage_limit),
            ripple: current_in(dc.evse_peak_current_ripple),
        },
    }
}

/// The power of an entry.
fn entry_power(entry: &PMaxScheduleEntry) -> Amount
    ensures { result ≡ record { size = above_zero entry.now.p_max; right = true } }
{
    watts_in(entry.p_max)
}

/// The least of this power and those of entries.
fn least_with(first: u32, entries: &[PMaxScheduleEntry]) -> u32
    ensures { result ≡ fold min first (map (λ e. above_zero e.p_max) entries.now) }
{
    let mut least = first;
    for entry in entries {
        least = least.min(entry_power(entry).size);
    }
    least
}

/// The least power of a schedule, 0 of none.
fn least_watts(entries: &[PMaxScheduleEntry]) -> u32
    ensures { result ≡ least_of (map (λ e. above_zero e.p_max) entries.now) }
{
    match entries {
        [] => 0,
        [first, others @ ..] => least_with(entry_power(first).size, others),
    }
}

/// The least power of a schedule, which has no unit.
fn least_power(entries: &[PMaxScheduleEntry]) -> Amount
    ensures { result ≡ record { size = least_of (map (λ e. above_zero e.p_max) entries.now); right = true } }
{
    Amount {
        size: least_watts(entries),
        right: true,
    }
}

/// A schedule tuple.
#[tactic(auto, using(crate::proofs::Parts::tuple_read))]
fn tuple_in(tuple: &SaScheduleTuple) -> Tuple
    ensures { result ≡ read tuple_table (holding (sa_schedule_tuple_parts tuple.now)) }
{
    let entries = tuple.p_max_schedule.p_max_schedule_entry.as_slice();
    Tuple {
        id: tuple.sa_schedule_tuple_id,
        entries: entries.len() as u32,
        least: least_power(entries),
    }
}

/// The schedules of a post.
fn schedules_in(list: &SaScheduleList) -> ArrayVec<Tuple, 3>
    ensures { result.items ≡ read schedules_table (holding (sa_schedule_list_parts list.now)) }
{
    let all = list.sa_schedule_tuple.as_slice();
    let mut tuples = ArrayVec::new();
    for tuple in all {
        tuples.push(tuple_in(tuple));
    }
    tuples
}

/// The schedules of a post, where it tells them.
fn schedules_if(schedules: &Option<SaSchedules>) -> Option<ArrayVec<Tuple, 3>>
    ensures { result ≡ option_map (λ s. record { items = read schedules_table (sa_schedules_inside s) }) schedules.now }
{
    match schedules {
        Some(SaSchedules::SaScheduleList(list)) => Some(schedules_in(list)),
        None => None,
    }
}

/// What ChargeParameterDiscoveryRes tells.
#[tactic(auto, using(crate::proofs::Parts::parameters_res_read, crate::proofs::Values::step_read))]
pub(crate) fn parameters_tell(reply: &ChargeParameterDiscoveryRes) -> Tell
    ensures { result ≡ parameters_told (read parameters_res (children (holding (charge_parameter_discovery_res_parts reply.now)))).1 }
{
    Tell::ChargeParameters {
        processing: processing_of(reply.evse_processing),
        schedule: schedules_if(&reply.sa_schedules),
        limits: post_limits(&reply.evse_charge_parameter),
    }
}
