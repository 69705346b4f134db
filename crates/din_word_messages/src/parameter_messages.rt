//! ChargeParameterDiscovery, as it is written of words (DIN SPEC 70121:2014).

ghost use Rattle.std.specs.Prelude.{◌≡◌, ◌≤◌, ℕ, IfSome, map};
ghost use Rattle.std.specs.List.{range_with_len};
ghost use Rattle.std.specs.Option.{option_map};
ghost use Rattle.message_parts.specs.Contents.{Inside, mapped, holding, trees_of};
ghost use Rattle.din_power.specs.Discovery.{charge_parameter_discovery_req_parts, charge_parameter_discovery_res_parts};
ghost use Rattle.din_power.specs.Limits.{dc_ev_charge_parameter_parts, dc_evse_charge_parameter_parts};
ghost use Rattle.din_power.specs.Schedules.{sa_schedules_name, sa_schedules_inside};
ghost use Rattle.din_schema.specs.declared.names.TheConstants.{SA_SCHEDULE_LIST};
ghost use Rattle.word_tables.specs.Tables.{written};
ghost use Rattle.din_tables.specs.Parameters as table;
ghost use Rattle.din_word_messages.specs.Schedules as rule;
ghost use Rattle.din_word_messages.specs.Spellable.{AreTenths, AreWatts, CanTuple, CanTuples};

use arrayvec::ArrayVec;
use din_power::{
    ChargeParameterDiscoveryReq, ChargeParameterDiscoveryRes, DcEvChargeParameter,
    DcEvseChargeParameter, EvChargeParameter, EvseChargeParameter, PMaxSchedule, PMaxScheduleEntry,
    RelativeTimeInterval, SaScheduleList, SaScheduleTuple, SaSchedules, TimeInterval,
};
use din_values::codes::response_code;
use din_values::modes::energy_transfer_mode;
use din_values::physical::{power_if, tenths_of, watts_of};
use din_values::states::evse_processing;
use din_values::statuses::{dc_ev_status, dc_evse_status};
use session_words::{Amount, Code, DcStatus, Mode, Processing, Tuple};

/// What a car can take.
#[tactic(auto, using(crate::proofs::Values::unit_written, crate::proofs::Values::power_if_written))]
fn ev_parameter(
    ready: bool,
    soc: u8,
    current: Amount,
    watts: Option<Amount>,
    voltage: Amount,
) -> DcEvChargeParameter
    requires current { AreTenths current }
    requires watts { IfSome watts AreWatts }
    requires voltage { AreTenths voltage }
    ensures { holding (dc_ev_charge_parameter_parts result) ≡ written table.car_parameters ((ready, (soc, tt)), (current, (watts, (voltage, tt)))) }
{
    DcEvChargeParameter {
        dc_ev_status: dc_ev_status(ready, soc),
        ev_maximum_current_limit: tenths_of(current),
        ev_maximum_power_limit: power_if(watts),
        ev_maximum_voltage_limit: tenths_of(voltage),
        ev_energy_capacity: None,
        ev_energy_request: None,
        full_soc: None,
        bulk_soc: None,
    }
}

/// ChargeParameterDiscoveryReq.
#[tactic(auto, using(crate::proofs::Values::mode_written))]
pub(crate) fn parameters_req(
    mode: Mode,
    ready: bool,
    soc: u8,
    current: Amount,
    watts: Option<Amount>,
    voltage: Amount,
) -> ChargeParameterDiscoveryReq
    requires current { AreTenths current }
    requires watts { IfSome watts AreWatts }
    requires voltage { AreTenths voltage }
    ensures { trees_of (charge_parameter_discovery_req_parts result)
        ≡ written table.parameters_req (mode, (((ready, (soc, tt)), (current, (watts, (voltage, tt)))), tt)) }
{
    ChargeParameterDiscoveryReq {
        ev_requested_energy_transfer_type: energy_transfer_mode(mode),
        ev_charge_parameter: EvChargeParameter::Dc(ev_parameter(
            ready, soc, current, watts, voltage,
        )),
    }
}

/// What a post can give.
#[tactic(auto, using(crate::proofs::Values::unit_written, crate::proofs::Values::power_if_written, crate::proofs::Values::levels_written, crate::proofs::Values::status_written, crate::proofs::Values::notify_written))]
fn evse_parameter(
    status: DcStatus,
    current: Amount,
    watts: Option<Amount>,
    voltage: Amount,
    least_current: Amount,
    least_voltage: Amount,
    ripple: Amount,
) -> DcEvseChargeParameter
    requires current { AreTenths current }
    requires watts { IfSome watts AreWatts }
    requires voltage { AreTenths voltage }
    requires least_current { AreTenths least_current }
    requires least_voltage { AreTenths least_voltage }
    requires ripple { AreTenths ripple }
    ensures { holding (dc_evse_charge_parameter_parts result)
        ≡ written table.post_parameters (status, (current, (watts, (voltage, (least_current, (least_voltage, (ripple, tt))))))) }
{
    DcEvseChargeParameter {
        dc_evse_status: dc_evse_status(status),
        evse_maximum_current_limit: tenths_of(current),
        evse_maximum_power_limit: power_if(watts),
        evse_maximum_voltage_limit: tenths_of(voltage),
        evse_minimum_current_limit: tenths_of(least_current),
        evse_minimum_voltage_limit: tenths_of(least_voltage),
        evse_current_regulation_tolerance: None,
        evse_peak_current_ripple: tenths_of(ripple),
        evse_energy_to_be_delivered: None,
    }
}

/// An entry of a schedule: this power from this second on, for a day.
fn entry_at(power: i16, start: u32) -> PMaxScheduleEntry
    ensures { result ≡ rule.entry_at power start }
{
    PMaxScheduleEntry {
        time_interval: TimeInterval::Relative(RelativeTimeInterval {
            start,
            duration: Some(86400),
        }),
        p_max: power,
    }
}

/// So many entries, from second 0 on, each of this power.
fn entries_of(n: u32, power: i16) -> ArrayVec<PMaxScheduleEntry, 128>
    requires { n ≤ 128 }
    ensures { result.items ≡ map (rule.entry_at power) (range_with_len 0 n) }
{
    let mut entries = ArrayVec::new();
    for start in 0..n {
        entries.push(entry_at(power, start));
    }
    entries
}

/// A schedule tuple, whose schedule has the number 1.
fn schedule_tuple(tuple: &Tuple) -> SaScheduleTuple
    requires { CanTuple tuple.now }
    ensures { result ≡ rule.schedule_tuple tuple.now }
{
    SaScheduleTuple {
        sa_schedule_tuple_id: tuple.id,
        p_max_schedule: PMaxSchedule {
            p_max_schedule_id: 1,
            p_max_schedule_entry: entries_of(tuple.entries, watts_of(tuple.least)),
        },
    }
}

/// The schedules of a post.
fn schedules_of(tuples: &ArrayVec<Tuple, 3>) -> SaSchedules
    requires { CanTuples tuples.now }
    ensures name { sa_schedules_name result ≡ SA_SCHEDULE_LIST }
    ensures inside { sa_schedules_inside result ≡ written table.schedules tuples.now.items }
{
    let all = tuples.as_slice();
    let mut list = ArrayVec::new();
    for tuple in all {
        list.push(schedule_tuple(tuple));
    }
    SaSchedules::SaScheduleList(SaScheduleList {
        sa_schedule_tuple: list,
    })
}

/// The schedules of a post, where it tells them.
fn schedules_if(schedule: &Option<ArrayVec<Tuple, 3>>) -> Option<SaSchedules>
    requires { IfSome schedule.now CanTuples }
    ensures { mapped {Y = ℕ × Inside} (λ s. (sa_schedules_name s, sa_schedules_inside s)) result
        ≡ option_map (λ ts. (SA_SCHEDULE_LIST, written table.schedules ts)) (option_map (λ v. v.items) schedule.now) }
{
    match schedule {
        Some(tuples) => Some(schedules_of(tuples)),
        None => None,
    }
}

/// ChargeParameterDiscoveryRes.
#[tactic(auto, using(crate::proofs::Values::code_written, crate::proofs::Values::step_written, crate::proofs::Parts::schedules_written))]
pub(crate) fn parameters_res(
    code: Code,
    processing: Processing,
    schedule: &Option<ArrayVec<Tuple, 3>>,
    status: DcStatus,
    current: Amount,
    watts: Option<Amount>,
    voltage: Amount,
    least_current: Amount,
    least_voltage: Amount,
    ripple: Amount,
) -> ChargeParameterDiscoveryRes
    requires schedule { IfSome schedule.now CanTuples }
    requires current { AreTenths current }
    requires watts { IfSome watts AreWatts }
    requires voltage { AreTenths voltage }
    requires least_current { AreTenths least_current }
    requires least_voltage { AreTenths least_voltage }
    requires ripple { AreTenths ripple }
    ensures { trees_of (charge_parameter_discovery_res_parts result) ≡ written table.parameters_res (
      code,
      (
        processing,
        (
          option_map (λ tuples. tuples.items) schedule.now,
          ((status, (current, (watts, (voltage, (least_current, (least_voltage, (ripple, tt))))))), tt),
        ),
      ),
    ) }
{
    ChargeParameterDiscoveryRes {
        response_code: response_code(code),
        evse_processing: evse_processing(processing),
        sa_schedules: schedules_if(schedule),
        evse_charge_parameter: EvseChargeParameter::Dc(evse_parameter(
            status,
            current,
            watts,
            voltage,
            least_current,
            least_voltage,
            ripple,
        )),
    }
}
