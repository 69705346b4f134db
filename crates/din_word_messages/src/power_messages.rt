//! Messages of charging, as they are written of words (DIN SPEC 70121:2014).

ghost use Rattle.std.specs.Prelude.{◌≡◌, IfSome, pos};
ghost use Rattle.std.specs.Option.{option_map};
ghost use Rattle.message_parts.specs.Contents.{mapped, holding, trees_of};
ghost use Rattle.din_power.specs.Charging.{cable_check_req_parts, cable_check_res_parts, pre_charge_req_parts, pre_charge_res_parts, current_demand_req_parts, current_demand_res_parts, welding_detection_req_parts, welding_detection_res_parts};
ghost use Rattle.din_power.specs.Delivery.{charging_profile_parts, power_delivery_req_parts, power_delivery_res_parts};
ghost use Rattle.word_tables.specs.Tables.{written};
ghost use Rattle.din_tables.specs.Power as table;
ghost use Rattle.din_word_messages.specs.Spellable.{AreFewWatts, AreTenths, AreWatts, CanProfile};

use arrayvec::ArrayVec;
use din_parts::EvseStatus;
use din_power::{
    CableCheckReq, CableCheckRes, ChargingProfile, CurrentDemandReq, CurrentDemandRes,
    PowerDeliveryReq, PowerDeliveryRes, PreChargeReq, PreChargeRes, ProfileEntry,
    WeldingDetectionReq, WeldingDetectionRes,
};
use din_values::codes::response_code;
use din_values::physical::{power_if, tenths_if, tenths_of, watts_of};
use din_values::states::evse_processing;
use din_values::statuses::{dc_ev_status, dc_evse_status};
use session_words::{Amount, Code, DcStatus, Processing, Progress};

/// CableCheckReq.
pub(crate) fn cable_check_req(ready: bool, soc: u8) -> CableCheckReq
    ensures { trees_of (cable_check_req_parts result) ≡ written table.car_alone ((ready, (soc, tt)), tt) }
{
    CableCheckReq {
        dc_ev_status: dc_ev_status(ready, soc),
    }
}

/// CableCheckRes.
#[tactic(auto, using(crate::proofs::Values::code_written, crate::proofs::Values::levels_written, crate::proofs::Values::status_written, crate::proofs::Values::notify_written, crate::proofs::Values::step_written))]
pub(crate) fn cable_check_res(code: Code, status: DcStatus, processing: Processing) -> CableCheckRes
    ensures { trees_of (cable_check_res_parts result) ≡ written table.cable_check_res (code, (status, (processing, tt))) }
{
    CableCheckRes {
        response_code: response_code(code),
        dc_evse_status: dc_evse_status(status),
        evse_processing: evse_processing(processing),
    }
}

/// PreChargeReq.
#[tactic(auto, using(crate::proofs::Values::unit_written))]
pub(crate) fn pre_charge_req(ready: bool, soc: u8, voltage: Amount, current: Amount) -> PreChargeReq
    requires voltage { AreTenths voltage }
    requires current { AreTenths current }
    ensures { trees_of (pre_charge_req_parts result) ≡ written table.pre_charge_req ((ready, (soc, tt)), (voltage, (current, tt))) }
{
    PreChargeReq {
        dc_ev_status: dc_ev_status(ready, soc),
        ev_target_voltage: tenths_of(voltage),
        ev_target_current: tenths_of(current),
    }
}

/// PreChargeRes.
#[tactic(auto, using(crate::proofs::Values::code_written, crate::proofs::Values::levels_written, crate::proofs::Values::status_written, crate::proofs::Values::notify_written, crate::proofs::Values::unit_written))]
pub(crate) fn pre_charge_res(code: Code, status: DcStatus, voltage: Amount) -> PreChargeRes
    requires { AreTenths voltage }
    ensures { trees_of (pre_charge_res_parts result) ≡ written table.present_voltage (code, (status, (voltage, tt))) }
{
    PreChargeRes {
        response_code: response_code(code),
        dc_evse_status: dc_evse_status(status),
        evse_present_voltage: tenths_of(voltage),
    }
}

/// This power from second 0 on.
fn profile_entry(power: Amount) -> ProfileEntry
    requires { AreFewWatts power }
    ensures { result ≡ record { charging_profile_entry_start = 0; charging_profile_entry_max_power = pos power.size } }
{
    ProfileEntry {
        charging_profile_entry_start: 0,
        charging_profile_entry_max_power: watts_of(power),
    }
}

/// A profile of one entry, of this schedule tuple.
fn profile_of(tuple: i16, power: Amount) -> ChargingProfile
    requires { AreFewWatts power }
    ensures { holding (charging_profile_parts result) ≡ written table.profile (tuple, power) }
{
    let mut entries = ArrayVec::new();
    entries.push(profile_entry(power));
    ChargingProfile {
        sa_schedule_tuple_id: tuple,
        profile_entry: entries,
    }
}

/// A profile, where there are its tuple and its power.
fn profile_if(tuple: Option<i16>, power: Option<Amount>) -> Option<ChargingProfile>
    requires { CanProfile tuple power }
    ensures { mapped (λ p. holding (charging_profile_parts p)) result ≡ option_map (λ p. written table.profile p) (table.profile_if tuple power) }
{
    match (tuple, power) {
        (Some(tuple), Some(power)) => Some(profile_of(tuple, power)),
        _ => None,
    }
}

/// Whether PowerDelivery asks for the start of charging.
fn is_start(progress: Progress) -> bool
    ensures { result ≡ table.is_start progress }
{
    matches!(progress, Progress::Start)
}

/// PowerDeliveryReq.
pub(crate) fn delivery_req(
    progress: Progress,
    tuple: Option<i16>,
    profile: Option<Amount>,
) -> PowerDeliveryReq
    requires { CanProfile tuple profile }
    ensures { trees_of (power_delivery_req_parts result) ≡ written table.delivery_req (table.is_start progress, (table.profile_if tuple profile, tt)) }
{
    PowerDeliveryReq {
        ready_to_charge_state: is_start(progress),
        charging_profile: profile_if(tuple, profile),
        ev_power_delivery_parameter: None,
    }
}

/// PowerDeliveryRes.
#[tactic(auto, using(crate::proofs::Values::code_written, crate::proofs::Values::levels_written, crate::proofs::Values::status_written, crate::proofs::Values::notify_written))]
pub(crate) fn delivery_res(code: Code, status: DcStatus) -> PowerDeliveryRes
    ensures { trees_of (power_delivery_res_parts result) ≡ written table.delivery_res (code, (status, tt)) }
{
    PowerDeliveryRes {
        response_code: response_code(code),
        evse_status: EvseStatus::Dc(dc_evse_status(status)),
    }
}

/// CurrentDemandReq.
#[tactic(auto, using(crate::proofs::Values::unit_written))]
pub(crate) fn demand_req(ready: bool, soc: u8, voltage: Amount, current: Amount) -> CurrentDemandReq
    requires voltage { AreTenths voltage }
    requires current { AreTenths current }
    ensures { trees_of (current_demand_req_parts result) ≡ written table.demand_req ((ready, (soc, tt)), (current, (voltage, tt))) }
{
    CurrentDemandReq {
        dc_ev_status: dc_ev_status(ready, soc),
        ev_target_current: tenths_of(current),
        ev_maximum_voltage_limit: None,
        ev_maximum_current_limit: None,
        ev_maximum_power_limit: None,
        bulk_charging_complete: None,
        charging_complete: false,
        remaining_time_to_full_so_c: None,
        remaining_time_to_bulk_so_c: None,
        ev_target_voltage: tenths_of(voltage),
    }
}

/// CurrentDemandRes.
#[tactic(auto, using(crate::proofs::Values::code_written, crate::proofs::Values::levels_written, crate::proofs::Values::status_written, crate::proofs::Values::notify_written, crate::proofs::Values::unit_written, crate::proofs::Values::tenths_if_written, crate::proofs::Values::power_if_written))]
pub(crate) fn demand_res(
    code: Code,
    status: DcStatus,
    voltage: Amount,
    current: Amount,
    current_cut: bool,
    voltage_cut: bool,
    watts_cut: bool,
    most_voltage: Option<Amount>,
    most_current: Option<Amount>,
    most_watts: Option<Amount>,
) -> CurrentDemandRes
    requires voltage { AreTenths voltage }
    requires current { AreTenths current }
    requires most_voltage { IfSome most_voltage AreTenths }
    requires most_current { IfSome most_current AreTenths }
    requires most_watts { IfSome most_watts AreWatts }
    ensures { trees_of (current_demand_res_parts result) ≡ written table.demand_res (code, (status, (voltage, (current, (current_cut, (voltage_cut, (watts_cut, (most_voltage, (most_current, (most_watts, tt)))))))))) }
{
    CurrentDemandRes {
        response_code: response_code(code),
        dc_evse_status: dc_evse_status(status),
        evse_present_voltage: tenths_of(voltage),
        evse_present_current: tenths_of(current),
        evse_current_limit_achieved: current_cut,
        evse_voltage_limit_achieved: voltage_cut,
        evse_power_limit_achieved: watts_cut,
        evse_maximum_voltage_limit: tenths_if(most_voltage),
        evse_maximum_current_limit: tenths_if(most_current),
        evse_maximum_power_limit: power_if(most_watts),
    }
}

/// WeldingDetectionReq.
pub(crate) fn welding_req(ready: bool, soc: u8) -> WeldingDetectionReq
    ensures { trees_of (welding_detection_req_parts result) ≡ written table.car_alone ((ready, (soc, tt)), tt) }
{
    WeldingDetectionReq {
        dc_ev_status: dc_ev_status(ready, soc),
    }
}

/// WeldingDetectionRes.
#[tactic(auto, using(crate::proofs::Values::code_written, crate::proofs::Values::levels_written, crate::proofs::Values::status_written, crate::proofs::Values::notify_written, crate::proofs::Values::unit_written))]
pub(crate) fn welding_res(code: Code, status: DcStatus, voltage: Amount) -> WeldingDetectionRes
    requires { AreTenths voltage }
    ensures { trees_of (welding_detection_res_parts result) ≡ written table.present_voltage (code, (status, (voltage, tt))) }
{
    WeldingDetectionRes {
        response_code: response_code(code),
        dc_evse_status: dc_evse_status(status),
        evse_present_voltage: tenths_of(voltage),
    }
}
