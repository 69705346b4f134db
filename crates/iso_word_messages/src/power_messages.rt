//! Messages of charging, as they are written of words (ISO 15118-2:2014, 8.4.3.9, 8.4.4 and 8.4.5).

ghost use Rattle.std.specs.Prelude.{◌≡◌, IfSome, pos};
ghost use Rattle.std.specs.Option.{option_map};
ghost use Rattle.message_parts.specs.Contents.{mapped, holding, trees_of};
ghost use Rattle.iso_delivery.specs.Delivery.{profile_entry_parts, charging_profile_parts, power_delivery_req_parts, power_delivery_res_parts, charging_status_res_parts};
ghost use Rattle.iso_power.specs.Charging.{cable_check_req_parts, cable_check_res_parts, pre_charge_req_parts, pre_charge_res_parts, current_demand_req_parts, current_demand_res_parts, welding_detection_req_parts, welding_detection_res_parts};
ghost use Rattle.word_tables.specs.Tables.{written};
ghost use Rattle.iso_tables.specs.Power as table;
ghost use Rattle.iso_word_messages.specs.Spellable.{AreTenths, AreWatts, IsSomeTuple};

use arrayvec::ArrayVec;
use iso_delivery::{
    ChargingProfile, ChargingStatusRes, PowerDeliveryReq, PowerDeliveryRes, ProfileEntry,
};
use iso_power::{
    CableCheckReq, CableCheckRes, CurrentDemandReq, CurrentDemandRes, PreChargeReq, PreChargeRes,
    WeldingDetectionReq, WeldingDetectionRes,
};
use iso_values::codes::response_code;
use iso_values::physical::{current_if, current_of, power_if, power_of, voltage_if, voltage_of};
use iso_values::states::{charge_progress, evse_processing};
use iso_values::statuses::{ac_evse_status, dc_ev_status, dc_evse_status, evse_status};
use message_parts::Text;
use session_words::{Amount, Code, DcStatus, Notify, PostStatus, Processing, Progress};

/// CableCheckReq.
pub(crate) fn cable_check_req(ready: bool, soc: u8) -> CableCheckReq
    ensures { trees_of (cable_check_req_parts result) ≡ written table.car_alone ((ready, (soc, tt)), tt) }
{
    CableCheckReq {
        dc_ev_status: dc_ev_status(ready, soc),
    }
}

/// CableCheckRes.
#[tactic(auto, using(crate::proofs::Values::code_written, crate::proofs::Values::levels_written, crate::proofs::Values::status_written, crate::proofs::Values::notify_written, crate::proofs::Values::step_written))]
pub(crate) fn cable_check_res(code: Code, status: DcStatus, processing: Processing) -> CableCheckRes
    ensures { trees_of (cable_check_res_parts result) ≡ written table.cable_check_res (code, (status, (processing, tt))) }
{
    CableCheckRes {
        response_code: response_code(code),
        dc_evse_status: dc_evse_status(status),
        evse_processing: evse_processing(processing),
    }
}

/// PreChargeReq.
#[tactic(auto, using(crate::proofs::Values::volt_written, crate::proofs::Values::ampere_written))]
pub(crate) fn pre_charge_req(ready: bool, soc: u8, voltage: Amount, current: Amount) -> PreChargeReq
    requires voltage { AreTenths voltage }
    requires current { AreTenths current }
    ensures { trees_of (pre_charge_req_parts result) ≡ written table.pre_charge_req ((ready, (soc, tt)), (voltage, (current, tt))) }
{
    PreChargeReq {
        dc_ev_status: dc_ev_status(ready, soc),
        ev_target_voltage: voltage_of(voltage),
        ev_target_current: current_of(current),
    }
}

/// PreChargeRes.
#[tactic(auto, using(crate::proofs::Values::code_written, crate::proofs::Values::levels_written, crate::proofs::Values::status_written, crate::proofs::Values::notify_written, crate::proofs::Values::volt_written))]
pub(crate) fn pre_charge_res(code: Code, status: DcStatus, voltage: Amount) -> PreChargeRes
    requires { AreTenths voltage }
    ensures { trees_of (pre_charge_res_parts result) ≡ written table.present_voltage (code, (status, (voltage, tt))) }
{
    PreChargeRes {
        response_code: response_code(code),
        dc_evse_status: dc_evse_status(status),
        evse_present_voltage: voltage_of(voltage),
    }
}

/// This power from second 0 on.
#[tactic(auto, using(crate::proofs::Values::watt_written))]
fn profile_entry(power: Amount) -> ProfileEntry
    requires { AreWatts power }
    ensures { holding (profile_entry_parts result) ≡ written table.profile_entry power }
{
    ProfileEntry {
        charging_profile_entry_start: 0,
        charging_profile_entry_max_power: power_of(power),
        charging_profile_entry_max_number_of_phases_in_use: None,
    }
}

/// A profile of one entry.
fn profile_of(power: Amount) -> ChargingProfile
    requires { AreWatts power }
    ensures { holding (charging_profile_parts result) ≡ written table.profile power }
{
    let mut entries = ArrayVec::new();
    entries.push(profile_entry(power));
    ChargingProfile {
        profile_entry: entries,
    }
}

/// A profile, where there is one.
fn profile_if(power: Option<Amount>) -> Option<ChargingProfile>
    requires { IfSome power AreWatts }
    ensures { mapped (λ p. holding (charging_profile_parts p)) result ≡ option_map (λ p. written table.profile p) power }
{
    match power {
        Some(power) => Some(profile_of(power)),
        None => None,
    }
}

/// The number of a schedule tuple.
#[tactic(auto, using(crate::proofs::Values::number_written))]
fn tuple_number(tuple: Option<i16>) -> u8
    requires { IsSomeTuple tuple }
    ensures { pos result ≡ table.tuple_or_first tuple }
{
    match tuple {
        Some(tuple) => tuple as u8,
        None => 1,
    }
}

/// PowerDeliveryReq.
#[tactic(auto, using(crate::proofs::Values::progress_written))]
pub(crate) fn delivery_req(
    progress: Progress,
    tuple: Option<i16>,
    profile: Option<Amount>,
) -> PowerDeliveryReq
    requires tuple { IsSomeTuple tuple }
    requires profile { IfSome profile AreWatts }
    ensures { trees_of (power_delivery_req_parts result) ≡ written table.delivery_req (progress, (table.tuple_or_first tuple, (profile, tt))) }
{
    PowerDeliveryReq {
        charge_progress: charge_progress(progress),
        sa_schedule_tuple_id: tuple_number(tuple),
        charging_profile: profile_if(profile),
        ev_power_delivery_parameter: None,
    }
}

/// PowerDeliveryRes.
#[tactic(auto, using(crate::proofs::Values::code_written, crate::proofs::Parts::post_status_written))]
pub(crate) fn delivery_res(code: Code, status: PostStatus) -> PowerDeliveryRes
    ensures { trees_of (power_delivery_res_parts result) ≡ written table.delivery_res (code, (table.status_parts status, tt)) }
{
    PowerDeliveryRes {
        response_code: response_code(code),
        evse_status: evse_status(status),
    }
}

/// CurrentDemandReq.
#[tactic(auto, using(crate::proofs::Values::volt_written, crate::proofs::Values::ampere_written))]
pub(crate) fn demand_req(ready: bool, soc: u8, voltage: Amount, current: Amount) -> CurrentDemandReq
    requires voltage { AreTenths voltage }
    requires current { AreTenths current }
    ensures { trees_of (current_demand_req_parts result) ≡ written table.demand_req ((ready, (soc, tt)), (current, (voltage, tt))) }
{
    CurrentDemandReq {
        dc_ev_status: dc_ev_status(ready, soc),
        ev_target_current: current_of(current),
        ev_maximum_voltage_limit: None,
        ev_maximum_current_limit: None,
        ev_maximum_power_limit: None,
        bulk_charging_complete: None,
        charging_complete: false,
        remaining_time_to_full_so_c: None,
        remaining_time_to_bulk_so_c: None,
        ev_target_voltage: voltage_of(voltage),
    }
}

/// CurrentDemandRes: schedule tuple 1, and no meter.
#[tactic(auto, using(crate::proofs::Values::code_written, crate::proofs::Values::levels_written, crate::proofs::Values::status_written, crate::proofs::Values::notify_written, crate::proofs::Values::volt_written, crate::proofs::Values::ampere_written, crate::proofs::Values::voltages_written, crate::proofs::Values::currents_written, crate::proofs::Values::powers_written))]
pub(crate) fn demand_res<'a>(
    code: Code,
    status: DcStatus,
    voltage: Amount,
    current: Amount,
    current_cut: bool,
    voltage_cut: bool,
    watts_cut: bool,
    most_voltage: Option<Amount>,
    most_current: Option<Amount>,
    most_watts: Option<Amount>,
    evse: &'a str,
) -> CurrentDemandRes<'a>
    requires voltage { AreTenths voltage }
    requires current { AreTenths current }
    requires most_voltage { IfSome most_voltage AreTenths }
    requires most_current { IfSome most_current AreTenths }
    requires most_watts { IfSome most_watts AreWatts }
    ensures { trees_of (current_demand_res_parts result) ≡ written table.demand_res (code, (status, (voltage, (current, (current_cut, (voltage_cut, (watts_cut, (most_voltage, (most_current, (most_watts, (evse.now, tt))))))))))) }
{
    CurrentDemandRes {
        response_code: response_code(code),
        dc_evse_status: dc_evse_status(status),
        evse_present_voltage: voltage_of(voltage),
        evse_present_current: current_of(current),
        evse_current_limit_achieved: current_cut,
        evse_voltage_limit_achieved: voltage_cut,
        evse_power_limit_achieved: watts_cut,
        evse_maximum_voltage_limit: voltage_if(most_voltage),
        evse_maximum_current_limit: current_if(most_current),
        evse_maximum_power_limit: power_if(most_watts),
        evseid: Text::Written(evse),
        sa_schedule_tuple_id: 1,
        meter_info: None,
        receipt_required: None,
    }
}

/// ChargingStatusRes: schedule tuple 1, and no meter.
#[tactic(auto, using(crate::proofs::Values::code_written, crate::proofs::Values::notify_written, crate::proofs::Values::currents_written))]
pub(crate) fn charging_res<'a>(
    code: Code,
    notify: Notify,
    evse: &'a str,
    current: Option<Amount>,
) -> ChargingStatusRes<'a>
    requires { IfSome current AreTenths }
    ensures { trees_of (charging_status_res_parts result) ≡ written table.charging_res (code, (evse.now, (current, (notify, tt)))) }
{
    ChargingStatusRes {
        response_code: response_code(code),
        evseid: Text::Written(evse),
        sa_schedule_tuple_id: 1,
        evse_max_current: current_if(current),
        meter_info: None,
        receipt_required: None,
        ac_evse_status: ac_evse_status(notify),
    }
}

/// WeldingDetectionReq.
pub(crate) fn welding_req(ready: bool, soc: u8) -> WeldingDetectionReq
    ensures { trees_of (welding_detection_req_parts result) ≡ written table.car_alone ((ready, (soc, tt)), tt) }
{
    WeldingDetectionReq {
        dc_ev_status: dc_ev_status(ready, soc),
    }
}

/// WeldingDetectionRes.
#[tactic(auto, using(crate::proofs::Values::code_written, crate::proofs::Values::levels_written, crate::proofs::Values::status_written, crate::proofs::Values::notify_written, crate::proofs::Values::volt_written))]
pub(crate) fn welding_res(code: Code, status: DcStatus, voltage: Amount) -> WeldingDetectionRes
    requires { AreTenths voltage }
    ensures { trees_of (welding_detection_res_parts result) ≡ written table.present_voltage (code, (status, (voltage, tt))) }
{
    WeldingDetectionRes {
        response_code: response_code(code),
        dc_evse_status: dc_evse_status(status),
        evse_present_voltage: voltage_of(voltage),
    }
}
