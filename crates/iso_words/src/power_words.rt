//! Messages of charging, as words have them (ISO 15118-2:2014, 8.4.3.9, 8.4.4 and 8.4.5).

ghost use Rattle.std.specs.Prelude.{◌≡◌, fold, max, map};
ghost use Rattle.std.specs.List.{list_all};
ghost use Rattle.std.specs.Option.{option_map};
ghost use Rattle.message_parts.specs.Contents.{holding};
ghost use Rattle.tree_words.specs.Named.{children};
ghost use Rattle.iso_power.specs.Charging.{cable_check_req_parts, cable_check_res_parts, pre_charge_req_parts, pre_charge_res_parts, current_demand_req_parts, current_demand_res_parts, welding_detection_req_parts, welding_detection_res_parts};
ghost use Rattle.iso_delivery.specs.Delivery.{charging_profile_parts, power_delivery_req_parts, power_delivery_res_parts, charging_status_res_parts};
ghost use Rattle.iso_values.specs.Physical.{power_in as power_as};
ghost use Rattle.word_tables.specs.Tables.{read};
ghost use Rattle.iso_tables.specs.Power.{car_alone, present_voltage, cable_check_asked, cable_check_res, cable_check_told, pre_charge_req, pre_charge_asked, pre_charge_told, profile as profile_table, delivery_req, delivery_asked, delivery_res, delivery_told, demand_req, demand_asked, demand_res, demand_told, charging_res, charging_told, welding_asked, welding_told};

use iso_delivery::{
    ChargingProfile, ChargingStatusRes, PowerDeliveryReq, PowerDeliveryRes, ProfileEntry,
};
use iso_power::{
    CableCheckReq, CableCheckRes, CurrentDemandReq, CurrentDemandRes, PreChargeReq, PreChargeRes,
    WeldingDetectionReq, WeldingDetectionRes,
};
use iso_values::physical::{current_in, power_in, voltage_in};
use iso_values::states::{notify_of, processing_of, progress_of};
use iso_values::statuses::{dc_status_of, post_status_of};
use session_words::{Amount, Ask, EvseId, Tell};
use word_values::evse_text_of;

/// What CableCheckReq asks.
pub(crate) fn cable_check_ask(request: &CableCheckReq) -> Ask
    ensures { result ≡ cable_check_asked (read car_alone (children (holding (cable_check_req_parts request.now)))) }
{
    Ask::CableCheck {
        ready: request.dc_ev_status.ev_ready,
        soc: request.dc_ev_status.evress_soc,
    }
}

/// What CableCheckRes tells.
#[tactic(auto, using(crate::proofs::Values::status_read, crate::proofs::Values::step_read))]
pub(crate) fn cable_check_tell(reply: &CableCheckRes) -> Tell
    ensures { result ≡ cable_check_told (read cable_check_res (children (holding (cable_check_res_parts reply.now)))).1 }
{
    Tell::CableCheck {
        status: dc_status_of(reply.dc_evse_status),
        processing: processing_of(reply.evse_processing),
    }
}

/// What PreChargeReq asks.
#[tactic(auto, using(crate::proofs::Values::voltage_read, crate::proofs::Values::current_read))]
pub(crate) fn pre_charge_ask(request: &PreChargeReq) -> Ask
    ensures { result ≡ pre_charge_asked (read pre_charge_req (children (holding (pre_charge_req_parts request.now)))) }
{
    Ask::PreCharge {
        ready: request.dc_ev_status.ev_ready,
        soc: request.dc_ev_status.evress_soc,
        voltage: voltage_in(request.ev_target_voltage),
        current: current_in(request.ev_target_current),
    }
}

/// What PreChargeRes tells.
#[tactic(auto, using(crate::proofs::Values::status_read, crate::proofs::Values::voltage_read))]
pub(crate) fn pre_charge_tell(reply: &PreChargeRes) -> Tell
    ensures { result ≡ pre_charge_told (read present_voltage (children (holding (pre_charge_res_parts reply.now)))).1 }
{
    Tell::PreCharge {
        status: dc_status_of(reply.dc_evse_status),
        voltage: voltage_in(reply.evse_present_voltage),
    }
}

/// The power of an entry.
fn profile_power(entry: &ProfileEntry) -> Amount
    ensures { result ≡ power_as entry.now.charging_profile_entry_max_power }
{
    power_in(entry.charging_profile_entry_max_power)
}

/// The greatest power of a profile, 0 of none.
fn most_watts(entries: &[ProfileEntry]) -> u32
    ensures { result ≡ fold max 0 (map (λ e. (power_as e.charging_profile_entry_max_power).size) entries.now) }
{
    let mut most = 0;
    for entry in entries {
        most = profile_power(entry).size.max(most);
    }
    most
}

/// Whether the units of all entries are right.
fn are_right(entries: &[ProfileEntry]) -> bool
    ensures { result ≡ list_all (λ e. (power_as e.charging_profile_entry_max_power).right) entries.now }
{
    for entry in entries {
        if !profile_power(entry).right {
            return false;
        }
    }
    true
}

/// The greatest power of a profile, right where all its units are.
fn most_power(entries: &[ProfileEntry]) -> Amount
    ensures { result ≡ record {
      size = fold max 0 (map (λ e. (power_as e.charging_profile_entry_max_power).size) entries.now);
      right = list_all (λ e. (power_as e.charging_profile_entry_max_power).right) entries.now;
    } }
{
    Amount {
        size: most_watts(entries),
        right: are_right(entries),
    }
}

/// The power of a profile.
#[tactic(auto, using(crate::proofs::Parts::profile_read))]
fn profile_in(profile: &ChargingProfile) -> Amount
    ensures { result ≡ read profile_table (holding (charging_profile_parts profile.now)) }
{
    most_power(profile.profile_entry.as_slice())
}

/// The power of a profile, where there is one.
fn profile_if(profile: &Option<ChargingProfile>) -> Option<Amount>
    ensures { result ≡ option_map (λ p. read profile_table (holding (charging_profile_parts p))) profile.now }
{
    match profile {
        Some(profile) => Some(profile_in(profile)),
        None => None,
    }
}

/// What PowerDeliveryReq asks.
#[tactic(auto, using(crate::proofs::Parts::delivery_req_read, crate::proofs::Values::progress_read))]
pub(crate) fn delivery_ask(request: &PowerDeliveryReq) -> Ask
    ensures { result ≡ delivery_asked (read delivery_req (children (holding (power_delivery_req_parts request.now)))) }
{
    Ask::PowerDelivery {
        progress: progress_of(request.charge_progress),
        tuple: Some(i16::from(request.sa_schedule_tuple_id)),
        profile: profile_if(&request.charging_profile),
    }
}

/// What PowerDeliveryRes tells.
#[tactic(auto, using(crate::proofs::Parts::delivery_res_read))]
pub(crate) fn delivery_tell(reply: &PowerDeliveryRes) -> Tell
    ensures { result ≡ delivery_told (read delivery_res (children (holding (power_delivery_res_parts reply.now)))).1 }
{
    Tell::PowerDelivery {
        status: post_status_of(reply.evse_status),
    }
}

/// What CurrentDemandReq asks.
#[tactic(auto, using(crate::proofs::Parts::demand_req_read))]
pub(crate) fn demand_ask(request: &CurrentDemandReq) -> Ask
    ensures { result ≡ demand_asked (read demand_req (children (holding (current_demand_req_parts request.now)))) }
{
    Ask::CurrentDemand {
        ready: request.dc_ev_status.ev_ready,
        soc: request.dc_ev_status.evress_soc,
        voltage: voltage_in(request.ev_target_voltage),
        current: current_in(request.ev_target_current),
    }
}

/// What CurrentDemandRes tells.
#[tactic(auto, using(crate::proofs::Parts::demand_res_read))]
pub(crate) fn demand_tell(reply: &CurrentDemandRes<'_>) -> Tell
    ensures { result ≡ demand_told (read demand_res (children (holding (current_demand_res_parts reply.now)))).1 }
{
    Tell::CurrentDemand {
        status: dc_status_of(reply.dc_evse_status),
        voltage: voltage_in(reply.evse_present_voltage),
        current: current_in(reply.evse_present_current),
        current_cut: reply.evse_current_limit_achieved,
        voltage_cut: reply.evse_voltage_limit_achieved,
        watts_cut: reply.evse_power_limit_achieved,
        most_voltage: reply.evse_maximum_voltage_limit.map(voltage_in),
        most_current: reply.evse_maximum_current_limit.map(current_in),
        most_watts: reply.evse_maximum_power_limit.map(power_in),
        evse: Some(EvseId::Text(evse_text_of(&reply.evseid))),
    }
}

/// What ChargingStatusRes tells.
#[tactic(auto, using(crate::proofs::Parts::charging_res_read))]
pub(crate) fn charging_tell(reply: &ChargingStatusRes<'_>) -> Tell
    ensures { result ≡ charging_told (read charging_res (children (holding (charging_status_res_parts reply.now)))).1 }
{
    Tell::ChargingStatus {
        notify: notify_of(reply.ac_evse_status.evse_notification),
        evse: EvseId::Text(evse_text_of(&reply.evseid)),
        current: reply.evse_max_current.map(current_in),
    }
}

/// What WeldingDetectionReq asks.
pub(crate) fn welding_ask(request: &WeldingDetectionReq) -> Ask
    ensures { result ≡ welding_asked (read car_alone (children (holding (welding_detection_req_parts request.now)))) }
{
    Ask::WeldingDetection {
        ready: request.dc_ev_status.ev_ready,
        soc: request.dc_ev_status.evress_soc,
    }
}

/// What WeldingDetectionRes tells.
#[tactic(auto, using(crate::proofs::Values::status_read, crate::proofs::Values::voltage_read))]
pub(crate) fn welding_tell(reply: &WeldingDetectionRes) -> Tell
    ensures { result ≡ welding_told (read present_voltage (children (holding (welding_detection_res_parts reply.now)))).1 }
{
    Tell::WeldingDetection {
        status: dc_status_of(reply.dc_evse_status),
        voltage: voltage_in(reply.evse_present_voltage),
    }
}
