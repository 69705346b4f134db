//! Messages of charging, as words have them (DIN SPEC 70121:2014).

ghost use Rattle.std.specs.Prelude.{◌≡◌, true, fold, max, map};
ghost use Rattle.std.specs.Option.{option_map};
ghost use Rattle.message_parts.specs.Contents.{holding};
ghost use Rattle.session_words.specs.Amounts.{above_zero};
ghost use Rattle.session_words.specs.declared.limits.PostStatus.TheVariants as post;
ghost use Rattle.tree_words.specs.Named.{children};
ghost use Rattle.din_parts.specs.Values.{evse_status_inside};
ghost use Rattle.din_power.specs.Charging.{cable_check_req_parts, cable_check_res_parts, pre_charge_req_parts, pre_charge_res_parts, current_demand_req_parts, current_demand_res_parts, welding_detection_req_parts, welding_detection_res_parts};
ghost use Rattle.din_power.specs.Delivery.{charging_profile_parts, power_delivery_req_parts, power_delivery_res_parts};
ghost use Rattle.word_tables.specs.Tables.{read};
ghost use Rattle.din_tables.specs.Values.{post_status};
ghost use Rattle.din_tables.specs.Power.{car_alone, present_voltage, cable_check_asked, cable_check_res, cable_check_told, pre_charge_req, pre_charge_asked, pre_charge_told, profile as profile_table, progress_of as progress_as, delivery_req, delivery_asked, delivery_res, delivery_told, demand_req, demand_asked, demand_res, demand_told, welding_asked, welding_told};

use din_parts::EvseStatus;
use din_power::{
    CableCheckReq, CableCheckRes, ChargingProfile, CurrentDemandReq, CurrentDemandRes,
    PowerDeliveryReq, PowerDeliveryRes, PreChargeReq, PreChargeRes, ProfileEntry,
    WeldingDetectionReq, WeldingDetectionRes,
};
use din_values::physical::{current_in, power_in, voltage_in, watts_in};
use din_values::states::processing_of;
use din_values::statuses::dc_status_of;
use session_words::{Amount, Ask, PostStatus, Progress, Tell};

/// What CableCheckReq asks.
#[tactic(auto, using(crate::proofs::Values::charge_read))]
pub(crate) fn cable_check_ask(request: &CableCheckReq) -> Ask
    ensures { result ≡ cable_check_asked (read car_alone (children (holding (cable_check_req_parts request.now)))) }
{
    Ask::CableCheck {
        ready: request.dc_ev_status.ev_ready,
        soc: request.dc_ev_status.evress_soc,
    }
}

/// What CableCheckRes tells.
#[tactic(auto, using(crate::proofs::Values::status_read, crate::proofs::Values::step_read))]
pub(crate) fn cable_check_tell(reply: &CableCheckRes) -> Tell
    ensures { result ≡ cable_check_told (read cable_check_res (children (holding (cable_check_res_parts reply.now)))).1 }
{
    Tell::CableCheck {
        status: dc_status_of(reply.dc_evse_status),
        processing: processing_of(reply.evse_processing),
    }
}

/// What PreChargeReq asks.
#[tactic(auto, using(crate::proofs::Values::charge_read, crate::proofs::Values::voltage_read, crate::proofs::Values::current_read))]
pub(crate) fn pre_charge_ask(request: &PreChargeReq) -> Ask
    ensures { result ≡ pre_charge_asked (read pre_charge_req (children (holding (pre_charge_req_parts request.now)))) }
{
    Ask::PreCharge {
        ready: request.dc_ev_status.ev_ready,
        soc: request.dc_ev_status.evress_soc,
        voltage: voltage_in(request.ev_target_voltage),
        current: current_in(request.ev_target_current),
    }
}

/// What PreChargeRes tells.
#[tactic(auto, using(crate::proofs::Values::status_read, crate::proofs::Values::voltage_read))]
pub(crate) fn pre_charge_tell(reply: &PreChargeRes) -> Tell
    ensures { result ≡ pre_charge_told (read present_voltage (children (holding (pre_charge_res_parts reply.now)))).1 }
{
    Tell::PreCharge {
        status: dc_status_of(reply.dc_evse_status),
        voltage: voltage_in(reply.evse_present_voltage),
    }
}

/// The power of an entry.
fn profile_power(entry: &ProfileEntry) -> Amount
    ensures { result ≡ record { size = above_zero entry.now.charging_profile_entry_max_power; right = true } }
{
    watts_in(entry.charging_profile_entry_max_power)
}

/// The greatest power of a profile, 0 of none.
fn most_watts(entries: &[ProfileEntry]) -> u32
    ensures { result ≡ fold max 0 (map (λ e. above_zero e.charging_profile_entry_max_power) entries.now) }
{
    let mut most = 0;
    for entry in entries {
        most = profile_power(entry).size.max(most);
    }
    most
}

/// The greatest power of a profile, which has no unit.
fn most_power(entries: &[ProfileEntry]) -> Amount
    ensures { result ≡ record { size = fold max 0 (map (λ e. above_zero e.charging_profile_entry_max_power) entries.now); right = true } }
{
    Amount {
        size: most_watts(entries),
        right: true,
    }
}

/// The power of a profile.
#[tactic(auto, using(crate::proofs::Parts::profile_read))]
fn profile_in(profile: &ChargingProfile) -> Amount
    ensures { result ≡ (read profile_table (holding (charging_profile_parts profile.now))).1 }
{
    most_power(profile.profile_entry.as_slice())
}

/// The power of a profile, where there is one.
fn profile_if(profile: &Option<ChargingProfile>) -> Option<Amount>
    ensures { result ≡ option_map (λ p. (read profile_table (holding (charging_profile_parts p))).1) profile.now }
{
    match profile {
        Some(profile) => Some(profile_in(profile)),
        None => None,
    }
}

/// The schedule tuple of a profile, where there is one.
fn tuple_if(profile: &Option<ChargingProfile>) -> Option<i16>
    ensures { result ≡ option_map (λ p. p.sa_schedule_tuple_id) profile.now }
{
    match profile {
        Some(profile) => Some(profile.sa_schedule_tuple_id),
        None => None,
    }
}

/// What ReadyToChargeState asks for.
fn progress_of(ready: bool) -> Progress
    ensures { result ≡ progress_as ready }
{
    if ready {
        Progress::Start
    } else {
        Progress::Stop
    }
}

/// What PowerDeliveryReq asks.
#[tactic(auto, using(crate::proofs::Parts::delivery_req_read))]
pub(crate) fn delivery_ask(request: &PowerDeliveryReq) -> Ask
    ensures { result ≡ delivery_asked (read delivery_req (children (holding (power_delivery_req_parts request.now)))) }
{
    Ask::PowerDelivery {
        progress: progress_of(request.ready_to_charge_state),
        tuple: tuple_if(&request.charging_profile),
        profile: profile_if(&request.charging_profile),
    }
}

/// The status of a post, which gives direct current.
#[tactic(auto, using(crate::proofs::Values::status_read))]
fn post_status_of(status: EvseStatus) -> PostStatus
    ensures { result ≡ post.Dc (read post_status (evse_status_inside status)) }
{
    let EvseStatus::Dc(dc) = status;
    PostStatus::Dc(dc_status_of(dc))
}

/// What PowerDeliveryRes tells.
#[tactic(auto, using(crate::proofs::Parts::delivery_res_read))]
pub(crate) fn delivery_tell(reply: &PowerDeliveryRes) -> Tell
    ensures { result ≡ delivery_told (read delivery_res (children (holding (power_delivery_res_parts reply.now)))).1 }
{
    Tell::PowerDelivery {
        status: post_status_of(reply.evse_status),
    }
}

/// What CurrentDemandReq asks.
#[tactic(auto, using(crate::proofs::Parts::demand_req_read, crate::proofs::Values::charge_read, crate::proofs::Values::voltage_read, crate::proofs::Values::current_read))]
pub(crate) fn demand_ask(request: &CurrentDemandReq) -> Ask
    ensures { result ≡ demand_asked (read demand_req (children (holding (current_demand_req_parts request.now)))) }
{
    Ask::CurrentDemand {
        ready: request.dc_ev_status.ev_ready,
        soc: request.dc_ev_status.evress_soc,
        voltage: voltage_in(request.ev_target_voltage),
        current: current_in(request.ev_target_current),
    }
}

/// What CurrentDemandRes tells.
#[tactic(auto, using(crate::proofs::Parts::demand_res_read, crate::proofs::Values::voltage_read, crate::proofs::Values::current_read, crate::proofs::Values::status_read, crate::proofs::Values::voltages_read, crate::proofs::Values::currents_read, crate::proofs::Values::powers_read))]
pub(crate) fn demand_tell(reply: &CurrentDemandRes) -> Tell
    ensures { result ≡ demand_told (read demand_res (children (holding (current_demand_res_parts reply.now)))).1 }
{
    Tell::CurrentDemand {
        status: dc_status_of(reply.dc_evse_status),
        voltage: voltage_in(reply.evse_present_voltage),
        current: current_in(reply.evse_present_current),
        current_cut: reply.evse_current_limit_achieved,
        voltage_cut: reply.evse_voltage_limit_achieved,
        watts_cut: reply.evse_power_limit_achieved,
        most_voltage: reply.evse_maximum_voltage_limit.map(voltage_in),
        most_current: reply.evse_maximum_current_limit.map(current_in),
        most_watts: reply.evse_maximum_power_limit.map(power_in),
        evse: None,
    }
}

/// What WeldingDetectionReq asks.
#[tactic(auto, using(crate::proofs::Values::charge_read))]
pub(crate) fn welding_ask(request: &WeldingDetectionReq) -> Ask
    ensures { result ≡ welding_asked (read car_alone (children (holding (welding_detection_req_parts request.now)))) }
{
    Ask::WeldingDetection {
        ready: request.dc_ev_status.ev_ready,
        soc: request.dc_ev_status.evress_soc,
    }
}

/// What WeldingDetectionRes tells.
#[tactic(auto, using(crate::proofs::Values::status_read, crate::proofs::Values::voltage_read))]
pub(crate) fn welding_tell(reply: &WeldingDetectionRes) -> Tell
    ensures { result ≡ welding_told (read present_voltage (children (holding (welding_detection_res_parts reply.now)))).1 }
{
    Tell::WeldingDetection {
        status: dc_status_of(reply.dc_evse_status),
        voltage: voltage_in(reply.evse_present_voltage),
    }
}
