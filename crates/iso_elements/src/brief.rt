//! Types of elements of the messages of ISO 15118-2.

ghost use Rattle.std.specs.Prelude.{◌≡◌, List, Some, IfOk, IfErr, drop};
ghost use Rattle.exi_documents.specs.Trees.{Event as TreeEvent};
ghost use Rattle.message_parts.specs.Contents.{told_inside};
ghost use Rattle.message_parts.specs.Reading.{Frame, IsOpen, IsRefusal, IsChosen, Leaves, seen_of};
ghost use Rattle.iso_schema.specs.Declarations.{kinds};
ghost use Rattle.iso_schema.specs.declared.names.TheConstants.{PAYMENT_SERVICE_SELECTION_REQ, POWER_DELIVERY_REQ};
ghost use Rattle.iso_elements.specs.Brief.{brief_element_members, brief_element_name, brief_element_inside};

use exi_documents::Refusal;
use exi_schema::Places;
use iso_delivery::{ChargingStatusReq, ChargingStatusRes, PowerDeliveryReq, PowerDeliveryRes};
use iso_details::ServiceDetailReq;
use iso_parameters::ChargeParameterDiscoveryReq;
use iso_power::{
    CableCheckReq, CableCheckRes, CurrentDemandReq, CurrentDemandRes, PreChargeReq, PreChargeRes,
    WeldingDetectionReq, WeldingDetectionRes,
};
use iso_schema::names;
use iso_setup::{
    AuthorizationReq, AuthorizationRes, PaymentServiceSelectionReq, PaymentServiceSelectionRes,
    ServiceDiscoveryReq, SessionSetupReq, SessionSetupRes, SessionStopReq, SessionStopRes,
};
use message_parts::exi_events::EventWriter;
use message_parts::{Descent, LargeChoice, PutChoice, member, put_record};

/// One element of BodyElement that holds no long list.
#[derive(Drop)]
pub enum BriefElement<'a> {
    AuthorizationReq(AuthorizationReq<'a>),
    AuthorizationRes(AuthorizationRes),
    CableCheckReq(CableCheckReq),
    CableCheckRes(CableCheckRes),
    ChargeParameterDiscoveryReq(ChargeParameterDiscoveryReq),
    ChargingStatusReq(ChargingStatusReq),
    ChargingStatusRes(ChargingStatusRes<'a>),
    CurrentDemandReq(CurrentDemandReq),
    CurrentDemandRes(CurrentDemandRes<'a>),
    PaymentServiceSelectionReq(PaymentServiceSelectionReq),
    PaymentServiceSelectionRes(PaymentServiceSelectionRes),
    PowerDeliveryReq(PowerDeliveryReq),
    PowerDeliveryRes(PowerDeliveryRes),
    PreChargeReq(PreChargeReq),
    PreChargeRes(PreChargeRes),
    ServiceDetailReq(ServiceDetailReq),
    ServiceDiscoveryReq(ServiceDiscoveryReq<'a>),
    SessionSetupReq(SessionSetupReq<'a>),
    SessionSetupRes(SessionSetupRes<'a>),
    SessionStopReq(SessionStopReq),
    SessionStopRes(SessionStopRes),
    WeldingDetectionReq(WeldingDetectionReq),
    WeldingDetectionRes(WeldingDetectionRes),
}

impl PutChoice for BriefElement<'_> {
    ghost use Rattle.iso_schema.specs.Declarations.{kinds};
    ghost use Rattle.iso_elements.specs.Brief.{brief_element_members, brief_element_name, brief_element_inside};

    ghost kinds = { kinds };

    ghost members = { brief_element_members };

    ghost name = { brief_element_name };

    ghost inside = { brief_element_inside };

    fn write_member<P: Places>(&self, writer: &mut EventWriter<'_, '_, P>) {
        match self {
            BriefElement::AuthorizationReq(authorization_req) => put_record(
                writer,
                names::AUTHORIZATION_REQ,
                authorization_req,
            ),
            BriefElement::AuthorizationRes(authorization_res) => put_record(
                writer,
                names::AUTHORIZATION_RES,
                authorization_res,
            ),
            BriefElement::CableCheckReq(cable_check_req) => put_record(
                writer,
                names::CABLE_CHECK_REQ,
                cable_check_req,
            ),
            BriefElement::CableCheckRes(cable_check_res) => put_record(
                writer,
                names::CABLE_CHECK_RES,
                cable_check_res,
            ),
            BriefElement::ChargeParameterDiscoveryReq(charge_parameter_discovery_req) => put_record(
                writer,
                names::CHARGE_PARAMETER_DISCOVERY_REQ,
                charge_parameter_discovery_req,
            ),
            BriefElement::ChargingStatusReq(charging_status_req) => put_record(
                writer,
                names::CHARGING_STATUS_REQ,
                charging_status_req,
            ),
            BriefElement::ChargingStatusRes(charging_status_res) => put_record(
                writer,
                names::CHARGING_STATUS_RES,
                charging_status_res,
            ),
            BriefElement::CurrentDemandReq(current_demand_req) => put_record(
                writer,
                names::CURRENT_DEMAND_REQ,
                current_demand_req,
            ),
            BriefElement::CurrentDemandRes(current_demand_res) => put_record(
                writer,
                names::CURRENT_DEMAND_RES,
                current_demand_res,
            ),
            BriefElement::PaymentServiceSelectionReq(payment_service_selection_req) => put_record(
                writer,
                names::PAYMENT_SERVICE_SELECTION_REQ,
                payment_service_selection_req,
            ),
            BriefElement::PaymentServiceSelectionRes(payment_service_selection_res) => put_record(
                writer,
                names::PAYMENT_SERVICE_SELECTION_RES,
                payment_service_selection_res,
            ),
            BriefElement::PowerDeliveryReq(power_delivery_req) => put_record(
                writer,
                names::POWER_DELIVERY_REQ,
                power_delivery_req,
            ),
            BriefElement::PowerDeliveryRes(power_delivery_res) => put_record(
                writer,
                names::POWER_DELIVERY_RES,
                power_delivery_res,
            ),
            BriefElement::PreChargeReq(pre_charge_req) => put_record(
                writer,
                names::PRE_CHARGE_REQ,
                pre_charge_req,
            ),
            BriefElement::PreChargeRes(pre_charge_res) => put_record(
                writer,
                names::PRE_CHARGE_RES,
                pre_charge_res,
            ),
            BriefElement::ServiceDetailReq(service_detail_req) => put_record(
                writer,
                names::SERVICE_DETAIL_REQ,
                service_detail_req,
            ),
            BriefElement::ServiceDiscoveryReq(service_discovery_req) => put_record(
                writer,
                names::SERVICE_DISCOVERY_REQ,
                service_discovery_req,
            ),
            BriefElement::SessionSetupReq(session_setup_req) => put_record(
                writer,
                names::SESSION_SETUP_REQ,
                session_setup_req,
            ),
            BriefElement::SessionSetupRes(session_setup_res) => put_record(
                writer,
                names::SESSION_SETUP_RES,
                session_setup_res,
            ),
            BriefElement::SessionStopReq(session_stop_req) => put_record(
                writer,
                names::SESSION_STOP_REQ,
                session_stop_req,
            ),
            BriefElement::SessionStopRes(session_stop_res) => put_record(
                writer,
                names::SESSION_STOP_RES,
                session_stop_res,
            ),
            BriefElement::WeldingDetectionReq(welding_detection_req) => put_record(
                writer,
                names::WELDING_DETECTION_REQ,
                welding_detection_req,
            ),
            BriefElement::WeldingDetectionRes(welding_detection_res) => put_record(
                writer,
                names::WELDING_DETECTION_RES,
                welding_detection_res,
            ),
        }
    }
}

/// PaymentServiceSelectionReq, which holds a list: apart from the others, so that they don't fill its room.
#[inline(never)]
fn payment_service_selection_req<'a, P: Places>(
    place: &mut BriefElement<'a>,
    descent: &mut Descent<'a, '_, P>,
) -> Result<(), Refusal>
    requires open { IsOpen P.schema descent.old }
    ensures open { IsOpen P.schema descent.new }
    ensures table { descent.new.reader.table.ghost_name ≡ descent.old.reader.table.ghost_name }
    ensures places { descent.new.reader.places.now ≡ descent.old.reader.places.now }
    ensures payload { descent.new.reader.reader.bits ≡ descent.old.reader.reader.bits }
    ensures refused { IfErr result (λ r. IsRefusal (seen_of P.schema descent.old) r) }
    ensures read { (F : Frame) (told : List TreeEvent) → IsChosen kinds F (drop 6 brief_element_members) told (seen_of P.schema descent.old) → descent.old.child ≡ Some PAYMENT_SERVICE_SELECTION_REQ
        → IfOk result (λ _. (brief_element_name place.new ≡ F.name) × Leaves kinds F (told_inside (brief_element_inside place.new) told) (seen_of P.schema descent.new)) }
{
    *place = BriefElement::PaymentServiceSelectionReq(member(descent)?);
    Ok(())
}

/// PowerDeliveryReq, which holds a list: apart from the others, so that they don't fill its room.
#[inline(never)]
fn power_delivery_req<'a, P: Places>(
    place: &mut BriefElement<'a>,
    descent: &mut Descent<'a, '_, P>,
) -> Result<(), Refusal>
    requires open { IsOpen P.schema descent.old }
    ensures open { IsOpen P.schema descent.new }
    ensures table { descent.new.reader.table.ghost_name ≡ descent.old.reader.table.ghost_name }
    ensures places { descent.new.reader.places.now ≡ descent.old.reader.places.now }
    ensures payload { descent.new.reader.reader.bits ≡ descent.old.reader.reader.bits }
    ensures refused { IfErr result (λ r. IsRefusal (seen_of P.schema descent.old) r) }
    ensures read { (F : Frame) (told : List TreeEvent) → IsChosen kinds F (drop 6 brief_element_members) told (seen_of P.schema descent.old) → descent.old.child ≡ Some POWER_DELIVERY_REQ
        → IfOk result (λ _. (brief_element_name place.new ≡ F.name) × Leaves kinds F (told_inside (brief_element_inside place.new) told) (seen_of P.schema descent.new)) }
{
    *place = BriefElement::PowerDeliveryReq(member(descent)?);
    Ok(())
}

/// One of the members from ChargingStatusRes on.
#[inline(always)]
fn from_charging_status_res<'a, P: Places>(
    place: &mut BriefElement<'a>,
    descent: &mut Descent<'a, '_, P>,
) -> Result<(), Refusal>
    requires open { IsOpen P.schema descent.old }
    ensures open { IsOpen P.schema descent.new }
    ensures table { descent.new.reader.table.ghost_name ≡ descent.old.reader.table.ghost_name }
    ensures places { descent.new.reader.places.now ≡ descent.old.reader.places.now }
    ensures payload { descent.new.reader.reader.bits ≡ descent.old.reader.reader.bits }
    ensures refused { IfErr result (λ r. IsRefusal (seen_of P.schema descent.old) r) }
    ensures read { (F : Frame) (told : List TreeEvent) → IsChosen kinds F (drop 6 brief_element_members) told (seen_of P.schema descent.old)
        → IfOk result (λ _. (brief_element_name place.new ≡ F.name) × Leaves kinds F (told_inside (brief_element_inside place.new) told) (seen_of P.schema descent.new)) }
{
    if descent.is_at(names::CHARGING_STATUS_RES) {
        *place = BriefElement::ChargingStatusRes(member(descent)?);
        Ok(())
    } else if descent.is_at(names::CURRENT_DEMAND_REQ) {
        *place = BriefElement::CurrentDemandReq(member(descent)?);
        Ok(())
    } else if descent.is_at(names::CURRENT_DEMAND_RES) {
        *place = BriefElement::CurrentDemandRes(member(descent)?);
        Ok(())
    } else if descent.is_at(names::PAYMENT_SERVICE_SELECTION_REQ) {
        payment_service_selection_req(place, descent)
    } else if descent.is_at(names::PAYMENT_SERVICE_SELECTION_RES) {
        *place = BriefElement::PaymentServiceSelectionRes(member(descent)?);
        Ok(())
    } else if descent.is_at(names::POWER_DELIVERY_REQ) {
        power_delivery_req(place, descent)
    } else {
        from_power_delivery_res(place, descent)
    }
}

/// One of the members from PowerDeliveryRes on.
#[inline(always)]
fn from_power_delivery_res<'a, P: Places>(
    place: &mut BriefElement<'a>,
    descent: &mut Descent<'a, '_, P>,
) -> Result<(), Refusal>
    requires open { IsOpen P.schema descent.old }
    ensures open { IsOpen P.schema descent.new }
    ensures table { descent.new.reader.table.ghost_name ≡ descent.old.reader.table.ghost_name }
    ensures places { descent.new.reader.places.now ≡ descent.old.reader.places.now }
    ensures payload { descent.new.reader.reader.bits ≡ descent.old.reader.reader.bits }
    ensures refused { IfErr result (λ r. IsRefusal (seen_of P.schema descent.old) r) }
    ensures read { (F : Frame) (told : List TreeEvent) → IsChosen kinds F (drop 12 brief_element_members) told (seen_of P.schema descent.old)
        → IfOk result (λ _. (brief_element_name place.new ≡ F.name) × Leaves kinds F (told_inside (brief_element_inside place.new) told) (seen_of P.schema descent.new)) }
{
    if descent.is_at(names::POWER_DELIVERY_RES) {
        *place = BriefElement::PowerDeliveryRes(member(descent)?);
        Ok(())
    } else if descent.is_at(names::PRE_CHARGE_REQ) {
        *place = BriefElement::PreChargeReq(member(descent)?);
        Ok(())
    } else if descent.is_at(names::PRE_CHARGE_RES) {
        *place = BriefElement::PreChargeRes(member(descent)?);
        Ok(())
    } else if descent.is_at(names::SERVICE_DETAIL_REQ) {
        *place = BriefElement::ServiceDetailReq(member(descent)?);
        Ok(())
    } else if descent.is_at(names::SERVICE_DISCOVERY_REQ) {
        *place = BriefElement::ServiceDiscoveryReq(member(descent)?);
        Ok(())
    } else if descent.is_at(names::SESSION_SETUP_REQ) {
        *place = BriefElement::SessionSetupReq(member(descent)?);
        Ok(())
    } else {
        from_session_setup_res(place, descent)
    }
}

/// One of the members from SessionSetupRes on.
#[inline(always)]
fn from_session_setup_res<'a, P: Places>(
    place: &mut BriefElement<'a>,
    descent: &mut Descent<'a, '_, P>,
) -> Result<(), Refusal>
    requires open { IsOpen P.schema descent.old }
    ensures open { IsOpen P.schema descent.new }
    ensures table { descent.new.reader.table.ghost_name ≡ descent.old.reader.table.ghost_name }
    ensures places { descent.new.reader.places.now ≡ descent.old.reader.places.now }
    ensures payload { descent.new.reader.reader.bits ≡ descent.old.reader.reader.bits }
    ensures refused { IfErr result (λ r. IsRefusal (seen_of P.schema descent.old) r) }
    ensures read { (F : Frame) (told : List TreeEvent) → IsChosen kinds F (drop 18 brief_element_members) told (seen_of P.schema descent.old)
        → IfOk result (λ _. (brief_element_name place.new ≡ F.name) × Leaves kinds F (told_inside (brief_element_inside place.new) told) (seen_of P.schema descent.new)) }
{
    if descent.is_at(names::SESSION_SETUP_RES) {
        *place = BriefElement::SessionSetupRes(member(descent)?);
        Ok(())
    } else if descent.is_at(names::SESSION_STOP_REQ) {
        *place = BriefElement::SessionStopReq(member(descent)?);
        Ok(())
    } else if descent.is_at(names::SESSION_STOP_RES) {
        *place = BriefElement::SessionStopRes(member(descent)?);
        Ok(())
    } else if descent.is_at(names::WELDING_DETECTION_REQ) {
        *place = BriefElement::WeldingDetectionReq(member(descent)?);
        Ok(())
    } else {
        *place = BriefElement::WeldingDetectionRes(member(descent)?);
        Ok(())
    }
}

impl<'a> LargeChoice<'a> for BriefElement<'a> {
    fn read_member_here<P: Places>(
        &mut self,
        descent: &mut Descent<'a, '_, P>,
    ) -> Result<(), Refusal> {
        if descent.is_at(names::AUTHORIZATION_REQ) {
            *self = BriefElement::AuthorizationReq(member(descent)?);
            Ok(())
        } else if descent.is_at(names::AUTHORIZATION_RES) {
            *self = BriefElement::AuthorizationRes(member(descent)?);
            Ok(())
        } else if descent.is_at(names::CABLE_CHECK_REQ) {
            *self = BriefElement::CableCheckReq(member(descent)?);
            Ok(())
        } else if descent.is_at(names::CABLE_CHECK_RES) {
            *self = BriefElement::CableCheckRes(member(descent)?);
            Ok(())
        } else if descent.is_at(names::CHARGE_PARAMETER_DISCOVERY_REQ) {
            *self = BriefElement::ChargeParameterDiscoveryReq(member(descent)?);
            Ok(())
        } else if descent.is_at(names::CHARGING_STATUS_REQ) {
            *self = BriefElement::ChargingStatusReq(member(descent)?);
            Ok(())
        } else {
            from_charging_status_res(self, descent)
        }
    }
}
