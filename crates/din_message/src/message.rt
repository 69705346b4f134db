//! Types of elements of the messages of DIN SPEC 70121.

ghost use Rattle.std.specs.Prelude.{◌≡◌, [], List, Some, IfOk, IfErr};
ghost use Rattle.exi_documents.specs.Trees.{Event as TreeEvent};
ghost use Rattle.message_parts.specs.Contents.{told_inside};
ghost use Rattle.message_parts.specs.Reading.{Frame, IsOpen, IsRefusal, IsChosen, Leaves, seen_of};
ghost use Rattle.din_schema.specs.Declarations.{kinds};
ghost use Rattle.din_schema.specs.declared.names.TheConstants.{CHARGE_PARAMETER_DISCOVERY_RES, POWER_DELIVERY_REQ, SERVICE_DISCOVERY_RES, SERVICE_PAYMENT_SELECTION_REQ};
ghost use Rattle.din_message.specs.declared.message.BodyElement.{BodyElement};
ghost use Rattle.din_message.specs.Message.{body_element_members, body_element_name, body_element_inside};

use din_power::{
    CableCheckReq, CableCheckRes, ChargeParameterDiscoveryReq, ChargeParameterDiscoveryRes,
    CurrentDemandReq, CurrentDemandRes, PowerDeliveryReq, PowerDeliveryRes, PreChargeReq,
    PreChargeRes, WeldingDetectionReq, WeldingDetectionRes,
};
use din_schema::names;
use din_setup::din_parts::Header;
use din_setup::{
    ContractAuthenticationReq, ContractAuthenticationRes, ServiceDiscoveryReq, ServiceDiscoveryRes,
    ServicePaymentSelectionReq, ServicePaymentSelectionRes, SessionSetupReq, SessionSetupRes,
    SessionStopReq, SessionStopRes,
};
use exi_documents::Refusal;
use exi_schema::Places;
use message_parts::exi_events::EventWriter;
use message_parts::{
    Descent, LargeGroup, LargeRecord, PutChoice, PutRecord, first_child, member, member_here,
    optional_choice_here, put_optional_choice, put_record, required, required_here,
};

/// One element of the substitution group BodyElement.
#[derive(Drop)]
pub enum BodyElement<'a> {
    CableCheckReq(CableCheckReq),
    CableCheckRes(CableCheckRes),
    ChargeParameterDiscoveryReq(ChargeParameterDiscoveryReq),
    ChargeParameterDiscoveryRes(ChargeParameterDiscoveryRes),
    ContractAuthenticationReq(ContractAuthenticationReq<'a>),
    ContractAuthenticationRes(ContractAuthenticationRes),
    CurrentDemandReq(CurrentDemandReq),
    CurrentDemandRes(CurrentDemandRes),
    PowerDeliveryReq(PowerDeliveryReq),
    PowerDeliveryRes(PowerDeliveryRes),
    PreChargeReq(PreChargeReq),
    PreChargeRes(PreChargeRes),
    ServiceDiscoveryReq(ServiceDiscoveryReq<'a>),
    ServiceDiscoveryRes(ServiceDiscoveryRes<'a>),
    ServicePaymentSelectionReq(ServicePaymentSelectionReq),
    ServicePaymentSelectionRes(ServicePaymentSelectionRes),
    SessionSetupReq(SessionSetupReq<'a>),
    SessionSetupRes(SessionSetupRes<'a>),
    SessionStopReq(SessionStopReq),
    SessionStopRes(SessionStopRes),
    WeldingDetectionReq(WeldingDetectionReq),
    WeldingDetectionRes(WeldingDetectionRes),
}

impl PutChoice for BodyElement<'_> {
    ghost use Rattle.din_schema.specs.Declarations.{kinds};
    ghost use Rattle.din_message.specs.Message.{body_element_members, body_element_name, body_element_inside};

    ghost kinds = { kinds };

    ghost members = { body_element_members };

    ghost name = { body_element_name };

    ghost inside = { body_element_inside };

    fn write_member<P: Places>(&self, writer: &mut EventWriter<'_, '_, P>) {
        match self {
            BodyElement::CableCheckReq(cable_check_req) => put_record(
                writer,
                names::CABLE_CHECK_REQ,
                cable_check_req,
            ),
            BodyElement::CableCheckRes(cable_check_res) => put_record(
                writer,
                names::CABLE_CHECK_RES,
                cable_check_res,
            ),
            BodyElement::ChargeParameterDiscoveryReq(charge_parameter_discovery_req) => put_record(
                writer,
                names::CHARGE_PARAMETER_DISCOVERY_REQ,
                charge_parameter_discovery_req,
            ),
            BodyElement::ChargeParameterDiscoveryRes(charge_parameter_discovery_res) => put_record(
                writer,
                names::CHARGE_PARAMETER_DISCOVERY_RES,
                charge_parameter_discovery_res,
            ),
            BodyElement::ContractAuthenticationReq(contract_authentication_req) => put_record(
                writer,
                names::CONTRACT_AUTHENTICATION_REQ,
                contract_authentication_req,
            ),
            BodyElement::ContractAuthenticationRes(contract_authentication_res) => put_record(
                writer,
                names::CONTRACT_AUTHENTICATION_RES,
                contract_authentication_res,
            ),
            BodyElement::CurrentDemandReq(current_demand_req) => put_record(
                writer,
                names::CURRENT_DEMAND_REQ,
                current_demand_req,
            ),
            BodyElement::CurrentDemandRes(current_demand_res) => put_record(
                writer,
                names::CURRENT_DEMAND_RES,
                current_demand_res,
            ),
            BodyElement::PowerDeliveryReq(power_delivery_req) => put_record(
                writer,
                names::POWER_DELIVERY_REQ,
                power_delivery_req,
            ),
            BodyElement::PowerDeliveryRes(power_delivery_res) => put_record(
                writer,
                names::POWER_DELIVERY_RES,
                power_delivery_res,
            ),
            BodyElement::PreChargeReq(pre_charge_req) => put_record(
                writer,
                names::PRE_CHARGE_REQ,
                pre_charge_req,
            ),
            BodyElement::PreChargeRes(pre_charge_res) => put_record(
                writer,
                names::PRE_CHARGE_RES,
                pre_charge_res,
            ),
            BodyElement::ServiceDiscoveryReq(service_discovery_req) => put_record(
                writer,
                names::SERVICE_DISCOVERY_REQ,
                service_discovery_req,
            ),
            BodyElement::ServiceDiscoveryRes(service_discovery_res) => put_record(
                writer,
                names::SERVICE_DISCOVERY_RES,
                service_discovery_res,
            ),
            BodyElement::ServicePaymentSelectionReq(service_payment_selection_req) => put_record(
                writer,
                names::SERVICE_PAYMENT_SELECTION_REQ,
                service_payment_selection_req,
            ),
            BodyElement::ServicePaymentSelectionRes(service_payment_selection_res) => put_record(
                writer,
                names::SERVICE_PAYMENT_SELECTION_RES,
                service_payment_selection_res,
            ),
            BodyElement::SessionSetupReq(session_setup_req) => put_record(
                writer,
                names::SESSION_SETUP_REQ,
                session_setup_req,
            ),
            BodyElement::SessionSetupRes(session_setup_res) => put_record(
                writer,
                names::SESSION_SETUP_RES,
                session_setup_res,
            ),
            BodyElement::SessionStopReq(session_stop_req) => put_record(
                writer,
                names::SESSION_STOP_REQ,
                session_stop_req,
            ),
            BodyElement::SessionStopRes(session_stop_res) => put_record(
                writer,
                names::SESSION_STOP_RES,
                session_stop_res,
            ),
            BodyElement::WeldingDetectionReq(welding_detection_req) => put_record(
                writer,
                names::WELDING_DETECTION_REQ,
                welding_detection_req,
            ),
            BodyElement::WeldingDetectionRes(welding_detection_res) => put_record(
                writer,
                names::WELDING_DETECTION_RES,
                welding_detection_res,
            ),
        }
    }
}

/// ChargeParameterDiscoveryRes, over one where such a one stands.
fn charge_parameter_discovery_res<'a, P: Places>(
    place: &mut Option<BodyElement<'a>>,
    descent: &mut Descent<'a, '_, P>,
) -> Result<(), Refusal>
    requires open { IsOpen P.schema descent.old }
    ensures open { IsOpen P.schema descent.new }
    ensures table { descent.new.reader.table.ghost_name ≡ descent.old.reader.table.ghost_name }
    ensures places { descent.new.reader.places.now ≡ descent.old.reader.places.now }
    ensures payload { descent.new.reader.reader.bits ≡ descent.old.reader.reader.bits }
    ensures refused { IfErr result (λ r. IsRefusal (seen_of P.schema descent.old) r) }
    ensures read { (F : Frame) (told : List TreeEvent) → IsChosen kinds F body_element_members told (seen_of P.schema descent.old) → descent.old.child ≡ Some CHARGE_PARAMETER_DISCOVERY_RES
        → IfOk result (λ _. (v : BodyElement) × (place.new ≡ Some v) × (body_element_name v ≡ F.name) × Leaves kinds F (told_inside (body_element_inside v) told) (seen_of P.schema descent.new)) }
{
    match place {
        Some(BodyElement::ChargeParameterDiscoveryRes(charge_parameter_discovery_res)) =>
            member_here(charge_parameter_discovery_res, descent),
        _ => charge_parameter_discovery_res_anew(place, descent),
    }
}

/// ChargeParameterDiscoveryRes, where another stands or none: this fills its room.
#[inline(never)]
fn charge_parameter_discovery_res_anew<'a, P: Places>(
    place: &mut Option<BodyElement<'a>>,
    descent: &mut Descent<'a, '_, P>,
) -> Result<(), Refusal>
    requires open { IsOpen P.schema descent.old }
    ensures open { IsOpen P.schema descent.new }
    ensures table { descent.new.reader.table.ghost_name ≡ descent.old.reader.table.ghost_name }
    ensures places { descent.new.reader.places.now ≡ descent.old.reader.places.now }
    ensures payload { descent.new.reader.reader.bits ≡ descent.old.reader.reader.bits }
    ensures refused { IfErr result (λ r. IsRefusal (seen_of P.schema descent.old) r) }
    ensures read { (F : Frame) (told : List TreeEvent) → IsChosen kinds F body_element_members told (seen_of P.schema descent.old) → descent.old.child ≡ Some CHARGE_PARAMETER_DISCOVERY_RES
        → IfOk result (λ _. (v : BodyElement) × (place.new ≡ Some v) × (body_element_name v ≡ F.name) × Leaves kinds F (told_inside (body_element_inside v) told) (seen_of P.schema descent.new)) }
{
    let mut charge_parameter_discovery_res = ChargeParameterDiscoveryRes::default();
    member_here(&mut charge_parameter_discovery_res, descent)?;
    *place = Some(BodyElement::ChargeParameterDiscoveryRes(charge_parameter_discovery_res));
    Ok(())
}

/// PowerDeliveryReq, which holds a list: apart from the others, so that they don't fill its room.
#[inline(never)]
fn power_delivery_req<'a, P: Places>(
    place: &mut Option<BodyElement<'a>>,
    descent: &mut Descent<'a, '_, P>,
) -> Result<(), Refusal>
    requires open { IsOpen P.schema descent.old }
    ensures open { IsOpen P.schema descent.new }
    ensures table { descent.new.reader.table.ghost_name ≡ descent.old.reader.table.ghost_name }
    ensures places { descent.new.reader.places.now ≡ descent.old.reader.places.now }
    ensures payload { descent.new.reader.reader.bits ≡ descent.old.reader.reader.bits }
    ensures refused { IfErr result (λ r. IsRefusal (seen_of P.schema descent.old) r) }
    ensures read { (F : Frame) (told : List TreeEvent) → IsChosen kinds F body_element_members told (seen_of P.schema descent.old) → descent.old.child ≡ Some POWER_DELIVERY_REQ
        → IfOk result (λ _. (v : BodyElement) × (place.new ≡ Some v) × (body_element_name v ≡ F.name) × Leaves kinds F (told_inside (body_element_inside v) told) (seen_of P.schema descent.new)) }
{
    *place = Some(BodyElement::PowerDeliveryReq(member(descent)?));
    Ok(())
}

/// ServiceDiscoveryRes, which holds a list: apart from the others, so that they don't fill its room.
#[inline(never)]
fn service_discovery_res<'a, P: Places>(
    place: &mut Option<BodyElement<'a>>,
    descent: &mut Descent<'a, '_, P>,
) -> Result<(), Refusal>
    requires open { IsOpen P.schema descent.old }
    ensures open { IsOpen P.schema descent.new }
    ensures table { descent.new.reader.table.ghost_name ≡ descent.old.reader.table.ghost_name }
    ensures places { descent.new.reader.places.now ≡ descent.old.reader.places.now }
    ensures payload { descent.new.reader.reader.bits ≡ descent.old.reader.reader.bits }
    ensures refused { IfErr result (λ r. IsRefusal (seen_of P.schema descent.old) r) }
    ensures read { (F : Frame) (told : List TreeEvent) → IsChosen kinds F body_element_members told (seen_of P.schema descent.old) → descent.old.child ≡ Some SERVICE_DISCOVERY_RES
        → IfOk result (λ _. (v : BodyElement) × (place.new ≡ Some v) × (body_element_name v ≡ F.name) × Leaves kinds F (told_inside (body_element_inside v) told) (seen_of P.schema descent.new)) }
{
    *place = Some(BodyElement::ServiceDiscoveryRes(member(descent)?));
    Ok(())
}

/// ServicePaymentSelectionReq, which holds a list: apart from the others, so that they don't fill its room.
#[inline(never)]
fn service_payment_selection_req<'a, P: Places>(
    place: &mut Option<BodyElement<'a>>,
    descent: &mut Descent<'a, '_, P>,
) -> Result<(), Refusal>
    requires open { IsOpen P.schema descent.old }
    ensures open { IsOpen P.schema descent.new }
    ensures table { descent.new.reader.table.ghost_name ≡ descent.old.reader.table.ghost_name }
    ensures places { descent.new.reader.places.now ≡ descent.old.reader.places.now }
    ensures payload { descent.new.reader.reader.bits ≡ descent.old.reader.reader.bits }
    ensures refused { IfErr result (λ r. IsRefusal (seen_of P.schema descent.old) r) }
    ensures read { (F : Frame) (told : List TreeEvent) → IsChosen kinds F body_element_members told (seen_of P.schema descent.old) → descent.old.child ≡ Some SERVICE_PAYMENT_SELECTION_REQ
        → IfOk result (λ _. (v : BodyElement) × (place.new ≡ Some v) × (body_element_name v ≡ F.name) × Leaves kinds F (told_inside (body_element_inside v) told) (seen_of P.schema descent.new)) }
{
    *place = Some(BodyElement::ServicePaymentSelectionReq(member(descent)?));
    Ok(())
}

impl<'a> LargeGroup<'a> for BodyElement<'a> {
    ghost use Rattle.std.specs.Prelude.{◌≡◌};
    ghost use Rattle.message_parts.specs.Particles.{names_among};
    ghost use Rattle.din_message.specs.Message.{body_element_members};

    fn names() -> &'static [u16]
        ensures { result.now ≡ names_among body_element_members }
    {
        &[
            names::CABLE_CHECK_REQ,
            names::CABLE_CHECK_RES,
            names::CHARGE_PARAMETER_DISCOVERY_REQ,
            names::CHARGE_PARAMETER_DISCOVERY_RES,
            names::CONTRACT_AUTHENTICATION_REQ,
            names::CONTRACT_AUTHENTICATION_RES,
            names::CURRENT_DEMAND_REQ,
            names::CURRENT_DEMAND_RES,
            names::POWER_DELIVERY_REQ,
            names::POWER_DELIVERY_RES,
            names::PRE_CHARGE_REQ,
            names::PRE_CHARGE_RES,
            names::SERVICE_DISCOVERY_REQ,
            names::SERVICE_DISCOVERY_RES,
            names::SERVICE_PAYMENT_SELECTION_REQ,
            names::SERVICE_PAYMENT_SELECTION_RES,
            names::SESSION_SETUP_REQ,
            names::SESSION_SETUP_RES,
            names::SESSION_STOP_REQ,
            names::SESSION_STOP_RES,
            names::WELDING_DETECTION_REQ,
            names::WELDING_DETECTION_RES,
        ]
    }

    fn read_member_into<P: Places>(
        place: &mut Option<BodyElement<'a>>,
        descent: &mut Descent<'a, '_, P>,
    ) -> Result<(), Refusal> {
        if descent.is_at(names::CABLE_CHECK_REQ) {
            *place = Some(BodyElement::CableCheckReq(member(descent)?));
            Ok(())
        } else if descent.is_at(names::CABLE_CHECK_RES) {
            *place = Some(BodyElement::CableCheckRes(member(descent)?));
            Ok(())
        } else if descent.is_at(names::CHARGE_PARAMETER_DISCOVERY_REQ) {
            *place = Some(BodyElement::ChargeParameterDiscoveryReq(member(descent)?));
            Ok(())
        } else if descent.is_at(names::CHARGE_PARAMETER_DISCOVERY_RES) {
            charge_parameter_discovery_res(place, descent)
        } else if descent.is_at(names::CONTRACT_AUTHENTICATION_REQ) {
            *place = Some(BodyElement::ContractAuthenticationReq(member(descent)?));
            Ok(())
        } else if descent.is_at(names::CONTRACT_AUTHENTICATION_RES) {
            *place = Some(BodyElement::ContractAuthenticationRes(member(descent)?));
            Ok(())
        } else if descent.is_at(names::CURRENT_DEMAND_REQ) {
            *place = Some(BodyElement::CurrentDemandReq(member(descent)?));
            Ok(())
        } else if descent.is_at(names::CURRENT_DEMAND_RES) {
            *place = Some(BodyElement::CurrentDemandRes(member(descent)?));
            Ok(())
        } else if descent.is_at(names::POWER_DELIVERY_REQ) {
            power_delivery_req(place, descent)
        } else if descent.is_at(names::POWER_DELIVERY_RES) {
            *place = Some(BodyElement::PowerDeliveryRes(member(descent)?));
            Ok(())
        } else if descent.is_at(names::PRE_CHARGE_REQ) {
            *place = Some(BodyElement::PreChargeReq(member(descent)?));
            Ok(())
        } else if descent.is_at(names::PRE_CHARGE_RES) {
            *place = Some(BodyElement::PreChargeRes(member(descent)?));
            Ok(())
        } else if descent.is_at(names::SERVICE_DISCOVERY_REQ) {
            *place = Some(BodyElement::ServiceDiscoveryReq(member(descent)?));
            Ok(())
        } else if descent.is_at(names::SERVICE_DISCOVERY_RES) {
            service_discovery_res(place, descent)
        } else if descent.is_at(names::SERVICE_PAYMENT_SELECTION_REQ) {
            service_payment_selection_req(place, descent)
        } else if descent.is_at(names::SERVICE_PAYMENT_SELECTION_RES) {
            *place = Some(BodyElement::ServicePaymentSelectionRes(member(descent)?));
            Ok(())
        } else if descent.is_at(names::SESSION_SETUP_REQ) {
            *place = Some(BodyElement::SessionSetupReq(member(descent)?));
            Ok(())
        } else if descent.is_at(names::SESSION_SETUP_RES) {
            *place = Some(BodyElement::SessionSetupRes(member(descent)?));
            Ok(())
        } else if descent.is_at(names::SESSION_STOP_REQ) {
            *place = Some(BodyElement::SessionStopReq(member(descent)?));
            Ok(())
        } else if descent.is_at(names::SESSION_STOP_RES) {
            *place = Some(BodyElement::SessionStopRes(member(descent)?));
            Ok(())
        } else if descent.is_at(names::WELDING_DETECTION_REQ) {
            *place = Some(BodyElement::WeldingDetectionReq(member(descent)?));
            Ok(())
        } else {
            *place = Some(BodyElement::WeldingDetectionRes(member(descent)?));
            Ok(())
        }
    }
}

/// Body.
#[derive(Drop, Default)]
pub struct Body<'a> {
    pub element: Option<BodyElement<'a>>,
}

impl PutRecord for Body<'_> {
    ghost use Rattle.std.specs.Prelude.{refl};
    ghost use Rattle.din_schema.specs.Declarations.{kinds};
    ghost use Rattle.din_schema.specs.Frame.{body};
    ghost use Rattle.din_message.specs.Message.{body_parts};

    ghost kinds = { kinds };

    ghost attributes = { [] };

    ghost particles = { body };

    ghost apart = { refl };

    ghost given = { λ v. [] };

    ghost parts = { body_parts };

    fn write<P: Places>(&self, writer: &mut EventWriter<'_, '_, P>) {
        put_optional_choice(writer, &self.element);
    }
}

impl<'a> LargeRecord<'a> for Body<'a> {
    fn read_here<P: Places>(&mut self, descent: &mut Descent<'a, '_, P>) -> Result<(), Refusal> {
        first_child(descent)?;
        optional_choice_here(&mut self.element, descent)?;
        Ok(())
    }
}

/// V2G_Message.
#[derive(Drop, Default)]
pub struct DinMessage<'a> {
    pub header: Header<'a>,
    pub body: Body<'a>,
}

impl PutRecord for DinMessage<'_> {
    ghost use Rattle.std.specs.Prelude.{refl};
    ghost use Rattle.din_schema.specs.Declarations.{kinds};
    ghost use Rattle.din_schema.specs.Frame.{v2g_message};
    ghost use Rattle.din_message.specs.Message.{din_message_parts};

    ghost kinds = { kinds };

    ghost attributes = { [] };

    ghost particles = { v2g_message };

    ghost apart = { refl };

    ghost given = { λ v. [] };

    ghost parts = { din_message_parts };

    fn write<P: Places>(&self, writer: &mut EventWriter<'_, '_, P>) {
        put_record(writer, names::HEADER, &self.header);
        put_record(writer, names::BODY, &self.body);
    }
}

impl<'a> LargeRecord<'a> for DinMessage<'a> {
    fn read_here<P: Places>(&mut self, descent: &mut Descent<'a, '_, P>) -> Result<(), Refusal> {
        first_child(descent)?;
        self.header = required(descent)?;
        required_here(&mut self.body, descent)?;
        Ok(())
    }
}
