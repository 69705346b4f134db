//! Types of elements of the messages of ISO 15118-2.

ghost use Rattle.std.specs.Prelude.{◌≡◌, [], List, Some, IfOk, IfErr};
ghost use Rattle.exi_documents.specs.Trees.{Event as TreeEvent};
ghost use Rattle.message_parts.specs.Contents.{told_inside};
ghost use Rattle.message_parts.specs.Reading.{Frame, IsOpen, IsRefusal, IsChosen, Leaves, seen_of};
ghost use Rattle.iso_schema.specs.Declarations.{kinds};
ghost use Rattle.iso_schema.specs.declared.names.TheConstants.{CHARGE_PARAMETER_DISCOVERY_RES, SERVICE_DETAIL_RES, SERVICE_DISCOVERY_RES};
ghost use Rattle.iso_message.specs.declared.message.BodyElement.{BodyElement};
ghost use Rattle.iso_message.specs.Message.{body_element_members, body_element_name, body_element_inside};
ghost use Rattle.iso_elements.specs.Brief.{brief_element_members};

use exi_documents::Refusal;
use exi_schema::Places;
use iso_elements::BriefElement;
use iso_elements::iso_delivery::ChargingStatusReq;
use iso_elements::iso_details::ServiceDetailRes;
use iso_elements::iso_parameters::ChargeParameterDiscoveryRes;
use iso_elements::iso_parts::Header;
use iso_elements::iso_setup::ServiceDiscoveryRes;
use iso_schema::names;
use message_parts::exi_events::EventWriter;
use message_parts::{
    Descent, LargeChoice, LargeGroup, LargeRecord, PutChoice, PutRecord, first_child, member,
    member_here, optional_choice_here, put_optional_choice, put_record, required, required_here,
};

/// One element of the substitution group BodyElement. The brief ones have a type of their own: one that is stored over
/// another doesn't clear the room of the others.
#[derive(Drop)]
pub enum BodyElement<'a> {
    Brief(BriefElement<'a>),
    ChargeParameterDiscoveryRes(ChargeParameterDiscoveryRes),
    ServiceDetailRes(ServiceDetailRes<'a>),
    ServiceDiscoveryRes(ServiceDiscoveryRes<'a>),
}

impl PutChoice for BodyElement<'_> {
    ghost use Rattle.iso_schema.specs.Declarations.{kinds};
    ghost use Rattle.iso_message.specs.Message.{body_element_members, body_element_name, body_element_inside};

    ghost kinds = { kinds };

    ghost members = { body_element_members };

    ghost name = { body_element_name };

    ghost inside = { body_element_inside };

    fn write_member<P: Places>(&self, writer: &mut EventWriter<'_, '_, P>) {
        match self {
            BodyElement::Brief(brief) => brief.write_member(writer),
            BodyElement::ChargeParameterDiscoveryRes(charge_parameter_discovery_res) => put_record(
                writer,
                names::CHARGE_PARAMETER_DISCOVERY_RES,
                charge_parameter_discovery_res,
            ),
            BodyElement::ServiceDetailRes(service_detail_res) => put_record(
                writer,
                names::SERVICE_DETAIL_RES,
                service_detail_res,
            ),
            BodyElement::ServiceDiscoveryRes(service_discovery_res) => put_record(
                writer,
                names::SERVICE_DISCOVERY_RES,
                service_discovery_res,
            ),
        }
    }
}

/// ChargeParameterDiscoveryRes, over one where such a one stands.
fn charge_parameter_discovery_res<'a, P: Places>(
    place: &mut Option<BodyElement<'a>>,
    descent: &mut Descent<'a, '_, P>,
) -> Result<(), Refusal>
    requires open { IsOpen P.schema descent.old }
    ensures open { IsOpen P.schema descent.new }
    ensures table { descent.new.reader.table.ghost_name ≡ descent.old.reader.table.ghost_name }
    ensures places { descent.new.reader.places.now ≡ descent.old.reader.places.now }
    ensures payload { descent.new.reader.reader.bits ≡ descent.old.reader.reader.bits }
    ensures refused { IfErr result (λ r. IsRefusal (seen_of P.schema descent.old) r) }
    ensures read { (F : Frame) (told : List TreeEvent) → IsChosen kinds F body_element_members told (seen_of P.schema descent.old) → descent.old.child ≡ Some CHARGE_PARAMETER_DISCOVERY_RES
        → IfOk result (λ _. (v : BodyElement) × (place.new ≡ Some v) × (body_element_name v ≡ F.name) × Leaves kinds F (told_inside (body_element_inside v) told) (seen_of P.schema descent.new)) }
{
    match place {
        Some(BodyElement::ChargeParameterDiscoveryRes(charge_parameter_discovery_res)) =>
            member_here(charge_parameter_discovery_res, descent),
        _ => charge_parameter_discovery_res_anew(place, descent),
    }
}

/// ChargeParameterDiscoveryRes, where another stands or none: this fills its room.
#[inline(never)]
fn charge_parameter_discovery_res_anew<'a, P: Places>(
    place: &mut Option<BodyElement<'a>>,
    descent: &mut Descent<'a, '_, P>,
) -> Result<(), Refusal>
    requires open { IsOpen P.schema descent.old }
    ensures open { IsOpen P.schema descent.new }
    ensures table { descent.new.reader.table.ghost_name ≡ descent.old.reader.table.ghost_name }
    ensures places { descent.new.reader.places.now ≡ descent.old.reader.places.now }
    ensures payload { descent.new.reader.reader.bits ≡ descent.old.reader.reader.bits }
    ensures refused { IfErr result (λ r. IsRefusal (seen_of P.schema descent.old) r) }
    ensures read { (F : Frame) (told : List TreeEvent) → IsChosen kinds F body_element_members told (seen_of P.schema descent.old) → descent.old.child ≡ Some CHARGE_PARAMETER_DISCOVERY_RES
        → IfOk result (λ _. (v : BodyElement) × (place.new ≡ Some v) × (body_element_name v ≡ F.name) × Leaves kinds F (told_inside (body_element_inside v) told) (seen_of P.schema descent.new)) }
{
    let mut charge_parameter_discovery_res = ChargeParameterDiscoveryRes::default();
    member_here(&mut charge_parameter_discovery_res, descent)?;
    *place = Some(BodyElement::ChargeParameterDiscoveryRes(charge_parameter_discovery_res));
    Ok(())
}

/// ServiceDetailRes, over one where such a one stands.
fn service_detail_res<'a, P: Places>(
    place: &mut Option<BodyElement<'a>>,
    descent: &mut Descent<'a, '_, P>,
) -> Result<(), Refusal>
    requires open { IsOpen P.schema descent.old }
    ensures open { IsOpen P.schema descent.new }
    ensures table { descent.new.reader.table.ghost_name ≡ descent.old.reader.table.ghost_name }
    ensures places { descent.new.reader.places.now ≡ descent.old.reader.places.now }
    ensures payload { descent.new.reader.reader.bits ≡ descent.old.reader.reader.bits }
    ensures refused { IfErr result (λ r. IsRefusal (seen_of P.schema descent.old) r) }
    ensures read { (F : Frame) (told : List TreeEvent) → IsChosen kinds F body_element_members told (seen_of P.schema descent.old) → descent.old.child ≡ Some SERVICE_DETAIL_RES
        → IfOk result (λ _. (v : BodyElement) × (place.new ≡ Some v) × (body_element_name v ≡ F.name) × Leaves kinds F (told_inside (body_element_inside v) told) (seen_of P.schema descent.new)) }
{
    match place {
        Some(BodyElement::ServiceDetailRes(service_detail_res)) => member_here(
            service_detail_res,
            descent,
        ),
        _ => service_detail_res_anew(place, descent),
    }
}

/// ServiceDetailRes, where another stands or none: this fills its room.
#[inline(never)]
fn service_detail_res_anew<'a, P: Places>(
    place: &mut Option<BodyElement<'a>>,
    descent: &mut Descent<'a, '_, P>,
) -> Result<(), Refusal>
    requires open { IsOpen P.schema descent.old }
    ensures open { IsOpen P.schema descent.new }
    ensures table { descent.new.reader.table.ghost_name ≡ descent.old.reader.table.ghost_name }
    ensures places { descent.new.reader.places.now ≡ descent.old.reader.places.now }
    ensures payload { descent.new.reader.reader.bits ≡ descent.old.reader.reader.bits }
    ensures refused { IfErr result (λ r. IsRefusal (seen_of P.schema descent.old) r) }
    ensures read { (F : Frame) (told : List TreeEvent) → IsChosen kinds F body_element_members told (seen_of P.schema descent.old) → descent.old.child ≡ Some SERVICE_DETAIL_RES
        → IfOk result (λ _. (v : BodyElement) × (place.new ≡ Some v) × (body_element_name v ≡ F.name) × Leaves kinds F (told_inside (body_element_inside v) told) (seen_of P.schema descent.new)) }
{
    let mut service_detail_res = ServiceDetailRes::default();
    member_here(&mut service_detail_res, descent)?;
    *place = Some(BodyElement::ServiceDetailRes(service_detail_res));
    Ok(())
}

/// ServiceDiscoveryRes, which holds a list: apart from the others, so that they don't fill its room.
#[inline(never)]
fn service_discovery_res<'a, P: Places>(
    place: &mut Option<BodyElement<'a>>,
    descent: &mut Descent<'a, '_, P>,
) -> Result<(), Refusal>
    requires open { IsOpen P.schema descent.old }
    ensures open { IsOpen P.schema descent.new }
    ensures table { descent.new.reader.table.ghost_name ≡ descent.old.reader.table.ghost_name }
    ensures places { descent.new.reader.places.now ≡ descent.old.reader.places.now }
    ensures payload { descent.new.reader.reader.bits ≡ descent.old.reader.reader.bits }
    ensures refused { IfErr result (λ r. IsRefusal (seen_of P.schema descent.old) r) }
    ensures read { (F : Frame) (told : List TreeEvent) → IsChosen kinds F body_element_members told (seen_of P.schema descent.old) → descent.old.child ≡ Some SERVICE_DISCOVERY_RES
        → IfOk result (λ _. (v : BodyElement) × (place.new ≡ Some v) × (body_element_name v ≡ F.name) × Leaves kinds F (told_inside (body_element_inside v) told) (seen_of P.schema descent.new)) }
{
    *place = Some(BodyElement::ServiceDiscoveryRes(member(descent)?));
    Ok(())
}

/// One that holds no long list, over one that holds none either where such a one stands.
fn brief<'a, P: Places>(
    place: &mut Option<BodyElement<'a>>,
    descent: &mut Descent<'a, '_, P>,
) -> Result<(), Refusal>
    requires open { IsOpen P.schema descent.old }
    ensures open { IsOpen P.schema descent.new }
    ensures table { descent.new.reader.table.ghost_name ≡ descent.old.reader.table.ghost_name }
    ensures places { descent.new.reader.places.now ≡ descent.old.reader.places.now }
    ensures payload { descent.new.reader.reader.bits ≡ descent.old.reader.reader.bits }
    ensures refused { IfErr result (λ r. IsRefusal (seen_of P.schema descent.old) r) }
    ensures read { (F : Frame) (told : List TreeEvent) → IsChosen kinds F brief_element_members told (seen_of P.schema descent.old)
        → IfOk result (λ _. (v : BodyElement) × (place.new ≡ Some v) × (body_element_name v ≡ F.name) × Leaves kinds F (told_inside (body_element_inside v) told) (seen_of P.schema descent.new)) }
{
    match place {
        Some(BodyElement::Brief(brief)) => brief.read_member_here(descent),
        _ => brief_anew(place, descent),
    }
}

/// One that holds no long list, where another stands or none: this clears the room of the longest.
#[inline(never)]
fn brief_anew<'a, P: Places>(
    place: &mut Option<BodyElement<'a>>,
    descent: &mut Descent<'a, '_, P>,
) -> Result<(), Refusal>
    requires open { IsOpen P.schema descent.old }
    ensures open { IsOpen P.schema descent.new }
    ensures table { descent.new.reader.table.ghost_name ≡ descent.old.reader.table.ghost_name }
    ensures places { descent.new.reader.places.now ≡ descent.old.reader.places.now }
    ensures payload { descent.new.reader.reader.bits ≡ descent.old.reader.reader.bits }
    ensures refused { IfErr result (λ r. IsRefusal (seen_of P.schema descent.old) r) }
    ensures read { (F : Frame) (told : List TreeEvent) → IsChosen kinds F brief_element_members told (seen_of P.schema descent.old)
        → IfOk result (λ _. (v : BodyElement) × (place.new ≡ Some v) × (body_element_name v ≡ F.name) × Leaves kinds F (told_inside (body_element_inside v) told) (seen_of P.schema descent.new)) }
{
    let mut brief = BriefElement::ChargingStatusReq(ChargingStatusReq);
    brief.read_member_here(descent)?;
    *place = Some(BodyElement::Brief(brief));
    Ok(())
}

impl<'a> LargeGroup<'a> for BodyElement<'a> {
    ghost use Rattle.std.specs.Prelude.{◌≡◌};
    ghost use Rattle.message_parts.specs.Particles.{names_among};
    ghost use Rattle.iso_message.specs.Message.{body_element_members};

    fn names() -> &'static [u16]
        ensures { result.now ≡ names_among body_element_members }
    {
        &[
            names::AUTHORIZATION_REQ,
            names::AUTHORIZATION_RES,
            names::CABLE_CHECK_REQ,
            names::CABLE_CHECK_RES,
            names::CHARGE_PARAMETER_DISCOVERY_REQ,
            names::CHARGE_PARAMETER_DISCOVERY_RES,
            names::CHARGING_STATUS_REQ,
            names::CHARGING_STATUS_RES,
            names::CURRENT_DEMAND_REQ,
            names::CURRENT_DEMAND_RES,
            names::PAYMENT_SERVICE_SELECTION_REQ,
            names::PAYMENT_SERVICE_SELECTION_RES,
            names::POWER_DELIVERY_REQ,
            names::POWER_DELIVERY_RES,
            names::PRE_CHARGE_REQ,
            names::PRE_CHARGE_RES,
            names::SERVICE_DETAIL_REQ,
            names::SERVICE_DETAIL_RES,
            names::SERVICE_DISCOVERY_REQ,
            names::SERVICE_DISCOVERY_RES,
            names::SESSION_SETUP_REQ,
            names::SESSION_SETUP_RES,
            names::SESSION_STOP_REQ,
            names::SESSION_STOP_RES,
            names::WELDING_DETECTION_REQ,
            names::WELDING_DETECTION_RES,
        ]
    }

    fn read_member_into<P: Places>(
        place: &mut Option<BodyElement<'a>>,
        descent: &mut Descent<'a, '_, P>,
    ) -> Result<(), Refusal> {
        if descent.is_at(names::CHARGE_PARAMETER_DISCOVERY_RES) {
            charge_parameter_discovery_res(place, descent)
        } else if descent.is_at(names::SERVICE_DETAIL_RES) {
            service_detail_res(place, descent)
        } else if descent.is_at(names::SERVICE_DISCOVERY_RES) {
            service_discovery_res(place, descent)
        } else {
            brief(place, descent)
        }
    }
}

/// Body.
#[derive(Drop, Default)]
pub struct Body<'a> {
    pub element: Option<BodyElement<'a>>,
}

impl PutRecord for Body<'_> {
    ghost use Rattle.std.specs.Prelude.{refl};
    ghost use Rattle.iso_schema.specs.Declarations.{kinds};
    ghost use Rattle.iso_schema.specs.Frame.{body};
    ghost use Rattle.iso_message.specs.Message.{body_parts};

    ghost kinds = { kinds };

    ghost attributes = { [] };

    ghost particles = { body };

    ghost apart = { refl };

    ghost given = { λ v. [] };

    ghost parts = { body_parts };

    fn write<P: Places>(&self, writer: &mut EventWriter<'_, '_, P>) {
        put_optional_choice(writer, &self.element);
    }
}

impl<'a> LargeRecord<'a> for Body<'a> {
    fn read_here<P: Places>(&mut self, descent: &mut Descent<'a, '_, P>) -> Result<(), Refusal> {
        first_child(descent)?;
        optional_choice_here(&mut self.element, descent)?;
        Ok(())
    }
}

/// V2G_Message.
#[derive(Drop, Default)]
pub struct IsoMessage<'a> {
    pub header: Header<'a>,
    pub body: Body<'a>,
}

impl PutRecord for IsoMessage<'_> {
    ghost use Rattle.std.specs.Prelude.{refl};
    ghost use Rattle.iso_schema.specs.Declarations.{kinds};
    ghost use Rattle.iso_schema.specs.Frame.{v2g_message};
    ghost use Rattle.iso_message.specs.Message.{iso_message_parts};

    ghost kinds = { kinds };

    ghost attributes = { [] };

    ghost particles = { v2g_message };

    ghost apart = { refl };

    ghost given = { λ v. [] };

    ghost parts = { iso_message_parts };

    fn write<P: Places>(&self, writer: &mut EventWriter<'_, '_, P>) {
        put_record(writer, names::HEADER, &self.header);
        put_record(writer, names::BODY, &self.body);
    }
}

impl<'a> LargeRecord<'a> for IsoMessage<'a> {
    fn read_here<P: Places>(&mut self, descent: &mut Descent<'a, '_, P>) -> Result<(), Refusal> {
        first_child(descent)?;
        self.header = required(descent)?;
        required_here(&mut self.body, descent)?;
        Ok(())
    }
}
