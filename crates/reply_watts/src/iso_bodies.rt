//! The watts of a message of ISO 15118-2:2014 (8.3), by the element of its body.

ghost use Rattle.std.specs.Prelude.{◌<◌, Some};
ghost use Rattle.message_parts.specs.Contents.{Inside};
ghost use Rattle.iso_elements.specs.Brief.{brief_element_name, brief_element_inside};
ghost use Rattle.iso_message.specs.Message.{body_element_name, body_element_inside};
ghost use Rattle.iso_message.specs.Documents.{iso_tree};
ghost use Rattle.audit_streams.specs.Words.{IsOfWatts};
ghost use Rattle.reply_watts.specs.Replies.{IsoElement, IsoTree};

use crate::iso::{demand, parameters, status};
use audit_watts::WattValues;
use charge_world::Dialect;
use iso_message::{BodyElement, BriefElement, IsoMessage};
use session_words::PostPlan;

/// What is kept of a brief element; none where it is no reply.
fn brief_watts(
    plan: &PostPlan,
    spoken: Dialect,
    told: u32,
    element: &BriefElement<'_>,
) -> Option<WattValues>
    requires told { told < 32768000 }
    requires nominal { 0 < plan.now.nominal }
    ensures { (own : Inside)
        → IsOfWatts (IsoElement own (Some (brief_element_name element.now, brief_element_inside element.now))) plan.now spoken told result }
{
    match element {
        BriefElement::CurrentDemandRes(reply) => Some(demand(spoken, told, reply)),
        BriefElement::ChargingStatusRes(reply) => Some(status(plan, spoken, told, reply)),
        BriefElement::SessionSetupRes(_)
        | BriefElement::PaymentServiceSelectionRes(_)
        | BriefElement::AuthorizationRes(_)
        | BriefElement::CableCheckRes(_)
        | BriefElement::PreChargeRes(_)
        | BriefElement::PowerDeliveryRes(_)
        | BriefElement::WeldingDetectionRes(_)
        | BriefElement::SessionStopRes(_) => Some(WattValues::new()),
        BriefElement::SessionSetupReq(_)
        | BriefElement::ServiceDiscoveryReq(_)
        | BriefElement::ServiceDetailReq(_)
        | BriefElement::PaymentServiceSelectionReq(_)
        | BriefElement::AuthorizationReq(_)
        | BriefElement::ChargeParameterDiscoveryReq(_)
        | BriefElement::CableCheckReq(_)
        | BriefElement::PreChargeReq(_)
        | BriefElement::PowerDeliveryReq(_)
        | BriefElement::CurrentDemandReq(_)
        | BriefElement::ChargingStatusReq(_)
        | BriefElement::WeldingDetectionReq(_)
        | BriefElement::SessionStopReq(_) => None,
    }
}

/// What is kept of an element of a body; none where it is no reply.
fn element_watts(
    plan: &PostPlan,
    spoken: Dialect,
    told: u32,
    element: &BodyElement<'_>,
) -> Option<WattValues>
    requires told { told < 32768000 }
    requires nominal { 0 < plan.now.nominal }
    ensures { (own : Inside)
        → IsOfWatts (IsoElement own (Some (body_element_name element.now, body_element_inside element.now))) plan.now spoken told result }
{
    match element {
        BodyElement::Brief(brief) => brief_watts(plan, spoken, told, brief),
        BodyElement::ChargeParameterDiscoveryRes(reply) => Some(parameters(
            plan, spoken, told, reply,
        )),
        BodyElement::ServiceDiscoveryRes(_) | BodyElement::ServiceDetailRes(_) => {
            Some(WattValues::new())
        }
    }
}

/// What is kept of the watts of a message of ISO 15118-2, as it writes them, where the post was told so many in a dialect; none where it is no reply.
pub fn iso_watts(
    plan: &PostPlan,
    spoken: Dialect,
    told: u32,
    message: &IsoMessage<'_>,
) -> Option<WattValues>
    requires told { told < 32768000 }
    requires nominal { 0 < plan.now.nominal }
    ensures { IsOfWatts (IsoTree (iso_tree message.now)) plan.now spoken told result }
{
    match &message.body.element {
        Some(element) => element_watts(plan, spoken, told, element),
        None => None,
    }
}
