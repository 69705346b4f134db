//! The watts of a message of DIN SPEC 70121:2014 (9.2), by the element of its body.

ghost use Rattle.std.specs.Prelude.{◌<◌, Some};
ghost use Rattle.session_words.specs.declared.plan.PostPlan.{PostPlan};
ghost use Rattle.message_parts.specs.Contents.{Inside};
ghost use Rattle.din_message.specs.Message.{body_element_name, body_element_inside};
ghost use Rattle.din_message.specs.Documents.{din_tree};
ghost use Rattle.audit_streams.specs.Words.{IsOfWatts};
ghost use Rattle.reply_watts.specs.Replies.{DinElement, DinTree};

use crate::din::{demand, parameters};
use audit_watts::WattValues;
use charge_world::Dialect;
use din_message::{BodyElement, DinMessage};

/// What is kept of an element of a body; none where it is no reply.
fn element_watts(spoken: Dialect, told: u32, element: &BodyElement<'_>) -> Option<WattValues>
    requires { told < 32768000 }
    ensures { (plan : PostPlan) (own : Inside)
        → IsOfWatts (DinElement own (Some (body_element_name element.now, body_element_inside element.now))) plan spoken told result }
{
    match element {
        BodyElement::ChargeParameterDiscoveryRes(reply) => Some(parameters(spoken, told, reply)),
        BodyElement::CurrentDemandRes(reply) => Some(demand(spoken, told, reply)),
        BodyElement::SessionSetupRes(_)
        | BodyElement::ServiceDiscoveryRes(_)
        | BodyElement::ServicePaymentSelectionRes(_)
        | BodyElement::ContractAuthenticationRes(_)
        | BodyElement::CableCheckRes(_)
        | BodyElement::PreChargeRes(_)
        | BodyElement::PowerDeliveryRes(_)
        | BodyElement::WeldingDetectionRes(_)
        | BodyElement::SessionStopRes(_) => Some(WattValues::new()),
        BodyElement::SessionSetupReq(_)
        | BodyElement::ServiceDiscoveryReq(_)
        | BodyElement::ServicePaymentSelectionReq(_)
        | BodyElement::ContractAuthenticationReq(_)
        | BodyElement::ChargeParameterDiscoveryReq(_)
        | BodyElement::CableCheckReq(_)
        | BodyElement::PreChargeReq(_)
        | BodyElement::PowerDeliveryReq(_)
        | BodyElement::CurrentDemandReq(_)
        | BodyElement::WeldingDetectionReq(_)
        | BodyElement::SessionStopReq(_) => None,
    }
}

/// What is kept of the watts of a message of DIN SPEC 70121, as it writes them, where the post was told so many in a dialect; none where it is no reply.
pub fn din_watts(spoken: Dialect, told: u32, message: &DinMessage<'_>) -> Option<WattValues>
    requires { told < 32768000 }
    ensures { (plan : PostPlan) → IsOfWatts (DinTree (din_tree message.now)) plan spoken told result }
{
    match &message.body.element {
        Some(element) => element_watts(spoken, told, element),
        None => None,
    }
}
