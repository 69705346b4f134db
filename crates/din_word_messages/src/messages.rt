//! The message of a neutral word (DIN SPEC 70121:2014).

ghost use Rattle.std.specs.Prelude.{◌≡◌, IfSome};
ghost use Rattle.exi_bits.specs.Lent.{items_of};
ghost use Rattle.session_words.specs.declared.word.Ask.TheVariants as asks;
ghost use Rattle.session_words.specs.declared.word.Tell.TheVariants as tells;
ghost use Rattle.session_words.specs.declared.word.Word.TheVariants as words;
ghost use Rattle.din_word_messages.specs.Messages.{IsAskOf, IsTellOf, IsMessageOf, IsMessageOfAny, message_with as message_as};
ghost use Rattle.din_word_messages.specs.Spellable.{CanCarLimits, CanEvse, CanPostLimits, CanPostStatus, CanTuples, CanAsk, CanTell, CanSpell};

use crate::parameter_messages::{parameters_req, parameters_res};
use crate::power_messages::{
    cable_check_req, cable_check_res, delivery_req, delivery_res, demand_req, demand_res,
    pre_charge_req, pre_charge_res, welding_req, welding_res,
};
use crate::setup_messages::{
    authorization_req, authorization_res, discovery_req, discovery_res, selection_req,
    selection_res, setup_req, setup_res, stop_res,
};
use arrayvec::ArrayVec;
use din_message::{Body, BodyElement, DinMessage};
use din_parts::Header;
use din_setup::SessionStopReq;
use message_parts::Binary;
use session_words::{
    Ask, CarLimits, Code, EvseId, Mode, PostLimits, PostStatus, Processing, Reply, Request,
    SessionId, Tell, Tuple, Word,
};

/// The element of a SessionSetupRes.
fn setup_reply<'a>(code: Code, id: &'a EvseId) -> BodyElement<'a>
    requires { CanEvse id.now }
    ensures { IsTellOf code (tells.SessionSetup id.now) result }
{
    match id {
        EvseId::Bytes(bytes) => {
            BodyElement::SessionSetupRes(setup_res(code, Binary::of_bytes(bytes.as_slice())))
        }
        EvseId::Text(_) => unreachable!(),
    }
}

/// The element of a ChargeParameterDiscoveryReq.
fn parameters_request<'a>(mode: Mode, limits: &CarLimits) -> BodyElement<'a>
    requires { CanCarLimits limits.now }
    ensures { IsAskOf (asks.ChargeParameters mode limits.now) result }
{
    match limits {
        CarLimits::Dc {
            ready,
            soc,
            current,
            watts,
            voltage,
        } => BodyElement::ChargeParameterDiscoveryReq(parameters_req(
            mode, *ready, *soc, *current, *watts, *voltage,
        )),
        CarLimits::Ac { .. } => unreachable!(),
    }
}

/// The element of a request.
fn request_element<'a>(ask: &'a Ask) -> BodyElement<'a>
    requires { CanAsk ask.now }
    ensures { IsAskOf ask.now result }
{
    match ask {
        Ask::SessionSetup { car } => {
            BodyElement::SessionSetupReq(setup_req(Binary::of_bytes(car.as_slice())))
        }
        Ask::ServiceDiscovery => BodyElement::ServiceDiscoveryReq(discovery_req()),
        Ask::ServiceDetail { .. } => unreachable!(),
        Ask::PaymentSelection { external, services } => {
            BodyElement::ServicePaymentSelectionReq(selection_req(*external, services))
        }
        Ask::Authorization => BodyElement::ContractAuthenticationReq(authorization_req()),
        Ask::ChargeParameters { mode, limits } => parameters_request(*mode, limits),
        Ask::CableCheck { ready, soc } => BodyElement::CableCheckReq(cable_check_req(*ready, *soc)),
        Ask::PreCharge {
            ready,
            soc,
            voltage,
            current,
        } => BodyElement::PreChargeReq(pre_charge_req(*ready, *soc, *voltage, *current)),
        Ask::PowerDelivery {
            progress,
            tuple,
            profile,
        } => BodyElement::PowerDeliveryReq(delivery_req(*progress, *tuple, *profile)),
        Ask::CurrentDemand {
            ready,
            soc,
            voltage,
            current,
        } => BodyElement::CurrentDemandReq(demand_req(*ready, *soc, *voltage, *current)),
        Ask::ChargingStatus => unreachable!(),
        Ask::WeldingDetection { ready, soc } => {
            BodyElement::WeldingDetectionReq(welding_req(*ready, *soc))
        }
        Ask::SessionStop { .. } => BodyElement::SessionStopReq(SessionStopReq),
    }
}

/// The element of a ChargeParameterDiscoveryRes.
fn parameters_reply<'a>(
    code: Code,
    processing: Processing,
    schedule: &Option<ArrayVec<Tuple, 3>>,
    limits: &PostLimits,
) -> BodyElement<'a>
    requires schedule { IfSome schedule.now CanTuples }
    requires limits { CanPostLimits limits.now }
    ensures { IsTellOf code (tells.ChargeParameters processing schedule.now limits.now) result }
{
    match limits {
        PostLimits::Dc {
            status,
            current,
            watts,
            voltage,
            least_current,
            least_voltage,
            ripple,
        } => BodyElement::ChargeParameterDiscoveryRes(parameters_res(
            code,
            processing,
            schedule,
            *status,
            *current,
            *watts,
            *voltage,
            *least_current,
            *least_voltage,
            *ripple,
        )),
        PostLimits::Ac { .. } => unreachable!(),
    }
}

/// The element of a PowerDeliveryRes.
fn delivery_reply<'a>(code: Code, status: PostStatus) -> BodyElement<'a>
    requires { CanPostStatus status }
    ensures { IsTellOf code (tells.PowerDelivery status) result }
{
    match status {
        PostStatus::Dc(dc) => BodyElement::PowerDeliveryRes(delivery_res(code, dc)),
        PostStatus::Ac { .. } => unreachable!(),
    }
}

/// The element of a reply.
fn reply_element<'a>(code: Code, tell: &'a Tell) -> BodyElement<'a>
    requires { CanTell tell.now }
    ensures { IsTellOf code tell.now result }
{
    match tell {
        Tell::SessionSetup { evse } => setup_reply(code, evse),
        Tell::ServiceDiscovery { free, modes } => {
            BodyElement::ServiceDiscoveryRes(discovery_res(code, *free, modes.as_slice()))
        }
        Tell::ServiceDetail { .. } => unreachable!(),
        Tell::PaymentSelection => BodyElement::ServicePaymentSelectionRes(selection_res(code)),
        Tell::Authorization { processing } => {
            BodyElement::ContractAuthenticationRes(authorization_res(code, *processing))
        }
        Tell::ChargeParameters {
            processing,
            schedule,
            limits,
        } => parameters_reply(code, *processing, schedule, limits),
        Tell::CableCheck { status, processing } => {
            BodyElement::CableCheckRes(cable_check_res(code, *status, *processing))
        }
        Tell::PreCharge { status, voltage } => {
            BodyElement::PreChargeRes(pre_charge_res(code, *status, *voltage))
        }
        Tell::PowerDelivery { status } => delivery_reply(code, *status),
        Tell::CurrentDemand {
            status,
            voltage,
            current,
            current_cut,
            voltage_cut,
            watts_cut,
            most_voltage,
            most_current,
            most_watts,
            ..
        } => BodyElement::CurrentDemandRes(demand_res(
            code,
            *status,
            *voltage,
            *current,
            *current_cut,
            *voltage_cut,
            *watts_cut,
            *most_voltage,
            *most_current,
            *most_watts,
        )),
        Tell::ChargingStatus { .. } => unreachable!(),
        Tell::WeldingDetection { status, voltage } => {
            BodyElement::WeldingDetectionRes(welding_res(code, *status, *voltage))
        }
        Tell::SessionStop => BodyElement::SessionStopRes(stop_res(code)),
    }
}

/// A message under this identifier, without a notification.
fn message_with<'a>(session: &'a SessionId, element: BodyElement<'a>) -> DinMessage<'a>
    ensures session { items_of result.header.session_id.span ≡ session.now.bytes.items }
    ensures element { result ≡ message_as result.header.session_id element.entry }
{
    DinMessage {
        header: Header {
            session_id: Binary::of_bytes(session.bytes.as_slice()),
            notification: None,
        },
        body: Body {
            element: Some(element),
        },
    }
}

/// The message of a request that the declarations can spell, lent from it, with the elements that a word doesn't keep: those of a car's
/// requests.
pub fn of_request(request: &Request) -> DinMessage<'_>
    requires { CanSpell (words.Request request.now) }
    ensures { IsMessageOf (words.Request request.now) result }
{
    message_with(&request.session, request_element(&request.ask))
}

/// The message of a reply that the declarations can spell, lent from it, with the elements that a word doesn't keep: those of the replies
/// of a post (`reply_to` of `session_rules`).
pub fn of_reply(reply: &Reply) -> DinMessage<'_>
    requires { CanSpell (words.Reply reply.now) }
    ensures { IsMessageOf (words.Reply reply.now) result }
{
    message_with(&reply.session, reply_element(reply.code, &reply.tell))
}

/// The message of a neutral word that the declarations can spell, lent from it, with the elements that a word doesn't keep. One that says nothing
/// is a message with an empty body.
pub fn of_word(word: &Word) -> DinMessage<'_>
    requires { CanSpell word.now }
    ensures { IsMessageOfAny word.now result }
{
    match word {
        Word::Request(request) => of_request(request),
        Word::Reply(reply) => of_reply(reply),
        Word::Nothing => DinMessage {
            header: Header {
                session_id: Binary::of_bytes(&[]),
                notification: None,
            },
            body: Body { element: None },
        },
    }
}
