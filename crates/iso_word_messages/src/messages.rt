//! The message of a neutral word (ISO 15118-2:2014, 8.3).

ghost use Rattle.std.specs.Prelude.{◌≡◌, IfSome, Some};
ghost use Rattle.exi_bits.specs.Lent.{items_of};
ghost use Rattle.session_words.specs.declared.word.Tell.TheVariants as tells;
ghost use Rattle.session_words.specs.declared.word.Word.TheVariants as words;
ghost use Rattle.iso_message.specs.declared.message.BodyElement.TheVariants.{Brief};
ghost use Rattle.iso_word_messages.specs.Messages.{IsAskOf, IsTellOf, IsMessageOf, IsMessageOfAny, message_with as message_as};
ghost use Rattle.iso_word_messages.specs.Spellable.{AreTenths, AreWatts, CanEvse, IsSomeEvse, CanAsk, CanTell, CanSpell};

use crate::parameter_messages::{parameters_req, parameters_res};
use crate::power_messages::{
    cable_check_req, cable_check_res, charging_res, delivery_req, delivery_res, demand_req,
    demand_res, pre_charge_req, pre_charge_res, welding_req, welding_res,
};
use crate::setup_messages::{
    authorization_req, authorization_res, detail_req, detail_res, discovery_req, discovery_res,
    selection_req, selection_res, setup_req, setup_res, stop_req, stop_res,
};
use iso_delivery::ChargingStatusReq;
use iso_message::{Body, BodyElement, BriefElement, IsoMessage};
use iso_parts::Header;
use message_parts::Binary;
use session_words::{
    Amount, Ask, Code, DcStatus, EvseId, Notify, Reply, Request, SessionId, Tell, Word,
};

/// The element of a SessionSetupRes.
fn setup_reply<'a>(code: Code, id: &'a EvseId) -> BodyElement<'a>
    requires { CanEvse id.now }
    ensures { IsTellOf code (tells.SessionSetup id.now) result }
{
    match id {
        EvseId::Text(text) => {
            BodyElement::Brief(BriefElement::SessionSetupRes(setup_res(code, text.as_str())))
        }
        EvseId::Bytes(_) => unreachable!(),
    }
}

/// The element of a CurrentDemandRes.
fn demand_reply<'a>(
    code: Code,
    status: DcStatus,
    voltage: Amount,
    current: Amount,
    current_cut: bool,
    voltage_cut: bool,
    watts_cut: bool,
    most_voltage: Option<Amount>,
    most_current: Option<Amount>,
    most_watts: Option<Amount>,
    id: &'a Option<EvseId>,
) -> BodyElement<'a>
    requires voltage { AreTenths voltage }
    requires current { AreTenths current }
    requires most_voltage { IfSome most_voltage AreTenths }
    requires most_current { IfSome most_current AreTenths }
    requires most_watts { IfSome most_watts AreWatts }
    requires id { IsSomeEvse id.now }
    ensures { IsTellOf code (tells.CurrentDemand status voltage current current_cut voltage_cut watts_cut most_voltage most_current most_watts id.now) result }
{
    match id {
        Some(EvseId::Text(text)) => BodyElement::Brief(BriefElement::CurrentDemandRes(demand_res(
            code,
            status,
            voltage,
            current,
            current_cut,
            voltage_cut,
            watts_cut,
            most_voltage,
            most_current,
            most_watts,
            text.as_str(),
        ))),
        _ => unreachable!(),
    }
}

/// The element of a ChargingStatusRes.
fn charging_reply<'a>(
    code: Code,
    notify: Notify,
    id: &'a EvseId,
    current: Option<Amount>,
) -> BodyElement<'a>
    requires id { CanEvse id.now }
    requires current { IfSome current AreTenths }
    ensures { IsTellOf code (tells.ChargingStatus notify id.now current) result }
{
    match id {
        EvseId::Text(text) => BodyElement::Brief(BriefElement::ChargingStatusRes(charging_res(
            code,
            notify,
            text.as_str(),
            current,
        ))),
        EvseId::Bytes(_) => unreachable!(),
    }
}

/// The element of a request, which is brief.
fn request_element<'a>(ask: &'a Ask) -> BriefElement<'a>
    requires { CanAsk ask.now }
    ensures { IsAskOf ask.now (Brief result) }
{
    match ask {
        Ask::SessionSetup { car } => {
            BriefElement::SessionSetupReq(setup_req(Binary::of_bytes(car.as_slice())))
        }
        Ask::ServiceDiscovery => BriefElement::ServiceDiscoveryReq(discovery_req()),
        Ask::ServiceDetail { service } => BriefElement::ServiceDetailReq(detail_req(*service)),
        Ask::PaymentSelection { external, services } => {
            BriefElement::PaymentServiceSelectionReq(selection_req(*external, services))
        }
        Ask::Authorization => BriefElement::AuthorizationReq(authorization_req()),
        Ask::ChargeParameters { mode, limits } => {
            BriefElement::ChargeParameterDiscoveryReq(parameters_req(*mode, limits))
        }
        Ask::CableCheck { ready, soc } => BriefElement::CableCheckReq(cable_check_req(
            *ready, *soc,
        )),
        Ask::PreCharge {
            ready,
            soc,
            voltage,
            current,
        } => BriefElement::PreChargeReq(pre_charge_req(*ready, *soc, *voltage, *current)),
        Ask::PowerDelivery {
            progress,
            tuple,
            profile,
        } => BriefElement::PowerDeliveryReq(delivery_req(*progress, *tuple, *profile)),
        Ask::CurrentDemand {
            ready,
            soc,
            voltage,
            current,
        } => BriefElement::CurrentDemandReq(demand_req(*ready, *soc, *voltage, *current)),
        Ask::ChargingStatus => BriefElement::ChargingStatusReq(ChargingStatusReq),
        Ask::WeldingDetection { ready, soc } => {
            BriefElement::WeldingDetectionReq(welding_req(*ready, *soc))
        }
        Ask::SessionStop { pause } => BriefElement::SessionStopReq(stop_req(*pause)),
    }
}

/// The element of a reply.
fn reply_element<'a>(code: Code, tell: &'a Tell) -> BodyElement<'a>
    requires { CanTell tell.now }
    ensures { IsTellOf code tell.now result }
{
    match tell {
        Tell::SessionSetup { evse } => setup_reply(code, evse),
        Tell::ServiceDiscovery { free, modes } => {
            BodyElement::ServiceDiscoveryRes(discovery_res(code, *free, modes))
        }
        Tell::ServiceDetail { service } => BodyElement::ServiceDetailRes(detail_res(
            code, *service,
        )),
        Tell::PaymentSelection => {
            BodyElement::Brief(BriefElement::PaymentServiceSelectionRes(selection_res(code)))
        }
        Tell::Authorization { processing } => {
            BodyElement::Brief(BriefElement::AuthorizationRes(authorization_res(code, *processing)))
        }
        Tell::ChargeParameters {
            processing,
            schedule,
            limits,
        } => BodyElement::ChargeParameterDiscoveryRes(parameters_res(
            code,
            *processing,
            schedule,
            limits,
        )),
        Tell::CableCheck { status, processing } => {
            BodyElement::Brief(BriefElement::CableCheckRes(cable_check_res(
                code,
                *status,
                *processing,
            )))
        }
        Tell::PreCharge { status, voltage } => {
            BodyElement::Brief(BriefElement::PreChargeRes(pre_charge_res(code, *status, *voltage)))
        }
        Tell::PowerDelivery { status } => BodyElement::Brief(BriefElement::PowerDeliveryRes(
            delivery_res(code, *status),
        )),
        Tell::CurrentDemand {
            status,
            voltage,
            current,
            current_cut,
            voltage_cut,
            watts_cut,
            most_voltage,
            most_current,
            most_watts,
            evse,
        } => demand_reply(
            code,
            *status,
            *voltage,
            *current,
            *current_cut,
            *voltage_cut,
            *watts_cut,
            *most_voltage,
            *most_current,
            *most_watts,
            evse,
        ),
        Tell::ChargingStatus {
            notify,
            evse,
            current,
        } => charging_reply(code, *notify, evse, *current),
        Tell::WeldingDetection { status, voltage } => {
            BodyElement::Brief(BriefElement::WeldingDetectionRes(welding_res(
                code, *status, *voltage,
            )))
        }
        Tell::SessionStop => BodyElement::Brief(BriefElement::SessionStopRes(stop_res(code))),
    }
}

/// A message under this identifier, without a notification.
fn message_with<'a>(session: &'a SessionId, element: BodyElement<'a>) -> IsoMessage<'a>
    ensures session { items_of result.header.session_id.span ≡ session.now.bytes.items }
    ensures element { result ≡ message_as result.header.session_id (Some element.entry) }
{
    IsoMessage {
        header: Header {
            session_id: Binary::of_bytes(session.bytes.as_slice()),
            notification: None,
        },
        body: Body {
            element: Some(element),
        },
    }
}

/// The message of a request that the declarations can spell, lent from it, with the elements that a word doesn't keep: those of a car's
/// requests.
pub fn of_request(request: &Request) -> IsoMessage<'_>
    requires { CanSpell (words.Request request.now) }
    ensures { IsMessageOf (words.Request request.now) result }
{
    message_with(
        &request.session,
        BodyElement::Brief(request_element(&request.ask)),
    )
}

/// The message of a reply that the declarations can spell, lent from it, with the elements that a word doesn't keep: those of the replies
/// of a post (`reply_to` of `session_rules`).
pub fn of_reply(reply: &Reply) -> IsoMessage<'_>
    requires { CanSpell (words.Reply reply.now) }
    ensures { IsMessageOf (words.Reply reply.now) result }
{
    message_with(&reply.session, reply_element(reply.code, &reply.tell))
}

/// The message of a neutral word that the declarations can spell, lent from it, with the elements that a word doesn't keep. One that says nothing
/// is a message with an empty body.
pub fn of_word(word: &Word) -> IsoMessage<'_>
    requires { CanSpell word.now }
    ensures { IsMessageOfAny word.now result }
{
    match word {
        Word::Request(request) => of_request(request),
        Word::Reply(reply) => of_reply(reply),
        Word::Nothing => IsoMessage {
            header: Header {
                session_id: Binary::of_bytes(&[]),
                notification: None,
            },
            body: Body { element: None },
        },
    }
}
