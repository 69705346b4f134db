//! The neutral word of a message (ISO 15118-2:2014, 8.3).

ghost use Rattle.std.specs.Prelude.{◌≡◌, Some};
ghost use Rattle.exi_documents.specs.Trees.{Ordinal};
ghost use Rattle.message_parts.specs.Contents.{Of};
ghost use Rattle.session_words.specs.declared.word.Word.TheVariants as word;
ghost use Rattle.word_values.specs.Items.{bytes_of as bytes_in};
ghost use Rattle.iso_parts.specs.Codes.{response_code_ordinal};
ghost use Rattle.iso_message.specs.declared.message.BodyElement.TheVariants.{Brief};
ghost use Rattle.iso_message.specs.Documents.{iso_tree};
ghost use Rattle.word_tables.specs.Tables.{read};
ghost use Rattle.message_tables.specs.Frame.{session_of};
ghost use Rattle.iso_tables.specs.Codes.{response_code};
ghost use Rattle.iso_tables.specs.Words.{word_of_tree};

use crate::parameter_words::{parameters_ask, parameters_tell};
use crate::power_words::{
    cable_check_ask, cable_check_tell, charging_tell, delivery_ask, delivery_tell, demand_ask,
    demand_tell, pre_charge_ask, pre_charge_tell, welding_ask, welding_tell,
};
use crate::setup_words::{
    authorization_tell, detail_ask, detail_tell, discovery_tell, selection_ask, setup_ask,
    setup_tell, stop_ask,
};
use iso_message::{BodyElement, BriefElement, IsoMessage};
use iso_parts::{Header, ResponseCode};
use iso_values::codes::code_of;
use session_words::{Ask, Reply, Request, SessionId, Tell, Word};
use word_values::bytes_of;

/// The identifier in a header.
fn session_in(header: &Header<'_>) -> SessionId
    ensures { result ≡ session_of (bytes_in 8 header.now.session_id) }
{
    SessionId {
        bytes: bytes_of(&header.session_id),
    }
}

/// A request under this identifier.
fn asked(session: SessionId, ask: Ask) -> Word
    ensures { result ≡ word.Request (record { session = session; ask = ask }) }
{
    Word::Request(Request { session, ask })
}

/// A reply under this identifier.
#[tactic(auto, using(crate::proofs::Values::code_read))]
fn told(session: SessionId, code: ResponseCode, tell: Tell) -> Word
    ensures { result ≡ word.Reply (record { session = session; code = read response_code (Of (Ordinal (response_code_ordinal code))); tell = tell }) }
{
    Word::Reply(Reply {
        session,
        code: code_of(code),
        tell,
    })
}

/// The word of a message with this header and this brief element.
fn brief_word(header: &Header<'_>, element: &BriefElement<'_>) -> Word
    ensures { result ≡ word_of_tree (iso_tree (record { header = header.now; body = record { element = Some (Brief element.now) } })) }
{
    let s = session_in(header);
    match element {
        BriefElement::SessionSetupReq(x) => asked(s, setup_ask(x)),
        BriefElement::SessionSetupRes(x) => told(s, x.response_code, setup_tell(x)),
        BriefElement::ServiceDiscoveryReq(_) => asked(s, Ask::ServiceDiscovery),
        BriefElement::ServiceDetailReq(x) => asked(s, detail_ask(x)),
        BriefElement::PaymentServiceSelectionReq(x) => asked(s, selection_ask(x)),
        BriefElement::PaymentServiceSelectionRes(x) => {
            told(s, x.response_code, Tell::PaymentSelection)
        }
        BriefElement::AuthorizationReq(_) => asked(s, Ask::Authorization),
        BriefElement::AuthorizationRes(x) => told(s, x.response_code, authorization_tell(x)),
        BriefElement::ChargeParameterDiscoveryReq(x) => asked(s, parameters_ask(x)),
        BriefElement::CableCheckReq(x) => asked(s, cable_check_ask(x)),
        BriefElement::CableCheckRes(x) => told(s, x.response_code, cable_check_tell(x)),
        BriefElement::PreChargeReq(x) => asked(s, pre_charge_ask(x)),
        BriefElement::PreChargeRes(x) => told(s, x.response_code, pre_charge_tell(x)),
        BriefElement::PowerDeliveryReq(x) => asked(s, delivery_ask(x)),
        BriefElement::PowerDeliveryRes(x) => told(s, x.response_code, delivery_tell(x)),
        BriefElement::CurrentDemandReq(x) => asked(s, demand_ask(x)),
        BriefElement::CurrentDemandRes(x) => told(s, x.response_code, demand_tell(x)),
        BriefElement::ChargingStatusReq(_) => asked(s, Ask::ChargingStatus),
        BriefElement::ChargingStatusRes(x) => told(s, x.response_code, charging_tell(x)),
        BriefElement::WeldingDetectionReq(x) => asked(s, welding_ask(x)),
        BriefElement::WeldingDetectionRes(x) => told(s, x.response_code, welding_tell(x)),
        BriefElement::SessionStopReq(x) => asked(s, stop_ask(x)),
        BriefElement::SessionStopRes(x) => told(s, x.response_code, Tell::SessionStop),
    }
}

/// The word of a message with this header and this element.
fn element_word(header: &Header<'_>, element: &BodyElement<'_>) -> Word
    ensures { result ≡ word_of_tree (iso_tree (record { header = header.now; body = record { element = Some element.now } })) }
{
    let s = session_in(header);
    match element {
        BodyElement::Brief(brief) => brief_word(header, brief),
        BodyElement::ServiceDiscoveryRes(x) => told(s, x.response_code, discovery_tell(x)),
        BodyElement::ServiceDetailRes(x) => told(s, x.response_code, detail_tell(x)),
        BodyElement::ChargeParameterDiscoveryRes(x) => told(s, x.response_code, parameters_tell(x)),
    }
}

/// The neutral word of a message: what a post or a car judges of it. Voltages and currents count in whole tenths and power in whole
/// watts; a value below 0 counts as 0.
pub fn to_word(message: &IsoMessage<'_>) -> Word
    ensures { result ≡ word_of_tree (iso_tree message.now) }
{
    match &message.body.element {
        Some(element) => element_word(&message.header, element),
        None => Word::Nothing,
    }
}
