//! The neutral word of a message (DIN SPEC 70121:2014).

ghost use Rattle.std.specs.Prelude.{◌≡◌, Some};
ghost use Rattle.exi_documents.specs.Trees.{Ordinal};
ghost use Rattle.message_parts.specs.Contents.{Of};
ghost use Rattle.session_words.specs.declared.word.Word.TheVariants as word;
ghost use Rattle.word_values.specs.Items.{bytes_of as bytes_in};
ghost use Rattle.din_parts.specs.Codes.{response_code_ordinal};
ghost use Rattle.din_message.specs.Documents.{din_tree};
ghost use Rattle.word_tables.specs.Tables.{read};
ghost use Rattle.din_tables.specs.Codes.{response_code};
ghost use Rattle.message_tables.specs.Frame.{session_of};
ghost use Rattle.din_tables.specs.Words.{word_of_tree};

use crate::parameter_words::{parameters_ask, parameters_tell};
use crate::power_words::{
    cable_check_ask, cable_check_tell, delivery_ask, delivery_tell, demand_ask, demand_tell,
    pre_charge_ask, pre_charge_tell, welding_ask, welding_tell,
};
use crate::setup_words::{
    authorization_tell, discovery_tell, selection_ask, setup_ask, setup_tell,
};
use din_message::{BodyElement, DinMessage};
use din_parts::{Header, ResponseCode};
use din_values::codes::code_of;
use session_words::{Ask, Reply, Request, SessionId, Tell, Word};
use word_values::bytes_of;

/// The identifier in a header.
fn session_in(header: &Header<'_>) -> SessionId
    ensures { result ≡ session_of (bytes_in 8 header.now.session_id) }
{
    SessionId {
        bytes: bytes_of(&header.session_id),
    }
}

/// A request under this identifier.
fn asked(session: SessionId, ask: Ask) -> Word
    ensures { result ≡ word.Request (record { session = session; ask = ask }) }
{
    Word::Request(Request { session, ask })
}

/// A reply under this identifier.
#[tactic(auto, using(crate::proofs::Values::code_read))]
fn told(session: SessionId, code: ResponseCode, tell: Tell) -> Word
    ensures { result ≡ word.Reply (record { session = session; code = read response_code (Of (Ordinal (response_code_ordinal code))); tell = tell }) }
{
    Word::Reply(Reply {
        session,
        code: code_of(code),
        tell,
    })
}

/// The word of a message with this header and this element.
fn element_word(header: &Header<'_>, element: &BodyElement<'_>) -> Word
    ensures { result ≡ word_of_tree (din_tree (record { header = header.now; body = record { element = Some element.now } })) }
{
    let s = session_in(header);
    match element {
        BodyElement::SessionSetupReq(x) => asked(s, setup_ask(x)),
        BodyElement::SessionSetupRes(x) => told(s, x.response_code, setup_tell(x)),
        BodyElement::ServiceDiscoveryReq(_) => asked(s, Ask::ServiceDiscovery),
        BodyElement::ServiceDiscoveryRes(x) => told(s, x.response_code, discovery_tell(x)),
        BodyElement::ServicePaymentSelectionReq(x) => asked(s, selection_ask(x)),
        BodyElement::ServicePaymentSelectionRes(x) => {
            told(s, x.response_code, Tell::PaymentSelection)
        }
        BodyElement::ContractAuthenticationReq(_) => asked(s, Ask::Authorization),
        BodyElement::ContractAuthenticationRes(x) => told(
            s,
            x.response_code,
            authorization_tell(x),
        ),
        BodyElement::ChargeParameterDiscoveryReq(x) => asked(s, parameters_ask(x)),
        BodyElement::ChargeParameterDiscoveryRes(x) => told(s, x.response_code, parameters_tell(x)),
        BodyElement::CableCheckReq(x) => asked(s, cable_check_ask(x)),
        BodyElement::CableCheckRes(x) => told(s, x.response_code, cable_check_tell(x)),
        BodyElement::PreChargeReq(x) => asked(s, pre_charge_ask(x)),
        BodyElement::PreChargeRes(x) => told(s, x.response_code, pre_charge_tell(x)),
        BodyElement::PowerDeliveryReq(x) => asked(s, delivery_ask(x)),
        BodyElement::PowerDeliveryRes(x) => told(s, x.response_code, delivery_tell(x)),
        BodyElement::CurrentDemandReq(x) => asked(s, demand_ask(x)),
        BodyElement::CurrentDemandRes(x) => told(s, x.response_code, demand_tell(x)),
        BodyElement::WeldingDetectionReq(x) => asked(s, welding_ask(x)),
        BodyElement::WeldingDetectionRes(x) => told(s, x.response_code, welding_tell(x)),
        BodyElement::SessionStopReq(_) => asked(s, Ask::SessionStop { pause: false }),
        BodyElement::SessionStopRes(x) => told(s, x.response_code, Tell::SessionStop),
    }
}

/// The neutral word of a message: what a post or a car judges of it. Voltages and currents count in whole tenths and power in whole
/// watts; a value below 0 counts as 0.
pub fn to_word(message: &DinMessage<'_>) -> Word
    ensures { result ≡ word_of_tree (din_tree message.now) }
{
    match &message.body.element {
        Some(element) => element_word(&message.header, element),
        None => Word::Nothing,
    }
}
