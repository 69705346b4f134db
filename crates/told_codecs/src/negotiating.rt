//! The negotiation (ISO 15118-2:2014, section 8.2).

ghost use Rattle.std.specs.Prelude.{◌≡◌, ◌≤◌, ◌↔◌, ℕ, Bool, List, Some, length};
ghost use Rattle.exi_documents.specs.Values.{most_entries};
ghost use Rattle.app_documents.specs.Trees.{Request};
ghost use Rattle.app_protocol.specs.Documents.{IsApp};
ghost use Rattle.app_protocol.specs.Messages.{ordinal_of, protocols_of};
ghost use Rattle.site_codec_laws.specs.Negotiating.{Negotiates};
ghost use Rattle.audit_streams.specs.Words.{IsFirst};
ghost use Rattle.told_codecs.specs.Responses as responses;

use app_protocol::{AppCode, AppMessage, AppReq, negotiate_among, read_app};
use audit_streams::ToldWord;
use charge_world::Dialect;
use exi_events::Table;

/// A request, with the dialect that is chosen for it.
fn negotiated(offers: &[Dialect], request: &AppReq<'_>) -> ToldWord
    ensures { (payload : List ℕ) → IsApp (Request (protocols_of request.now)) payload → IsFirst (Negotiates offers.now payload) result }
{
    let (_, chosen) = negotiate_among(request, offers);
    ToldWord::Negotiated(chosen)
}

/// What the first payload of a session is, at a post that offers these dialects. The table is emptied.
pub(crate) fn first_word(offers: &[Dialect], payload: &[u8], table: &mut Table) -> ToldWord
    requires payload { length payload.now ≤ 65536 }
    requires cap { table.old.cap ≡ most_entries }
    ensures cap { table.new.cap ≡ most_entries }
    ensures judged { IsFirst (Negotiates offers.now payload.now) result }
{
    match read_app(payload, table) {
        Err(_) => ToldWord::Refused,
        Ok(AppMessage::Res(_)) => ToldWord::WrongSide,
        Ok(AppMessage::Req(request)) => negotiated(offers, &request),
    }
}

/// Whether a response is positive.
fn is_positive(code: AppCode) -> bool
    ensures { result ≡ responses.is_positive (ordinal_of code) }
{
    match code {
        AppCode::Successful | AppCode::MinorDeviation => true,
        AppCode::Failed => false,
    }
}

/// Whether a payload is a positive response; none where it is no response. The table is emptied.
pub(crate) fn response_in(payload: &[u8], table: &mut Table) -> Option<bool>
    requires payload { length payload.now ≤ 65536 }
    requires cap { table.old.cap ≡ most_entries }
    ensures cap { table.new.cap ≡ most_entries }
    ensures positive { (positive : Bool) → responses.Responds payload.now positive ↔ (result ≡ Some positive) }
{
    match read_app(payload, table) {
        Ok(AppMessage::Res(response)) => Some(is_positive(response.code)),
        Ok(AppMessage::Req(_)) => None,
        Err(_) => None,
    }
}
