//! The first payload of a session (ISO 15118-2:2014, section 8.2).

ghost use Rattle.std.specs.Prelude.{◌≡◌, ◌≤◌, ℕ, List, length};
ghost use Rattle.exi_documents.specs.Values.{most_entries};
ghost use Rattle.document_laws.specs.Laws.{AreBytes};
ghost use Rattle.app_documents.specs.Trees.{Request};
ghost use Rattle.app_protocol.specs.declared.message.AppMessage.TheVariants.{Res};
ghost use Rattle.app_protocol.specs.Documents.{IsApp, IsAppEncoding};
ghost use Rattle.app_protocol.specs.Messages.{message_of, protocols_of};
ghost use Rattle.secc_machine.specs.Views.{judged_of};
ghost use Rattle.site_codec_laws.specs.Negotiating.{Negotiates};

use crate::typed::law_of_bytes;
use app_protocol::{AppMessage, AppReq, AppRes, negotiate_among, read_app, write_app};
use arrayvec::ArrayVec;
use charge_world::Dialect;
use exi_events::Table;
use secc_machine::Judged;

/// What the first payload of a session is, at a post that offers these dialects. The table is emptied.
pub(crate) fn first_payload(offers: &[Dialect], payload: &[u8], table: &mut Table) -> Judged
    requires payload { length payload.now ≤ 65536 }
    requires cap { table.old.cap ≡ most_entries }
    ensures cap { table.new.cap ≡ most_entries }
    ensures judged { Negotiates offers.now payload.now (judged_of result) }
{
    match read_app(payload, table) {
        Err(_) => Judged::Refused,
        Ok(AppMessage::Res(_)) => Judged::WrongSide,
        Ok(AppMessage::Req(request)) => answered(offers, &request, table),
    }
}

/// A request with its answer.
fn answered(offers: &[Dialect], request: &AppReq<'_>, table: &mut Table) -> Judged
    requires cap { table.old.cap ≡ most_entries }
    ensures cap { table.new.cap ≡ most_entries }
    ensures judged { (payload : List ℕ) → IsApp (Request (protocols_of request.now)) payload
        → Negotiates offers.now payload (judged_of result) }
{
    let (answer, chosen) = negotiate_among(request, offers);
    let response = encoded(answer, table);
    Judged::Negotiated { chosen, response }
}

/// The encoding of a response.
fn encoded(answer: AppRes, table: &mut Table) -> ArrayVec<u8, 4>
    requires cap { table.old.cap ≡ most_entries }
    ensures cap { table.new.cap ≡ most_entries }
    ensures bytes { AreBytes result.items }
    ensures encoded { IsAppEncoding (message_of (Res answer)) result.items }
{
    let mut room = [0u8; 4];
    let n = write_app(&AppMessage::Res(answer), &mut room, table).unwrap();
    let mut response = ArrayVec::new();
    response.try_extend_from_slice(&room[..n as usize]).unwrap();
    law_of_bytes(response.as_slice());
    response
}
