//! The offer of a car, and the response to it (ISO 15118-2:2014, section 8.2).

ghost use Rattle.std.specs.Prelude.{◌≡◌, ◌≤◌, length, take};
ghost use Rattle.std.specs.Str.{chars};
ghost use Rattle.exi_documents.specs.Values.{most_entries};
ghost use Rattle.app_protocol.specs.Messages.{ordinal_of, protocol_of, protocols_of};
ghost use Rattle.app_protocol.specs.Negotiation.{namespace_of};
ghost use Rattle.session_words.specs.Plans.{IsOfferOnce};
ghost use Rattle.evcc_machine.specs.Views.{judged_of};
ghost use Rattle.car_codec_laws.specs.Offering.{entry_at as entry_as, entries_of, Offers};
ghost use Rattle.car_codec_laws.specs.Responding.{named_from, named_by as named_as, chosen_by as chosen_as, Responds};

use app_protocol::{AppCode, AppMessage, AppProtocol, AppReq, AppRes, Text, read_app, write_app};
use arrayvec::ArrayVec;
use charge_world::Dialect;
use evcc_machine::Judged;
use exi_events::Table;

/// The namespace of a dialect's messages.
fn namespace(dialect: Dialect) -> &'static str
    ensures { chars result.now ≡ namespace_of dialect }
{
    match dialect {
        Dialect::Iso => "urn:iso:15118:2:2013:MsgDef",
        Dialect::Din => "urn:din:70121:2012:MsgDef",
    }
}

/// The entry of a dialect at its place in the offer, counted from 1.
fn entry_at(place: u8, dialect: Dialect) -> AppProtocol<'static>
    ensures { protocol_of result ≡ entry_as place dialect }
{
    AppProtocol {
        namespace: Text::Written(namespace(dialect)),
        major: 2,
        minor: 0,
        schema: place,
        priority: place,
    }
}

/// The request that offers these dialects.
fn offer_of(dialects: &[Dialect]) -> AppReq<'static>
    requires { length dialects.now ≤ 2 }
    ensures { protocols_of result ≡ entries_of dialects.now }
{
    let mut protocols = ArrayVec::new();
    for (i, dialect) in dialects.iter().enumerate() {
        protocols.push(entry_at(i as u8 + 1, *dialect));
    }
    AppReq { protocols }
}

/// Writes the payload that offers these dialects to the front of a room, and answers its number of bytes. The table is emptied.
pub(crate) fn write_offer(dialects: &[Dialect], room: &mut [u8], table: &mut Table) -> u32
    requires room { length room.old ≡ 1024 }
    requires once { IsOfferOnce dialects.now }
    requires cap { table.old.cap ≡ most_entries }
    ensures cap { table.new.cap ≡ most_entries }
    ensures within { result ≤ 1024 }
    ensures encoded { Offers dialects.now (take result room.new) }
{
    write_app(&AppMessage::Req(offer_of(dialects)), room, table).unwrap()
}

/// The dialect on offer whose entry has this SchemaID.
fn named(dialects: &[Dialect], schema: u8) -> Option<Dialect>
    ensures { result ≡ named_from 1 dialects.now schema }
{
    for (i, dialect) in dialects.iter().enumerate() {
        if schema as usize == i + 1 {
            return Some(*dialect);
        }
    }
    None
}

fn named_by(dialects: &[Dialect], schema: Option<u8>) -> Option<Dialect>
    ensures { result ≡ named_as dialects.now schema }
{
    match schema {
        Some(schema) => named(dialects, schema),
        None => None,
    }
}

/// The dialect that a response chooses.
fn chosen_by(dialects: &[Dialect], response: AppRes) -> Option<Dialect>
    ensures { result ≡ chosen_as dialects.now (ordinal_of response.code) response.schema }
{
    match response.code {
        AppCode::Failed => None,
        AppCode::Successful | AppCode::MinorDeviation => named_by(dialects, response.schema),
    }
}

/// What the first payload that a car hears is, where it offered these dialects. The table is emptied.
pub(crate) fn first_payload(dialects: &[Dialect], payload: &[u8], table: &mut Table) -> Judged
    requires payload { length payload.now ≤ 65536 }
    requires cap { table.old.cap ≡ most_entries }
    ensures cap { table.new.cap ≡ most_entries }
    ensures judged { Responds dialects.now payload.now (judged_of result) }
{
    match read_app(payload, table) {
        Err(_) => Judged::Refused,
        Ok(AppMessage::Req(_)) => Judged::WrongSide,
        Ok(AppMessage::Res(response)) => Judged::Chosen(chosen_by(dialects, response)),
    }
}
