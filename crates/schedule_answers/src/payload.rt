//! The payload of a profile's request.

ghost use Rattle.std.specs.Prelude.{◌≡◌, ◌≤◌, IfOk, length, take};
ghost use Rattle.exi_documents.specs.Values.{most_entries};
ghost use Rattle.schedule_answers.specs.Requests.{CanRequest};
ghost use Rattle.schedule_answers.specs.Answers.{IsRequestIn};

use crate::request::request_of;
use charge_world::NoMemory;
use exi_events::Table;
use iso_codec::{IsoTables, write_iso};
use schedules::Profile;
use std::alloc::Global;

/// The bytes that each request has room in.
const ROOM: usize = 2048;

/// Writes the payload of a profile's request to the front of a room, and answers its number of bytes. The table is emptied.
fn write_request(tables: &IsoTables, profile: &Profile, room: &mut [u8], table: &mut Table) -> u32
    requires profile { CanRequest profile.now }
    requires room { length room.old ≡ 2048 }
    requires cap { table.old.cap ≡ most_entries }
    ensures within { result ≤ length room.new }
    ensures written { IsRequestIn profile.now (take result room.new) }
{
    iso_codec::laws::messages_are_written();
    write_iso(tables, &request_of(profile), room, table).unwrap()
}

/// The payload of a profile's request. The table is emptied.
pub(crate) fn payload_of(
    alloc: Global,
    tables: &IsoTables,
    profile: &Profile,
    table: &mut Table,
) -> Result<Vec<u8>, NoMemory>
    requires profile { CanRequest profile.now }
    requires cap { table.old.cap ≡ most_entries }
    ensures { IfOk result (λ payload. IsRequestIn profile.now payload.items) }
{
    let mut room = [0; ROOM];
    let count = write_request(tables, profile, &mut room, table) as usize;
    let mut payload = Vec::new(alloc);
    payload.extend_from_slice(&room[..count])?;
    Ok(payload)
}
