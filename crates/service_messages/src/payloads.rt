//! The payload of a service's message.

ghost use Rattle.std.specs.Prelude.{◌≡◌, length, take, IfOk, IfErr, IfSome, MatchOption};
ghost use Rattle.exi_documents.specs.Values.{most_entries};
ghost use Rattle.service_spec.specs.Sets.{IsService};
ghost use Rattle.service_messages.specs.Payloads.{IsPayloadOf, IsLong, HasDetailFault};

use crate::messages::message_of;
use charge_world::NoMemory;
use exi_events::Table;
use iso_codec::{IsoTables, write_iso};
use schedule_answers::codec;
use service_spec::Service;
use std::alloc::Global;

/// The most bytes of a payload.
const ROOM: usize = 65_536;

/// Why a service has no payload.
#[derive(Clone, Copy)]
pub enum DetailFault {
    /// Its message has more than 65,536 bytes.
    Long,
    /// Memory ran out.
    Memory,
}

impl From<NoMemory> for DetailFault {
    ghost use Rattle.service_messages.specs.declared.payloads.DetailFault.TheVariants.{Memory};

    ghost from_gives = { λ _ fault. fault ≡ Memory };

    fn from(_none: NoMemory) -> DetailFault {
        DetailFault::Memory
    }
}

/// Writes the message of a service to the front of a room, and answers its number of bytes; `None` exactly where it has more than the room. The table
/// is emptied.
fn write_detail(
    tables: &IsoTables,
    service: &Option<Service<'_>>,
    id: u16,
    room: &mut [u8],
    table: &mut Table,
) -> Option<u32>
    requires service { IfSome service.now IsService }
    requires room { length room.old ≡ 65536 }
    requires cap { table.old.cap ≡ most_entries }
    ensures { MatchOption result (IsLong id service.now) (λ n. IsPayloadOf id service.now (take n room.new)) }
{
    iso_codec::laws::messages_are_written();
    let message = message_of(service, id);
    match write_iso(tables, &message, room, table) {
        Ok(count) => Some(count),
        Err(_) => None,
    }
}

/// The payload of the ServiceDetailRes for the service of this identifier of a catalogue (ISO 15118-2:2014, 8.4.3.3.3), under the identifier of no session.
///
/// `Long` exactly where it has more than 65,536 bytes, but for want of memory, which is `Memory`.
pub fn payload_of(
    alloc: Global,
    service: &Option<Service<'_>>,
    id: u16,
) -> Result<Vec<u8>, DetailFault>
    requires { IfSome service.now IsService }
    ensures payload { IfOk result (λ payload. IsPayloadOf id service.now payload.items) }
    ensures fault { IfErr result (HasDetailFault id service.now) }
{
    let (tables, mut table) = codec(alloc)?;
    let mut room = vec![in alloc; 0; ROOM]?;
    match write_detail(&tables, service, id, room.as_mut_slice(), &mut table) {
        Some(count) => {
            room.truncate(count as usize);
            Ok(room)
        }
        None => Err(DetailFault::Long),
    }
}
