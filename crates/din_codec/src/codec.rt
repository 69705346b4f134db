//! Messages read from payloads, and their encodings.

ghost use Rattle.std.specs.Prelude.{◌≡◌, ◌*◌, ◌<◌, ◌≤◌, ◌↔◌, length, take, IfOk, IfErr, IsErr};
ghost use Rattle.exi_documents.specs.Values.{most_entries};
ghost use Rattle.din_message.specs.Documents.{IsDin, IsDinRefused, IsDinMessage, IsDinEncoding, PassesBytes, TellsBits};

use crate::tables::DinTables;
use din_message::DinMessage;
use exi_documents::Refusal;
use exi_events::{Full, Table};

/// Reads a message from a payload of at most 65,536 bytes (DIN SPEC 70121:2014, 9.2 to 9.5). The table, which has room for 8,192 entries,
/// is emptied. Its texts and Binaries are lent from the payload.
///
/// Refused exactly where the payload spells no message, with the cause and the bit of the first item that can't be taken.
pub fn read_din<'a>(
    tables: &DinTables,
    payload: &'a [u8],
    table: &mut Table,
    message: &mut DinMessage<'a>,
) -> Result<(), Refusal>
    requires payload { length payload.now ≤ 65536 }
    requires cap { table.old.cap ≡ most_entries }
    ensures cap { table.new.cap ≡ most_entries }
    ensures read { IfOk result (λ _. IsDin message.new payload.now) }
    ensures refused { IfErr result (λ r. IsDinRefused payload.now r.cause r.bit) }
{
    message_parts::read_here(payload, &tables.rows, table, message)
}

/// Writes the one encoding of a message that has one (DIN SPEC 70121:2014, 9.2 to 9.5) to the front of a room of at most 65,536 bytes, and
/// returns how many bytes it has. The table, which has room for 8,192 entries, is emptied.
///
/// `Full` exactly where the encoding has more bits than the room. It tells the bits of the whole encoding where these are at most
/// 65,536 bytes, and else more than those have.
pub fn write_din(
    tables: &DinTables,
    message: &DinMessage<'_>,
    room: &mut [u8],
    table: &mut Table,
) -> Result<u32, Full>
    requires message { IsDinMessage message.now }
    requires room { length room.old ≤ 65536 }
    requires cap { table.old.cap ≡ most_entries }
    ensures cap { table.new.cap ≡ most_entries }
    ensures within { IfOk result (λ n. n ≤ length room.new) }
    ensures written { IfOk result (λ n. IsDinEncoding message.now (take n room.new)) }
    ensures read { IfOk result (λ n. IsDin message.now (take n room.new)) }
    ensures full { IsErr result ↔ PassesBytes message.now (length room.old) }
    ensures bits { IfErr result (λ full. TellsBits message.now full.bits) }
    ensures more { IfErr result (λ full. 8 * length room.old < full.bits) }
{
    message_parts::write(message, room, &tables.rows, table)
}
