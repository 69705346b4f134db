//! A session is set up (ISO 15118-2:2014, 8.4.3.2).

ghost use Rattle.std.specs.Prelude.{◌≡◌, ◌≤◌, length};
ghost use Rattle.exi_documents.specs.Values.{most_entries};
ghost use Rattle.iso_message.specs.Documents.{IsIso};

use exi_documents::MOST_ENTRIES;
use iso_codec::laws::messages_are_written;
use iso_codec::{BodyElement, BriefElement, IsoMessage, IsoTables, Table, read_iso, write_iso};
use message_parts::Binary;
use std::test::*;

/// The request of a car whose identifier is 000102030405, in a session of zeros.
const SETUP: [u8; 21] = [
    0x80, 0x98, 0x02, 0, 0, 0, 0, 0, 0, 0, 0, 0x11, 0xd0, 0x18, 0x00, 0x04, 0x08, 0x0c, 0x10, 0x14,
    0x00,
];

/// Whether a Binary is these bytes.
fn is_bytes(binary: &Binary<'_>, bytes: &[u8]) -> bool
    requires { length bytes.now ≤ 65536 }
{
    binary.span().same(Binary::of_bytes(bytes).span())
}

/// A message is what the session setup spells: it is written as its bytes, and into no room that is shorter.
fn is_written_back(
    tables: &IsoTables,
    message: &IsoMessage<'_>,
    payload: &[u8],
    table: &mut Table,
) -> bool
    requires cap { table.old.cap ≡ most_entries }
    requires count { length payload.now ≡ 21 }
    requires read { IsIso message.now payload.now }
{
    messages_are_written();
    let mut room = [0xff; 21];
    let written = write_iso(tables, message, &mut room, table);
    if written != Ok(21) || room.as_slice() != payload {
        return false;
    }
    let mut shorter = [0xff; 20];
    write_iso(tables, message, &mut shorter, table).is_err()
}

/// Whether a message is that request.
fn is_setup(message: &IsoMessage<'_>) -> bool {
    let Some(BodyElement::Brief(BriefElement::SessionSetupReq(request))) = &message.body.element
    else {
        return false;
    };
    message.header.notification.is_none()
        && is_bytes(&message.header.session_id, &[0; 8])
        && is_bytes(&request.evccid, &[0, 1, 2, 3, 4, 5])
}

#[test]
fn a_session_setup_is_read_and_written(rt: HostRuntime) -> Result<(), Fail> {
    let tables = IsoTables::make(rt.alloc())?;
    let mut table = Table::make(rt.alloc(), MOST_ENTRIES)?;
    let mut message = IsoMessage::default();
    let Ok(()) = read_iso(&tables, &SETUP, &mut table, &mut message) else {
        return Err(Fail::from("refused"));
    };
    assert!(rt; is_setup(&message));
    assert!(rt; is_written_back(&tables, &message, &SETUP, &mut table));
    Ok(())
}
