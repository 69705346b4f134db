//! Payloads read as messages, and written again.

ghost use Rattle.std.specs.Prelude.{◌≡◌, ◌≤◌, length};
ghost use Rattle.exi_documents.specs.Values.{most_entries};
ghost use Rattle.din_message.specs.Documents.{IsDin};
ghost use Rattle.iso_message.specs.Documents.{IsIso};

use anyhow::Result;
use din_codec::{DinMessage, DinTables, read_din, write_din};
use exi_documents::MOST_ENTRIES;
use iso_codec::{IsoMessage, IsoTables, Refusal, Table, read_iso, write_iso};
use message_trees::MessageDialect;
use std::alloc::Global;

/// Room for what is written for a payload of the vectors.
const ROOM: usize = 4096;

/// What the codecs know of their dialects.
#[derive(Drop)]
pub(crate) struct Codecs {
    iso: IsoTables,
    din: DinTables,
}

impl Codecs {
    pub(crate) fn make(alloc: Global) -> Result<Codecs> {
        Ok(Codecs {
            iso: IsoTables::make(alloc)?,
            din: DinTables::make(alloc)?,
        })
    }

    /// Whether a payload is read as a message and written again as it was, or has this refusal.
    pub(crate) fn agree(
        &self,
        alloc: Global,
        dialect: MessageDialect,
        payload: &[u8],
        refusal: Option<Refusal>,
    ) -> Result<bool>
        requires { length payload.now ≤ 65536 }
    {
        let mut table = Table::make(alloc, MOST_ENTRIES)?;
        Ok(match dialect {
            MessageDialect::App => true,
            MessageDialect::Iso => self.agrees_in_iso(payload, refusal, &mut table),
            MessageDialect::Din => self.agrees_in_din(payload, refusal, &mut table),
        })
    }

    /// Whether a payload is read as a message, or has this refusal.
    pub(crate) fn refuses_so(
        &self,
        alloc: Global,
        dialect: MessageDialect,
        payload: &[u8],
        refusal: Option<Refusal>,
    ) -> Result<bool>
        requires { length payload.now ≤ 65536 }
    {
        let mut table = Table::make(alloc, MOST_ENTRIES)?;
        let found = match dialect {
            MessageDialect::App => refusal,
            MessageDialect::Iso => {
                read_iso(&self.iso, payload, &mut table, &mut IsoMessage::default()).err()
            }
            MessageDialect::Din => {
                read_din(&self.din, payload, &mut table, &mut DinMessage::default()).err()
            }
        };
        Ok(found == refusal)
    }

    fn agrees_in_iso(&self, payload: &[u8], refusal: Option<Refusal>, table: &mut Table) -> bool
        requires payload { length payload.now ≤ 65536 }
        requires cap { table.old.cap ≡ most_entries }
    {
        let mut message = IsoMessage::default();
        match read_iso(&self.iso, payload, table, &mut message) {
            Ok(()) => refusal.is_none() && is_iso_again(&self.iso, &message, payload, table),
            Err(other) => refusal == Some(other),
        }
    }

    fn agrees_in_din(&self, payload: &[u8], refusal: Option<Refusal>, table: &mut Table) -> bool
        requires payload { length payload.now ≤ 65536 }
        requires cap { table.old.cap ≡ most_entries }
    {
        let mut message = DinMessage::default();
        match read_din(&self.din, payload, table, &mut message) {
            Ok(()) => refusal.is_none() && is_din_again(&self.din, &message, payload, table),
            Err(other) => refusal == Some(other),
        }
    }
}

/// Whether the payload is what is written for its message, in a room of its length and in no shorter one.
fn is_iso_again(
    tables: &IsoTables,
    message: &IsoMessage<'_>,
    payload: &[u8],
    table: &mut Table,
) -> bool
    requires cap { table.old.cap ≡ most_entries }
    requires read { IsIso message.now payload.now }
{
    iso_codec::laws::messages_are_written();
    let mut room = [0xff; ROOM];
    let count = payload.len();
    if count < 1 || count > ROOM {
        return false;
    }
    let written = write_iso(tables, message, &mut room[..count], table);
    if written != Ok(count as u32) || &room[..count] != payload {
        return false;
    }
    write_iso(tables, message, &mut room[..count - 1], table).is_err()
}

/// The same of DIN SPEC 70121.
fn is_din_again(
    tables: &DinTables,
    message: &DinMessage<'_>,
    payload: &[u8],
    table: &mut Table,
) -> bool
    requires cap { table.old.cap ≡ most_entries }
    requires read { IsDin message.now payload.now }
{
    din_codec::laws::messages_are_written();
    let mut room = [0xff; ROOM];
    let count = payload.len();
    if count < 1 || count > ROOM {
        return false;
    }
    let written = write_din(tables, message, &mut room[..count], table);
    if written != Ok(count as u32) || &room[..count] != payload {
        return false;
    }
    write_din(tables, message, &mut room[..count - 1], table).is_err()
}
