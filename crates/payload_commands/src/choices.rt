//! The line of a choice.

ghost use Rattle.std.specs.Prelude.{◌≡◌, ◌≤◌, length, IfOk, IfErr, string_bytes};
ghost use Rattle.exi_documents.specs.Values.{most_entries};
ghost use Rattle.payload_commands.specs.Picking.{set_line, IsPickedOf, IsChoiceLine, IsPickLine, IsNoChoiceOf, IsNoPick};

use charge_world::NoMemory;
use exi_events::Table;
use hex_payloads::{HexFault, bytes_of};
use iso_codec::{IsoMessage, IsoTables, read_iso};
use service_messages::Want;
use service_messages::schedule_answers::codec;
use std::alloc::{AllocError, Global};

/// Why there is no line.
#[derive(Clone, Copy)]
pub(crate) enum NoLine {
    /// The hexadecimal text is refused at this character, or the payload at this bit, from 0.
    Place(u64),
    /// The message offers no set as it is wanted.
    NoSet,
    /// Memory ran out.
    Memory,
}

impl From<NoMemory> for NoLine {
    ghost use Rattle.payload_commands.specs.declared.choices.NoLine.TheVariants.{Memory};

    ghost from_gives = { λ _ fault. fault ≡ Memory };

    fn from(_none: NoMemory) -> NoLine {
        NoLine::Memory
    }
}

/// The line of a set.
fn line_of(alloc: Global, id: i16) -> Result<String, AllocError>
    ensures { IfOk result (λ line. string_bytes line ≡ set_line id) }
{
    format!(in alloc; "set {id}\n")
}

/// The set that is picked of the message which a payload spells. The table is emptied.
fn picked_of(
    tables: &IsoTables,
    payload: &[u8],
    want: &Want<'_>,
    table: &mut Table,
) -> Result<i16, NoLine>
    requires payload { length payload.now ≤ 65536 }
    requires cap { table.old.cap ≡ most_entries }
    ensures picked { IfOk result (IsPickedOf want.now.pairs.items payload.now) }
    ensures fault { IfErr result (IsNoChoiceOf want.now.pairs.items payload.now) }
{
    let mut message = IsoMessage::unread();
    match read_iso(tables, payload, table, &mut message) {
        Ok(()) => match service_messages::pick(&message, want) {
            Some(id) => Ok(id),
            None => Err(NoLine::NoSet),
        },
        Err(refusal) => Err(NoLine::Place(u64::from(refusal.bit))),
    }
}

/// The line of the set that is picked of a payload of at most 65,536 bytes.
fn choice_line(alloc: Global, payload: &[u8], want: &Want<'_>) -> Result<String, NoLine>
    requires { length payload.now ≤ 65536 }
    ensures line { IfOk result (λ line. IsChoiceLine want.now.pairs.items payload.now (string_bytes line)) }
    ensures fault { IfErr result (IsNoChoiceOf want.now.pairs.items payload.now) }
{
    let (tables, mut table) = codec(alloc)?;
    let id = picked_of(&tables, payload, want, &mut table)?;
    Ok(line_of(alloc, id)?)
}

/// The line of the set that is picked of the payload whose hexadecimal text this is.
pub(crate) fn pick_line(alloc: Global, hex: &str, want: &Want<'_>) -> Result<String, NoLine>
    ensures line { IfOk result (λ line. IsPickLine want.now.pairs.items hex.now (string_bytes line)) }
    ensures fault { IfErr result (IsNoPick want.now.pairs.items hex.now) }
{
    match bytes_of(alloc, hex) {
        Ok(payload) => choice_line(alloc, &payload, want),
        Err(HexFault::Place(place)) => Err(NoLine::Place(place)),
        Err(HexFault::Memory) => Err(NoLine::Memory),
    }
}
