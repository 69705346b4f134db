//! Whole documents.

ghost use Rattle.std.specs.Prelude.{◌≡◌, ℕ, Bool, None, OnOk, OnErr, ◌*◌, ◌<◌, ◌≤◌, ◌↔◌, [], List, true, length, take, IfOk, IfErr, IsErr};
ghost use Rattle.exi_spec.specs.Bits.{bits_of};
ghost use Rattle.exi_schema.specs.Schemas.{PlainSchema};
ghost use Rattle.exi_events.specs.Documents.{IsDocument, IsEncoding};
ghost use Rattle.exi_events.specs.Refusals.{IsRefused};
ghost use Rattle.exi_events.specs.Values.{most_entries, WritesValue};
ghost use Rattle.message_parts.specs.Contents.{root_of};
ghost use Rattle.message_parts.specs.Documents.{IsWritable, PassesBytes, TellsBits};
ghost use Rattle.message_parts.specs.Particles.{are_among};
ghost use Rattle.message_parts.specs.Reading.{seen_of, IsOpen, IsRefusal, Begins};
ghost use Rattle.exi_events.specs.Documents.{SpellsDocument};
ghost use Rattle.exi_events.specs.Writer.{draft_of, HasPut, IsReadyToPut, KeepsLent};

use crate::descent::Descent;
use crate::part::{Choice, LargeChoice, Root};
use crate::writer::{put_choice, put_event};
use exi_events::exi_documents::Refusal;
use exi_events::{Event, EventWriter, Full, Table};
use exi_schema::Places;

/// Reads a message from a payload of at most 65,536 bytes. The table, which has room for 8,192 entries, is emptied.
///
/// The message is that of the one tree that the payload spells. Refused exactly where it spells none, with the cause and the bit of
/// the first item that can't be taken.
pub fn read<'a, T: Choice<'a>, P: Places>(
    payload: &'a [u8],
    places: &P,
    table: &mut Table,
) -> Result<T, Refusal>
    requires payload { length payload.now ≤ 65536 }
    requires cap { table.old.cap ≡ most_entries }
    requires kinds { (P.schema places.now).kinds ≡ T.kinds }
    requires roots { are_among T.members (P.schema places.now).roots ≡ true }
    ensures cap { table.new.cap ≡ most_entries }
    ensures read { IfOk result (λ m. IsDocument (P.schema places.now) (root_of (T.name m) (T.inside m)) payload.now) }
    ensures refused { IfErr result (λ r. IsRefused (P.schema places.now) payload.now r.cause r.bit) }
{
    let mut descent = Descent::new(payload, places, table);
    let message = root_in(&mut descent);
    descent.end();
    message
}

/// Reads the root of a document, of which nothing is taken.
#[inline(never)]
fn root_in<'a, T: Choice<'a>, P: Places>(descent: &mut Descent<'a, '_, P>) -> Result<T, Refusal>
    requires open { IsOpen P.schema descent.old }
    ensures open { IsOpen P.schema descent.new }
    ensures table { descent.new.reader.table.ghost_name ≡ descent.old.reader.table.ghost_name }
    ensures refused { IfErr result (λ r. IsRefusal (seen_of P.schema descent.old) r) }
    ensures read { (s : PlainSchema) (payload : List ℕ) → Begins s (bits_of payload) (seen_of P.schema descent.old) → s.kinds ≡ T.kinds → are_among T.members s.roots ≡ true
        → IfOk result (λ m. IsDocument s (root_of (T.name m) (T.inside m)) payload) }
{
    descent.number()?;
    descent.root()?;
    let message = T::read_member(descent)?;
    descent.finish()?;
    Ok(message)
}

/// The same into a message that the caller lends, since it is too large to move. What it is after a refusal is not told.
pub fn read_here<'a, T: LargeChoice<'a>, P: Places>(
    payload: &'a [u8],
    places: &P,
    table: &mut Table,
    message: &mut T,
) -> Result<(), Refusal>
    requires payload { length payload.now ≤ 65536 }
    requires cap { table.old.cap ≡ most_entries }
    requires kinds { (P.schema places.now).kinds ≡ T.kinds }
    requires roots { are_among T.members (P.schema places.now).roots ≡ true }
    ensures cap { table.new.cap ≡ most_entries }
    ensures read { IfOk result (λ _. IsDocument (P.schema places.now) (root_of (T.name message.new) (T.inside message.new)) payload.now) }
    ensures refused { IfErr result (λ r. IsRefused (P.schema places.now) payload.now r.cause r.bit) }
{
    let mut descent = Descent::new(payload, places, table);
    let done = root_here(message, &mut descent);
    descent.end();
    done
}

/// Reads the root into a message that the caller lends.
#[inline(never)]
fn root_here<'a, T: LargeChoice<'a>, P: Places>(
    message: &mut T,
    descent: &mut Descent<'a, '_, P>,
) -> Result<(), Refusal>
    requires open { IsOpen P.schema descent.old }
    ensures open { IsOpen P.schema descent.new }
    ensures table { descent.new.reader.table.ghost_name ≡ descent.old.reader.table.ghost_name }
    ensures refused { IfErr result (λ r. IsRefusal (seen_of P.schema descent.old) r) }
    ensures read { (s : PlainSchema) (payload : List ℕ) → Begins s (bits_of payload) (seen_of P.schema descent.old) → s.kinds ≡ T.kinds → are_among T.members s.roots ≡ true
        → IfOk result (λ _. IsDocument s (root_of (T.name message.new) (T.inside message.new)) payload) }
{
    descent.number()?;
    descent.root()?;
    message.read_member_here(descent)?;
    descent.finish()
}

/// Writes the one encoding of a message to the front of a room of at most 65,536 bytes, and returns how many bytes it has. The table,
/// which has room for 8,192 entries, is emptied.
///
/// `Full` exactly where the encoding has more bits than the room. It tells the bits of the whole encoding where these are at most
/// 65,536 bytes, and else more than those have.
pub fn write<T: Root, P: Places>(
    message: &T,
    room: &mut [u8],
    places: &P,
    table: &mut Table,
) -> Result<u32, Full>
    requires message { IsWritable (P.schema places.now) (T.number message.now) (root_of (T.name message.now) (T.inside message.now)) }
    requires room { length room.old ≤ 65536 }
    requires cap { table.old.cap ≡ most_entries }
    ensures cap { table.new.cap ≡ most_entries }
    ensures within { IfOk result (λ n. n ≤ length room.new) }
    ensures written { IfOk result (λ n. IsEncoding (P.schema places.now) (root_of (T.name message.now) (T.inside message.now)) (take n room.new)) }
    ensures full { IsErr result ↔ PassesBytes (P.schema places.now) (T.number message.now) (root_of (T.name message.now) (T.inside message.now)) (length room.old) }
    ensures bits { IfErr result (λ full. TellsBits (P.schema places.now) (T.number message.now) (root_of (T.name message.now) (T.inside message.now)) full.bits) }
    ensures more { IfErr result (λ full. 8 * length room.old < full.bits) }
{
    match write_into(message, room, places, table) {
        Ok(count) => Ok(count),
        Err(_full) => Err(bits_needed(message, places, table)),
    }
}

/// Writes the one encoding of a message to the front of a room, as far as it has room.
#[inline(always)]
fn write_into<T: Root, P: Places>(
    message: &T,
    room: &mut [u8],
    places: &P,
    table: &mut Table,
) -> Result<u32, Full>
    requires message { IsWritable (P.schema places.now) (T.number message.now) (root_of (T.name message.now) (T.inside message.now)) }
    requires room { length room.old ≤ 65536 }
    requires cap { table.old.cap ≡ most_entries }
    ensures cap { table.new.cap ≡ most_entries }
    ensures within { IfOk result (λ n. n ≤ length room.new) }
    ensures written { IfOk result (λ n. IsEncoding (P.schema places.now) (root_of (T.name message.now) (T.inside message.now)) (take n room.new)) }
    ensures full { IsErr result ↔ PassesBytes (P.schema places.now) (T.number message.now) (root_of (T.name message.now) (T.inside message.now)) (length room.old) }
{
    let mut writer = EventWriter::new(room, places, table);
    put_document(&mut writer, message)?;
    Ok(writer.finish())
}

/// Tells the bits of the one encoding of a message, which is written once more into a room of its own.
#[inline(never)]
fn bits_needed<T: Root, P: Places>(message: &T, places: &P, table: &mut Table) -> Full
    requires message { IsWritable (P.schema places.now) (T.number message.now) (root_of (T.name message.now) (T.inside message.now)) }
    requires cap { table.old.cap ≡ most_entries }
    ensures cap { table.new.cap ≡ most_entries }
    ensures bits { TellsBits (P.schema places.now) (T.number message.now) (root_of (T.name message.now) (T.inside message.now)) result.bits }
{
    let mut room = [0u8; 65536];
    let mut writer = EventWriter::new(&mut room, places, table);
    match put_document(&mut writer, message) {
        Ok(()) => Full {
            bits: u64::from(writer.bit_count()),
        },
        Err(full) => full,
    }
}

/// Puts a whole document into a writer in which nothing is put.
fn put_document<T: Root, P: Places>(
    writer: &mut EventWriter<'_, '_, P>,
    message: &T,
) -> Result<(), Full>
    requires ready { IsReadyToPut writer.old }
    requires message { IsWritable (P.schema writer.old.places.now) (T.number message.now) (root_of (T.name message.now) (T.inside message.now)) }
    requires open_still { writer.old.full ≡ None }
    requires nothing { HasPut (P.schema writer.old.places.now) [] (draft_of writer.old) }
    ensures ready { IsReadyToPut writer.new }
    ensures lent { KeepsLent writer.old writer.new }
    ensures room { length writer.new.room.now ≡ length writer.old.room.now }
    ensures put { (bits : List Bool) → SpellsDocument WritesValue (P.schema writer.old.places.now) (T.number message.now) (root_of (T.name message.now) (T.inside message.now)) bits
        → OnOk result ((draft_of writer.new).bits ≡ bits) }
    ensures full { (bits : List Bool) → SpellsDocument WritesValue (P.schema writer.old.places.now) (T.number message.now) (root_of (T.name message.now) (T.inside message.now)) bits
        → OnErr result (8 * length writer.old.room.now < length bits) }
    ensures bits { IfErr result (λ full. 8 * length writer.old.room.now < full.bits) }
    ensures most { (bits : List Bool) → SpellsDocument WritesValue (P.schema writer.old.places.now) (T.number message.now) (root_of (T.name message.now) (T.inside message.now)) bits
        → IfErr result (λ full. full.bits ≤ length bits) }
{
    put_event(writer, &Event::Document(message.number()));
    put_choice(writer, message);
    writer.put(&Event::Finished)
}
