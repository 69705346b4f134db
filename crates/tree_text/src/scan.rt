//! The encoding of the tree that a text spells.

ghost use Rattle.std.specs.Prelude.{◌≡◌, true, List, [], ◌∷◌, ◌++◌, length, Some, None, IsTrue, IsFalse, MatchOption, IfSome, IfNone, IfOk, IfErr, OnOk};
ghost use Rattle.std.specs.Str.{chars};
ghost use Rattle.exi_schema.specs.Told.{schema_of};
ghost use Rattle.exi_documents.specs.Trees.{Event as TreeEvent};
ghost use Rattle.exi_documents.specs.Values.{most_entries};
ghost use Rattle.exi_values.specs.Meaning.{event_of};
ghost use Rattle.exi_events.specs.Writer.{draft_of, IsReadyToPut, KeepsLent, HasPut, IsShapedEvent};
ghost use Rattle.dialect_text.specs.Dialect.{IsDialectText};
ghost use Rattle.dialect_text.specs.Scanning.{event_of as said_event, standing_of, HasSaid, IsReady as IsScanning, IsFaultOf};
ghost use Rattle.tree_text.specs.Consistent.{are_consistent};
ghost use Rattle.tree_text.specs.Scans.{IsEncodedText, IsScanFault, IsFaultBehind, IsStuck, IsTooLong};

use charge_world::Piece;
use dialect_text::{DialectScanner, Said, ScanFault};
use exi_documents::MOST_ENTRIES;
use exi_events::EventWriter;
use exi_schema::Schema;
use exi_values::{Event, Table};
use std::alloc::Global;

/// What is said, lent to a writer; `None` where a Binary has more than 65,536 bytes.
fn event_said(said: &Said) -> Option<Event<'_>>
    ensures { MatchOption result (IsTooLong (said_event said.now)) (λ event. (event_of event ≡ Some (said_event said.now)) × IsShapedEvent event) }
{
    match said {
        Said::Document(number) => Some(Event::Document(*number)),
        Said::Start(name) => Some(Event::Start(*name)),
        Said::Attribute(name, scanned) => Some(Event::Attribute(*name, scanned.value()?)),
        Said::Content(scanned) => Some(Event::Value(scanned.value()?)),
        Said::EndElement => Some(Event::EndElement),
    }
}

/// Puts what is said, if it may be put and there is room.
fn put_said(writer: &mut EventWriter<Schema>, said: &Said) -> bool
    requires ready { IsReadyToPut writer.old }
    requires open_still { writer.old.full ≡ None }
    requires room { length writer.old.room.now ≡ 65536 }
    ensures ready { IsReadyToPut writer.new }
    ensures lent { KeepsLent writer.old writer.new }
    ensures room { length writer.new.room.now ≡ 65536 }
    ensures open_still { IsTrue result → writer.new.full ≡ None }
    ensures put { IsTrue result → (events : List TreeEvent) → HasPut (schema_of writer.old.places.now) events (draft_of writer.old)
        → HasPut (schema_of writer.old.places.now) (said_event said.now ∷ events) (draft_of writer.new) }
    ensures stuck { IsFalse result → (events : List TreeEvent) → HasPut (schema_of writer.old.places.now) events (draft_of writer.old)
        → IsStuck (schema_of writer.old.places.now) (said_event said.now ∷ events) }
{
    let Some(event) = event_said(said) else {
        return false;
    };
    writer.try_put(&event).is_ok()
}

/// Writes the tree that a text spells into a room, and gives the bytes; `None` behind the first event that can't be put.
fn write_tree(
    alloc: Global,
    scanner: &mut DialectScanner<'_, '_>,
    schema: &Schema,
    room: &mut [u8],
    table: &mut Table,
) -> Result<Option<Piece>, ScanFault>
    requires consistent { are_consistent (schema_of schema.now).kinds ≡ true }
    requires room { length room.old ≡ 65536 }
    requires cap { table.old.cap ≡ most_entries }
    requires same_schema { scanner.old.schema.now ≡ schema.now }
    requires ready { IsScanning (schema_of schema.now) scanner.old.text.now (standing_of scanner.old.phase scanner.old.elements) scanner.old.cursor scanner.old.fault }
    requires said { HasSaid (schema_of schema.now) scanner.old.text.now [] (standing_of scanner.old.phase scanner.old.elements) scanner.old.cursor }
    ensures same_text { scanner.new.text.now ≡ scanner.old.text.now }
    ensures same_schema { scanner.new.schema.now ≡ schema.now }
    ensures ready { IsScanning (schema_of schema.now) scanner.old.text.now (standing_of scanner.new.phase scanner.new.elements) scanner.new.cursor scanner.new.fault }
    ensures written { IfOk result (λ o. IfSome o (IsEncodedText (schema_of schema.now) scanner.old.text.now)) }
    ensures stuck { IfOk result (λ o. IfNone o ((events : List TreeEvent)
        × HasSaid (schema_of schema.now) scanner.old.text.now events (standing_of scanner.new.phase scanner.new.elements) scanner.new.cursor × IsStuck (schema_of schema.now) events)) }
    ensures fault { IfErr result (IsFaultOf (schema_of schema.now) scanner.old.text.now) }
{
    let mut writer = EventWriter::new(room, schema, table);
    while let Some(said) = scanner.next()? {
        let is_put = put_said(&mut writer, &said);
        drop(said);
        if !is_put {
            return Ok(None);
        }
    }
    let bytes = Vec::from_slice(alloc, writer.written())?;
    Ok(Some(Piece::of(bytes)))
}

/// Scans what is left of a text.
fn scan_rest(scanner: &mut DialectScanner<'_, '_>) -> Result<(), ScanFault>
    requires { IsScanning (schema_of scanner.old.schema.now) scanner.old.text.now (standing_of scanner.old.phase scanner.old.elements) scanner.old.cursor scanner.old.fault }
    ensures rest { OnOk result ((events : List TreeEvent)
        → HasSaid (schema_of scanner.old.schema.now) scanner.old.text.now events (standing_of scanner.old.phase scanner.old.elements) scanner.old.cursor
        → (later : List TreeEvent) × IsDialectText (schema_of scanner.old.schema.now) (later ++ events) scanner.old.text.now) }
    ensures fault { IfErr result (IsFaultOf (schema_of scanner.old.schema.now) scanner.old.text.now) }
{
    while let Some(said) = scanner.next()? {
        drop(said);
    }
    Ok(())
}

/// How many characters a text has.
fn character_count(text: &str) -> u64
    ensures { result ≡ length (chars text.now) }
{
    text.chars().count() as u64
}

/// Scans what is left of a text of which no document can be put, and gives its fault: at its end where it is one of the dialect.
fn fault_behind(scanner: &mut DialectScanner<'_, '_>, text: &str) -> ScanFault
    requires same_text { scanner.old.text.now ≡ text.now }
    requires ready { IsScanning (schema_of scanner.old.schema.now) scanner.old.text.now (standing_of scanner.old.phase scanner.old.elements) scanner.old.cursor scanner.old.fault }
    ensures { (events : List TreeEvent)
        → HasSaid (schema_of scanner.old.schema.now) scanner.old.text.now events (standing_of scanner.old.phase scanner.old.elements) scanner.old.cursor
        → IsFaultBehind (schema_of scanner.old.schema.now) scanner.old.text.now events result }
{
    match scan_rest(scanner) {
        Ok(()) => ScanFault::Place(character_count(text)),
        Err(fault) => fault,
    }
}

/// Scans with a room of 65,536 bytes, and with a string table, which has room for 8,192 entries and is emptied.
fn scan_into(
    alloc: Global,
    schema: &Schema,
    text: &str,
    room: &mut [u8],
    table: &mut Table,
) -> Result<Piece, ScanFault>
    requires consistent { are_consistent (schema_of schema.now).kinds ≡ true }
    requires room { length room.old ≡ 65536 }
    requires cap { table.old.cap ≡ most_entries }
    ensures encoded { IfOk result (IsEncodedText (schema_of schema.now) text.now) }
    ensures fault { IfErr result (IsScanFault (schema_of schema.now) text.now) }
{
    let mut scanner = DialectScanner::new(alloc, text, schema);
    match write_tree(alloc, &mut scanner, schema, room, table) {
        Ok(Some(piece)) => Ok(piece),
        Ok(None) => Err(fault_behind(&mut scanner, text)),
        Err(fault) => Err(fault),
    }
}

/// Scans the text of a tree, and gives the one encoding of the tree, of at most 65,536 bytes.
///
/// `Place` exactly where there is none. For a text that is none of the schema's dialect it tells how many characters the longest front
/// has that begins one, and for any other text its number of characters. Inside one kind of the schema the elements of one name are of one
/// kind, and so are the attributes of one name; and no number of a datatype has more than 20 digits, as no bound of 64 bits has.
pub fn scan_tree(alloc: Global, schema: &Schema, text: &str) -> Result<Piece, ScanFault>
    requires consistent { are_consistent (schema_of schema.now).kinds ≡ true }
    ensures encoded { IfOk result (IsEncodedText (schema_of schema.now) text.now) }
    ensures fault { IfErr result (IsScanFault (schema_of schema.now) text.now) }
{
    let mut table = Table::make(alloc, MOST_ENTRIES)?;
    let mut room = vec![in alloc; 0; 65536]?;
    scan_into(alloc, schema, text, room.as_mut_slice(), &mut table)
}
