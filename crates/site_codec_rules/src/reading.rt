//! ISO 15118-2:2014, section 8.3, and DIN SPEC 70121:2014, 9.2 and 9.3: payloads as words.

ghost use Rattle.std.specs.Prelude.{◌≡◌, ◌≤◌, length};
ghost use Rattle.exi_documents.specs.Values.{most_entries};
ghost use Rattle.site_codec_rules.specs.Codecs.{Reads};
ghost use Rattle.site_codec_rules.specs.Din as din_rules;
ghost use Rattle.site_codec_rules.specs.Iso as iso_rules;

use charge_world::Dialect;
use din_codec::{DinMessage, DinTables, read_din};
use exi_events::Table;
use iso_codec::{IsoMessage, IsoTables, read_iso};
use session_words::Word;

fn iso_word(tables: &IsoTables, payload: &[u8], table: &mut Table) -> Option<Word>
    requires payload { length payload.now ≤ 65536 }
    requires cap { table.old.cap ≡ most_entries }
    ensures cap { table.new.cap ≡ most_entries }
    ensures read { iso_rules.Reads payload.now result }
{
    let mut message = IsoMessage::unread();
    match read_iso(tables, payload, table, &mut message) {
        Ok(()) => Some(iso_words::to_word(&message)),
        Err(_) => None,
    }
}

fn din_word(tables: &DinTables, payload: &[u8], table: &mut Table) -> Option<Word>
    requires payload { length payload.now ≤ 65536 }
    requires cap { table.old.cap ≡ most_entries }
    ensures cap { table.new.cap ≡ most_entries }
    ensures read { din_rules.Reads payload.now result }
{
    let mut message = DinMessage::default();
    match read_din(tables, payload, table, &mut message) {
        Ok(()) => Some(din_words::to_word(&message)),
        Err(_) => None,
    }
}

/// The word that a payload spells in a dialect; none where it spells no message. The string table is emptied.
pub fn read_word(
    dialect: Dialect,
    iso: &IsoTables,
    din: &DinTables,
    payload: &[u8],
    table: &mut Table,
) -> Option<Word>
    requires payload { length payload.now ≤ 65536 }
    requires cap { table.old.cap ≡ most_entries }
    ensures cap { table.new.cap ≡ most_entries }
    ensures read { Reads dialect payload.now result }
{
    match dialect {
        Dialect::Iso => iso_word(iso, payload, table),
        Dialect::Din => din_word(din, payload, table),
    }
}
