//! ISO 15118-2:2014, section 8.3: replies as payloads.

ghost use Rattle.std.specs.Prelude.{◌≡◌, ◌≤◌, length, take};
ghost use Rattle.exi_documents.specs.Values.{most_entries};
ghost use Rattle.session_words.specs.declared.word.Word.TheVariants as words;
ghost use Rattle.iso_word_messages.specs.Spellable.{CanSpell};
ghost use Rattle.written_sizes.specs.Entries.{HasEntries};
ghost use Rattle.site_codec_laws.specs.Iso.{Encodes};

use exi_events::Table;
use iso_codec::{IsoTables, write_iso};
use iso_word_messages::of_reply;
use session_words::Reply;
use site_codec_laws::site_codec_rules::iso_table_laws;

/// Writes the encoding of a reply to the front of a room, and answers its number of bytes. The table is emptied.
pub(crate) fn write(tables: &IsoTables, reply: &Reply, room: &mut [u8], table: &mut Table) -> u32
    requires room { length room.old ≡ 1024 }
    requires reply { CanSpell (words.Reply reply.now) }
    requires brief { HasEntries 1 reply.now.tell }
    requires cap { table.old.cap ≡ most_entries }
    ensures cap { table.new.cap ≡ most_entries }
    ensures within { result ≤ 1024 }
    ensures encoded { Encodes reply.now (take result room.new) }
{
    iso_codec::laws::messages_are_written();
    iso_codec::laws::encodings_are_read();
    iso_table_laws::payloads_have_words();
    write_iso(tables, &of_reply(reply), room, table).unwrap()
}
