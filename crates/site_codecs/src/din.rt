//! DIN SPEC 70121:2014, 9.2 and 9.3: replies as payloads.

ghost use Rattle.std.specs.Prelude.{◌≡◌, ◌≤◌, length, take};
ghost use Rattle.exi_documents.specs.Values.{most_entries};
ghost use Rattle.session_words.specs.declared.word.Word.TheVariants as words;
ghost use Rattle.din_word_messages.specs.Spellable.{CanSpell};
ghost use Rattle.written_sizes.specs.Entries.{HasEntries};
ghost use Rattle.site_codec_laws.specs.Din.{Encodes};

use din_codec::{DinTables, write_din};
use din_word_messages::of_reply;
use exi_events::Table;
use session_words::Reply;
use site_codec_laws::site_codec_rules::din_table_laws;

/// Writes the encoding of a reply to the front of a room, and answers its number of bytes. The table is emptied.
pub(crate) fn write(tables: &DinTables, reply: &Reply, room: &mut [u8], table: &mut Table) -> u32
    requires room { length room.old ≡ 1024 }
    requires reply { CanSpell (words.Reply reply.now) }
    requires brief { HasEntries 1 reply.now.tell }
    requires cap { table.old.cap ≡ most_entries }
    ensures cap { table.new.cap ≡ most_entries }
    ensures within { result ≤ 1024 }
    ensures encoded { Encodes reply.now (take result room.new) }
{
    din_codec::laws::messages_are_written();
    din_codec::laws::encodings_are_read();
    din_table_laws::payloads_have_words();
    write_din(tables, &of_reply(reply), room, table).unwrap()
}
