//! DIN SPEC 70121:2014, 9.2 and 9.3: requests as payloads.

ghost use Rattle.std.specs.Prelude.{◌≡◌, ◌≤◌, length, take};
ghost use Rattle.exi_documents.specs.Values.{most_entries};
ghost use Rattle.session_words.specs.declared.word.Word.TheVariants as words;
ghost use Rattle.din_word_messages.specs.Spellable.{CanSpell};
ghost use Rattle.car_codec_laws.specs.Din.{Encodes};
ghost use Rattle.car_codec_laws.specs.Profiles.{HasNoProfile};

use car_codec_laws::car_codec_rules::site_codec_rules::din_table_laws;
use din_codec::{DinTables, write_din};
use din_word_messages::of_request;
use exi_events::Table;
use session_words::Request;

/// Writes the encoding of a request to the front of a room, and answers its number of bytes. The table is emptied.
pub(crate) fn write(
    tables: &DinTables,
    request: &Request,
    room: &mut [u8],
    table: &mut Table,
) -> u32
    requires room { length room.old ≡ 1024 }
    requires request { CanSpell (words.Request request.now) }
    requires no_profile { HasNoProfile request.now.ask }
    requires cap { table.old.cap ≡ most_entries }
    ensures cap { table.new.cap ≡ most_entries }
    ensures within { result ≤ 1024 }
    ensures encoded { Encodes request.now (take result room.new) }
{
    din_codec::laws::messages_are_written();
    din_codec::laws::encodings_are_read();
    din_table_laws::payloads_have_words();
    write_din(tables, &of_request(request), room, table).unwrap()
}
