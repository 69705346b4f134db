//! ISO 15118-2:2014, section 8.3: requests as payloads.

ghost use Rattle.std.specs.Prelude.{◌≡◌, ◌≤◌, length, take};
ghost use Rattle.exi_documents.specs.Values.{most_entries};
ghost use Rattle.session_words.specs.declared.word.Word.TheVariants as words;
ghost use Rattle.iso_word_messages.specs.Spellable.{CanSpell};
ghost use Rattle.car_codec_laws.specs.Iso.{Encodes};
ghost use Rattle.car_codec_laws.specs.Profiles.{HasNoProfile};

use car_codec_laws::car_codec_rules::site_codec_rules::iso_table_laws;
use exi_events::Table;
use iso_codec::{IsoTables, write_iso};
use iso_word_messages::of_request;
use session_words::Request;

/// Writes the encoding of a request to the front of a room, and answers its number of bytes. The table is emptied.
pub(crate) fn write(
    tables: &IsoTables,
    request: &Request,
    room: &mut [u8],
    table: &mut Table,
) -> u32
    requires room { length room.old ≡ 1024 }
    requires request { CanSpell (words.Request request.now) }
    requires no_profile { HasNoProfile request.now.ask }
    requires cap { table.old.cap ≡ most_entries }
    ensures cap { table.new.cap ≡ most_entries }
    ensures within { result ≤ 1024 }
    ensures encoded { Encodes request.now (take result room.new) }
{
    iso_codec::laws::messages_are_written();
    iso_codec::laws::encodings_are_read();
    iso_table_laws::payloads_have_words();
    write_iso(tables, &of_request(request), room, table).unwrap()
}
