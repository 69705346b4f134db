//! The codecs of all messages of a site.

ghost use Rattle.std.specs.Prelude.{◌≡◌, ◌≤◌, length, take};
ghost use Rattle.post_spec.specs.Codecs.{judged_word};
ghost use Rattle.secc_machine.specs.Views.{judged_of};
ghost use Rattle.written_sizes.specs.Entries.{HasEntries};
ghost use Rattle.site_codec_laws.specs.Codecs.{Encodes, CanSpell};

use crate::negotiating::first_payload;
use crate::typed::law_of_types;
use crate::{din, iso};
use charge_world::{Dialect, NoMemory};
use din_codec::DinTables;
use exi_documents::MOST_ENTRIES;
use exi_events::Table;
use iso_codec::IsoTables;
use post_spec::Coded;
use secc_machine::Judged;
use session_words::{Reply, Word};
use site_codec::{Codec, LawfulCodec, REPLY_ROOM};
use site_codec_laws::site_codec_rules::{given_replies, read_word};
use std::alloc::Global;
use std::marker::Model;

/// The codecs of the negotiation, of ISO 15118-2 and of DIN SPEC 70121, with one string table for all.
#[derive(Drop)]
pub struct ChargeCodecs {
    iso: IsoTables,
    din: DinTables,
    table: Table,
}

impl Model for ChargeCodecs {
    ghost use Rattle.std.specs.Prelude.{◌≡◌};
    ghost use Rattle.exi_documents.specs.Values.{most_entries};

    ghost Value = { Unit {0} };

    ghost view = { λ _. tt {0} };

    ghost invariant = { λ codecs. codecs.table.cap ≡ most_entries };
}

impl ChargeCodecs {
    /// The codecs, for which all memory is taken here.
    pub fn make(alloc: Global) -> Result<ChargeCodecs, NoMemory> {
        let iso = IsoTables::make(alloc)?;
        let din = DinTables::make(alloc)?;
        let table = Table::make(alloc, MOST_ENTRIES)?;
        Ok(ChargeCodecs { iso, din, table })
    }

    /// Writes the encoding of a reply to the front of the room, and answers its number of bytes.
    fn write(&mut self, dialect: Dialect, reply: &Reply, room: &mut [u8]) -> u32
        requires room { length room.old ≡ 1024 }
        requires reply { CanSpell dialect reply.now }
        requires brief { HasEntries 1 reply.now.tell }
        ensures within { result ≤ 1024 }
        ensures encoded { Encodes dialect reply.now (take result room.new) }
    {
        match dialect {
            Dialect::Iso => iso::write(&self.iso, reply, room, &mut self.table),
            Dialect::Din => din::write(&self.din, reply, room, &mut self.table),
        }
    }
}

/// What a payload that spells this word is judged as.
fn judged_as(word: Option<Word>) -> Judged
    ensures { judged_of result ≡ judged_word word }
{
    match word {
        None => Judged::Refused,
        Some(Word::Request(request)) => Judged::Asked(request),
        Some(Word::Reply(_)) | Some(Word::Nothing) => Judged::WrongSide,
    }
}

impl Coded for ChargeCodecs {
    ghost use Rattle.site_codec_laws.specs.Codecs.{Reads, Encodes};
    ghost use Rattle.site_codec_laws.specs.Negotiating.{Negotiates};

    ghost negotiates = { Negotiates };

    ghost reads = { Reads };

    ghost encodes = { Encodes };
}

impl Codec for ChargeCodecs {
    ghost negotiates_first = { λ offers payload request never. never };

    ghost chooses_offered = { λ offers payload dialect response is. is.negotiated.1.matches.offered };

    fn negotiate(&mut self, offers: &[Dialect], payload: &[u8]) -> Judged {
        first_payload(offers, payload, &mut self.table)
    }

    fn judge(&mut self, dialect: Dialect, payload: &[u8]) -> Judged {
        judged_as(read_word(dialect, &self.iso, &self.din, payload, &mut self.table))
    }

    fn encode(&mut self, dialect: Dialect, reply: &Reply, room: &mut [u8]) -> u32 {
        law_of_types(reply);
        given_replies();
        self.write(dialect, reply, &mut room[..REPLY_ROOM])
    }
}

impl LawfulCodec for ChargeCodecs {
    ghost use Rattle.site_codec_laws.proofs.Lawful as laws;

    ghost reads_back = { laws.reads_back };

    ghost determined = { laws.are_determined };

    ghost judges = { laws.judges_all };
}
