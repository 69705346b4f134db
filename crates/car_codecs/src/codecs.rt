//! The codecs of all messages of a car.

ghost use Rattle.std.specs.Prelude.{◌≡◌, ◌≤◌, length, take};
ghost use Rattle.car_spec.specs.Codecs.{judged_word};
ghost use Rattle.evcc_machine.specs.Views.{judged_of};
ghost use Rattle.car_codec_laws.specs.Codecs.{Encodes, CanSpell};
ghost use Rattle.car_codec_laws.specs.Profiles.{HasNoProfile};

use crate::negotiating::{first_payload, write_offer};
use crate::typed::law_of_types;
use crate::{din, iso};
use car_codec::{CarCodec, LawfulCarCodec, REQUEST_ROOM};
use car_codec_laws::car_codec_rules::asked_requests;
use car_codec_laws::car_codec_rules::site_codec_rules::read_word;
use car_spec::CarCoded;
use charge_world::{Dialect, NoMemory};
use din_codec::DinTables;
use evcc_machine::Judged;
use exi_documents::MOST_ENTRIES;
use exi_events::Table;
use iso_codec::IsoTables;
use session_words::{Request, Word};
use std::alloc::Global;
use std::marker::Model;

/// The codecs of the negotiation, of ISO 15118-2 and of DIN SPEC 70121, with one string table for all.
#[derive(Drop)]
pub struct CarCodecs {
    iso: IsoTables,
    din: DinTables,
    table: Table,
}

impl Model for CarCodecs {
    ghost use Rattle.std.specs.Prelude.{◌≡◌};
    ghost use Rattle.exi_documents.specs.Values.{most_entries};

    ghost Value = { Unit {0} };

    ghost view = { λ _. tt {0} };

    ghost invariant = { λ codecs. codecs.table.cap ≡ most_entries };
}

impl CarCodecs {
    /// The codecs, for which all memory is taken here.
    pub fn make(alloc: Global) -> Result<CarCodecs, NoMemory> {
        let iso = IsoTables::make(alloc)?;
        let din = DinTables::make(alloc)?;
        let table = Table::make(alloc, MOST_ENTRIES)?;
        Ok(CarCodecs { iso, din, table })
    }

    /// Writes the encoding of a request to the front of the room, and answers its number of bytes.
    fn write(&mut self, dialect: Dialect, request: &Request, room: &mut [u8]) -> u32
        requires room { length room.old ≡ 1024 }
        requires request { CanSpell dialect request.now }
        requires no_profile { HasNoProfile request.now.ask }
        ensures within { result ≤ 1024 }
        ensures encoded { Encodes dialect request.now (take result room.new) }
    {
        match dialect {
            Dialect::Iso => iso::write(&self.iso, request, room, &mut self.table),
            Dialect::Din => din::write(&self.din, request, room, &mut self.table),
        }
    }
}

/// What a payload that spells this word is judged as.
fn judged_as(word: Option<Word>) -> Judged
    ensures { judged_of result ≡ judged_word word }
{
    match word {
        None => Judged::Refused,
        Some(Word::Reply(reply)) => Judged::Told(reply),
        Some(Word::Request(_)) | Some(Word::Nothing) => Judged::WrongSide,
    }
}

impl CarCoded for CarCodecs {
    ghost use Rattle.car_codec_laws.specs.CodecCodecs.{Reads};
    ghost use Rattle.car_codec_laws.specs.Codecs.{Encodes};
    ghost use Rattle.car_codec_laws.specs.Offering.{Offers};
    ghost use Rattle.car_codec_laws.specs.Responding.{Responds};

    ghost offers = { Offers };

    ghost responds = { Responds };

    ghost reads = { Reads };

    ghost encodes = { Encodes };
}

impl CarCodec for CarCodecs {
    ghost use Rattle.car_codec_laws.proofs.Choices as choices;

    ghost responds_first = { λ dialects payload reply never. never };

    ghost chooses_offered = { choices.chooses_offered };

    fn offer(&mut self, dialects: &[Dialect], room: &mut [u8]) -> u32 {
        write_offer(dialects, &mut room[..REQUEST_ROOM], &mut self.table)
    }

    fn respond(&mut self, dialects: &[Dialect], payload: &[u8]) -> Judged {
        first_payload(dialects, payload, &mut self.table)
    }

    fn judge(&mut self, dialect: Dialect, payload: &[u8]) -> Judged {
        judged_as(read_word(dialect, &self.iso, &self.din, payload, &mut self.table))
    }

    fn encode(&mut self, dialect: Dialect, request: &Request, room: &mut [u8]) -> u32 {
        law_of_types(request);
        asked_requests();
        self.write(dialect, request, &mut room[..REQUEST_ROOM])
    }
}

impl LawfulCarCodec for CarCodecs {
    ghost use Rattle.car_codec_laws.proofs.Lawful as laws;

    ghost reads_back = { laws.reads_back };

    ghost determined = { laws.are_determined };
}
