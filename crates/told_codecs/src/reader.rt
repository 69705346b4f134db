//! The reader of both dialects.

use crate::negotiating::{first_word, response_in};
use crate::replies::{din_payload, iso_payload};
use audit_streams::{ToldReader, ToldWatts, ToldWord};
use audit_watts::WattValues;
use charge_world::{Dialect, NoMemory};
use din_codec::DinTables;
use exi_documents::MOST_ENTRIES;
use exi_events::Table;
use faultless_pasts::ToldCoded;
use iso_codec::IsoTables;
use post_spec::Coded;
use session_words::{PostPlan, Word};
use site_codec_laws::site_codec_rules::read_word;
use std::alloc::Global;
use std::marker::Model;

/// Reads the payloads of a record: of the negotiation, of ISO 15118-2 and of DIN SPEC 70121, with one string table for all.
#[derive(Drop)]
pub struct ChargeReader {
    iso: IsoTables,
    din: DinTables,
    table: Table,
}

impl Model for ChargeReader {
    ghost use Rattle.std.specs.Prelude.{◌≡◌};
    ghost use Rattle.exi_documents.specs.Values.{most_entries};

    ghost Value = { Unit {0} };

    ghost view = { λ _. tt {0} };

    ghost invariant = { λ reader. reader.table.cap ≡ most_entries };
}

impl ChargeReader {
    /// The reader, for which all memory is taken here.
    pub fn make(alloc: Global) -> Result<ChargeReader, NoMemory> {
        let iso = IsoTables::make(alloc)?;
        let din = DinTables::make(alloc)?;
        let table = Table::make(alloc, MOST_ENTRIES)?;
        Ok(ChargeReader { iso, din, table })
    }
}

impl Coded for ChargeReader {
    ghost use Rattle.site_codec_laws.specs.Codecs.{Reads, Encodes};
    ghost use Rattle.site_codec_laws.specs.Negotiating.{Negotiates};

    ghost negotiates = { Negotiates };

    ghost reads = { Reads };

    ghost encodes = { Encodes };
}

impl ToldCoded for ChargeReader {
    ghost use Rattle.reply_watts.specs.Watts.{Watts};
    ghost use Rattle.told_codecs.specs.Responses.{Responds};

    ghost responds = { Responds };

    ghost watts = { Watts };
}

impl ToldReader for ChargeReader {
    ghost use Rattle.site_codec_laws.proofs.Lawful as lawful;
    ghost use Rattle.told_codecs.specs.Laws as laws;

    ghost determined = { lawful.are_determined };

    ghost judges_first = { laws.judges_first };

    ghost judges_later = { laws.judges_later };

    ghost responds_once = { laws.responds_once };

    ghost short = { laws.short };

    ghost watts_once = { laws.watts_once };

    fn negotiate(&mut self, offers: &[Dialect], payload: &[u8]) -> ToldWord {
        first_word(offers, payload, &mut self.table)
    }

    fn read(&mut self, dialect: Dialect, payload: &[u8]) -> Option<Word> {
        read_word(dialect, &self.iso, &self.din, payload, &mut self.table)
    }

    fn respond(&mut self, payload: &[u8]) -> Option<bool> {
        response_in(payload, &mut self.table)
    }

    fn watts(
        &mut self,
        plan: &PostPlan,
        told: ToldWatts,
        dialect: Dialect,
        payload: &[u8],
    ) -> Option<WattValues> {
        match dialect {
            Dialect::Iso => iso_payload(
                &self.iso,
                plan,
                told.dialect,
                told.watts,
                payload,
                &mut self.table,
            ),
            Dialect::Din => din_payload(
                &self.din,
                plan,
                told.dialect,
                told.watts,
                payload,
                &mut self.table,
            ),
        }
    }
}
