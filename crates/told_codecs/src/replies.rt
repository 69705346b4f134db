//! The watts of replies (ISO 15118-2:2014, 8.4.3.8, 8.4.4.2 and 8.4.5.4; DIN SPEC 70121:2014, 9.4).

ghost use Rattle.std.specs.Prelude.{◌≡◌, ◌≤◌, ◌<◌, length};
ghost use Rattle.charge_world.specs.declared.offer.Dialect.TheVariants as dialect;
ghost use Rattle.exi_documents.specs.Values.{most_entries};
ghost use Rattle.audit_streams.specs.Words.{IsOfWatts};
ghost use Rattle.reply_watts.specs.Watts.{Watts};

use audit_watts::WattValues;
use charge_world::Dialect;
use din_codec::{DinMessage, DinTables, read_din};
use exi_events::Table;
use iso_codec::{IsoMessage, IsoTables, read_iso};
use reply_watts::{din_watts, iso_watts};
use session_words::PostPlan;

/// What is kept of the watts of a reply of ISO 15118-2, where the post was told so many in a dialect. The table is emptied.
pub(crate) fn iso_payload(
    tables: &IsoTables,
    plan: &PostPlan,
    spoken: Dialect,
    told: u32,
    payload: &[u8],
    table: &mut Table,
) -> Option<WattValues>
    requires payload { length payload.now ≤ 65536 }
    requires told { told < 32768000 }
    requires nominal { 0 < plan.now.nominal }
    requires cap { table.old.cap ≡ most_entries }
    ensures cap { table.new.cap ≡ most_entries }
    ensures watts { IsOfWatts (Watts dialect.Iso payload.now) plan.now spoken told result }
{
    let mut message = IsoMessage::unread();
    match read_iso(tables, payload, table, &mut message) {
        Ok(()) => iso_watts(plan, spoken, told, &message),
        Err(_) => None,
    }
}

/// What is kept of the watts of a reply of DIN SPEC 70121, where the post was told so many in a dialect. The table is emptied.
pub(crate) fn din_payload(
    tables: &DinTables,
    plan: &PostPlan,
    spoken: Dialect,
    told: u32,
    payload: &[u8],
    table: &mut Table,
) -> Option<WattValues>
    requires payload { length payload.now ≤ 65536 }
    requires told { told < 32768000 }
    requires cap { table.old.cap ≡ most_entries }
    ensures cap { table.new.cap ≡ most_entries }
    ensures watts { IsOfWatts (Watts dialect.Din payload.now) plan.now spoken told result }
{
    let mut message = DinMessage::default();
    match read_din(tables, payload, table, &mut message) {
        Ok(()) => din_watts(spoken, told, &message),
        Err(_) => None,
    }
}
