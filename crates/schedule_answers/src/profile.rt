//! The profile that answers a payload.

ghost use Rattle.std.specs.Prelude.{◌≡◌, ◌<◌, ◌≤◌, length, IfOk, IfErr};
ghost use Rattle.exi_documents.specs.Values.{most_entries};
ghost use Rattle.schedule_answers.specs.Answers.{IsAnswerIn, IsUnanswered};

use crate::choosing::profile_of;
use crate::fault::AnswerFault;
use exi_events::Table;
use iso_codec::{IsoMessage, IsoTables, read_iso};
use schedules::{Need, Profile};

/// The profile that answers the message which a payload spells. The table is emptied.
pub(crate) fn profile_in(
    tables: &IsoTables,
    payload: &[u8],
    need: Need,
    table: &mut Table,
) -> Result<Profile, AnswerFault>
    requires payload { length payload.now ≤ 65536 }
    requires cap { table.old.cap ≡ most_entries }
    requires departs { 0 < need.departure }
    requires day { need.departure ≤ 86400 }
    requires watts { need.max_watts < 32768000 }
    ensures cap { table.new.cap ≡ most_entries }
    ensures profile { IfOk result (IsAnswerIn payload.now need) }
    ensures fault { IfErr result (IsUnanswered payload.now need) }
{
    let mut message = IsoMessage::unread();
    match read_iso(tables, payload, table, &mut message) {
        Ok(()) => match profile_of(&message, need) {
            Ok(profile) => Ok(profile),
            Err(fault) => Err(AnswerFault::Unanswered(fault)),
        },
        Err(refusal) => Err(AnswerFault::Refused(refusal.bit)),
    }
}
