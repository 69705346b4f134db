//! Schedules of as many entries as are accepted, and of one more.

ghost use Rattle.std.specs.Prelude.{◌≡◌, ◌≤◌, length};

use crate::refusals::refusal_of;
use exi_documents::MOST_ENTRIES;
use iso_codec::{BodyElement, IsoMessage, IsoTables, Refusal, RefusalCause, Table, read_iso};
use iso_schedules::{PMaxSchedule, SaSchedules, TimeInterval};
use message_trees::{MessageDialect, Piece, scan_text};
use std::alloc::Global;
use std::test::*;

/// The text of so many entries, whose starts and powers count from 0.
fn put_entries(text: &mut String, entries: u32) -> Result<(), Fail> {
    for entry in 0..entries {
        text.push_str(if entry > 0 { " " } else { "" })?;
        text.push_str("PMaxScheduleEntry{RelativeTimeInterval{start=")?;
        write!(text, "{entry}")?;
        text.push_str("} PMax{Multiplier=0 Unit=W Value=")?;
        write!(text, "{entry}")?;
        text.push_str("}}")?;
    }
    Ok(())
}

/// The text of three schedules of so many entries.
fn put_schedules(text: &mut String, entries: u32) -> Result<(), Fail> {
    for tuple in 1..4 {
        let between = if tuple > 1 { " " } else { "" };
        write!(
            text,
            "{between}SAScheduleTuple{{SAScheduleTupleID={tuple} PMaxSchedule{{"
        )?;
        put_entries(text, entries)?;
        text.push_str("}}")?;
    }
    Ok(())
}

/// What stands before the schedules of a response, and behind them.
const BEFORE: &'static str =
    "V2G_Message{Header{SessionID=00} Body{ChargeParameterDiscoveryRes{ResponseCode=OK EVSEProcessing=Finished SAScheduleList{";

const BEHIND: &'static str =
    "} AC_EVSEChargeParameter{AC_EVSEStatus{NotificationMaxDelay=0 EVSENotification=None RCD=false} EVSENominalVoltage{Multiplier=0 Unit=V Value=230} EVSEMaxCurrent{Multiplier=0 Unit=A Value=16}}}}}";

/// A response with three schedules of so many entries.
fn response(alloc: Global, entries: u32) -> Result<String, Fail> {
    let mut text = String::from_str(alloc, BEFORE)?;
    put_schedules(&mut text, entries)?;
    text.push_str(BEHIND)?;
    Ok(text)
}

/// Whether a schedule has 128 entries, the last of which starts at 127 with a power of 127.
fn is_full(schedule: &PMaxSchedule) -> bool {
    let entries = schedule.p_max_schedule_entry.as_slice();
    let Some(last) = entries.last() else {
        return false;
    };
    let TimeInterval::Relative(interval) = last.time_interval;
    entries.len() == 128 && interval.start == 127 && last.p_max.value == 127
}

/// Whether a message has three such schedules, numbered from 1.
fn holds_full_schedules(message: &IsoMessage<'_>) -> bool {
    let Some(BodyElement::ChargeParameterDiscoveryRes(response)) = &message.body.element else {
        return false;
    };
    let Some(SaSchedules::SaScheduleList(schedules)) = &response.sa_schedules else {
        return false;
    };
    let tuples = schedules.sa_schedule_tuple.as_slice();
    for (tuple, id) in tuples.iter().zip(&[1, 2, 3]) {
        if tuple.sa_schedule_tuple_id != *id || !is_full(&tuple.p_max_schedule) {
            return false;
        }
    }
    tuples.len() == 3
}

/// Whether a payload spells such a message.
fn spells_full_schedules(alloc: Global, payload: &[u8]) -> Result<bool, Fail>
    requires { length payload.now ≤ 65536 }
{
    let tables = IsoTables::make(alloc)?;
    let mut table = Table::make(alloc, MOST_ENTRIES)?;
    let mut message = IsoMessage::default();
    let read = read_iso(&tables, payload, &mut table, &mut message);
    Ok(read.is_ok() && holds_full_schedules(&message))
}

/// The payload of a response with three schedules of 128 entries.
fn full(alloc: Global) -> Result<Piece, Fail> {
    let text = response(alloc, 128)?;
    let Ok(payload) = scan_text(alloc, MessageDialect::Iso, text.as_str()) else {
        return Err(Fail::from("no payload"));
    };
    Ok(payload)
}

#[test]
fn a_schedule_has_128_entries(rt: HostRuntime) -> Result<(), Fail> {
    let payload = full(rt.alloc())?;
    assert!(rt; payload.bytes().len() == 2137);
    assert!(rt; spells_full_schedules(rt.alloc(), payload.bytes())?);
    Ok(())
}

/// The same with an entry where the first schedule ends: its event code is 0 in two bits, and the end's is 1.
fn longer(payload: &[u8]) -> [u8; 2137]
    requires { length payload.now ≡ 2137 }
{
    let mut longer = [0; 2137];
    longer.copy_from_slice(payload);
    longer[713] = 0x10;
    longer
}

#[test]
fn one_more_entry_is_too_long(rt: HostRuntime) -> Result<(), Fail> {
    let payload = full(rt.alloc())?;
    assert!(rt; payload.bytes().len() == 2137);
    assert_eq!(rt; payload.bytes()[713], 0x50);
    let wanted = Refusal {
        cause: RefusalCause::TooLong,
        bit: 5704,
    };
    assert_eq!(rt;
        refusal_of(rt.alloc(), &longer(payload.bytes()))?,
        Some(wanted)
    );
    Ok(())
}
