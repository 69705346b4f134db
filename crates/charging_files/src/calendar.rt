//! The keys of a calendar, and the calendar in a file.

ghost use Rattle.std.specs.Prelude.{◌≡◌, ◌≤◌, IfOk, IsTrue, map, length, ℕ, List, IfErr, MatchResult};
ghost use Rattle.std.specs.List.{AllZip};
ghost use Rattle.schedules.specs.Offers.{IsCalendar};
ghost use Rattle.plan_keys.specs.Keys.{Holds, Reads, Says, table_of};
ghost use Rattle.plan_keys.specs.Faults.{AnswersBy, each_fault, Tells};
ghost use Rattle.plan_files.specs.FileTexts.{IsBeginning, CountsFault};
ghost use Rattle.plan_files.specs.Plans.{IsFaultBy};
ghost use Rattle.charging_files.specs.ScheduleKeys.{follows as comes_after, rising, entry_rules, IsEntry};
ghost use Rattle.charging_files.specs.ScheduleFiles.{entry_file, entry_wrong, entry_unknown, entries_wrong, IsCalendarOf, calendar_told, IsCalendarInFile};

use arrayvec::ArrayVec;
use charge_world::Source;
use plan_files::{PlanFileFault, TextFault, text_in};
use plan_keys::{Keys, LONGEST, PlanFault, Wanted, Wrong, document};
use schedules::{Calendar, Step};
use std::alloc::Global;
use toml::Value;

/// Whether an entry may start at this second behind one that starts at another, or as the first.
fn follows(before: Option<u32>, start: u32) -> bool
    ensures { result ≡ comes_after before start }
{
    match before {
        None => start == 0,
        Some(other) => other < start,
    }
}

/// Judges whether the start of an entry, where it has one, follows that of the entry before.
fn follow_on(keys: &mut Keys<'_>, before: Option<u32>, start: u32) -> u32
    ensures { Says (rising before start) keys.old keys.new result }
{
    let judged = match keys.find("start") {
        Some(_) if !follows(before, start) => Err(Wrong::BadValue),
        _ => Ok(start),
    };
    let wanted = Wanted::Said(
        "0 in the first entry, and more than in the entry before in each other",
    );
    keys.keep("start", wanted, judged, start)
}

/// Reads an entry behind one with this start, or the first.
fn entry_keys(keys: &mut Keys<'_>, before: Option<u32>) -> Step
    ensures read { Reads (entry_rules before) keys.old keys.new result }
    ensures within { IsEntry result }
{
    let start = keys.number("start", 0, 86_399, None) as u32;
    let _start = follow_on(keys, before, start);
    Step {
        start,
        watts: keys.number("watts", 0, 8_000_000, None) as u32,
    }
}

/// Reads the entry with this number behind one with this start, or the first, and judges its unknown keys. Its first key that is wrong is
/// refused.
fn read_entry(
    alloc: Global,
    number: u16,
    before: Option<u32>,
    item: &Value,
) -> Result<(Step, Result<(), PlanFault>), PlanFault>
    ensures entry { IfOk result (λ entry. Holds entry_file (table_of item.now) entry.0) }
    ensures wrong { AnswersBy (entry_wrong before number (table_of item.now)) result }
    ensures unknown { IfOk result (λ entry. AnswersBy (entry_unknown number (table_of item.now)) entry.1) }
    ensures within { IfOk result (λ entry. IsEntry entry.0) }
    ensures follows { IfOk result (λ entry. IsTrue (comes_after before entry.0.start)) }
{
    let prefix = format!(in alloc; "entry.{number}.")?;
    let mut keys = Keys::of(item.as_table());
    let entry = entry_keys(&mut keys, before);
    keys.judged(alloc, prefix.as_str())?;
    Ok((entry, keys.unknown(alloc, prefix.as_str())))
}

/// Reads the entries, one after another, and judges their unknown keys. The first key that is wrong is refused.
fn read_entries(
    alloc: Global,
    items: &[Value],
) -> Result<(ArrayVec<Step, 24>, Result<(), PlanFault>), PlanFault>
    requires { length items.now ≤ 24 }
    ensures entries { IfOk result (λ entries. AllZip (Holds entry_file) (map table_of items.now) entries.0.items) }
    ensures wrong { AnswersBy (entries_wrong None 1 (map table_of items.now)) result }
    ensures unknown { IfOk result (λ entries. AnswersBy (each_fault entry_unknown 1 (map table_of items.now)) entries.1) }
    ensures calendar { IfOk result (λ entries. 1 ≤ length items.now → IsCalendar entries.0.items) }
{
    let mut entries = ArrayVec::new();
    let mut unknown = Ok(());
    let mut before = None;
    let mut number: u16 = 1;
    for item in items {
        let (entry, judged) = read_entry(alloc, number, before, item)?;
        entries.push(entry);
        before = Some(entry.start);
        unknown = unknown.and(judged);
        number += 1;
    }
    Ok((entries, unknown))
}

/// Reads the calendar of a station from TOML, or names its first fault (own).
pub fn calendar_of(alloc: Global, text: &[u8]) -> Result<Calendar, PlanFault>
    ensures calendar { IfOk result (IsCalendarOf text.now) }
    ensures told { AnswersBy (calendar_told text.now) result }
    ensures within { IfOk result (λ calendar. IsCalendar calendar.entries.items) }
{
    let table = document(alloc, text)?;
    let mut keys = Keys::of(Some(&table));
    let items = keys.tables("entry", 1, 24);
    keys.judged(alloc, "")?;
    let (entries, unknown) = read_entries(alloc, items)?;
    keys.unknown(alloc, "")?;
    unknown?;
    Ok(Calendar { entries })
}

/// Reads the calendar of a station from the file of that name, or says why there is none (own). A file above 65,536 bytes is refused by
/// `OverLimit` with the key `bytes`.
pub fn calendar_in<F: Source>(
    alloc: Global,
    files: &mut F,
    name: &str,
) -> Result<Calendar, PlanFileFault>
    ensures calendar { IfOk result (IsCalendarInFile (F.left files.new) (F.holds files.old name.now)) }
    ensures within { IfOk result (λ calendar. IsCalendar calendar.entries.items) }
    ensures fault { IfErr result (IsFaultBy calendar_told (F.left files.new) (F.holds files.old name.now)) }
    ensures faults { MatchResult result (λ _. F.faults files.new ≡ F.faults files.old) (CountsFault PlanFileFault.Unread (F.faults files.old) (F.faults files.new)) }
    ensures holds { (other : List ℕ) → F.holds files.new other ≡ F.holds files.old other }
{
    match text_in(alloc, files, name, LONGEST) {
        Ok(bytes) => match calendar_from(alloc, &bytes) {
            Ok(calendar) => Ok(calendar),
            Err(fault) => Err(PlanFileFault::Refused(fault)),
        },
        Err(TextFault::Unread) => Err(PlanFileFault::Unread),
        Err(TextFault::Memory) => Err(PlanFileFault::Refused(PlanFault::Memory)),
    }
}

/// The calendar of the text that begins with these bytes, and is these where they are no more than a file may have.
fn calendar_from(alloc: Global, bytes: &[u8]) -> Result<Calendar, PlanFault>
    ensures calendar { IfOk result (λ calendar. (text : List ℕ) → IsBeginning text bytes.now 65537 → IsCalendarOf text calendar) }
    ensures within { IfOk result (λ calendar. IsCalendar calendar.entries.items) }
    ensures fault { IfErr result (λ fault. (text : List ℕ) → IsBeginning text bytes.now 65537 → Tells fault (calendar_told text)) }
{
    calendar_of(alloc, bytes)
}
