//! The keys of a need, and the need in a file.

ghost use Rattle.std.specs.Prelude.{IfOk, ◌≡◌, ℕ, List, IfErr, MatchResult};
ghost use Rattle.plan_keys.specs.Keys.{Reads};
ghost use Rattle.plan_keys.specs.Faults.{AnswersBy, Tells};
ghost use Rattle.plan_files.specs.FileTexts.{IsBeginning, CountsFault};
ghost use Rattle.plan_files.specs.Plans.{IsFaultBy};
ghost use Rattle.charging_files.specs.ScheduleKeys.{IsNeed, need_rules};
ghost use Rattle.charging_files.specs.ScheduleFiles.{IsNeedOf, need_told, IsNeedInFile};

use charge_world::Source;
use plan_files::{PlanFileFault, TextFault, text_in};
use plan_keys::{Keys, LONGEST, PlanFault, document};
use schedules::Need;
use std::alloc::Global;

/// Reads what a car needs.
fn need_keys(keys: &mut Keys<'_>) -> Need
    ensures read { Reads need_rules keys.old keys.new result }
    ensures within { IsNeed result }
{
    Need {
        energy: keys.number("energy", 0, 1_000_000, None) as u32,
        departure: keys.number("departure", 1, 86_400, None) as u32,
        max_watts: keys.number("max_watts", 1, 1_000_000, None) as u32,
    }
}

/// Reads what a car needs from TOML, or names its first fault (own).
pub fn need_of(alloc: Global, text: &[u8]) -> Result<Need, PlanFault>
    ensures need { IfOk result (IsNeedOf text.now) }
    ensures told { AnswersBy (need_told text.now) result }
    ensures within { IfOk result IsNeed }
{
    let table = document(alloc, text)?;
    let mut keys = Keys::of(Some(&table));
    let need = need_keys(&mut keys);
    keys.judged(alloc, "")?;
    keys.unknown(alloc, "")?;
    Ok(need)
}

/// Reads the need of a car from the file of that name, or says why there is none (own). A file above 65,536 bytes is refused by
/// `OverLimit` with the key `bytes`.
pub fn need_in<F: Source>(alloc: Global, files: &mut F, name: &str) -> Result<Need, PlanFileFault>
    ensures need { IfOk result (IsNeedInFile (F.left files.new) (F.holds files.old name.now)) }
    ensures within { IfOk result IsNeed }
    ensures fault { IfErr result (IsFaultBy need_told (F.left files.new) (F.holds files.old name.now)) }
    ensures faults { MatchResult result (λ _. F.faults files.new ≡ F.faults files.old) (CountsFault PlanFileFault.Unread (F.faults files.old) (F.faults files.new)) }
    ensures holds { (other : List ℕ) → F.holds files.new other ≡ F.holds files.old other }
{
    match text_in(alloc, files, name, LONGEST) {
        Ok(bytes) => match need_from(alloc, &bytes) {
            Ok(need) => Ok(need),
            Err(fault) => Err(PlanFileFault::Refused(fault)),
        },
        Err(TextFault::Unread) => Err(PlanFileFault::Unread),
        Err(TextFault::Memory) => Err(PlanFileFault::Refused(PlanFault::Memory)),
    }
}

/// The need of the text that begins with these bytes, and is these where they are no more than a file may have.
fn need_from(alloc: Global, bytes: &[u8]) -> Result<Need, PlanFault>
    ensures need { IfOk result (λ need. (text : List ℕ) → IsBeginning text bytes.now 65537 → IsNeedOf text need) }
    ensures within { IfOk result IsNeed }
    ensures fault { IfErr result (λ fault. (text : List ℕ) → IsBeginning text bytes.now 65537 → Tells fault (need_told text)) }
{
    need_of(alloc, bytes)
}
