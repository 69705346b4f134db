//! The lines of what the calendar in a file offers.

ghost use Rattle.std.specs.Prelude.{◌≡◌, ◌<◌, ℕ, List, IfOk, IfErr, MatchResult, string_bytes};
ghost use Rattle.schedules.specs.Offers.{IsCalendar};
ghost use Rattle.schedules.specs.Lines.{IsOfferText};
ghost use Rattle.plan_keys.specs.declared.fault.PlanFault.TheVariants as faults;
ghost use Rattle.plan_files.specs.FileTexts.{CountsFault};
ghost use Rattle.plan_files.specs.Plans.{IsFaultBy};
ghost use Rattle.charging_files.specs.ScheduleFiles.{calendar_told};
ghost use Rattle.file_commands.specs.Offering.{IsOfferedIn};

use charge_world::Source;
use charging_files::{Calendar, calendar_in};
use plan_files::PlanFileFault;
use plan_keys::PlanFault;
use schedules::offer_lines;
use std::alloc::Global;

/// The lines of what a calendar offers at a moment.
fn lines_of(alloc: Global, calendar: &Calendar, moment: u32) -> Result<String, PlanFileFault>
    requires calendar { IsCalendar calendar.now.entries.items }
    requires moment { moment < 86400 }
    ensures offered { IfOk result (λ lines. IsOfferText calendar.now.entries.items moment (string_bytes lines)) }
    ensures fault { IfErr result (λ fault. fault ≡ PlanFileFault.Refused faults.Memory) }
{
    match offer_lines(alloc, calendar, moment) {
        Ok(lines) => Ok(lines),
        Err(_) => Err(PlanFileFault::Refused(PlanFault::Memory)),
    }
}

/// The lines of what the calendar in the file of that name offers at a moment.
pub(crate) fn lines_in<F: Source>(
    alloc: Global,
    name: &str,
    moment: u32,
    files: &mut F,
) -> Result<String, PlanFileFault>
    requires { moment < 86400 }
    ensures offered { IfOk result (λ lines. IsOfferedIn moment (F.left files.new) (F.holds files.old name.now) (string_bytes lines)) }
    ensures fault { IfErr result (IsFaultBy calendar_told (F.left files.new) (F.holds files.old name.now)) }
    ensures faults { MatchResult result (λ _. F.faults files.new ≡ F.faults files.old) (CountsFault PlanFileFault.Unread (F.faults files.old) (F.faults files.new)) }
    ensures holds { (other : List ℕ) → F.holds files.new other ≡ F.holds files.old other }
{
    match calendar_in(alloc, files, name) {
        Ok(calendar) => lines_of(alloc, &calendar, moment),
        Err(fault) => Err(fault),
    }
}
