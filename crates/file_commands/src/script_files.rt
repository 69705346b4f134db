//! The lines of the orders for the script in a file.

ghost use Rattle.std.specs.Prelude.{◌≡◌, ℕ, List, IfOk, IfErr, MatchResult, string_bytes};
ghost use Rattle.pilot_basic.specs.Machine.{Step, IsRun};
ghost use Rattle.plan_files.specs.FileTexts.{CountsFault};
ghost use Rattle.file_commands.specs.Scripts.{AreLines, lines_of, IsPrinted, IsRefusedAt};
ghost use Rattle.file_commands.specs.Charging.{IsCharged};
ghost use Rattle.file_commands.specs.Basics.{IsPrintedIn, HasFault};

use crate::script::{LONGEST_SCRIPT, orders_of};
use charge_world::Source;
use pilot_basic::{closes_for_ready_vehicles, offers_no_more, pauses};
use plan_files::{TextFault, text_in};
use std::alloc::Global;
use trace_text::LineFault;

/// Why there are no orders.
#[derive(Clone, Copy)]
pub(crate) enum ScriptFault {
    /// The file could not be read.
    Unread,
    /// The script is refused at this line, counted from 1.
    Line(u64),
    /// Memory ran out.
    Memory,
}

/// What holds of each run.
pub(crate) fn runs_are_charged()
    ensures { (past : List Step) → IsRun past → AreLines (lines_of past) → IsCharged past }
{
    offers_no_more();
    closes_for_ready_vehicles();
    pauses();
}

/// The lines of the orders for a script.
fn lines_of(alloc: Global, script: &[u8]) -> Result<String, ScriptFault>
    ensures printed { IfOk result (λ printed. IsPrinted script.now (string_bytes printed)) }
    ensures fault { IfErr result (λ fault. (number : ℕ) → fault ≡ ScriptFault.Line number → IsRefusedAt script.now number) }
    ensures read { IfErr result (λ fault. fault ≡ ScriptFault.Unread → ⊥) }
{
    match orders_of(alloc, script) {
        Ok(printed) => Ok(printed),
        Err(LineFault::BadLine(number)) => Err(ScriptFault::Line(number)),
        Err(LineFault::Memory) => Err(ScriptFault::Memory),
    }
}

/// The lines of the orders for the script in the file of that name.
pub(crate) fn orders_in<F: Source>(
    alloc: Global,
    name: &str,
    files: &mut F,
) -> Result<String, ScriptFault>
    ensures printed { IfOk result (λ printed. IsPrintedIn (F.left files.new) (F.holds files.old name.now) (string_bytes printed)) }
    ensures fault { IfErr result (HasFault (F.left files.new) (F.holds files.old name.now)) }
    ensures faults { MatchResult result (λ _. F.faults files.new ≡ F.faults files.old) (CountsFault ScriptFault.Unread (F.faults files.old) (F.faults files.new)) }
    ensures holds { (other : List ℕ) → F.holds files.new other ≡ F.holds files.old other }
{
    runs_are_charged();
    match text_in(alloc, files, name, LONGEST_SCRIPT) {
        Ok(bytes) => lines_of(alloc, &bytes),
        Err(TextFault::Unread) => Err(ScriptFault::Unread),
        Err(TextFault::Memory) => Err(ScriptFault::Memory),
    }
}
