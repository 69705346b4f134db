//! What an audit finds, beside its line.

ghost use Rattle.std.specs.Prelude.{◌≡◌, ◌≤◌, ℕ, List};
ghost use Rattle.command_status.specs.Told.{TellsAlways};
ghost use Rattle.planned_traces.specs.Files.{files_told};
ghost use Rattle.faultless_pasts.specs.Faultless.{told_codecs};
ghost use Rattle.audit_command.specs.Leaving.{HasFoundIn};

use crate::auditing::first_fault;
use audit_streams::ToldReader;
use charge_world::Source;
use planned_traces::recording_in;
use std::alloc::Global;
use trace_audit::Fault;

/// The first check that fails in the trace of one file, for the plan in another, with the first post for which it does: for whoever says more of it than
/// `audit` prints. Nothing where none fails, a file can't be read or is refused, or memory runs out.
pub fn fault_in<R: ToldReader + Drop, F: Source>(
    alloc: Global,
    reader: R,
    plan_name: &str,
    trace_name: &str,
    files: &mut F,
) -> Option<Fault>
    ensures { HasFoundIn (told_codecs R.negotiates R.reads R.encodes R.responds R.watts) (TellsAlways F.left)
        (files_told (F.holds files.old plan_name.now) (F.holds files.old trace_name.now) (F.faults files.old) (F.faults files.new)) result }
{
    match recording_in(alloc, plan_name, trace_name, files) {
        Ok(recording) => {
            let entries = recording.entries.as_slice();
            match first_fault(alloc, reader, &recording.plan, entries) {
                Ok(fault) => fault,
                Err(_) => None,
            }
        }
        Err(_) => None,
    }
}
