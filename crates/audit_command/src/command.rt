//! The command.

ghost use Rattle.std.specs.Prelude.{◌≡◌, ◌<◌, ◌≤◌, ℕ, List, length, [], ◌∷◌};
ghost use Rattle.std.specs.List.{AllByRecursion};
ghost use Rattle.session_words.specs.Plans.{IsSitePlan};
ghost use Rattle.trace_reading.specs.Readings.{IsOf};
ghost use Rattle.replay_wire.specs.Replays.{AllCanBeHeard};
ghost use Rattle.faultless_pasts.specs.Faultless.{told_codecs};
ghost use Rattle.command_status.specs.Told.{sink_told, TellsAlways};
ghost use Rattle.command_status.specs.Completeness.{Completes};
ghost use Rattle.planned_traces.specs.Files.{files_told};
ghost use Rattle.audit_command.specs.Audits.{Audited};
ghost use Rattle.audit_command.specs.Leaving.{AuditLeaves};

use crate::auditing::first_fault;
use crate::lines::{conclude, refuse};
use audit_streams::ToldReader;
use charge_world::{Sink, Source};
use command_status::Status;
use planned_traces::{Recording, recording_in};
use std::alloc::Global;

/// Judges a trace for a plan, with this reader of its payloads, and prints the line of that. Want of memory leaves all as it was.
fn audit_recording<R: ToldReader + Drop, K: Sink>(
    alloc: Global,
    reader: R,
    recording: Recording,
    out: &mut K,
) -> Status
    requires within { IsSitePlan recording.plan }
    requires heard { AllCanBeHeard (length recording.plan.post.items) recording.entries.items }
    requires of { AllByRecursion (IsOf (length recording.plan.post.items)) recording.entries.items }
    ensures audited { Audited (told_codecs R.negotiates R.reads R.encodes R.responds R.watts) recording.plan recording.entries.items result
        (sink_told (K.taken out.old) (K.faults out.old)) (sink_told (K.taken out.new) (K.faults out.new)) }
{
    let entries = recording.entries.as_slice();
    match first_fault(alloc, reader, &recording.plan, entries) {
        Ok(fault) => conclude(out, fault, entries.len() as u64 + 1),
        Err(_) => Status::NoMemory,
    }
}

/// Judges the trace in one file by itself, whoever wrote it, for the plan in another, with this reader of its payloads: `audit ok lines N`, how many
/// lines it has, where none of the checks of `told_pasts` fails; and else `audit no line N check C`, the first that fails, with the least line and
/// there the least number. Where none fails, the trace is safe and within the limit of the site.
///
/// `Done` where none fails, `AuditNo` where one does. `SinkFault` takes the place of both where the line couldn't be written. Before that, `SourceFault`
/// where a file can't be read, then `Plan` where the first is no plan, and then `Input` where the second is no trace at its posts, or is longer than
/// 256 MiB. `NoMemory` comes freely, before anything is written. Each fault of the files has its line, whose failure changes nothing.
pub fn audit<R: ToldReader + Drop, F: Source, K: Sink>(
    alloc: Global,
    reader: R,
    plan_name: &str,
    trace_name: &str,
    files: &mut F,
    out: &mut K,
) -> Status
    ensures leaves { AuditLeaves (told_codecs R.negotiates R.reads R.encodes R.responds R.watts) (TellsAlways F.left) result
        (files_told (F.holds files.old plan_name.now) (F.holds files.old trace_name.now) (F.faults files.old) (F.faults files.new))
        (sink_told (K.taken out.old) (K.faults out.old)) (sink_told (K.taken out.new) (K.faults out.new)) }
    ensures no_memory { result ≡ Status.NoMemory → (K.taken out.new ≡ K.taken out.old) × (K.faults out.new ≡ K.faults out.old) }
    ensures holds { (other : List ℕ) → F.holds files.new other ≡ F.holds files.old other }

    // The output's fault is told only where its call failed.
    ensures sink_fault { result ≡ Status.SinkFault → K.faults out.old < K.faults out.new }

    // Where no call failed, the files decide, but for want of memory.
    ensures complete { Completes ((F.faults files.old, F.faults files.new) ∷ (K.faults out.old, K.faults out.new) ∷ []) (Status.Plan ∷ Status.Input ∷ Status.AuditNo ∷ []) result }
{
    match recording_in(alloc, plan_name, trace_name, files) {
        Ok(recording) => audit_recording(alloc, reader, recording, out),
        Err(fault) => refuse(out, fault),
    }
}
