//! The command that judges a trace by itself.

ghost use Rattle.std.specs.Prelude.{◌≡◌, ◌<◌, ℕ, List, [], ◌∷◌};
ghost use Rattle.command_status.specs.Completeness.{Completes};
ghost use Rattle.planned_traces.specs.Files.{files_told};
ghost use Rattle.audit_command.specs.Leaving.{AuditLeaves, HasFoundIn};
ghost use Rattle.audit_command.specs.Own.{PassesOwn};
ghost use Rattle.command_status.specs.Told.{sink_told, TellsAlways};
ghost use Rattle.own_codecs.specs.Codecs.{charge_codecs};

use audit_command::{Fault, audit, fault_in};
use charge_world::{Sink, Source};
use command_status::Status;
use own_codecs::codecs_find_no_fault;
use own_codecs::told_codecs::ChargeReader;
use std::alloc::Global;

/// Judges the trace in the file of one name for the plan in that of another, over the messages of the negotiation, ISO 15118-2 and DIN SPEC 70121. Where
/// a station wrote it whole by that plan, no check fails.
pub(crate) fn audit_trace<F: Source, K: Sink>(
    alloc: Global,
    plan: &str,
    recorded: &str,
    files: &mut F,
    out: &mut K,
) -> Status
    ensures leaves { AuditLeaves charge_codecs (TellsAlways F.left) result
        (files_told (F.holds files.old plan.now) (F.holds files.old recorded.now) (F.faults files.old) (F.faults files.new))
        (sink_told (K.taken out.old) (K.faults out.old)) (sink_told (K.taken out.new) (K.faults out.new)) }
    ensures own { PassesOwn charge_codecs (TellsAlways F.left) result
        (files_told (F.holds files.old plan.now) (F.holds files.old recorded.now) (F.faults files.old) (F.faults files.new))
        (sink_told (K.taken out.old) (K.faults out.old)) (sink_told (K.taken out.new) (K.faults out.new)) }
    ensures no_memory { result ≡ Status.NoMemory → (K.taken out.new ≡ K.taken out.old) × (K.faults out.new ≡ K.faults out.old) }
    ensures holds { (other : List ℕ) → F.holds files.new other ≡ F.holds files.old other }
    ensures sink_fault { result ≡ Status.SinkFault → K.faults out.old < K.faults out.new }
    ensures complete { Completes ((F.faults files.old, F.faults files.new) ∷ (K.faults out.old, K.faults out.new) ∷ []) (Status.Plan ∷ Status.Input ∷ Status.AuditNo ∷ []) result }
{
    codecs_find_no_fault();
    match ChargeReader::make(alloc) {
        Ok(reader) => audit(alloc, reader, plan, recorded, files, out),
        Err(_) => Status::NoMemory,
    }
}

/// The first check that fails in the trace of one file, for the plan in another, with the first post for which it does: for whoever says more of it than
/// `audit` prints. Nothing where none fails, a file can't be read or is refused, or memory runs out.
pub fn audited_fault<F: Source>(
    alloc: Global,
    plan: &str,
    recorded: &str,
    files: &mut F,
) -> Option<Fault>
    ensures { HasFoundIn charge_codecs (TellsAlways F.left)
        (files_told (F.holds files.old plan.now) (F.holds files.old recorded.now) (F.faults files.old) (F.faults files.new)) result }
{
    match ChargeReader::make(alloc) {
        Ok(reader) => fault_in(alloc, reader, plan, recorded, files),
        Err(_) => None,
    }
}
