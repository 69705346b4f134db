//! The command that replays a trace.

ghost use Rattle.std.specs.Prelude.{◌≡◌, ◌<◌, ◌⊎◌, ℕ, List, [], ◌∷◌};
ghost use Rattle.command_status.specs.Completeness.{Completes};
ghost use Rattle.replay_command.specs.Served.{IsUnbegun};
ghost use Rattle.planned_traces.specs.Files.{files_told};
ghost use Rattle.replay_command.specs.Replays.{ReplayLeaves};
ghost use Rattle.command_status.specs.Told.{sink_told, TellsAlways};
ghost use Rattle.charge_run.specs.Runs.{site_codecs};

use charge_world::{Sink, Source};
use command_status::Status;
use pair_codecs::ChargeCodecs;
use replay_command::replay;
use std::alloc::Global;

/// Replays the trace in the file of one name at a station by the plan in that of another, which talks with its cars in the negotiation,
/// ISO 15118-2 and DIN SPEC 70121.
pub(crate) fn replay_trace<F: Source, K: Sink, J: Sink>(
    alloc: Global,
    plan: &str,
    recorded: &str,
    files: &mut F,
    out: &mut K,
    trace: &mut J,
) -> Status
    ensures leaves { ReplayLeaves site_codecs (TellsAlways F.left) result
        (files_told (F.holds files.old plan.now) (F.holds files.old recorded.now) (F.faults files.old) (F.faults files.new))
        (sink_told (J.taken trace.old) (J.faults trace.old)) (sink_told (J.taken trace.new) (J.faults trace.new))
        (sink_told (K.taken out.old) (K.faults out.old)) (sink_told (K.taken out.new) (K.faults out.new)) }
    ensures unbegun { IsUnbegun result → trace.new ≡ trace.old }
    ensures no_memory { result ≡ Status.NoMemory → out.new ≡ out.old }
    ensures holds { (other : List ℕ) → F.holds files.new other ≡ F.holds files.old other }
    ensures sink_fault { result ≡ Status.SinkFault → (K.faults out.old < K.faults out.new) ⊎ (J.faults trace.old < J.faults trace.new) }
    ensures trace_fault { J.faults trace.old < J.faults trace.new → result ≡ Status.SinkFault }
    ensures complete { Completes ((F.faults files.old, F.faults files.new) ∷ (K.faults out.old, K.faults out.new) ∷ (J.faults trace.old, J.faults trace.new) ∷ []) (Status.Plan ∷ Status.Input ∷ []) result }
{
    match ChargeCodecs::make(alloc) {
        Ok(codec) => replay(alloc, codec, plan, recorded, files, out, trace),
        Err(_) => Status::NoMemory,
    }
}
