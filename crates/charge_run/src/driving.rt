//! The command that drives a car.

ghost use Rattle.std.specs.Prelude.{◌≡◌, ◌<◌, ◌⊎◌, ℕ, List, [], ◌∷◌};
ghost use Rattle.command_status.specs.Completeness.{Completes};
ghost use Rattle.replay_command.specs.Served.{wire_told, IsBegun, IsUnbegun};
ghost use Rattle.command_status.specs.Told.{file_told, sink_told};
ghost use Rattle.charge_run.specs.Runs.{car_codecs};
ghost use Rattle.charge_run.specs.Cars.{CarLeaves};

use car_command::car;
use charge_world::{Sink, Source, Wire};
use command_status::Status;
use pair_codecs::CarCodecs;
use std::alloc::Global;

/// Drives a car by the plan in the file of that name, which talks with its post in the negotiation, ISO 15118-2 and DIN SPEC 70121.
pub(crate) fn drive<F: Source, K: Sink, J: Sink, W: Wire>(
    alloc: Global,
    name: &str,
    files: &mut F,
    out: &mut K,
    trace: &mut J,
    wire: &mut W,
) -> Status
    ensures leaves { CarLeaves car_codecs result (file_told (F.holds files.old name.now) (F.left files.new) (F.faults files.old) (F.faults files.new))
        (wire_told (W.past wire.old) (W.untils wire.old) (W.started wire.old)) (wire_told (W.past wire.new) (W.untils wire.new) (W.started wire.new))
        (J.taken trace.old) (J.taken trace.new) (sink_told (K.taken out.old) (K.faults out.old)) (sink_told (K.taken out.new) (K.faults out.new)) }
    ensures status { IsBegun result ⊎ IsUnbegun result }
    ensures unbegun { IsUnbegun result → (wire.new ≡ wire.old) × (trace.new ≡ trace.old) }
    ensures no_memory { result ≡ Status.NoMemory → out.new ≡ out.old }
    ensures holds { (other : List ℕ) → F.holds files.new other ≡ F.holds files.old other }
    ensures wire_fault { result ≡ Status.WireFault → W.faults wire.old < W.faults wire.new }
    ensures sink_fault { result ≡ Status.SinkFault → (K.faults out.old < K.faults out.new) ⊎ (J.faults trace.old < J.faults trace.new) }
    ensures trace_fault { J.faults trace.old < J.faults trace.new → result ≡ Status.SinkFault }
    ensures complete { Completes ((F.faults files.old, F.faults files.new) ∷ (K.faults out.old, K.faults out.new) ∷ (J.faults trace.old, J.faults trace.new) ∷ (W.faults wire.old, W.faults wire.new) ∷ []) (Status.TurnsSpent ∷ Status.Plan ∷ []) result }
{
    match CarCodecs::make(alloc) {
        Ok(codec) => car(alloc, codec, name, files, out, trace, wire),
        Err(_) => Status::NoMemory,
    }
}
