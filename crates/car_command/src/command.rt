//! The command.

ghost use Rattle.std.specs.Prelude.{◌≡◌, ◌<◌, ◌⊎◌, ℕ, List, [], ◌∷◌};
ghost use Rattle.session_words.specs.declared.plan.CarPlan.{CarPlan};
ghost use Rattle.car_spec.specs.Codecs.{codecs};
ghost use Rattle.plan_files.specs.Plans.{IsCarPlanIn};
ghost use Rattle.command_status.specs.FaultLines.{Tells, source_line};
ghost use Rattle.command_status.specs.Told.{sink_told};
ghost use Rattle.command_status.specs.Completeness.{Completes};
ghost use Rattle.station_command.specs.Served.{wire_told, IsBegun, IsUnbegun};
ghost use Rattle.car_command.specs.Driven.{Drives};
ghost use Rattle.car_command.specs.Refused.{IsRefused};

use crate::driving::drive_plan;
use car_codec::LawfulCarCodec;
use charge_world::{Sink, Source, Wire};
use command_status::{Status, tell_fault, tell_plan};
use plan_files::{PlanFileFault, car_plan_in};
use station_command::key_of;
use std::alloc::Global;

/// Drives a car by the plan in the file of that name, with these codecs, and prints its report: `cycles N cause C`, and at cause 29
/// `cycles N cause 29 session HEX`.
///
/// `Done` where the car's session ended or Over was heard, `TurnsSpent` behind the plan's last turn, `WireFault` where a hearing was lost or
/// the wire did not start. `SinkFault` takes the place of these where the report's line couldn't be written, and stands where the trace's
/// couldn't. Before the wire is started, `SourceFault` where the file can't be read, `Plan` where it is no plan, and `NoMemory`. Each fault
/// but want of memory and those of sinks has its line, whose failure changes nothing.
pub fn car<C: LawfulCarCodec + Drop, F: Source, K: Sink, J: Sink, W: Wire>(
    alloc: Global,
    codec: C,
    name: &str,
    files: &mut F,
    out: &mut K,
    trace: &mut J,
    wire: &mut W,
) -> Status
    // The past, the trace, the ports and the line are those of the plan in the file.
    ensures driven { IsBegun result → (plan : CarPlan) × IsCarPlanIn (F.left files.new) (F.holds files.old name.now) plan
        × Drives (codecs C.offers C.responds C.reads C.encodes) plan result
        (wire_told (W.past wire.old) (W.untils wire.old) (W.started wire.old)) (wire_told (W.past wire.new) (W.untils wire.new) (W.started wire.new))
        (J.taken trace.old) (J.taken trace.new) (sink_told (K.taken out.old) (K.faults out.old)) (sink_told (K.taken out.new) (K.faults out.new)) }

    // Nothing is begun before the plan is there.
    ensures status { IsBegun result ⊎ IsUnbegun result }
    ensures unbegun { IsUnbegun result → (wire.new ≡ wire.old) × (trace.new ≡ trace.old) }
    ensures no_memory { result ≡ Status.NoMemory → out.new ≡ out.old }
    ensures refused { result ≡ Status.Plan → IsRefused (F.left files.new) (F.holds files.old name.now)
        (sink_told (K.taken out.old) (K.faults out.old)) (sink_told (K.taken out.new) (K.faults out.new)) }
    ensures source { result ≡ Status.SourceFault → (F.faults files.old < F.faults files.new)
        × Tells (K.taken out.old) (K.taken out.new) (K.faults out.old) (K.faults out.new) source_line }
    ensures holds { (other : List ℕ) → F.holds files.new other ≡ F.holds files.old other }

    // A fault is told only where a call failed, and that of the trace exactly there.
    ensures wire_fault { result ≡ Status.WireFault → W.faults wire.old < W.faults wire.new }
    ensures sink_fault { result ≡ Status.SinkFault → (K.faults out.old < K.faults out.new) ⊎ (J.faults trace.old < J.faults trace.new) }
    ensures trace_fault { J.faults trace.old < J.faults trace.new → result ≡ Status.SinkFault }

    // Where no call failed, the car was driven to its end or through its turns, or the plan is refused, but for want of memory.
    ensures complete { Completes ((F.faults files.old, F.faults files.new) ∷ (K.faults out.old, K.faults out.new) ∷ (J.faults trace.old, J.faults trace.new) ∷ (W.faults wire.old, W.faults wire.new) ∷ []) (Status.TurnsSpent ∷ Status.Plan ∷ []) result }
{
    match car_plan_in(alloc, files, name) {
        Ok(plan) => drive_plan(alloc, codec, &plan, out, trace, wire),
        Err(PlanFileFault::Unread) => {
            tell_fault(out, b"source\n");
            Status::SourceFault
        }
        Err(PlanFileFault::Refused(fault)) => match key_of(&fault) {
            Some(key) => {
                tell_plan(out, key);
                Status::Plan
            }
            None => Status::NoMemory,
        },
    }
}
