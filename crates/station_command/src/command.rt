//! The command.

ghost use Rattle.std.specs.Prelude.{◌≡◌, ◌<◌, ◌⊎◌, ℕ, List, option_map, [], ◌∷◌};
ghost use Rattle.session_words.specs.declared.plan.SitePlan.{SitePlan};
ghost use Rattle.post_spec.specs.Codecs.{codecs};
ghost use Rattle.plan_files.specs.Plans.{IsSitePlanIn};
ghost use Rattle.command_status.specs.FaultLines.{Tells, source_line};
ghost use Rattle.command_status.specs.Told.{sink_told};
ghost use Rattle.command_status.specs.Completeness.{Completes};
ghost use Rattle.station_command.specs.Served.{wire_told, Serves, IsBegun, IsUnbegun};
ghost use Rattle.station_command.specs.Refused.{key_of, IsRefused};

use crate::serving::serve_plan;
use charge_world::{Sink, Source, Wire};
use command_status::{Status, tell_fault, tell_plan};
use plan_files::{PlanFileFault, site_plan_in};
use site_codec::LawfulCodec;
use site_plan::PlanFault;
use std::alloc::Global;

/// Serves a station by the plan in the file of that name, with these codecs, and prints a line for each post.
///
/// `Done` where Over was heard, `TurnsSpent` behind the plan's last turn, `WireFault` where a hearing was lost or the wire did not start.
/// `SinkFault` takes the place of these where a line of the report couldn't be written, and stands where the trace's couldn't. Before the
/// wire is started, `SourceFault` where the file can't be read, `Plan` where it is no plan, and `NoMemory`. Each fault but want of memory
/// and those of sinks has its line, whose failure changes nothing.
pub fn station<C: LawfulCodec + Drop, F: Source, K: Sink, J: Sink, W: Wire>(
    alloc: Global,
    codec: C,
    name: &str,
    files: &mut F,
    out: &mut K,
    trace: &mut J,
    wire: &mut W,
) -> Status
    // The past, the trace, the ports and the lines are those of the plan in the file.
    ensures served { IsBegun result → (plan : SitePlan) × IsSitePlanIn (F.left files.new) (F.holds files.old name.now) plan
        × Serves (codecs C.negotiates C.reads C.encodes) plan result
        (wire_told (W.past wire.old) (W.untils wire.old) (W.started wire.old)) (wire_told (W.past wire.new) (W.untils wire.new) (W.started wire.new))
        (J.taken trace.old) (J.taken trace.new) (sink_told (K.taken out.old) (K.faults out.old)) (sink_told (K.taken out.new) (K.faults out.new)) }

    // Nothing is begun before the plan is there.
    ensures status { IsBegun result ⊎ IsUnbegun result }
    ensures unbegun { IsUnbegun result → (wire.new ≡ wire.old) × (trace.new ≡ trace.old) }
    ensures no_memory { result ≡ Status.NoMemory → out.new ≡ out.old }
    ensures refused { result ≡ Status.Plan → IsRefused (F.left files.new) (F.holds files.old name.now)
        (sink_told (K.taken out.old) (K.faults out.old)) (sink_told (K.taken out.new) (K.faults out.new)) }
    ensures source { result ≡ Status.SourceFault → (F.faults files.old < F.faults files.new)
        × Tells (K.taken out.old) (K.taken out.new) (K.faults out.old) (K.faults out.new) source_line }
    ensures holds { (other : List ℕ) → F.holds files.new other ≡ F.holds files.old other }

    // A fault is told only where a call failed, and that of the trace exactly there.
    ensures wire_fault { result ≡ Status.WireFault → W.faults wire.old < W.faults wire.new }
    ensures sink_fault { result ≡ Status.SinkFault → (K.faults out.old < K.faults out.new) ⊎ (J.faults trace.old < J.faults trace.new) }
    ensures trace_fault { J.faults trace.old < J.faults trace.new → result ≡ Status.SinkFault }

    // Where no call failed, the site was served to Over or through its turns, or the plan is refused, but for want of memory.
    ensures complete { Completes ((F.faults files.old, F.faults files.new) ∷ (K.faults out.old, K.faults out.new) ∷ (J.faults trace.old, J.faults trace.new) ∷ (W.faults wire.old, W.faults wire.new) ∷ []) (Status.TurnsSpent ∷ Status.Plan ∷ []) result }
{
    match site_plan_in(alloc, files, name) {
        Ok(plan) => serve_plan(alloc, codec, &plan, out, trace, wire),
        Err(PlanFileFault::Unread) => {
            tell_fault(out, b"source\n");
            Status::SourceFault
        }
        Err(PlanFileFault::Refused(fault)) => match key_of(&fault) {
            Some(key) => {
                tell_plan(out, key);
                Status::Plan
            }
            None => Status::NoMemory,
        },
    }
}

/// The key of a fault, or `toml`; none for want of memory.
pub fn key_of(fault: &PlanFault) -> Option<&str>
    ensures { option_map (λ key. key.now) result ≡ key_of fault.now }
{
    match fault {
        PlanFault::NotToml => Some("toml"),
        PlanFault::Missing(key) | PlanFault::BadValue(key) | PlanFault::OverLimit(key) => {
            Some(key.as_str())
        }
        PlanFault::Memory => None,
    }
}
