//! The command.

ghost use Rattle.std.specs.Prelude.{◌≡◌, ◌<◌, ◌⊎◌, ℕ, List, length, [], ◌∷◌};
ghost use Rattle.session_words.specs.Plans.{IsSitePlan};
ghost use Rattle.post_spec.specs.Codecs.{codecs};
ghost use Rattle.replay_wire.specs.Replays.{AllCanBeHeard};
ghost use Rattle.station_command.specs.Served.{IsUnbegun};
ghost use Rattle.command_status.specs.Told.{sink_told, TellsAlways};
ghost use Rattle.command_status.specs.Completeness.{Completes};
ghost use Rattle.planned_traces.specs.Files.{files_told};
ghost use Rattle.replay_command.specs.Replays.{Ran, ReplayLeaves};

use crate::lines::{conclude, refuse};
use charge_world::{Sink, Source};
use command_status::Status;
use planned_traces::{Recording, recording_in};
use site_codec::Codec;
use site_replays::replay as replay_at;
use site_replays::site_core::Site;
use std::alloc::Global;

/// Replays a trace at a site that it makes of a plan, with these codecs, and prints its line. Want of memory leaves all as it was.
fn replay_recording<C: Codec + Drop, K: Sink, J: Sink>(
    alloc: Global,
    codec: C,
    recording: Recording,
    out: &mut K,
    trace: &mut J,
) -> Status
    requires within { IsSitePlan recording.plan }
    requires heard { AllCanBeHeard (length recording.plan.post.items) recording.entries.items }
    ensures ran { Ran (codecs C.negotiates C.reads C.encodes) recording.plan recording.entries.items result
        (sink_told (J.taken trace.old) (J.faults trace.old)) (sink_told (J.taken trace.new) (J.faults trace.new))
        (sink_told (K.taken out.old) (K.faults out.old)) (sink_told (K.taken out.new) (K.faults out.new)) }
    ensures no_memory { result ≡ Status.NoMemory → (trace.new ≡ trace.old) × (out.new ≡ out.old) }
    ensures sink_fault { result ≡ Status.SinkFault → (K.faults out.old < K.faults out.new) ⊎ (J.faults trace.old < J.faults trace.new) }
    ensures trace_fault { J.faults trace.old < J.faults trace.new → result ≡ Status.SinkFault }
{
    match Site::make(alloc, codec, &recording.plan) {
        Ok(mut site) => {
            let posts = recording.plan.post.len() as u8;
            let replayed = replay_at(recording.entries, posts, &mut site, trace);
            conclude(replayed, out)
        }
        Err(_) => Status::NoMemory,
    }
}

/// Replays the trace in one file at a site of the plan in another, with these codecs: the posts hear what the trace tells, and their calls
/// fail by its marks. Writes the whole trace anew, and prints how many lines that has and how the replay ended.
///
/// `Done` where Over was heard, a hearing was lost, or behind the plan's last turn. `SinkFault` takes its place where the line couldn't be
/// written, and stands where a line of the trace couldn't. Before that, `SourceFault` where a file can't be read, then `Plan` where the
/// first is no plan, and then `Input` where the second is no trace at its posts, or is longer than 256 MiB. `NoMemory` comes freely, before
/// anything is written. Each fault but want of memory and those of sinks has its line, whose failure changes nothing.
pub fn replay<C: Codec + Drop, F: Source, K: Sink, J: Sink>(
    alloc: Global,
    codec: C,
    plan_name: &str,
    trace_name: &str,
    files: &mut F,
    out: &mut K,
    trace: &mut J,
) -> Status
    ensures leaves { ReplayLeaves (codecs C.negotiates C.reads C.encodes) (TellsAlways F.left) result
        (files_told (F.holds files.old plan_name.now) (F.holds files.old trace_name.now) (F.faults files.old) (F.faults files.new))
        (sink_told (J.taken trace.old) (J.faults trace.old)) (sink_told (J.taken trace.new) (J.faults trace.new))
        (sink_told (K.taken out.old) (K.faults out.old)) (sink_told (K.taken out.new) (K.faults out.new)) }
    ensures unbegun { IsUnbegun result → trace.new ≡ trace.old }
    ensures no_memory { result ≡ Status.NoMemory → out.new ≡ out.old }
    ensures holds { (other : List ℕ) → F.holds files.new other ≡ F.holds files.old other }

    // A sink's fault is told only where a call of it failed, and that of the trace exactly there.
    ensures sink_fault { result ≡ Status.SinkFault → (K.faults out.old < K.faults out.new) ⊎ (J.faults trace.old < J.faults trace.new) }
    ensures trace_fault { J.faults trace.old < J.faults trace.new → result ≡ Status.SinkFault }

    // Where no call failed, the files decide, but for want of memory.
    ensures complete { Completes ((F.faults files.old, F.faults files.new) ∷ (K.faults out.old, K.faults out.new) ∷ (J.faults trace.old, J.faults trace.new) ∷ []) (Status.Plan ∷ Status.Input ∷ []) result }
{
    match recording_in(alloc, plan_name, trace_name, files) {
        Ok(recording) => replay_recording(alloc, codec, recording, out, trace),
        Err(fault) => refuse(out, fault),
    }
}
