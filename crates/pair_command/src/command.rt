//! The command.

ghost use Rattle.std.specs.Prelude.{◌≡◌, ◌<◌, ℕ, List, [], ◌∷◌};
ghost use Rattle.post_spec.specs.Codecs.{codecs};
ghost use Rattle.car_spec.specs.Codecs as car_codecs;
ghost use Rattle.command_status.specs.Told.{sink_told, TellsAlways};
ghost use Rattle.command_status.specs.Completeness.{Completes};
ghost use Rattle.pair_command.specs.Files.{plans_told};
ghost use Rattle.pair_command.specs.Leaving.{TalkLeaves};

use crate::plans::plans_in;
use crate::talking::print_talk;
use car_codec::LawfulCarCodec;
use charge_world::{Sink, Source};
use charging_files::refuse_file;
use command_status::Status;
use site_codec::LawfulCodec;
use std::alloc::Global;

/// Lets the station of the plan in one file, whose first post is used alone, and the car of the plan in another, whose ports are ignored, talk over a
/// pipe in memory until their session is over, with these codecs: `exchanges N cause C`, how many replies the car heard, and the number of the cause by
/// which it ended, 0 where it didn't. The seed says in which pieces the bytes come; plans and seed have one run of the pipe.
///
/// `Done` where the line was printed, and `SinkFault` where it couldn't be. Before that, `SourceFault` where a file can't be read, and then `Plan` where the
/// first is no plan of a station or the second none of a car. `NoMemory` comes freely, before anything is written. Each fault of the files has its line,
/// whose failure changes nothing.
pub fn talk<C: LawfulCodec + Drop, D: LawfulCarCodec + Drop, F: Source, K: Sink>(
    alloc: Global,
    codec: C,
    car_codec: D,
    station_name: &str,
    car_name: &str,
    seed: u64,
    files: &mut F,
    out: &mut K,
) -> Status
    ensures leaves { TalkLeaves (codecs C.negotiates C.reads C.encodes) (car_codecs.codecs D.offers D.responds D.reads D.encodes) (TellsAlways F.left) seed result
        (plans_told (F.holds files.old station_name.now) (F.holds files.old car_name.now) (F.faults files.old) (F.faults files.new))
        (sink_told (K.taken out.old) (K.faults out.old)) (sink_told (K.taken out.new) (K.faults out.new)) }
    ensures no_memory { result ≡ Status.NoMemory → (K.taken out.new ≡ K.taken out.old) × (K.faults out.new ≡ K.faults out.old) }
    ensures holds { (other : List ℕ) → F.holds files.new other ≡ F.holds files.old other }

    // The output's fault is told only where its call failed.
    ensures sink_fault { result ≡ Status.SinkFault → K.faults out.old < K.faults out.new }

    // Where no call failed, the files decide, but for want of memory.
    ensures complete { Completes ((F.faults files.old, F.faults files.new) ∷ (K.faults out.old, K.faults out.new) ∷ []) (Status.Plan ∷ []) result }
{
    match plans_in(alloc, station_name, car_name, files) {
        Ok(plans) => print_talk(alloc, codec, car_codec, &plans, seed, out),
        Err(fault) => refuse_file(out, &fault),
    }
}
