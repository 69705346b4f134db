//! The commands that let a station and cars talk in memory.

ghost use Rattle.std.specs.Prelude.{◌≡◌, ◌<◌, ◌≤◌, ℕ, List, [], ◌∷◌};
ghost use Rattle.command_status.specs.Completeness.{Completes};
ghost use Rattle.command_status.specs.Told.{sink_told, TellsAlways};
ghost use Rattle.pair_command.specs.Files.{plans_told};
ghost use Rattle.pair_command.specs.Generating.{GenerateLeaves};
ghost use Rattle.pair_command.specs.Leaving.{TalkLeaves};
ghost use Rattle.charge_run.specs.Runs.{site_codecs, car_codecs};

use charge_world::{NoMemory, Sink, Source};
use command_status::Status;
use pair_codecs::{CarCodecs, ChargeCodecs};
use pair_command::{generate, talk};
use std::alloc::Global;

/// The codecs of both ends.
fn codecs_of_both(alloc: Global) -> Result<(ChargeCodecs, CarCodecs), NoMemory> {
    let station = ChargeCodecs::make(alloc)?;
    let car = CarCodecs::make(alloc)?;
    Ok((station, car))
}

/// Lets the station of the plan in the file of one name and the car of that in another talk over a pipe in memory, by a seed, in the negotiation,
/// ISO 15118-2 and DIN SPEC 70121.
pub(crate) fn talk_pair<F: Source, K: Sink>(
    alloc: Global,
    station: &str,
    car: &str,
    seed: u64,
    files: &mut F,
    out: &mut K,
) -> Status
    ensures leaves { TalkLeaves site_codecs car_codecs (TellsAlways F.left) seed result
        (plans_told (F.holds files.old station.now) (F.holds files.old car.now) (F.faults files.old) (F.faults files.new))
        (sink_told (K.taken out.old) (K.faults out.old)) (sink_told (K.taken out.new) (K.faults out.new)) }
    ensures no_memory { result ≡ Status.NoMemory → (K.taken out.new ≡ K.taken out.old) × (K.faults out.new ≡ K.faults out.old) }
    ensures holds { (other : List ℕ) → F.holds files.new other ≡ F.holds files.old other }
    ensures sink_fault { result ≡ Status.SinkFault → K.faults out.old < K.faults out.new }
    ensures complete { Completes ((F.faults files.old, F.faults files.new) ∷ (K.faults out.old, K.faults out.new) ∷ []) (Status.Plan ∷ []) result }
{
    match codecs_of_both(alloc) {
        Ok((codec, car_codec)) => talk(alloc, codec, car_codec, station, car, seed, files, out),
        Err(_) => Status::NoMemory,
    }
}

/// Lets so many sessions follow one another over a pipe in memory, as the generator draws them by a seed, in the negotiation, ISO 15118-2 and DIN SPEC
/// 70121.
pub(crate) fn generate_sessions<K: Sink>(
    alloc: Global,
    seed: u64,
    count: u32,
    out: &mut K,
) -> Status
    requires some { 1 ≤ count }
    requires few { count ≤ 1000 }
    ensures leaves { GenerateLeaves site_codecs car_codecs seed count result
        (sink_told (K.taken out.old) (K.faults out.old)) (sink_told (K.taken out.new) (K.faults out.new)) }
    ensures no_memory { result ≡ Status.NoMemory → (K.taken out.new ≡ K.taken out.old) × (K.faults out.new ≡ K.faults out.old) }
    ensures sink_fault { result ≡ Status.SinkFault → K.faults out.old < K.faults out.new }
    ensures complete { Completes ((K.faults out.old, K.faults out.new) ∷ []) [] result }
{
    match codecs_of_both(alloc) {
        Ok((codec, car_codec)) => generate(alloc, codec, car_codec, seed, count, out),
        Err(_) => Status::NoMemory,
    }
}
