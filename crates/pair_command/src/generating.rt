//! Sessions that follow one another over a pipe in memory, and the line of these.

ghost use Rattle.std.specs.Prelude.{◌≡◌, ◌<◌, ◌≤◌, IfOk, [], ◌∷◌, string_bytes};
ghost use Rattle.post_spec.specs.Codecs.{codecs};
ghost use Rattle.car_spec.specs.Codecs as car_codecs;
ghost use Rattle.command_status.specs.Told.{sink_told};
ghost use Rattle.command_status.specs.Completeness.{Completes};
ghost use Rattle.pair_command.specs.Generating.{IsGeneratedLine, GenerateLeaves};

use car_codec::{CarCodec, LawfulCarCodec};
use charge_world::Sink;
use command_status::{Status, print_line};
use pair_plans::generated_line;
use pair_talk::NoMemory;
use site_codec::{Codec, LawfulCodec};
use std::alloc::Global;

/// The line of so many sessions over a pipe in memory, which the generator draws behind this seed.
fn line_of<C: Codec + Drop, D: CarCodec + Drop>(
    alloc: Global,
    codec: C,
    car_codec: D,
    seed: u64,
    count: u32,
) -> Result<String, NoMemory>
    requires some { 1 ≤ count }
    requires few { count ≤ 1000 }
    ensures { IfOk result (λ line. IsGeneratedLine (codecs C.negotiates C.reads C.encodes) (car_codecs.codecs D.offers D.responds D.reads D.encodes)
        seed count (string_bytes line)) }
{
    let counts = pair_talk::generate(alloc, codec, car_codec, seed, count)?;
    generated_line(alloc, count, &counts)
}

/// Lets so many sessions of a station and of cars follow one another over a pipe in memory, with these codecs, as the generator draws them by a seed:
/// `sessions N replies R bytes B closed C opened O`, how many sessions, how many replies of the station, of how many bytes with the headers of their
/// frames, and how many orders to close and to open its charger took. A seed and a count have one history.
///
/// `Done` where the line was printed, and `SinkFault` where it couldn't be. `NoMemory` comes freely, before anything is written.
pub fn generate<C: LawfulCodec + Drop, D: LawfulCarCodec + Drop, K: Sink>(
    alloc: Global,
    codec: C,
    car_codec: D,
    seed: u64,
    count: u32,
    out: &mut K,
) -> Status
    requires some { 1 ≤ count }
    requires few { count ≤ 1000 }
    ensures leaves { GenerateLeaves (codecs C.negotiates C.reads C.encodes) (car_codecs.codecs D.offers D.responds D.reads D.encodes) seed count result
        (sink_told (K.taken out.old) (K.faults out.old)) (sink_told (K.taken out.new) (K.faults out.new)) }
    ensures no_memory { result ≡ Status.NoMemory → (K.taken out.new ≡ K.taken out.old) × (K.faults out.new ≡ K.faults out.old) }
    ensures sink_fault { result ≡ Status.SinkFault → K.faults out.old < K.faults out.new }
    ensures complete { Completes ((K.faults out.old, K.faults out.new) ∷ []) [] result }
{
    match line_of(alloc, codec, car_codec, seed, count) {
        Ok(line) => print_line(out, line.as_str().as_bytes(), Status::Done),
        Err(_) => Status::NoMemory,
    }
}
