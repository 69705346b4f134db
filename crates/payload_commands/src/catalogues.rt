//! The command `services`.

ghost use Rattle.std.specs.Prelude.{◌≡◌, ◌<◌, ℕ, List, [], ◌∷◌};
ghost use Rattle.command_status.specs.Told.{file_told, sink_told};
ghost use Rattle.command_status.specs.Completeness.{Completes};
ghost use Rattle.payload_commands.specs.Detailing.{ServicesLeave};

use crate::details::detail_in;
use charge_world::{Sink, Source};
use charging_files::{Status, print_lines, refuse_file};
use std::alloc::Global;

/// A number of 16 bits as one.
fn short_of(id: u32) -> u16
    requires { id < 65536 }
    ensures { result ≡ id }
{
    id as u16
}

/// Prints in lower-case hexadecimal digits the payload of the ServiceDetailRes of ISO 15118-2 that tells of a service, by its identifier, of the
/// catalogue in the file of that name, under the identifier of no session: OK with the sets of the first service of that identifier, or
/// FAILED_ServiceIDInvalid where there is none.
///
/// `Done` where all was written, in one call, else `SinkFault`. Before that, `SourceFault` where the file can't be read, and `Plan` where it
/// is no catalogue, with the first key that is wrong, or `toml`, or with `bytes` where the payload has more than 65,536 bytes. `NoMemory` comes freely,
/// before anything is written. Each fault but want of memory and that of the output has its line, whose failure changes nothing.
pub fn services<F: Source, K: Sink>(
    alloc: Global,
    name: &str,
    id: u32,
    files: &mut F,
    out: &mut K,
) -> Status
    requires { id < 65536 }
    ensures leaves { ServicesLeave id result (file_told (F.holds files.old name.now) (F.left files.new) (F.faults files.old) (F.faults files.new))
        (sink_told (K.taken out.old) (K.faults out.old)) (sink_told (K.taken out.new) (K.faults out.new)) }
    ensures no_memory { result ≡ Status.NoMemory → (K.taken out.new ≡ K.taken out.old) × (K.faults out.new ≡ K.faults out.old) }
    ensures sink_fault { result ≡ Status.SinkFault → K.faults out.old < K.faults out.new }
    ensures holds { (other : List ℕ) → F.holds files.new other ≡ F.holds files.old other }

    // Where no call failed, the file decides, but for want of memory.
    ensures complete { Completes ((F.faults files.old, F.faults files.new) ∷ (K.faults out.old, K.faults out.new) ∷ []) (Status.Plan ∷ []) result }
{
    match detail_in(alloc, name, short_of(id), files) {
        Ok(line) => print_lines(out, line.as_str()),
        Err(fault) => refuse_file(out, &fault),
    }
}
