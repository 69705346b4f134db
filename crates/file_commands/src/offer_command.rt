//! The command `offer`.

ghost use Rattle.std.specs.Prelude.{◌≡◌, ◌<◌, ℕ, List, [], ◌∷◌};
ghost use Rattle.command_status.specs.Told.{file_told, sink_told};
ghost use Rattle.command_status.specs.Completeness.{Completes};
ghost use Rattle.file_commands.specs.Offering.{OfferLeaves};

use crate::offers::lines_in;
use charge_world::{Sink, Source};
use charging_files::{Status, print_lines, refuse_file};
use schedules::one_offer;
use std::alloc::Global;

/// Prints what a station offers at a moment, a second of the day, by the calendar in the file of that name: a line `START WATTS` for each step,
/// in seconds from the moment.
///
/// `Done` where all was written, in one call, else `SinkFault`. Before that, `SourceFault` where the file can't be read, and `Plan` where it
/// is no calendar, with the first key that is wrong, or `toml`. `NoMemory` comes freely, before anything is written. Each fault but want of
/// memory and that of the output has its line, whose failure changes nothing.
pub fn offer<F: Source, K: Sink>(
    alloc: Global,
    name: &str,
    moment: u32,
    files: &mut F,
    out: &mut K,
) -> Status
    requires { moment < 86400 }
    ensures leaves { OfferLeaves moment result (file_told (F.holds files.old name.now) (F.left files.new) (F.faults files.old) (F.faults files.new))
        (sink_told (K.taken out.old) (K.faults out.old)) (sink_told (K.taken out.new) (K.faults out.new)) }
    ensures no_memory { result ≡ Status.NoMemory → (K.taken out.new ≡ K.taken out.old) × (K.faults out.new ≡ K.faults out.old) }
    ensures sink_fault { result ≡ Status.SinkFault → K.faults out.old < K.faults out.new }
    ensures holds { (other : List ℕ) → F.holds files.new other ≡ F.holds files.old other }

    // Where no call failed, the file decides, but for want of memory.
    ensures complete { Completes ((F.faults files.old, F.faults files.new) ∷ (K.faults out.old, K.faults out.new) ∷ []) (Status.Plan ∷ []) result }
{
    one_offer();
    match lines_in(alloc, name, moment, files) {
        Ok(lines) => print_lines(out, lines.as_str()),
        Err(fault) => refuse_file(out, &fault),
    }
}
