//! The command `basic`.

ghost use Rattle.std.specs.Prelude.{◌≡◌, ◌<◌, ℕ, List, [], ◌∷◌};
ghost use Rattle.command_status.specs.Told.{file_told, sink_told, Prints};
ghost use Rattle.command_status.specs.Completeness.{Completes};
ghost use Rattle.file_commands.specs.Basics.{Refuses, BasicLeaves};

use crate::script_files::{ScriptFault, orders_in};
use charge_world::{Sink, Source};
use charging_files::print_lines;
use command_status::{Status, line_of_input, tell_fault};
use std::alloc::Global;

/// Tells why there are no orders. Want of memory has no line.
fn refuse<K: Sink>(out: &mut K, fault: ScriptFault) -> Status
    ensures refuses { Refuses fault result (sink_told (K.taken out.old) (K.faults out.old)) (sink_told (K.taken out.new) (K.faults out.new)) }
    ensures no_memory { result ≡ Status.NoMemory → out.new ≡ out.old }
{
    match fault {
        ScriptFault::Unread => {
            tell_fault(out, b"source\n");
            Status::SourceFault
        }
        ScriptFault::Line(number) => {
            tell_fault(out, line_of_input(number).as_slice());
            Status::Input
        }
        ScriptFault::Memory => Status::NoMemory,
    }
}

/// Prints a line for each order that a post in basic charging gives for the events of the script in the file of that name, at the moment as
/// it counts.
///
/// `Done` where all was written, in one call, else `SinkFault`. Before that, `SourceFault` where the file can't be read, and `Input` where it
/// is no script, with its first line that is outside the grammar, counted from 1, or the one in which it passes 65,536 bytes; an empty file is
/// a script. `NoMemory` comes freely, before anything is written. Each fault but want of memory and that of the output has its line, whose
/// failure changes nothing.
pub fn basic<F: Source, K: Sink>(alloc: Global, name: &str, files: &mut F, out: &mut K) -> Status
    ensures leaves { BasicLeaves result (file_told (F.holds files.old name.now) (F.left files.new) (F.faults files.old) (F.faults files.new))
        (sink_told (K.taken out.old) (K.faults out.old)) (sink_told (K.taken out.new) (K.faults out.new)) }
    ensures no_memory { result ≡ Status.NoMemory → out.new ≡ out.old }
    ensures sink_fault { result ≡ Status.SinkFault → K.faults out.old < K.faults out.new }
    ensures holds { (other : List ℕ) → F.holds files.new other ≡ F.holds files.old other }

    // Where no call failed, the file decides, but for want of memory.
    ensures complete { Completes ((F.faults files.old, F.faults files.new) ∷ (K.faults out.old, K.faults out.new) ∷ []) (Status.Input ∷ []) result }
{
    match orders_in(alloc, name, files) {
        Ok(lines) => print_lines(out, lines.as_str()),
        Err(fault) => refuse(out, fault),
    }
}
