//! The command `pick`.

ghost use Rattle.std.specs.Prelude.{◌≡◌, ◌<◌, [], ◌∷◌};
ghost use Rattle.command_status.specs.Told.{sink_told};
ghost use Rattle.command_status.specs.Completeness.{Completes};
ghost use Rattle.payload_commands.specs.Picking.{NoLineTold, PicksBy, PickLeaves};

use crate::choices::{NoLine, pick_line};
use charge_world::Sink;
use charging_files::{Status, print_lines};
use command_status::{line_of_input, tell_fault};
use service_messages::Want;
use service_spec::want_of;
use std::alloc::Global;

/// Tells why there is no line. Want of memory has none.
fn refuse<K: Sink>(out: &mut K, fault: NoLine) -> Status
    ensures { NoLineTold fault result (sink_told (K.taken out.old) (K.faults out.old)) (sink_told (K.taken out.new) (K.faults out.new)) }
{
    match fault {
        NoLine::Place(place) => {
            tell_fault(out, line_of_input(place).as_slice());
            Status::Input
        }
        NoLine::NoSet => {
            tell_fault(out, b"no set\n");
            Status::NoSet
        }
        NoLine::Memory => Status::NoMemory,
    }
}

/// Prints the set that is picked of a payload by what is wanted.
fn pick_wanted<K: Sink>(alloc: Global, want: &Want<'_>, hex: &str, out: &mut K) -> Status
    ensures { PicksBy result want.now.pairs.items hex.now (sink_told (K.taken out.old) (K.faults out.old)) (sink_told (K.taken out.new) (K.faults out.new)) }
{
    match pick_line(alloc, hex, want) {
        Ok(line) => print_lines(out, line.as_str()),
        Err(fault) => refuse(out, fault),
    }
}

/// Prints which set a car picks, that wants what a word spells, of the ServiceDetailRes of ISO 15118-2 whose payload this hexadecimal text spells: `set N`,
/// the identifier of the first set in which each pair is met by some parameter of that name and value.
///
/// `Done` where the line was written, in one call, else `SinkFault`. Before that, and in this order: `Words` where the word spells no pairs (`want_of` of
/// `service_spec`); `Input` where the text spells no bytes or the payload no message; `NoSet` where the message is no ServiceDetailRes of the OK class, or
/// has no such set. `NoMemory` comes freely, before anything is written. Each fault but want of memory and that of the output has its line, whose failure
/// changes nothing.
pub fn pick<K: Sink>(alloc: Global, want: &str, hex: &str, out: &mut K) -> Status
    ensures leaves { PickLeaves result want.now hex.now (sink_told (K.taken out.old) (K.faults out.old)) (sink_told (K.taken out.new) (K.faults out.new)) }
    ensures no_memory { result ≡ Status.NoMemory → (K.taken out.new ≡ K.taken out.old) × (K.faults out.new ≡ K.faults out.old) }
    ensures sink_fault { result ≡ Status.SinkFault → K.faults out.old < K.faults out.new }

    // Where no call failed, the words and the payload decide, but for want of memory.
    ensures complete { Completes ((K.faults out.old, K.faults out.new) ∷ []) (Status.Words ∷ Status.Input ∷ Status.NoSet ∷ []) result }
{
    match want_of(want) {
        Ok(want) => pick_wanted(alloc, &want, hex, out),
        Err(_) => {
            tell_fault(out, b"words\n");
            Status::Words
        }
    }
}
