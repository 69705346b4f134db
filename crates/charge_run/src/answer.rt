//! What a command leaves that gives no line.

ghost use Rattle.charge_run.specs.Runs.{Refuses};

use crate::fault::InputFault;
use charge_world::Sink;
use command_status::{Status, line_of_input, tell_fault};

/// Tells of an input's fault. Want of memory leaves the output as it was.
pub(crate) fn refuse<K: Sink>(out: &mut K, fault: InputFault) -> Status
    ensures { Refuses fault result (K.taken out.old) (K.taken out.new) (K.faults out.old) (K.faults out.new) }
{
    match fault {
        InputFault::Place(place) => {
            tell_fault(out, line_of_input(place).as_slice());
            Status::Input
        }
        InputFault::Memory => Status::NoMemory,
    }
}
