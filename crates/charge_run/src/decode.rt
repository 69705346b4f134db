//! The command that prints the tree text of a payload.

ghost use Rattle.std.specs.Prelude.{◌≡◌, ◌<◌, IfOk, IfErr, [], ◌∷◌};
ghost use Rattle.command_status.specs.Completeness.{Completes};
ghost use Rattle.std.specs.String.{string_bytes};
ghost use Rattle.charge_run.specs.Runs.{Decodes, IsDecodedLine, IsDecodeFault, HasFault};

use crate::answer::refuse;
use crate::fault::InputFault;
use charge_world::Sink;
use command_status::{Status, print_line};
use hex_payloads::bytes_of;
use message_trees::{MessageDialect, PrintFault, print_payload};
use std::alloc::Global;

/// Prints the tree text of the message that a payload spells in a dialect, which comes as hexadecimal text, as a line.
///
/// `Input` where the text spells no bytes or the payload no message. `NoMemory` leaves the output as it was.
pub(crate) fn decode<K: Sink>(
    alloc: Global,
    dialect: MessageDialect,
    hex: &str,
    out: &mut K,
) -> Status
    ensures leaves { Decodes dialect hex.now result (K.taken out.old) (K.taken out.new) (K.faults out.old) (K.faults out.new) }
    ensures no_memory { result ≡ Status.NoMemory → K.faults out.new ≡ K.faults out.old }
    ensures sink_fault { result ≡ Status.SinkFault → K.faults out.old < K.faults out.new }
    ensures complete { Completes ((K.faults out.old, K.faults out.new) ∷ []) (Status.Input ∷ []) result }
{
    match line_of(alloc, dialect, hex) {
        Ok(line) => print_line(out, line.as_str().as_bytes(), Status::Done),
        Err(fault) => refuse(out, fault),
    }
}

/// The line that is printed.
fn line_of(alloc: Global, dialect: MessageDialect, hex: &str) -> Result<String, InputFault>
    ensures line { IfOk result (λ line. IsDecodedLine dialect hex.now (string_bytes line)) }
    ensures fault { IfErr result (HasFault (IsDecodeFault dialect hex.now)) }
{
    let payload = bytes_of(alloc, hex)?;
    let mut line = match print_payload(alloc, dialect, &payload) {
        Ok(text) => text,
        Err(PrintFault::Refused(refusal)) => return Err(InputFault::Place(u64::from(refusal.bit))),
        Err(PrintFault::Memory) => return Err(InputFault::Memory),
    };
    line.push('\n')?;
    Ok(line)
}
