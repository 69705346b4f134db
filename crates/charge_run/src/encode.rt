//! The command that prints the payload of a tree text.

ghost use Rattle.std.specs.Prelude.{◌≡◌, ◌<◌, IfOk, IfErr, [], ◌∷◌};
ghost use Rattle.command_status.specs.Completeness.{Completes};
ghost use Rattle.std.specs.String.{string_bytes};
ghost use Rattle.message_trees.specs.Texts.{IsUnscanned};
ghost use Rattle.charge_run.specs.Runs.{Encodes, IsEncodedLine, HasFault};

use crate::answer::refuse;
use crate::fault::InputFault;
use charge_world::Sink;
use command_status::{Status, print_line};
use message_trees::{MessageDialect, ScanFault, scan_text};
use std::alloc::Global;

/// Prints the payload that is written for the message of a dialect whose tree text this is, in lower-case hexadecimal digits, as a
/// line.
///
/// `Input` where it is no tree text of the dialect, or that of a tree that no payload of at most 65,536 bytes is written for.
/// `NoMemory` leaves the output as it was.
pub(crate) fn encode<K: Sink>(
    alloc: Global,
    dialect: MessageDialect,
    text: &str,
    out: &mut K,
) -> Status
    ensures leaves { Encodes dialect text.now result (K.taken out.old) (K.taken out.new) (K.faults out.old) (K.faults out.new) }
    ensures no_memory { result ≡ Status.NoMemory → K.faults out.new ≡ K.faults out.old }
    ensures sink_fault { result ≡ Status.SinkFault → K.faults out.old < K.faults out.new }
    ensures complete { Completes ((K.faults out.old, K.faults out.new) ∷ []) (Status.Input ∷ []) result }
{
    match line_of(alloc, dialect, text) {
        Ok(line) => print_line(out, line.as_str().as_bytes(), Status::Done),
        Err(fault) => refuse(out, fault),
    }
}

/// The line that is printed.
fn line_of(alloc: Global, dialect: MessageDialect, text: &str) -> Result<String, InputFault>
    ensures line { IfOk result (λ line. IsEncodedLine dialect text.now (string_bytes line)) }
    ensures fault { IfErr result (HasFault (IsUnscanned dialect text.now)) }
{
    let payload = match scan_text(alloc, dialect, text) {
        Ok(payload) => payload,
        Err(ScanFault::Place(place)) => return Err(InputFault::Place(place)),
        Err(ScanFault::Memory) => return Err(InputFault::Memory),
    };
    let mut line = hex::encode(alloc, payload.bytes())?;
    line.push('\n')?;
    Ok(line)
}
