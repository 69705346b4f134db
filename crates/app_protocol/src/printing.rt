//! The text of a message.

ghost use Rattle.std.specs.Prelude.{◌≤◌, length, IfOk, IfErr};
ghost use Rattle.std.specs.String.{string_bytes};
ghost use Rattle.app_protocol.specs.Printing.{IsPrinted, IsAppFault};

use app_schema::negotiation;
use std::alloc::Global;
use tree_text::{PrintFault, print_tree};

/// Prints the tree of the message that a payload of at most 65,536 bytes spells (ISO 15118-2:2014, section 8.2), as
/// `supportedAppProtocolRes{ResponseCode=Failed_NoNegotiation}`.
///
/// `Refused` exactly where the payload spells no message, with the cause and the bit of the first item that can't be taken.
pub fn print(alloc: Global, payload: &[u8]) -> Result<String, PrintFault>
    requires { length payload.now ≤ 65536 }
    ensures printed { IfOk result (λ text. IsPrinted payload.now (string_bytes text)) }
    ensures fault { IfErr result (IsAppFault payload.now) }
{
    print_tree(alloc, &negotiation(), payload)
}
