//! The payload of the text of a message.

ghost use Rattle.std.specs.Prelude.{IfOk, IfErr};
ghost use Rattle.app_protocol.specs.Scanning.{IsAppScanned, IsAppScanFault};

use app_schema::negotiation;
use charge_world::Piece;
use std::alloc::Global;
use tree_text::{ScanFault, scan_tree};

/// Scans the text of the tree of a message, as `supportedAppProtocolRes{ResponseCode=Failed_NoNegotiation}`, and gives the one payload that
/// is written for the message (ISO 15118-2:2014, section 8.2).
///
/// `Place` exactly where the text is that of no message. For a text that is none of the dialect it tells how many characters the longest
/// front has that begins one, and for any other text its number of characters.
pub fn scan(alloc: Global, text: &str) -> Result<Piece, ScanFault>
    ensures scanned { IfOk result (IsAppScanned text.now) }
    ensures fault { IfErr result (IsAppScanFault text.now) }
{
    scan_tree(alloc, &negotiation(), text)
}
