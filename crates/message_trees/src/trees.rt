//! The text of a payload, and the payload of a text.

ghost use Rattle.std.specs.Prelude.{◌≤◌, length, IfOk, IfErr};
ghost use Rattle.std.specs.String.{string_bytes};
ghost use Rattle.tree_text.specs.Printing.{IsFaultOf};
ghost use Rattle.tree_text.specs.Scans.{IsScanFault};
ghost use Rattle.message_dialects.specs.Dialects.{declarations};
ghost use Rattle.message_trees.specs.Texts.{IsPrinted, IsScanned};

use message_dialects::{DialectTables, MessageDialect};
use std::alloc::Global;
use tree_text::{Piece, PrintFault, ScanFault, print_tree, scan_tree};

/// Prints the tree that a payload of at most 65,536 bytes spells in a dialect, as `supportedAppProtocolRes{ResponseCode=..}` or
/// `V2G_Message{Header{..} Body{..}}`.
///
/// `Refused` exactly where the payload spells no tree, with the cause and the bit of the first item that can't be taken.
pub fn print_payload(
    alloc: Global,
    dialect: MessageDialect,
    payload: &[u8],
) -> Result<String, PrintFault>
    requires { length payload.now ≤ 65536 }
    ensures printed { IfOk result (λ text. IsPrinted dialect payload.now (string_bytes text)) }
    ensures fault { IfErr result (IsFaultOf (declarations dialect) payload.now) }
{
    let tables = DialectTables::make(alloc, dialect)?;
    print_tree(alloc, &tables.schema(), payload)
}

/// Scans the text of a tree of a dialect, and gives the one payload that is written for the tree, of at most 65,536 bytes.
///
/// `Place` exactly where there is none. For a text that is none of the dialect it tells how many characters the longest front has that
/// begins one, and for any other text its number of characters.
pub fn scan_text(alloc: Global, dialect: MessageDialect, text: &str) -> Result<Piece, ScanFault>
    ensures scanned { IfOk result (IsScanned dialect text.now) }
    ensures fault { IfErr result (IsScanFault (declarations dialect) text.now) }
{
    let tables = DialectTables::make(alloc, dialect)?;
    scan_tree(alloc, &tables.schema(), text)
}
