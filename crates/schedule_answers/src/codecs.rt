//! The codec of ISO 15118-2, ready for a payload.

ghost use Rattle.std.specs.Prelude.{◌≡◌, IfOk};
ghost use Rattle.exi_documents.specs.Values.{most_entries};

use charge_world::NoMemory;
use exi_documents::MOST_ENTRIES;
use exi_events::Table;
use iso_codec::IsoTables;
use std::alloc::Global;

/// The codec and its string table.
pub fn codec(alloc: Global) -> Result<(IsoTables, Table), NoMemory>
    ensures { IfOk result (λ codec. codec.1.cap ≡ most_entries) }
{
    let tables = IsoTables::make(alloc)?;
    let table = Table::make(alloc, MOST_ENTRIES)?;
    Ok((tables, table))
}
