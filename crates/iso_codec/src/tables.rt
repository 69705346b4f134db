//! The declarations of ISO 15118-2 as compiled rows.

use charge_world::NoMemory;
use exi_tables::{Declared, Rows, compile};
use iso_schema::IsoSchema;
use std::alloc::Global;

/// The declarations of ISO 15118-2.
#[derive(Drop)]
pub(crate) struct Iso;

impl Declared for Iso {
    ghost use Rattle.iso_schema.specs.Declarations.{schema};

    ghost schema = { schema };
}

/// What the codec knows of each place of a message: made once, and lent to each call.
#[derive(Drop)]
pub struct IsoTables {
    pub(crate) rows: Rows<Iso>,
}

impl IsoTables {
    /// The tables, for which memory is taken here and nowhere else.
    pub fn make(alloc: Global) -> Result<IsoTables, NoMemory> {
        let declarations = IsoSchema::make(alloc)?;
        let rows = compile(alloc, &declarations.schema())?;
        Ok(IsoTables { rows })
    }
}
