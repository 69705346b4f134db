//! The declarations of DIN SPEC 70121 as compiled rows.

use charge_world::NoMemory;
use din_schema::DinSchema;
use exi_tables::{Declared, Rows, compile};
use std::alloc::Global;

/// The declarations of DIN SPEC 70121.
#[derive(Drop)]
pub(crate) struct Din;

impl Declared for Din {
    ghost use Rattle.din_schema.specs.Declarations.{schema};

    ghost schema = { schema };
}

/// What the codec knows of each place of a message: made once, and lent to each call.
#[derive(Drop)]
pub struct DinTables {
    pub(crate) rows: Rows<Din>,
}

impl DinTables {
    /// The tables, for which memory is taken here and nowhere else.
    pub fn make(alloc: Global) -> Result<DinTables, NoMemory> {
        let declarations = DinSchema::make(alloc)?;
        let rows = compile(alloc, &declarations.schema())?;
        Ok(DinTables { rows })
    }
}
