//! The declarations of a dialect as tables.

ghost use Rattle.std.specs.Prelude.{◌≡◌, IfOk};
ghost use Rattle.exi_schema.specs.Told.{schema_of};
ghost use Rattle.message_dialects.specs.Dialects.{declarations, dialect_of};

use crate::dialect::MessageDialect;
use app_schema::negotiation;
use din_schema::DinSchema;
use exi_schema::Schema;
use iso_schema::IsoSchema;
use std::alloc::{AllocError, Global};

/// The declarations of a dialect, in memory where they are many.
#[derive(Drop)]
pub enum DialectTables {
    App,
    Iso(IsoSchema),
    Din(DinSchema),
}

impl DialectTables {
    /// Those of a dialect.
    pub fn make(alloc: Global, dialect: MessageDialect) -> Result<DialectTables, AllocError>
        ensures { IfOk result (λ tables. dialect_of tables ≡ dialect) }
    {
        match dialect {
            MessageDialect::App => Ok(DialectTables::App),
            MessageDialect::Iso => Ok(DialectTables::Iso(IsoSchema::make(alloc)?)),
            MessageDialect::Din => Ok(DialectTables::Din(DinSchema::make(alloc)?)),
        }
    }

    /// The schema that they tell.
    pub fn schema(&self) -> Schema<'_>
        ensures { schema_of result ≡ declarations (dialect_of self.now) }
    {
        match self {
            DialectTables::App => negotiation(),
            DialectTables::Iso(tables) => tables.schema(),
            DialectTables::Din(tables) => tables.schema(),
        }
    }
}
