//! The declarations of each dialect, and their rows.

use crate::comparing::{Comparison, compare};
use anyhow::Result;
use app_schema::negotiation;
use din_schema::DinSchema;
use exi_tables::{Declared, compile};
use iso_schema::IsoSchema;
use std::alloc::Global;

/// The declarations of the negotiation.
struct App;

impl Declared for App {
    ghost use Rattle.app_schema.specs.Declarations.{negotiation_schema};

    ghost schema = { negotiation_schema };
}

/// The declarations of ISO 15118-2.
struct Iso;

impl Declared for Iso {
    ghost use Rattle.iso_schema.specs.Declarations.{schema};

    ghost schema = { schema };
}

/// The declarations of DIN SPEC 70121.
struct Din;

impl Declared for Din {
    ghost use Rattle.din_schema.specs.Declarations.{schema};

    ghost schema = { schema };
}

pub fn compare_app(alloc: Global) -> Result<Comparison> {
    let schema = negotiation();
    let rows = compile::<App>(alloc, &schema)?;
    Ok(compare(&schema, &rows))
}

pub fn compare_iso(alloc: Global) -> Result<Comparison> {
    let declarations = IsoSchema::make(alloc)?;
    let schema = declarations.schema();
    let rows = compile::<Iso>(alloc, &schema)?;
    Ok(compare(&schema, &rows))
}

pub fn compare_din(alloc: Global) -> Result<Comparison> {
    let declarations = DinSchema::make(alloc)?;
    let schema = declarations.schema();
    let rows = compile::<Din>(alloc, &schema)?;
    Ok(compare(&schema, &rows))
}
