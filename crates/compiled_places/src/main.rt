//! Holds the compiled rows of the negotiation, of ISO 15118-2, of DIN SPEC 70121 and of a schema of sets against their declarations: at each
//! place that an element comes to, both offer as many event codes, of the same width, and each code means the same.
#![tactic(auto)]

mod comparing;
mod dialects;
mod sets;

use crate::comparing::Comparison;
use anyhow::Result;
use std::process::ExitCode;

fn main(rt: HostRuntime) -> Result<ExitCode> {
    let app = dialects::compare_app(rt.alloc())?;
    let iso = dialects::compare_iso(rt.alloc())?;
    let din = dialects::compare_din(rt.alloc())?;
    let sets = sets::compare_sets(rt.alloc())?;
    for (name, comparison) in [("app", app), ("iso", iso), ("din", din), ("sets", sets)] {
        let Comparison {
            kinds,
            places,
            codes,
            differ,
        } = comparison;
        println!(rt; "{name}: {kinds} kinds, {places} places, {codes} codes, {differ} differ")?;
    }
    Ok(ExitCode::SUCCESS)
}
