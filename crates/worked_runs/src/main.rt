//! Does what the program does over worked rows, vectors of its commands and recorded runs, with the outside in memory, and counts what comes out as
//! the files say. What comes otherwise is printed.
//!
//! Each word is `rows=FILE`, `vectors=FILE`, `runs=FILE` or `audits=FILE`.
#![tactic(auto)]

mod counts;
mod fronts;
mod rows;
mod runs;
mod vectors;

use crate::counts::Counts;
use anyhow::{Context, Result, bail};
use row_texts::code_of;
use std::alloc::Global;
use std::process::ExitCode;
use std::{env, fs};

fn main(rt: HostRuntime) -> Result<ExitCode> {
    let mut wrong = 0_u64;
    for word in env::args(&rt)?.skip(1) {
        let (kind, file) = word.as_str().split_once('=').context("no file")?;
        let text = fs::read_to_string(&rt, file)?;
        let counts = counts_of(&rt, rt.alloc(), kind, text.as_str())?;
        println!(rt; "{file} {kind} {counts}")?;
        wrong = wrong.saturating_add(counts.wrong);
    }
    Ok(code_of(wrong))
}

/// Judges a file of this kind.
fn counts_of(rt: &impl Print, alloc: Global, kind: &str, text: &str) -> Result<Counts> {
    match kind {
        "rows" => rows::counts_of(rt, alloc, text),
        "vectors" => vectors::counts_of(rt, alloc, text),
        "runs" => runs::counts_of(rt, alloc, text),
        "audits" => runs::audits_of(rt, alloc, text),
        _ => bail!("no kind of file"),
    }
}
