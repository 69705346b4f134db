//! The program: it makes the outside itself (the loopback network, files, standard output, the file `v2g.trace`), and does what its words
//! say. No socket is opened and no file is made before a command asks for it. What it says to a person goes to standard error.
#![tactic(auto)]

mod saying;

use crate::saying::{Outside, say};
use anyhow::Result;
use charge_run::{WordList, run};
use net_wire::{FileSource, NetWire, StandardOutput, TraceFile};
use std::env;
use std::process::ExitCode;
use told_wire::ToldWire;

/// The variable of the environment that silences what a station and a car say while they run.
const QUIET: &str = "V2G_QUIET";

fn main(rt: HostRuntime) -> Result<ExitCode> {
    let mut words = Vec::new(rt.alloc());
    for word in env::args(&rt)?.skip(1) {
        words.push(word)?;
    }
    let words = WordList::of(words);
    let quiet = env::var(&rt, QUIET).is_ok();
    let mut files = FileSource::new(&rt, rt.alloc());
    let mut out = StandardOutput::new(&rt);
    let mut trace = TraceFile::new(&rt, "v2g.trace");
    let mut wire = ToldWire::new(&rt, NetWire::stoppable(&rt, rt.alloc()), quiet);
    let status = run(
        rt.alloc(),
        &words,
        &mut files,
        &mut out,
        &mut trace,
        &mut wire,
    );
    let outside = Outside {
        files: &mut files,
        out: &out,
        trace: &trace,
        wire: &wire,
    };
    // who reads no standard error misses nothing
    let _ = say(&rt, status, &words, outside);
    Ok(ExitCode::from(status.number()))
}
