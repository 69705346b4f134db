//! Reads or writes a payload of ISO 15118-2 or of DIN SPEC 70121 so many times, and prints how often that was done. The clock stands
//! outside.
//!
//! The words are `read` or `write`, a dialect (`iso` or `din`), the number of rounds, and the name of a message, or `all`. A line of the
//! dialect's file is the name of a message and its payload.
#![tactic(auto)]

mod din;
mod iso;

use anyhow::{Context, Result, bail};
use exi_documents::MOST_ENTRIES;
use exi_events::Table;
use std::alloc::Global;
use std::process::ExitCode;
use std::{env, fs};

/// What is done with a payload.
#[derive(Clone, Copy)]
pub(crate) enum Task {
    Read,
    Write,
}

fn main(rt: HostRuntime) -> Result<ExitCode> {
    let mut words = env::args(&rt)?.skip(1);
    let task = task_named(words.next().context("no task")?.as_str())?;
    let dialect = words.next().context("no dialect")?;
    let rounds: u32 = words.next().context("no rounds")?.as_str().parse()?;
    let name = words.next().context("no message")?;
    let (file, is_iso) = file_of(dialect.as_str())?;
    let text = fs::read_to_string(&rt, file)?;
    let payloads = payloads_of(rt.alloc(), text.as_str(), name.as_str())?;
    let mut table = Table::make(rt.alloc(), MOST_ENTRIES)?;
    let count = if is_iso {
        iso::rounds(rt.alloc(), task, &payloads, &mut table, rounds)?
    } else {
        din::rounds(rt.alloc(), task, &payloads, &mut table, rounds)?
    };
    println!(rt; "payloads {count}")?;
    Ok(ExitCode::SUCCESS)
}

fn task_named(name: &str) -> Result<Task> {
    match name {
        "read" => Ok(Task::Read),
        "write" => Ok(Task::Write),
        _ => bail!("no task"),
    }
}

/// The file of a dialect, and whether it is that of ISO 15118-2.
fn file_of(name: &str) -> Result<(&'static str, bool)> {
    match name {
        "iso" => Ok(("iso.txt", true)),
        "din" => Ok(("din.txt", false)),
        _ => bail!("no dialect"),
    }
}

/// The payloads of the messages of this name, or of all.
fn payloads_of(alloc: Global, text: &str, name: &str) -> Result<Vec<Vec<u8>>> {
    let mut payloads = Vec::new(alloc);
    for line in text.lines() {
        let (message, hex) = line.split_once(' ').context("a line of one word")?;
        if name == "all" || name == message {
            payloads.push(hex::decode(alloc, hex)?)?;
        }
    }
    Ok(payloads)
}
