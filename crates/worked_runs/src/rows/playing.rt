//! A run of the program with the outside in memory.

use crate::rows::given::{files_in, sink_in, wire_in, words_in};
use crate::rows::left::Left;
use anyhow::Result;
use charge_world::{Entry, MemorySink, MemoryWire, Order};
use plain_run::{Status, run};
use row_texts::add_line;
use std::alloc::Global;
use std::fmt::Write;

/// What a run leaves to which these lines of a row are given.
pub(crate) fn left_by(alloc: Global, lines: &str) -> Result<Left> {
    let words = words_in(alloc, lines)?;
    let mut files = files_in(alloc, lines)?;
    let mut out = sink_in(alloc, lines, "fails out ")?;
    let mut trace = sink_in(alloc, lines, "fails trace ")?;
    let mut wire = wire_in(alloc, lines)?;
    let status = run(alloc, &words, &mut files, &mut out, &mut trace, &mut wire);
    left_in(alloc, status, &out, &trace, &wire)
}

/// What is left in these.
fn left_in(
    alloc: Global,
    status: Status,
    out: &MemorySink,
    trace: &MemorySink,
    wire: &MemoryWire,
) -> Result<Left> {
    let entries = wire.entries(alloc)?;
    Ok(Left {
        trace: text_of(alloc, trace.bytes())?,
        out: text_of(alloc, out.bytes())?,
        untils: lines_of(alloc, wire.untils())?,
        driven: orders_of(alloc, entries.as_slice())?,
        status: u32::from(status.number()),
    })
}

/// The text of these bytes.
fn text_of(alloc: Global, bytes: &[u8]) -> Result<String> {
    Ok(String::from_str(alloc, str::from_utf8(bytes)?)?)
}

/// A line for each number.
fn lines_of(alloc: Global, numbers: &[u64]) -> Result<String> {
    let mut lines = String::new(alloc);
    for number in numbers {
        writeln!(lines, "{number}")?;
    }
    Ok(lines)
}

/// A line for each order that was driven.
fn orders_of(alloc: Global, entries: &[Entry]) -> Result<String> {
    let mut lines = String::new(alloc);
    for entry in entries {
        if let Entry::Drove { order, .. } = entry {
            add_line(&mut lines, name_of(order))?;
        }
    }
    Ok(lines)
}

fn name_of(order: &Order) -> &'static str {
    match order {
        Order::Open => "open",
        Order::Close => "close",
        Order::Limits { .. } => "limits",
    }
}
