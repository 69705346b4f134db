//! Runs replayed by the program.
//!
//! A run is replayed once more with a trace that takes one line alone: that is a front of what the whole replay wrote.

use crate::fronts::is_front;
use crate::runs::recorded::Run;
use anyhow::Result;
use charge_world::MemoryWire;
use plain_run::{Failing, Left, Status, left_by};
use std::alloc::Global;

/// Whether a run comes out as it was recorded.
pub(crate) fn is_as_recorded(alloc: Global, run: &Run) -> Result<bool> {
    let (plan, trace) = (run.plan.as_str(), run.trace.as_str());
    let left = replayed(alloc, plan, trace, Vec::new(alloc))?;
    let cut = replayed(alloc, plan, trace, vec![in alloc; 2]?)?;
    let is_same = if run.wanted.is_empty() {
        is_told_so(alloc, trace, &left)? && left.trace.bytes() == trace.as_bytes()
    } else {
        is_wanted(alloc, run, &left)?
    };
    Ok(is_same && is_front(&left, &cut))
}

/// Whether a trace is written anew as it is, which is so exactly where it is that of a run of the plan.
pub(crate) fn is_run(alloc: Global, plan: &str, trace: &str) -> Result<bool> {
    let left = replayed(alloc, plan, trace, Vec::new(alloc))?;
    Ok(left.status == Status::Done && left.trace.bytes() == trace.as_bytes())
}

/// Whether the line tells that a trace was written anew.
fn is_told_so(alloc: Global, trace: &str, left: &Left) -> Result<bool> {
    let lines = trace.lines().count();
    let front = format!(in alloc; "lines {lines} ended ")?;
    Ok(left.status == Status::Done && left.out.bytes().starts_with(front.as_bytes()))
}

/// Whether the status and the line are those that a run wants.
pub(crate) fn is_wanted(alloc: Global, run: &Run, left: &Left) -> Result<bool> {
    let status = left.status.number();
    let line = str::from_utf8(left.out.bytes())?;
    Ok(format!(in alloc; "{status}\n{line}")? == run.wanted)
}

/// Replays a trace under a plan. The writes of these numbers on the new one fail.
fn replayed(alloc: Global, plan: &str, recorded: &str, trace: Vec<u32>) -> Result<Left> {
    let failing = Failing {
        trace,
        ..Failing::none(alloc)
    };
    left_over(alloc, "replay", plan, recorded, failing)
}

/// What a command leaves over a plan and a trace.
pub(crate) fn left_over(
    alloc: Global,
    command: &str,
    plan: &str,
    recorded: &str,
    failing: Failing,
) -> Result<Left> {
    let words = [command, "plan", "recorded"];
    let files = [("plan", plan.as_bytes()), ("recorded", recorded.as_bytes())];
    let mut wire = MemoryWire::make(alloc, Vec::new(alloc), Vec::new(alloc), 0, 0)?;
    Ok(left_by(alloc, &words, &files, failing, &mut wire)?)
}
