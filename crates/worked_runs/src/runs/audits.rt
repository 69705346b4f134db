//! Traces judged by the program.
//!
//! A trace whose verdict is recorded is judged once more with an output that fails, which is left empty.

use crate::runs::recorded::Run;
use crate::runs::replays::{is_wanted, left_over};
use anyhow::Result;
use plain_run::{Failing, Left, Status};
use std::alloc::Global;

/// Whether the audit of a run comes to what the run wants, and writes no trace.
pub(crate) fn is_as_audited(alloc: Global, run: &Run) -> Result<bool> {
    let left = audited(alloc, run, Vec::new(alloc))?;
    let mute = audited(alloc, run, vec![in alloc; 1]?)?;
    Ok(is_wanted(alloc, run, &left)? && left.trace.bytes().is_empty() && is_mute(&left, &mute))
}

/// Whether no check of a run fails.
pub(crate) fn is_passed(alloc: Global, run: &Run) -> Result<bool> {
    let left = audited(alloc, run, Vec::new(alloc))?;
    let lines = run.trace.as_str().lines().count();
    let line = format!(in alloc; "audit ok lines {lines}\n")?;
    Ok(left.status == Status::Done && left.out.bytes() == line.as_bytes())
}

/// Whether an audit whose output failed says so where it had a verdict, and else the same, and left the output empty.
fn is_mute(left: &Left, mute: &Left) -> bool {
    let wanted = match left.status {
        Status::Done | Status::AuditNo => Status::SinkFault,
        other => other,
    };
    mute.status == wanted && mute.out.bytes().is_empty()
}

/// What the audit of a run leaves. The writes of these numbers on its output fail.
fn audited(alloc: Global, run: &Run, out: Vec<u32>) -> Result<Left> {
    let failing = Failing {
        out,
        ..Failing::none(alloc)
    };
    left_over(
        alloc,
        "audit",
        run.plan.as_str(),
        run.trace.as_str(),
        failing,
    )
}
