//! Recorded runs of a station, and changes of them, by their replay.
//!
//! A run is the lines of its plan, each behind `p `, then the lines of its trace, each behind `t `, and then a line that names it. Its replay
//! writes that trace anew, as many lines as it has. One with a line of what the site did left out, doubled, altered or moved by one place is
//! the trace of no run, so it isn't written anew as it is: so every so manieth of these lines is changed. No check of its audit fails.
//!
//! Another, as a damaged one, has besides, each behind `w `, the status of its replay and the line that is printed. It is replayed alone. In a file of
//! audits it is the status of its audit, with that line.

mod audits;
mod changes;
mod recorded;
mod replays;

use crate::counts::Counts;
use crate::runs::audits::{is_as_audited, is_passed};
use crate::runs::changes::{Change, changed, places_of};
use crate::runs::recorded::Run;
use crate::runs::replays::{is_as_recorded, is_run};
use anyhow::Result;
use row_texts::count;
use std::alloc::Global;

/// Of so many lines of what the site did one is changed.
const STEP: usize = 40;

/// Judges each run of a text.
pub(crate) fn counts_of(rt: &impl Print, alloc: Global, text: &str) -> Result<Counts> {
    let mut counts = Counts {
        changes: Some(0),
        ..Counts::default()
    };
    let mut run = Run::new(alloc);
    for line in text.lines() {
        if !run.take_line(line)? {
            settle(rt, alloc, &run, line, &mut counts)?;
            if run.wanted.is_empty() {
                settle_changes(rt, alloc, &run, line, &mut counts)?;
            }
            run = Run::new(alloc);
        }
    }
    Ok(counts)
}

/// Judges the audit of each run of a text.
pub(crate) fn audits_of(rt: &impl Print, alloc: Global, text: &str) -> Result<Counts> {
    let mut counts = Counts::default();
    let mut run = Run::new(alloc);
    for line in text.lines() {
        if !run.take_line(line)? {
            let is_right = is_as_audited(alloc, &run)?;
            tally(rt, is_right, line, &mut counts)?;
            run = Run::new(alloc);
        }
    }
    Ok(counts)
}

/// Counts a run of this name, which came out right, or didn't.
fn tally(rt: &impl Print, is_right: bool, name: &str, counts: &mut Counts) -> Result<()> {
    count(&mut counts.all);
    if !is_right {
        count(&mut counts.wrong);
        println!(rt; "{name} comes out otherwise")?;
    }
    Ok(())
}

/// Judges a run of this name.
fn settle(
    rt: &impl Print,
    alloc: Global,
    run: &Run,
    name: &str,
    counts: &mut Counts,
) -> Result<()> {
    let is_right = is_as_recorded(alloc, run)?
        && (!run.wanted.is_empty() || is_passed(alloc, run)?);
    tally(rt, is_right, name, counts)
}

/// Judges changes of a run of this name.
fn settle_changes(
    rt: &impl Print,
    alloc: Global,
    run: &Run,
    name: &str,
    counts: &mut Counts,
) -> Result<()> {
    let lines: Vec<&str> = run.trace.lines().collect(alloc)?;
    let mut changes = counts.changes.unwrap_or(0);
    for place in places_of(alloc, lines.as_slice(), STEP)? {
        for change in Change::ALL {
            let trace = changed(alloc, lines.as_slice(), place, change)?;
            count(&mut changes);
            if is_run(alloc, run.plan.as_str(), trace.as_str())? {
                count(&mut counts.wrong);
                println!(rt; "{name} is still a run, line {place} {change:?}")?;
            }
        }
    }
    counts.changes = Some(changes);
    Ok(())
}
