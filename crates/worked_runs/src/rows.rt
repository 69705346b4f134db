//! Worked rows.
//!
//! A row begins with `row NAME`. Then come, in this order or any other:
//! - `words W W ..`: words of the command; `word TEXT`: one word more, with the spaces in it;
//! - `plan LINE`: a line of the file `plan`; `recorded LINE`: one of the file `recorded`;
//! - `fails wire N`: the N-th of all calls of the wire that can fail fails, counted from 1 with `start`. Likewise `fails files N` of the
//!   calls on files, and `fails out N` and `fails trace N` of the writes there;
//! - a line of a trace (`v2g-trace 2`, or one with its number): what is written on the trace, all of it in order. What is `heard` there is
//!   what the wire brings;
//! - `unheard ..`: what the wire would bring next, as a trace says it without a number, where it isn't written on the trace;
//! - `until N`: until when a hearing waits, all of them in order where one is told;
//! - `driven ORDER`: `open`, `close` or `limits`, an order that was driven, all of them in order where one is told;
//! - `out LINE`: a line of the output, all of them in order; `status N`: the exit status.
//! A line that begins with `#` says something to the reader.

mod given;
mod left;
mod playing;

use crate::counts::Counts;
use crate::rows::left::Left;
use crate::rows::playing::left_by;
use anyhow::Result;
use row_texts::{add_line, count};
use std::alloc::Global;

/// Runs each row of a text.
pub(crate) fn counts_of(rt: &impl Print, alloc: Global, text: &str) -> Result<Counts> {
    let mut counts = Counts::default();
    let mut row = String::new(alloc);
    for line in text.lines() {
        if line.starts_with("row ") {
            settle(rt, alloc, row.as_str(), &mut counts)?;
            row.clear();
        }
        add_line(&mut row, line)?;
    }
    settle(rt, alloc, row.as_str(), &mut counts)?;
    Ok(counts)
}

/// Runs a row, if it is one and not what stands before the first, and counts it. One that goes otherwise is printed.
fn settle(rt: &impl Print, alloc: Global, row: &str, counts: &mut Counts) -> Result<()> {
    let Some((name, lines)) = row.split_once('\n') else {
        return Ok(());
    };
    if !name.starts_with("row ") {
        return Ok(());
    }
    count(&mut counts.all);
    let left = left_by(alloc, lines)?;
    let wanted = Left::told(alloc, lines)?;
    if !left.is_as(&wanted) {
        count(&mut counts.wrong);
        println!(rt; "{name} left\n{left}in place of\n{wanted}")?;
    }
    Ok(())
}
