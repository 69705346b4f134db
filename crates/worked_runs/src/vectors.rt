//! Vectors of the commands of one file, and of pairs that talk.
//!
//! A vector is a line `=== offer MOMENT`, `=== schedule HEX`, `=== services ID`, `=== pick HEX`, `=== basic`, `=== migrate`, `=== talk SEED` or
//! `=== generate SEED COUNT`, the text of the calendar, of the need, of the catalogue, what is wanted, alone on a line, the text of the script, of the trace,
//! of the station's plan and behind a line `+++` of the car's, or none, a line `--- STATUS`, what is printed, and the trace that is written. Each is run once
//! more with an output that fails, which leaves it empty, and with a trace that takes two pieces alone.

use crate::counts::Counts;
use crate::fronts::is_front;
use anyhow::{Context, Result};
use charge_world::MemoryWire;
use plain_run::{Failing, Left, left_by};
use row_texts::count;
use std::alloc::Global;

/// Runs each vector of a text.
pub(crate) fn counts_of(rt: &impl Print, alloc: Global, text: &str) -> Result<Counts> {
    let mut counts = Counts::default();
    for block in text.split("=== ").skip(1) {
        let (words, rest) = block.split_once("\n").context("a vector without a text")?;
        let (text, wanted) = rest
            .split_once("--- ")
            .context("a vector without an answer")?;
        count(&mut counts.all);
        settle(rt, alloc, words, text, wanted, &mut counts)?;
    }
    Ok(counts)
}

/// Runs a vector, and counts it where it comes out otherwise.
fn settle(
    rt: &impl Print,
    alloc: Global,
    words: &str,
    text: &str,
    wanted: &str,
    counts: &mut Counts,
) -> Result<()> {
    let left = answered(alloc, words, text, Failing::none(alloc))?;
    let said = told(alloc, &left)?;
    if said.as_str() != wanted || !is_cut_rightly(alloc, words, text, &left)? {
        count(&mut counts.wrong);
        println!(rt; "vector {} gives {said}", counts.all)?;
    }
    Ok(())
}

/// Whether a run whose output fails, and one whose trace does, leave what they should.
fn is_cut_rightly(alloc: Global, words: &str, text: &str, left: &Left) -> Result<bool> {
    let out = Failing {
        out: vec![in alloc; 1]?,
        ..Failing::none(alloc)
    };
    let trace = Failing {
        trace: vec![in alloc; 3]?,
        ..Failing::none(alloc)
    };
    let mute = answered(alloc, words, text, out)?;
    Ok(is_mute(left, &mute) && is_front_if_traced(left, &answered(alloc, words, text, trace)?))
}

/// Whether a run whose output failed has the status of that where it had something to print, and each other one its own, and left the output empty.
fn is_mute(left: &Left, mute: &Left) -> bool {
    let own = left.status.number();
    let status = mute.status.number();
    let is_silent = left.out.bytes().is_empty();
    let is_right = match own {
        0 if is_silent => status == 0 || status == 6,
        0 => status == 6,
        _ => status == own,
    };
    is_right && mute.out.bytes().is_empty()
}

/// Whether a run whose trace failed left a front of it, where there is one, and else the same.
fn is_front_if_traced(left: &Left, cut: &Left) -> bool {
    if left.trace.bytes().is_empty() {
        cut.status == left.status
    } else {
        is_front(left, cut)
    }
}

/// What a run leaves, as the vectors write it.
fn told(alloc: Global, left: &Left) -> Result<String> {
    let status = left.status.number();
    let printed = str::from_utf8(left.out.bytes())?;
    let traced = str::from_utf8(left.trace.bytes())?;
    Ok(format!(in alloc; "{status}\n{printed}{traced}")?)
}

/// What a run by the words of a vector leaves over its text.
fn answered(alloc: Global, words: &str, text: &str, failing: Failing) -> Result<Left> {
    let (command, word) = words.split_once(" ").unwrap_or((words, ""));
    let files = [("file", text.as_bytes())];
    let mut wire = MemoryWire::make(alloc, Vec::new(alloc), Vec::new(alloc), 0, 0)?;
    let left = match command {
        "pick" => {
            let words = [command, text.trim_end_matches('\n'), word];
            left_by(alloc, &words, &files, failing, &mut wire)?
        }
        "talk" => {
            let (station, car) = text.split_once("+++\n").context("a station without a car")?;
            let files = [("station", station.as_bytes()), ("car", car.as_bytes())];
            let words = [command, "station", "car", word];
            left_by(alloc, &words, &files, failing, &mut wire)?
        }
        "generate" => {
            let (seed, count) = word.split_once(" ").context("a seed without a count")?;
            left_by(alloc, &[command, seed, count], &files, failing, &mut wire)?
        }
        "basic" | "migrate" => left_by(alloc, &[command, "file"], &files, failing, &mut wire)?,
        _ => left_by(alloc, &[command, "file", word], &files, failing, &mut wire)?,
    };
    Ok(left)
}
