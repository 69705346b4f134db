//! The top call.

use charge_run::{Status, WordList};
use charge_world::{Sink, Source, Wire};
use std::alloc::Global;

/// Does all that the program does.
pub fn run<F: Source, K: Sink, J: Sink, W: Wire>(
    alloc: Global,
    words: &WordList,
    files: &mut F,
    out: &mut K,
    trace: &mut J,
    wire: &mut W,
) -> Status {
    charge_run::run(alloc, words, files, out, trace, wire)
}
