//! A run of a station is a list of blocks: a hearing, and then the answers of each post in order of number.
//!
//! Proved: for any codecs, `runs_are_blocks` (a past whose posts rest is a run exactly where it is a list of blocks: each a hearing and
//! then, for every post in order of number, its whole answers in three parts, an Open repeated, the deadline, what the event asks for and
//! the words; a lost hearing begins none; any other run is whole blocks and one in which the posts up to some one have answered, and that one
//! has done whole parts in order and some of the next; so whole runs and cut ones, with the orders that close them).
#![tactic(auto)]

ghost use Rattle.post_spec.specs.Codecs.{codecs};
ghost use Rattle.blocks_of_runs.specs.CutRuns.{RunsAreBlocks};

use post_spec::Coded;

/// What holds entry by entry holds block by block, and the other way round: each post answers a hearing in three parts, whole, before
/// the next post does, and all posts before anything else is heard. So it is of whole runs and of those that are cut, with the orders
/// that close them.
pub fn runs_are_blocks<C: Coded>()
    ensures { RunsAreBlocks (codecs C.negotiates C.reads C.encodes) }
{}
