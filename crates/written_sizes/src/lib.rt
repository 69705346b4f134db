//! How many entries the schedules of a post's replies have: they alone make a reply long. The one law is a function that does nothing: its
//! contract is the law.
//!
//! Proved: `posts_give_one_entry`, on which stands that the replies of a post fit in 1,024 bytes (`iso_table_laws`, `din_table_laws`).
#![tactic(auto)]

ghost use Rattle.written_sizes.specs.Entries.{RepliesAreBrief, WaitingIsBrief};

/// In a reply of a post no schedule tuple has more than one entry: neither in that to a request nor in that to PowerDelivery Start which
/// waited for the contactor.
pub fn posts_give_one_entry()
    ensures replies { RepliesAreBrief }
    ensures waiting { WaitingIsBrief }
{}
