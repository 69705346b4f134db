//! Laws of the tables of ISO 15118-2:2014: what a payload means as a neutral word, and what is written for a word. Each of these functions
//! does nothing: its contract is the law.
//!
//! Proved: `payloads_have_words`: a payload reads as one word at most; what is written for a word reads as that word, but for the watts that
//! are dropped; it can be written, and is short; where no schedule has more than one entry, a room of 1,024 bytes holds it.
#![tactic(auto)]

ghost use Rattle.message_tables.specs.Laws.{ReadsAsOne, ReadsBack, IsSpelled, IsShort, FitsRoom};
ghost use Rattle.iso_table_laws.specs.Laws.{dialect};

/// A payload reads as one word at most. What is written for a word that can be spelled reads as that word, but for watts that are dropped;
/// it can be written, and has no more than 320 bytes, or 1,024 with a profile and 20,480 with schedules. Where no schedule has more than one
/// entry, its bits are no more than 1,024 bytes hold.
pub fn payloads_have_words()
    ensures one { ReadsAsOne dialect }
    ensures back { ReadsBack dialect }
    ensures spelled { IsSpelled dialect }
    ensures short { IsShort dialect }
    ensures room { FitsRoom dialect }
{}
