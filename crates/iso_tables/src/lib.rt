//! What the messages of ISO 15118-2:2014 say as neutral words, as a table of each. The function does nothing: its contract is the law.
//!
//! Proved: `tables_fit`: of each of the 26 messages the table has no two rows of one name, each of its rows stands at an element that the
//! declarations have there, and what has to be there has a row.
#![tactic(auto)]

ghost use Rattle.std.specs.Prelude.{◌≡◌, nat_le, true, length};
ghost use Rattle.std.specs.List.{list_all};
ghost use Rattle.iso_tables.specs.Words.{messages};

/// The tables of the 26 messages pass the tests of `word_tables` (no two rows of one name; each row as declared, and what is required),
/// and none of them has more than 25,000 bytes.
pub fn tables_fit()
    ensures all { length messages ≡ 26 }
    ensures pass { list_all (λ m. m.passes) messages ≡ true }
    ensures short { list_all (λ m. nat_le m.most_bits 200000) messages ≡ true }
{}
