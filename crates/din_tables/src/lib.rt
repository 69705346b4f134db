//! What the messages of DIN SPEC 70121:2014 say as neutral words, as a table of each. The function does nothing: its contract is the law.
//!
//! Proved: `tables_fit`: of each of the 22 messages the table has no two rows of one name, each of its rows stands at an element that the
//! declarations have there, and what has to be there has a row.
#![tactic(auto)]

ghost use Rattle.std.specs.Prelude.{◌≡◌, nat_le, true, length};
ghost use Rattle.std.specs.List.{list_all};
ghost use Rattle.din_tables.specs.Words.{messages};

/// The tables of the 22 messages pass the tests of `word_tables` (no two rows of one name; each row as declared, and what is required),
/// and none of them has more than 20,000 bytes.
pub fn tables_fit()
    ensures all { length messages ≡ 22 }
    ensures pass { list_all (λ m. m.passes) messages ≡ true }
    ensures short { list_all (λ m. nat_le m.most_bits 160000) messages ≡ true }
{}
