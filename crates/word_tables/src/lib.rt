//! What stands where in an element, as a table: what is read of the element and what is written for a value are both said by it.
//!
//! Proved: lemmas on any table: where it passes a computed test, what it writes reads back (`inside_back`); where it fits what is declared,
//! which is computed too, what it writes of a value within the declared datatypes holds what is declared (`table_holds`), and has no more
//! bits than are computed (`table_small`). `lamp_is_said_by_a_table`: an example, and tables that the tests refuse.
#![tactic(auto)]

ghost use Rattle.std.specs.Prelude.{◌≡◌, ◌∷◌, [], true, false, pos, codes};
ghost use Rattle.exi_documents.specs.Trees.{Truth, Number, Text, none, simple};
ghost use Rattle.tree_words.specs.Contents.{Holding};
ghost use Rattle.word_tables.specs.Tables.{is_apart, read, written};
ghost use Rattle.word_tables.specs.Fitting.{fits, bits};
ghost use Rattle.word_tables.specs.Examples.{kinds, lamp, hall, nameless, named_by_hours, named_twice, without_hours, with_another, shining_by_hours, shining_twice, hours_first, many_hours};

/// An example: the table of a lamp passes the tests, writes one, reads it, and has so many bits at most where no code has more than three.
/// The tests refuse tables with two rows of one name, without something that has to be there, and with a row that isn't declared so.
pub fn lamp_is_said_by_a_table()
    ensures apart { is_apart lamp ≡ true }
    ensures fits { fits kinds lamp 3 ≡ true }
    ensures written { written lamp hall ≡ Holding ((0, Text (codes "Hall")) ∷ []) (simple 1 (Truth true) (simple 3 (Number (pos 7)) (simple 3 (Number (pos 9)) none))) }
    ensures read { read lamp (written lamp hall) ≡ hall }
    ensures bits { bits 3 kinds lamp ≡ 1197 }
    ensures shining_twice { is_apart shining_twice ≡ false }
    ensures named_twice { is_apart named_twice ≡ false }
    ensures nameless { fits kinds nameless 3 ≡ false }
    ensures without_hours { fits kinds without_hours 3 ≡ false }
    ensures another { fits kinds with_another 3 ≡ false }
    ensures another_kind { fits kinds shining_by_hours 3 ≡ false }
    ensures another_kind_of_name { fits kinds named_by_hours 3 ≡ false }
    ensures another_order { fits kinds hours_first 3 ≡ false }
    ensures too_many { fits kinds many_hours 3 ≡ false }
{}
