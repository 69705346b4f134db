//! What a kind holds, as XML Schema says it, and laws: it is what documents spell, each such tree has an encoding, each state is completed.
//! Each of these functions does nothing: its contract is the law.
//!
//! Proved: what a kind holds, said as XML Schema says it (`FitsSchema`: children divided among the particles in order, attributes, values),
//! and laws for every schema: `kinds_and_documents` (the trees that have an encoding, that a payload spells and that the grammar tells are
//! those that hold what the schema says, of at most 8,192 different texts), `each_tree_is_encoded`, `each_state_is_completed` (what bits
//! lead to goes on to the end of a document, so the bits before the event at which a payload is refused begin one), `names_ascend` (what
//! the computed test of order means).
#![tactic(auto)]

pub mod laws;
