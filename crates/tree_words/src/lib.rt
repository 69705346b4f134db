//! What stands where in a tree, by the names of its elements, and that it is what the parts of a message say. Definitions and lemmas alone.
//!
//! Proved: definitions and lemmas, on which `word_tables` stands.
#![tactic(auto)]
