//! Parts that hold what is declared, and laws: a message whose parts fit has an encoding. Each of these functions does nothing: its
//! contract is the law.
//!
//! Proved: `parts_hold_what_is_declared`: what fits part by part holds what its kind says, so a root of such parts is a tree of the schema,
//! for any schema; `trees_have_few_texts`: where a schema passes a computed test, no tree of it has more than 8,192 texts.
#![tactic(auto)]

pub mod laws;
