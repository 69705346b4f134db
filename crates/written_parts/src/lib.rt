//! What is written of a word, in either dialect, is within what is declared: its amounts, texts and bytes, and parts of elements. Lemmas
//! alone.
//!
//! Proved: lemmas, on which the laws of messages stand (`iso_table_laws`, `din_table_laws`, `schedule_answers`).
#![tactic(auto)]
