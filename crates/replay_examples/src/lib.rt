//! Worked examples of traces that are read and replayed, as tests.
#![tactic(auto)]

#[cfg(test)]
mod reading;
#[cfg(test)]
mod replaying;
