//! Worked examples of messages of ISO 15118-2:2014, as tests.
#![tactic(auto)]

#[cfg(test)]
mod refusals;
#[cfg(test)]
mod schedules;
#[cfg(test)]
mod setup;
