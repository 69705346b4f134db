//! Tests of the public calls that a post is made of: frames and discovery, words, deadlines, contactor and pilot, the rules of a session,
//! shares of power, and a simulated charger. They stand here so that the crates whose calls they are are proved once, as tables of cases,
//! since a test is proved call by call.
#![tactic(auto)]

#[cfg(test)]
mod cases;
#[cfg(test)]
mod contactors;
#[cfg(test)]
mod discovery;
#[cfg(test)]
mod frames;
#[cfg(test)]
mod pilot;
#[cfg(test)]
mod rules;
#[cfg(test)]
mod shares;
#[cfg(test)]
mod simulator;
#[cfg(test)]
mod timers;
#[cfg(test)]
mod words;
