//! Examples that cross the crates: the fakes in memory, what the program's call does where a row of text would be too long, and the real outside over
//! the loopback network, where a client and the program's call are on one thread, each with its turn. Each test takes ports that are free
//! when it begins, and ends by itself.
//!
//! Proved: `event` and `came` make the event of a script that their names say; `Ticking` keeps the promises of `Wire`, hears a tick at each
//! hearing and counts it, and fails no call.
#![tactic(auto)]

#[cfg(test)]
mod client;
pub mod events;
#[cfg(test)]
mod fakes;
#[cfg(test)]
mod files;
#[cfg(test)]
mod free;
#[cfg(test)]
mod runs;
#[cfg(test)]
mod scene;
pub mod ticking;
#[cfg(test)]
mod turns;
#[cfg(test)]
mod visited;
#[cfg(test)]
mod wires;
