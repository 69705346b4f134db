//! What a wire over real sockets can decide over values alone: how the connections of its posts stand, which event it tells next of those
//! that are due, and what a read, a random token and a failure come to.
//!
//! Proved: `Board::step` tells Over, whose turn it is going round, a Tick, or how long nothing is due (`IsStep`); `accept`, `dial`,
//! `settle` and `close` do to a post's connection what their names say and count those that ended; `key_of` undoes `number_of`;
//! `Faults::fail` counts (`IsFault`); `StopLine::hear` answers where the line `stop` ends.
#![tactic(auto)]

mod board;
mod faults;
mod keys;
mod law;
mod seat;
mod stop_line;
mod told;

pub use board::{Board, Step};
pub use faults::Faults;
pub use keys::{Key, key_of, number_of};
pub use law::law_of_turns;
pub use seat::{Kind, Line, Seat, Socket};
pub use stop_line::StopLine;
pub use told::{piece_or_end, token_of};
