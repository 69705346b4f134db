//! The bytes that came: what of a stream was not read yet (ISO 15118-2:2014, section 7.8.3), and those of the newest hearing. Each takes
//! its memory once, when it is made.
//!
//! Proved: `Unread`: the bytes of a stream that weren't read yet, those of a piece behind them (`feed`), and without the frame at the front
//! once that was read (`pass`, `behind_front`); `NewestPiece`: the bytes of the newest hearing; each in memory that is taken once.
#![tactic(auto)]

mod piece;
mod unread;

pub use piece::{NewestPiece, PIECE};
pub use std::alloc::AllocError as NoMemory;
pub use unread::Unread;
