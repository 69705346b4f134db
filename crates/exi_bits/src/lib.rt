//! Items of EXI at any bit of a payload (W3C EXI 1.0, Second Edition, 7.1): each is taken or refused exactly, and the shortest spelling is
//! written.
//!
//! Bits are numbered from 0, the highest bit of the first byte first. No call takes memory.
//!
//! Proved: `BitCursor`, `BitSpan`, `BitPen`: each item is taken or refused exactly, with its bit; a refusal leaves the cursor; what is
//! written is the shortest spelling; `Full` changes nothing. They go by octets, at any bit. `BitWindow`, as it is made, holds 57 to 64 of
//! the next bits, or all that are left (there is none where the payload has less than eight bytes). It takes small items from them, each as
//! a cursor does, or none: n bits (1 to 32) wherever it holds so many (`HoldsNext`); that `take_unsigned` and `take_integer` take anything
//! is not stated.
#![tactic(auto)]

mod contents;
mod cursor;
mod lengths;
mod lent;
mod octets;
mod pen;
mod room;
mod span;
mod window;

pub use contents::Contents;
pub use cursor::BitCursor;
pub use exi_spec::{BitCause, BitFault};
pub use lengths::{integer_bits, unsigned_bits};
pub use pen::{BitPen, Full};
pub use room::{begun_bytes, chars_bits};
pub use span::{BitSpan, SpanAt};
pub use window::BitWindow;
