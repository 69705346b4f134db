//! What a wire's past is made of.

use crate::heard::Heard;
use crate::piece::Piece;
use crate::ports::Order;

/// One entry of a past: something heard, or one call that was made. `taken` is false where it failed.
#[derive(Drop)]
pub enum Entry {
    /// An event, with the bytes that came with it: none but for `Bytes` and `Datagram`.
    Heard { heard: Heard, bytes: Piece },
    /// The wire had nothing more to hear: its `next` failed.
    Lost,
    /// Bytes for the connection of a post.
    Sent { post: u8, bytes: Piece, taken: bool },
    /// A datagram, from the station to the sender of the post's last one, from the car to its discovery port.
    Answered { post: u8, bytes: Piece, taken: bool },
    /// An order to a charger or contactor.
    Drove { post: u8, order: Order, taken: bool },
    /// A connection that the car asked for.
    Dialed { port: u16, taken: bool },
    /// The session of a post ended, with the number of its cause.
    Ended { post: u8, cause: u8 },
}
