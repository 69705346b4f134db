//! What a post is told.

use arrayvec::ArrayVec;
use charge_world::{Dialect, Order, PlantEvent};
use session_words::Request;

/// What a hearing is for one post, beside its bytes: one at another post is a look at the clock.
#[derive(Clone, Copy)]
pub enum PostEvent {
    /// A connection began. The token names it.
    Came { token: u64 },
    /// Bytes came on the connection.
    Bytes,
    /// The connection ended.
    Gone,
    /// A datagram came.
    Datagram,
    /// The charger told something.
    Plant(PlantEvent),
    /// Time went on.
    Clock,
    /// Nothing more will be heard.
    Over,
}

/// What was done of what the post asked for.
#[derive(Clone, Copy)]
pub enum Done {
    /// This order was given.
    Gave(Order),
    /// The reply was sent.
    Sent,
    /// The datagram was answered.
    Answered,
    /// The session was ended.
    Ended,
}

/// What a payload is judged as.
#[derive(Drop)]
pub enum Judged {
    /// A request of the negotiation, with the dialect that is chosen for it and the payload that answers it.
    Negotiated {
        chosen: Option<Dialect>,
        response: ArrayVec<u8, 4>,
    },
    /// A request of the session's dialect.
    Asked(Request),
    /// Another message, which a car never sends.
    WrongSide,
    /// No message.
    Refused,
}
