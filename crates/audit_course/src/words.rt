//! The words of a session as whoever judges a record sees them.

use charge_world::Dialect;
use session_words::{Reply, Request};

/// The word that comes next.
#[derive(Drop)]
pub enum NextWord {
    /// A request of the negotiation, with the dialect that is chosen for it.
    Negotiation { chosen: Option<Dialect> },
    /// A request of the session's dialect.
    Asked { request: Request },
    /// Another message, which a car never sends.
    WrongSide,
    /// No message.
    Refused,
    /// A frame that is refused.
    BadFrame,
}

/// What bytes that were sent say to the first word that has no reply.
#[derive(Drop)]
pub enum Saying {
    /// The response to a negotiation, for which this dialect was chosen.
    Response {
        chosen: Option<Dialect>,
        positive: bool,
    },
    /// The reply to a request.
    Replied {
        request: Request,
        reply: Reply,
    },
    /// Something else.
    Other,
    /// There is no such word.
    Unasked,
}
