//! What a car is told.

ghost use Rattle.std.specs.Prelude.{◌≡◌, ℕ, List};
ghost use Rattle.post_spec.specs.Sessions.{brought};
ghost use Rattle.post_spec.specs.Steps.{event_at};
ghost use Rattle.car_spec.specs.Steps as steps;
ghost use Rattle.evcc_machine.specs.Views.{event_of};

use charge_world::{Dialect, Order, PlantEvent, What};
use session_words::Reply;

/// What a hearing is for a car, beside its bytes.
#[derive(Clone, Copy)]
pub enum CarEvent {
    /// A connection began. The token names it.
    Came { token: u64 },
    /// Bytes came on the connection.
    Bytes,
    /// The connection ended.
    Gone,
    /// A datagram came.
    Datagram,
    /// The car told something of itself.
    Plant(PlantEvent),
    /// Time went on.
    Clock,
    /// Nothing more will be heard.
    Over,
}

impl CarEvent {
    /// What this is for the car. Its post is 1: what is heard at another one is a look at the clock.
    pub fn of(what: What) -> CarEvent
        ensures { (bytes : List ℕ) → event_of result bytes ≡ event_at 1 what bytes }
    {
        match what {
            What::Came { post, token } if post == 1 => CarEvent::Came { token },
            What::Bytes { post, n: _ } if post == 1 => CarEvent::Bytes,
            What::Gone { post } if post == 1 => CarEvent::Gone,
            What::Datagram { post, n: _ } if post == 1 => CarEvent::Datagram,
            What::Plant { post, event } if post == 1 => CarEvent::Plant(event),
            What::Over => CarEvent::Over,
            _ => CarEvent::Clock,
        }
    }
}

/// Whether somebody asked to stop since a connection came.
pub(crate) fn stop_heard(event: &CarEvent, stop: bool) -> bool
    ensures { (bytes : List ℕ) → result ≡ steps.stop_heard (event_of event.now bytes) stop }
{
    match event {
        CarEvent::Came { .. } => false,
        CarEvent::Plant(PlantEvent::StopAsked) => true,
        _ => stop,
    }
}

/// The bytes that came on the connection.
pub(crate) fn brought<'a>(event: &CarEvent, bytes: &'a [u8]) -> &'a [u8]
    ensures { result.now ≡ brought (event_of event.now bytes.now) }
{
    match event {
        CarEvent::Bytes => bytes,
        _ => &bytes[..0],
    }
}

/// What was done of what the car asked for.
#[derive(Clone, Copy)]
pub enum Done {
    /// A post was dialed.
    Dialed,
    /// This order was given to the car's contactor.
    Gave(Order),
    /// The offer or the request was sent.
    Said,
    /// The car ended.
    Ended,
    /// A datagram asked for a post.
    Sought,
}

/// What a payload is judged as.
#[derive(Drop)]
pub enum Judged {
    /// A response of the negotiation, with the dialect whose offer it names.
    Chosen(Option<Dialect>),
    /// A reply of the session's dialect.
    Told(Reply),
    /// Another message, which a post never sends.
    WrongSide,
    /// No message.
    Refused,
}
