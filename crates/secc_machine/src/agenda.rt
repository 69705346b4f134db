//! What is decided and not done yet.

ghost use Rattle.std.specs.Prelude.{◌≡◌, Some};
ghost use Rattle.std.specs.Option.{option_map};
ghost use Rattle.station_spec.specs.States.{Response, nothing, first, is_done};
ghost use Rattle.station_spec.specs.Deciding.{ending_by, repeating};
ghost use Rattle.secc_machine.specs.Views.{spoken_of, todo_of};

use arrayvec::ArrayVec;
use charge_world::{Dialect, Order};
use session_words::{EndCause, Reply, Standing};
use station_spec::opening_if;
use std::marker::Model;

/// What is sent: the response to a negotiation, as its payload, or a reply in the session's dialect.
#[derive(Drop)]
pub enum Spoken {
    Response(ArrayVec<u8, 4>),
    Said { dialect: Dialect, reply: Reply },
}

/// A thing to do.
#[derive(Drop)]
pub enum Todo<'a> {
    /// This datagram is sent to whoever sent the newest one.
    Tell([u8; 28]),
    /// This order is given to the charger.
    Give(Order),
    /// This is sent on the connection.
    Say(&'a Spoken),
    /// The session ends by this cause.
    Finish(EndCause),
}

/// What is decided and not done yet. It is done in this order: the datagram, the order, the reply, and then the
/// session ends.
#[derive(Drop)]
pub(crate) struct Agenda {
    pub(crate) datagram: Option<[u8; 28]>,
    pub(crate) order: Option<Order>,
    pub(crate) reply: Option<Spoken>,
    /// The session's cause, once it has one.
    pub(crate) ending: Option<EndCause>,
    /// What becomes the cause once the reply was taken.
    pub(crate) behind_reply: Option<EndCause>,
}

impl Model for Agenda {
    ghost use Rattle.std.specs.Option.{option_map};
    ghost use Rattle.station_spec.specs.States.{Agenda};
    ghost use Rattle.secc_machine.specs.Views.{spoken_of};

    ghost Value = { Agenda };

    ghost view = { λ a. record {
      datagram = a.datagram;
      order = a.order;
      reply = option_map spoken_of a.reply;
      ending = a.ending;
      behind_reply = a.behind_reply;
    } };
}

impl Agenda {
    /// Nothing.
    pub(crate) fn nothing() -> Agenda
        ensures { result ≡ nothing }
    {
        Agenda {
            datagram: None,
            order: None,
            reply: None,
            ending: None,
            behind_reply: None,
        }
    }

    /// The end of a session by a cause: Open first, where the contactor is live.
    pub(crate) fn ending_by(cause: EndCause, live: bool) -> Agenda
        ensures { result ≡ ending_by cause live }
    {
        Agenda {
            datagram: None,
            order: opening_if(live),
            reply: None,
            ending: Some(cause),
            behind_reply: None,
        }
    }

    /// A contactor whose last order failed is ordered open again.
    pub(crate) fn repeating(standing: Standing) -> Agenda
        ensures { result ≡ repeating standing }
    {
        let must = matches!(standing, Standing::MustOpen);
        Agenda {
            datagram: None,
            order: opening_if(must),
            reply: None,
            ending: None,
            behind_reply: None,
        }
    }

    /// A reply.
    pub(crate) fn saying(spoken: Spoken) -> Agenda
        ensures { result ≡ record nothing { reply = Some (spoken_of spoken) } }
    {
        Agenda {
            datagram: None,
            order: None,
            reply: Some(spoken),
            ending: None,
            behind_reply: None,
        }
    }

    /// The response to a negotiation, and what becomes the cause behind it.
    pub(crate) fn responding(response: ArrayVec<u8, 4>, behind_reply: Option<EndCause>) -> Agenda
        ensures { result ≡ record nothing { reply = Some (Response response.items); behind_reply = behind_reply } }
    {
        Agenda {
            datagram: None,
            order: None,
            reply: Some(Spoken::Response(response)),
            ending: None,
            behind_reply,
        }
    }

    /// What is to be done about a request.
    pub(crate) fn answering(
        order: Option<Order>,
        reply: Option<Spoken>,
        ending: Option<EndCause>,
    ) -> Agenda
        ensures { result ≡ record nothing { order = order; reply = option_map spoken_of reply; ending = ending } }
    {
        Agenda {
            datagram: None,
            order,
            reply,
            ending,
            behind_reply: None,
        }
    }

    /// A datagram, where there is one.
    pub(crate) fn telling(datagram: Option<[u8; 28]>) -> Agenda
        ensures { result ≡ record nothing { datagram = datagram } }
    {
        Agenda {
            datagram,
            order: None,
            reply: None,
            ending: None,
            behind_reply: None,
        }
    }

    /// Whether nothing is left to do.
    pub(crate) fn is_done(&self) -> bool
        ensures { result ≡ is_done self.now }
    {
        self.datagram.is_none()
            && self.order.is_none()
            && self.reply.is_none()
            && self.ending.is_none()
    }

    /// What is done first.
    pub(crate) fn first(&self) -> Option<Todo<'_>>
        ensures { option_map todo_of result ≡ first self.now }
    {
        if let Some(datagram) = self.datagram {
            return Some(Todo::Tell(datagram));
        }
        if let Some(order) = self.order {
            return Some(Todo::Give(order));
        }
        if let Some(spoken) = &self.reply {
            return Some(Todo::Say(spoken));
        }
        match self.ending {
            Some(cause) => Some(Todo::Finish(cause)),
            None => None,
        }
    }
}
