//! What is decided and not done yet.

ghost use Rattle.std.specs.Prelude.{◌≡◌, Some};
ghost use Rattle.std.specs.Option.{option_map};
ghost use Rattle.car_spec.specs.Deciding.{asking as spoken_in, ending_by};
ghost use Rattle.car_spec.specs.States.{nothing, first, is_done};
ghost use Rattle.evcc_machine.specs.Views.{spoken_of, todo_of};

use car_rules::{CarStage, request_of};
use charge_world::{Dialect, Order};
use session_words::{CarPlan, EndCause, Request};
use station_spec::opening_if;
use std::marker::Model;

/// What a car says: it offers its dialects, or it asks in the dialect that was chosen.
#[derive(Drop)]
pub enum Spoken {
    Offer,
    Asked { dialect: Dialect, request: Request },
}

/// A thing to do.
#[derive(Drop)]
pub enum Todo<'a> {
    /// This TCP port of the post is dialed.
    Call(u16),
    /// This order is given to the car's contactor.
    Drive(Order),
    /// This is sent on the connection.
    Speak(&'a Spoken),
    /// The car ends by this cause.
    Finish(EndCause),
    /// A discovery request is sent.
    Inquire,
}

/// What is decided and not done yet. It is done in this order: a post is dialed, the order, what is said, the end, the search.
#[derive(Drop)]
pub(crate) struct Agenda {
    pub(crate) port: Option<u16>,
    pub(crate) order: Option<Order>,
    pub(crate) spoken: Option<Spoken>,
    /// The car's cause, once it has one.
    pub(crate) ending: Option<EndCause>,
    /// Whether a post is looked for.
    pub(crate) seeks: bool,
}

impl Model for Agenda {
    ghost use Rattle.std.specs.Option.{option_map};
    ghost use Rattle.car_spec.specs.States.{Agenda};
    ghost use Rattle.evcc_machine.specs.Views.{spoken_of};

    ghost Value = { Agenda };

    ghost view = { λ a. record {
      port = a.port;
      order = a.order;
      spoken = option_map spoken_of a.spoken;
      ending = a.ending;
      seeks = a.seeks;
    } };
}

impl Agenda {
    /// Nothing.
    pub(crate) fn nothing() -> Agenda
        ensures { result ≡ nothing }
    {
        Agenda {
            port: None,
            order: None,
            spoken: None,
            ending: None,
            seeks: false,
        }
    }

    /// The end of the car by a cause, and an order before it, if there is one.
    fn ending(order: Option<Order>, cause: EndCause) -> Agenda
        ensures { result ≡ record nothing { order = order; ending = Some cause } }
    {
        Agenda {
            port: None,
            order,
            spoken: None,
            ending: Some(cause),
            seeks: false,
        }
    }

    /// The end of the car by a cause: Open first, where the contactor is live.
    pub(crate) fn ending_by(cause: EndCause, live: bool) -> Agenda
        ensures { result ≡ ending_by cause live }
    {
        Agenda::ending(opening_if(live), cause)
    }

    /// The end of the car by a cause, and nothing before it.
    pub(crate) fn ended_by(cause: EndCause) -> Agenda
        ensures { result ≡ record nothing { ending = Some cause } }
    {
        Agenda::ending(None, cause)
    }

    /// A post is dialed, where there is a port.
    pub(crate) fn calling(port: Option<u16>) -> Agenda
        ensures { result ≡ record nothing { port = port } }
    {
        Agenda {
            port,
            order: None,
            spoken: None,
            ending: None,
            seeks: false,
        }
    }

    /// An order, and what is said behind it, as far as there is any.
    pub(crate) fn saying(order: Option<Order>, spoken: Option<Spoken>) -> Agenda
        ensures { result ≡ record nothing { order = order; spoken = option_map spoken_of spoken } }
    {
        Agenda {
            port: None,
            order,
            spoken,
            ending: None,
            seeks: false,
        }
    }

    /// A post is looked for, or nothing is done.
    pub(crate) fn seeking(seeks: bool) -> Agenda
        ensures { result ≡ record nothing { seeks = seeks } }
    {
        Agenda {
            port: None,
            order: None,
            spoken: None,
            ending: None,
            seeks,
        }
    }

    /// Whether nothing is left to do.
    pub(crate) fn is_done(&self) -> bool
        ensures { result ≡ is_done self.now }
    {
        self.port.is_none()
            && self.order.is_none()
            && self.spoken.is_none()
            && self.ending.is_none()
            && !self.seeks
    }

    /// What is done first.
    pub(crate) fn first(&self) -> Option<Todo<'_>>
        ensures { option_map todo_of result ≡ first self.now }
    {
        if let Some(port) = self.port {
            return Some(Todo::Call(port));
        }
        if let Some(order) = self.order {
            return Some(Todo::Drive(order));
        }
        if let Some(spoken) = &self.spoken {
            return Some(Todo::Speak(spoken));
        }
        match self.ending {
            Some(cause) => Some(Todo::Finish(cause)),
            None => self.seeks.then_some(Todo::Inquire),
        }
    }
}

/// The request of a stage.
pub(crate) fn asking_in(plan: &CarPlan, stage: &CarStage) -> Spoken
    ensures { Some (spoken_of result) ≡ spoken_in plan.now (Some stage.now) }
{
    Spoken::Asked {
        dialect: stage.dialect,
        request: request_of(plan, stage),
    }
}

/// The request of a stage, once a dialect was chosen.
pub(crate) fn asking(plan: &CarPlan, stage: &Option<CarStage>) -> Option<Spoken>
    ensures { option_map spoken_of result ≡ spoken_in plan.now stage.now }
{
    match stage {
        Some(stage) => Some(asking_in(plan, stage)),
        None => None,
    }
}
