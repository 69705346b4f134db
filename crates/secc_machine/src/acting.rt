//! What a post keeps behind a hearing, and behind what was done.

ghost use Rattle.std.specs.Prelude.{◌≡◌, ◌≤◌, List, ℕ, Option, length};
ghost use Rattle.std.specs.Option.{option_map};
ghost use Rattle.post_spec.specs.Steps.{Act};
ghost use Rattle.station_spec.specs.States.{Session};
ghost use Rattle.station_spec.specs.Acting as acting;
ghost use Rattle.station_spec.specs.Hearing as hearings;
ghost use Rattle.secc_machine.specs.Resting.{IsReadOut};
ghost use Rattle.secc_machine.specs.Views.{event_of, IsBy};

use crate::agenda::Agenda;
use crate::event::{Done, PostEvent};
use crate::post::{Part, Post};
use charge_world::{Order, PlantEvent};
use contactor::standing_behind;
use session_words::{EndCause, Facts, SessionId, Standing};
use station_spec::live_behind;

/// The newest word of the charger is its fact.
fn hear_charger(facts: &mut Facts, event: &PlantEvent)
    ensures { facts.new ≡ hearings.charger_facts event.now facts.old }
{
    match event {
        PlantEvent::Pilot(pilot) => facts.pilot = *pilot,
        PlantEvent::Isolation(level) => facts.isolation = Some(*level),
        PlantEvent::Measured { voltage, current } => {
            facts.voltage = *voltage;
            facts.current = *current;
        }
        PlantEvent::Feedback { closed } => {
            facts.contactor = standing_behind(facts.contactor, *closed);
        }
        PlantEvent::Paid => facts.paid = true,
        PlantEvent::Emergency => {}
        PlantEvent::StopAsked => facts.stop = true,
        PlantEvent::RenewAsked => facts.renew = true,
    }
}

/// What a hearing changes in the facts: a connection clears the isolation and the wishes.
fn hear_facts(facts: &mut Facts, event: &PostEvent)
    ensures { (bytes : List ℕ) → facts.new ≡ hearings.heard_facts (event_of event.now bytes) facts.old }
{
    match event {
        PostEvent::Came { .. } => {
            facts.isolation = None;
            facts.stop = false;
            facts.renew = false;
        }
        PostEvent::Plant(event) => hear_charger(facts, event),
        PostEvent::Bytes
        | PostEvent::Gone
        | PostEvent::Datagram
        | PostEvent::Clock
        | PostEvent::Over => {}
    }
}

/// The token of a connection that begins.
fn arrival(event: &PostEvent) -> Option<u64>
    ensures { (bytes : List ℕ) → result ≡ hearings.arrival (event_of event.now bytes) }
{
    match event {
        PostEvent::Came { token } => Some(*token),
        _ => None,
    }
}

/// How the contactor stands behind an order.
fn standing_ordered(order: &Order, taken: bool, now: Standing) -> Standing
    ensures { result ≡ acting.standing_ordered order.now taken now }
{
    match order {
        Order::Open if taken => Standing::Opening,
        Order::Close if taken => Standing::Closing,
        Order::Open | Order::Close => Standing::MustOpen,
        Order::Limits { .. } => now,
    }
}

/// The identifier that is kept behind an end by this cause.
fn kept_behind(
    cause: Option<EndCause>,
    name: Option<SessionId>,
    kept: Option<SessionId>,
) -> Option<SessionId>
    ensures { (session : Option Session) → option_map (λ session. session.stage.session) session ≡ name
        → result ≡ acting.kept_behind cause session kept }
{
    match (cause, name) {
        (Some(EndCause::Paused), Some(name)) => Some(name),
        _ => kept,
    }
}

impl Post {
    /// A connection that began opens its session behind the hearing in which it began.
    fn open_arrived(&mut self)
        ensures { self.new ≡ record self.old {
          session = hearings.session_opened self.old.arrived self.old.clock self.old.session;
        } }
    {
        if let Some(token) = self.arrived {
            self.slot.open(token, self.clock);
        }
    }

    /// A hearing at this moment, with its bytes, of which there are at most 4,096. What came before has to be read
    /// out: a post that has nothing left to do is (`law_of_rest`).
    pub fn hear(&mut self, now: u64, event: PostEvent, bytes: &[u8])
        requires short { length bytes.now ≤ 4096 }
        requires read { IsReadOut self.old.session }
        ensures { self.new ≡ hearings.hearing now (event_of event bytes.now) self.old }
    {
        self.open_arrived();
        if let PostEvent::Bytes = event {
            self.slot.feed(bytes);
        }
        self.stood = self.facts.contactor;
        hear_facts(&mut self.facts, &event);
        self.clock = now;
        self.arrived = arrival(&event);
        self.event = event;
        self.piece.set(bytes);
        self.part = Part::Repeating;
        self.agenda = Agenda::nothing();
    }

    /// What failed ends a session that has no cause yet; behind a cause it drops the reply.
    fn failing(&self, cause: EndCause) -> Agenda
        ensures { result ≡ acting.failing self.now.agenda.ending self.now.session cause self.now.live }
    {
        match self.agenda.ending {
            Some(ending) => Agenda::answering(None, None, Some(ending)),
            None => self.ending(cause),
        }
    }

    /// The contactor behind an order.
    fn order(&mut self, order: &Order, taken: bool)
        ensures { self.new ≡ acting.ordered order.now taken self.old }
    {
        self.live = live_behind(order, taken, self.live);
        self.facts.contactor = standing_ordered(order, taken, self.facts.contactor);
    }

    /// An order was given, and was taken or failed.
    fn gave(&mut self, order: &Order, taken: bool)
        ensures { self.new ≡ acting.giving order.now taken self.old }
    {
        self.order(order, taken);
        if taken {
            self.slot.ordered(self.clock, order);
            self.agenda.order = None;
        } else {
            self.agenda = self.failing(EndCause::OrderFailed);
        }
    }

    /// A reply was sent, or couldn't be.
    fn said(&mut self, taken: bool)
        ensures { self.new ≡ acting.saying taken self.old }
    {
        if !taken {
            self.agenda = self.failing(EndCause::SendFailed);
            return;
        }
        match self.agenda.behind_reply {
            Some(cause) => self.agenda = self.ending(cause),
            None => self.agenda.reply = None,
        }
        self.slot.replied(self.clock);
    }

    /// The session ended.
    fn end(&mut self)
        ensures { self.new ≡ acting.ended self.old }
    {
        let kept = self.facts.kept.take();
        self.facts.kept = kept_behind(self.agenda.ending, self.slot.name(), kept);
        self.facts.paid = false;
        self.facts.joined = false;
        self.slot.close();
        self.agenda = Agenda::nothing();
    }

    /// What the post asked for was done, and was taken or failed. A datagram's answer and an end change the same
    /// either way.
    pub fn did(&mut self, done: Done, taken: bool)
        ensures { (act : Act) → IsBy done act → self.new ≡ acting.acted act taken self.old }
    {
        match done {
            Done::Gave(order) => self.gave(&order, taken),
            Done::Sent => self.said(taken),
            Done::Answered => self.agenda.datagram = None,
            Done::Ended => self.end(),
        }
    }
}
