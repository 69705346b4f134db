//! What a post decides without reading a word.

ghost use Rattle.std.specs.Prelude.{◌≡◌, []};
ghost use Rattle.post_spec.specs.Discovery.{answer_of, is_request_of};
ghost use Rattle.station_spec.specs.Deciding as deciding;
ghost use Rattle.secc_machine.specs.Views.{with_unread};

use crate::agenda::{Agenda, Spoken};
use crate::event::PostEvent;
use crate::post::{Part, Post};
use crate::slot::Living;
use charge_world::PlantEvent;
use sdp_discovery::{SdpRequest, answer_to, write_request};
use session_rules::{Watch, allowed_watts, is_waiting, plant_cause};
use session_words::{EndCause, PostPlan};

/// Whether a datagram is a discovery request that asks for this security.
fn is_request_of(tls: bool, datagram: &[u8]) -> bool
    ensures { result ≡ is_request_of tls datagram.now }
{
    let request = write_request(&SdpRequest { tls });
    datagram == request.as_slice()
}

/// The answer to a datagram at a post with this TCP port, where it is a discovery request.
fn answer_of(port: u16, datagram: &[u8]) -> Option<[u8; 28]>
    ensures { result ≡ answer_of port datagram.now }
{
    if is_request_of(true, datagram) || is_request_of(false, datagram) {
        Some(answer_to(port))
    } else {
        None
    }
}

impl Post {
    /// What the rules of an event of the charger know.
    fn watch(&self, plan: &PostPlan, living: &Living) -> Watch
        ensures { result ≡ deciding.watch plan.now (with_unread [] living.now) self.now }
    {
        let place = living.row.place();
        Watch {
            row: place.row,
            standing: self.stood,
            live: self.live,
            phases: plan.mode.phases(),
            allowed: allowed_watts(place.told, living.lowered, self.clock),
        }
    }

    /// Feedback of closed lets the waiting reply go.
    fn confirming(&self, plan: &PostPlan, living: &Living, event: &PlantEvent) -> Agenda
        ensures { result ≡ deciding.confirming plan.now (with_unread [] living.now) event.now self.now }
    {
        let confirms = matches!(event, PlantEvent::Feedback { closed: true });
        let place = living.row.place();
        if is_waiting(place.row) && confirms {
            Agenda::saying(Spoken::Said {
                dialect: place.dialect,
                reply: living.row.waiting_reply(&self.facts, plan),
            })
        } else {
            Agenda::nothing()
        }
    }

    /// What an event of the charger asks for.
    fn charging(&self, plan: &PostPlan, event: &PlantEvent) -> Agenda
        ensures { result ≡ deciding.charging plan.now self.now.session event.now self.now }
    {
        let Some(living) = self.slot.living() else {
            return Agenda::nothing();
        };
        match plant_cause(&self.watch(plan, living), event) {
            Some(cause) => Agenda::ending_by(cause, self.live),
            None => self.confirming(plan, living, event),
        }
    }

    /// The end of the session, where one lives.
    pub(crate) fn ending(&self, cause: EndCause) -> Agenda
        ensures { result ≡ deciding.ending_in self.now.session cause self.now.live }
    {
        self.slot.ending(cause, self.live)
    }

    /// What the event asks for.
    fn eventing(&self, plan: &PostPlan) -> Agenda
        ensures { result ≡ deciding.eventing plan.now self.now.event self.now }
    {
        match &self.event {
            PostEvent::Came { .. } | PostEvent::Gone => self.ending(EndCause::Gone),
            PostEvent::Over => self.ending(EndCause::RunOver),
            PostEvent::Datagram => Agenda::telling(answer_of(plan.tcp, self.piece.bytes())),
            PostEvent::Plant(event) => self.charging(plan, event),
            PostEvent::Bytes | PostEvent::Clock => Agenda::nothing(),
        }
    }

    fn from_wording(&mut self)
        ensures { self.new ≡ deciding.from_wording self.old }
    {
        let agenda = self.slot.fronting(self.live);
        if !agenda.is_done() {
            self.agenda = agenda;
            self.part = Part::Wording;
        }
    }

    fn from_eventing(&mut self, plan: &PostPlan)
        ensures { self.new ≡ deciding.from_eventing plan.now self.old }
    {
        let agenda = self.eventing(plan);
        if agenda.is_done() {
            self.from_wording();
        } else {
            self.agenda = agenda;
            self.part = Part::Wording;
        }
    }

    fn from_timing(&mut self, plan: &PostPlan)
        ensures { self.new ≡ deciding.from_timing plan.now self.old }
    {
        let agenda = self.slot.timing(self.clock, self.live);
        if agenda.is_done() {
            self.from_eventing(plan);
        } else {
            self.agenda = agenda;
            self.part = Part::Eventing;
        }
    }

    fn from_repeating(&mut self, plan: &PostPlan)
        ensures { self.new ≡ deciding.from_repeating plan.now self.old }
    {
        let agenda = Agenda::repeating(self.facts.contactor);
        if agenda.is_done() {
            self.from_timing(plan);
        } else {
            self.agenda = agenda;
            self.part = Part::Timing;
        }
    }

    /// Decides what is to be done without a word, once all that was decided before is done.
    pub fn decide(&mut self, plan: &PostPlan)
        ensures { self.new ≡ deciding.decided plan.now self.old }
    {
        if self.agenda.is_done() {
            match self.part {
                Part::Repeating => self.from_repeating(plan),
                Part::Timing => self.from_timing(plan),
                Part::Eventing => self.from_eventing(plan),
                Part::Wording => self.from_wording(),
            }
        }
    }
}
