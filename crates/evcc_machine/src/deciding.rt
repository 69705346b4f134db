//! What a car decides without reading a word.

ghost use Rattle.std.specs.Prelude.{◌≡◌, false};
ghost use Rattle.car_rules.specs.Deadlines.{hit as first_hit};
ghost use Rattle.car_spec.specs.Deciding as deciding;
ghost use Rattle.car_spec.specs.Due.{all_deadlines};

use crate::agenda::{Agenda, Spoken};
use crate::car::{Car, Part};
use crate::event::CarEvent;
use crate::living::is_due;
use car_rules::{Search, hit_by, is_searching, next_request, plant_cause, port_of, search_due};
use charge_world::PlantEvent;
use session_words::{CarPlan, EndCause};

/// The end of the car by a cause, where there is one.
fn ending_if(cause: Option<EndCause>, live: bool) -> Agenda
    ensures value { result ≡ deciding.ending_if cause live }
    ensures still { result.seeks ≡ false }
{
    match cause {
        Some(cause) => Agenda::ending_by(cause, live),
        None => Agenda::nothing(),
    }
}

/// The first post that answers is dialed.
fn calling(plan: &CarPlan, search: &Search, datagram: &[u8]) -> Agenda
    ensures value { result ≡ deciding.calling plan.now search.now datagram.now }
    ensures still { result.seeks ≡ false }
{
    if is_searching(plan, search) {
        Agenda::calling(port_of(datagram))
    } else {
        Agenda::nothing()
    }
}

impl Car {
    /// The cause of the deadline that was reached, if one was; of several that with the least number.
    #[tactic(auto, using(crate::proofs::Dues::hit_of))]
    fn hit(&self, plan: &CarPlan) -> Option<EndCause>
        ensures { result ≡ first_hit (all_deadlines plan.now self.now) self.now.clock }
    {
        let search = hit_by(search_due(plan, &self.search), self.clock, None);
        self.slot.hit(plan, self.clock).or(search)
    }

    /// What the clock asks for.
    fn timing(&self, plan: &CarPlan) -> Agenda
        ensures value { result ≡ deciding.timing plan.now self.now }
        ensures still { result.seeks ≡ false }
    {
        ending_if(self.hit(plan), self.live)
    }

    /// What the car itself told may end it.
    fn charging(&self, event: &PlantEvent) -> Agenda
        ensures value { result ≡ deciding.charging self.now.session event.now self.now.live }
        ensures still { result.seeks ≡ false }
    {
        if self.slot.lives() {
            ending_if(plant_cause(event), self.live)
        } else {
            Agenda::nothing()
        }
    }

    /// A connection is answered by the offer of dialects; another one while it stands ends the car.
    fn greeting(&self) -> Agenda
        ensures value { result ≡ deciding.greeting self.now.stood self.now.live }
        ensures still { result.seeks ≡ false }
    {
        if self.stood {
            Agenda::ending_by(EndCause::Gone, self.live)
        } else {
            Agenda::saying(None, Some(Spoken::Offer))
        }
    }

    /// What the event asks for.
    fn eventing(&self, plan: &CarPlan) -> Agenda
        ensures value { result ≡ deciding.eventing plan.now self.now.event self.now }
        ensures still { result.seeks ≡ false }
    {
        match &self.event {
            CarEvent::Came { .. } => self.greeting(),
            CarEvent::Gone => self.slot.ending(EndCause::Gone, self.live),
            CarEvent::Datagram => calling(plan, &self.search, self.piece.bytes()),
            CarEvent::Plant(event) => self.charging(event),
            CarEvent::Over => Agenda::ending_by(EndCause::RunOver, self.live),
            CarEvent::Bytes | CarEvent::Clock => Agenda::nothing(),
        }
    }

    /// The car asks once more for a post, where that is due.
    #[tactic(auto, using(crate::proofs::Dues::asked_few))]
    fn from_seeking(&mut self, plan: &CarPlan)
        ensures { self.new ≡ deciding.from_seeking plan.now self.old }
    {
        if is_due(next_request(plan, &self.search), self.clock) {
            self.agenda = Agenda::seeking(true);
            self.part = Part::Wording;
        }
    }

    fn from_repeating(&mut self, plan: &CarPlan)
        ensures { self.new ≡ deciding.from_repeating plan.now self.old }
    {
        let agenda = self.slot.repeating(plan, self.clock);
        if agenda.is_done() {
            self.from_seeking(plan);
        } else {
            self.agenda = agenda;
            self.part = Part::Wording;
        }
    }

    fn from_wording(&mut self, plan: &CarPlan)
        ensures { self.new ≡ deciding.from_wording plan.now self.old }
    {
        let agenda = self.slot.fronting(self.live);
        if !agenda.is_done() {
            self.agenda = agenda;
            self.part = Part::Wording;
        } else if !self.slot.has_word() {
            self.from_repeating(plan);
        }
    }

    fn from_nothing(&mut self)
        ensures { self.new ≡ deciding.from_nothing self.old }
    {
        let agenda = self.slot.fronting(self.live);
        if !agenda.is_done() {
            self.agenda = agenda;
            self.part = Part::Wording;
        }
    }

    fn from_eventing(&mut self, plan: &CarPlan)
        ensures { self.new ≡ deciding.from_eventing plan.now self.old }
    {
        let agenda = self.eventing(plan);
        if agenda.is_done() {
            self.from_wording(plan);
        } else {
            self.agenda = agenda;
            self.part = Part::Wording;
        }
    }

    fn from_timing(&mut self, plan: &CarPlan)
        ensures { self.new ≡ deciding.from_timing plan.now self.old }
    {
        let agenda = self.timing(plan);
        if agenda.is_done() {
            self.from_eventing(plan);
        } else {
            self.agenda = agenda;
            self.part = Part::Eventing;
        }
    }

    /// Decides what is to be done without a word, once all that was decided before is done. A car that ended does nothing.
    pub fn decide(&mut self, plan: &CarPlan)
        ensures { self.new ≡ deciding.decided plan.now self.old }
    {
        if self.agenda.is_done() && !self.over {
            match self.part {
                Part::Unheard => self.from_nothing(),
                Part::Timing => self.from_timing(plan),
                Part::Eventing => self.from_eventing(plan),
                Part::Wording => self.from_wording(plan),
            }
        }
    }
}
