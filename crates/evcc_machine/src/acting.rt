//! What a car keeps behind a hearing, and behind what was done.

ghost use Rattle.std.specs.Prelude.{◌≡◌, ◌≤◌, true, false, length};
ghost use Rattle.car_spec.specs.Acting as acting;
ghost use Rattle.car_spec.specs.Hearing as hearings;
ghost use Rattle.car_spec.specs.Steps.{Act};
ghost use Rattle.evcc_machine.specs.Resting.{IsReadOut};
ghost use Rattle.evcc_machine.specs.Views.{event_of, IsBy};
ghost use Rattle.evcc_machine.specs.declared.event.Done.TheVariants.{Sought};

use crate::agenda::Agenda;
use crate::car::{Car, Part};
use crate::event::{CarEvent, Done};
use charge_world::Order;
use session_words::EndCause;
use station_spec::live_behind;

impl Car {
    /// A hearing at this moment, with its bytes, of which there are at most 4,096. What came before has to be read out: a car that
    /// has nothing left to do and didn't end is (`law_of_rest`).
    pub fn hear(&mut self, now: u64, event: CarEvent, bytes: &[u8])
        requires short { length bytes.now ≤ 4096 }
        requires read { IsReadOut self.old.session }
        ensures { self.new ≡ hearings.hearing now (event_of event bytes.now) self.old }
    {
        self.stood = self.slot.lives();
        self.slot.hear(now, &event, bytes);
        self.clock = now;
        self.event = event;
        self.piece.set(bytes);
        self.part = Part::Timing;
        self.agenda = Agenda::nothing();
    }

    /// What failed ends a car that has no cause yet; behind a cause it changes nothing of that.
    fn failing(&self, cause: EndCause) -> Agenda
        ensures value { result ≡ acting.failing self.now.agenda.ending cause self.now.live }
        ensures still { result.seeks ≡ false }
    {
        match self.agenda.ending {
            Some(ending) => Agenda::ended_by(ending),
            None => Agenda::ending_by(cause, self.live),
        }
    }

    /// A post was dialed, or couldn't be.
    fn dialed(&mut self, taken: bool)
        ensures { self.new ≡ acting.dialing taken self.old }
    {
        self.search = self.search.behind_dialing();
        if taken {
            self.agenda.port = None;
        } else {
            self.agenda = self.failing(EndCause::SendFailed);
        }
    }

    /// An order was given, and was taken or failed.
    fn gave(&mut self, order: &Order, taken: bool)
        ensures { self.new ≡ acting.giving order.now taken self.old }
    {
        self.live = live_behind(order, taken, self.live);
        if taken {
            self.agenda.order = None;
        } else {
            self.agenda = self.failing(EndCause::OrderFailed);
        }
    }

    /// The offer or the request was sent, or couldn't be.
    fn said(&mut self, taken: bool)
        ensures { self.new ≡ acting.saying taken self.old }
    {
        if taken {
            self.slot.await_reply(self.clock);
            self.agenda.spoken = None;
        } else {
            self.agenda = self.failing(EndCause::SendFailed);
        }
    }

    /// A post was looked for, whether or not the datagram was taken.
    fn sought(&mut self)
        requires { self.old.agenda.seeks ≡ true }
        ensures { self.new ≡ acting.seeking self.old }
    {
        self.search = self.search.asked_at(self.clock);
        self.agenda.seeks = false;
    }

    /// The car ended.
    fn end(&mut self)
        ensures { self.new ≡ acting.ended self.old }
    {
        self.slot.close();
        self.part = Part::Wording;
        self.agenda = Agenda::nothing();
        self.over = true;
    }

    /// What the car asked for was done, and was taken or failed. A discovery request and an end change the same either way; a
    /// discovery request has to be one that the car asked for.
    pub fn did(&mut self, done: Done, taken: bool)
        requires { done ≡ Sought → self.old.agenda.seeks ≡ true }
        ensures { (act : Act) → IsBy done act → self.new ≡ acting.acted act taken self.old }
    {
        match done {
            Done::Dialed => self.dialed(taken),
            Done::Gave(order) => self.gave(&order, taken),
            Done::Said => self.said(taken),
            Done::Ended => self.end(),
            Done::Sought => self.sought(),
        }
    }
}
