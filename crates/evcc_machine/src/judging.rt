//! What a car makes of a word.

ghost use Rattle.std.specs.Prelude.{◌≡◌, true, is_some};
ghost use Rattle.session_words.specs.Plans.{IsCarPlan};
ghost use Rattle.car_spec.specs.Codecs.{Told};
ghost use Rattle.car_spec.specs.Judging as judging;
ghost use Rattle.evcc_rows.specs.Carrying.{stage_of};
ghost use Rattle.evcc_machine.specs.Leading.{ended_by, gone_to, waiting_in};
ghost use Rattle.evcc_machine.specs.Views.{judged_of};

use crate::agenda::{Agenda, asking_in};
use crate::car::{Car, Part};
use crate::event::Judged;
use car_rules::due_at;
use charge_world::Order;
use evcc_rows::setup::SettingUp;
use evcc_rows::{Moved, Row};
use session_words::{CarPlan, EndCause, Reply};

impl Car {
    /// The word at the front ends the car.
    fn end_by(&mut self, cause: EndCause)
        ensures { self.new ≡ ended_by cause self.old }
    {
        self.slot.pass();
        self.agenda = Agenda::ending_by(cause, self.live);
        self.part = Part::Wording;
    }

    /// Behind the word at the front, the order is given, and the request of this row is asked.
    fn go_on(&mut self, plan: &CarPlan, order: Option<Order>, row: Row)
        ensures { self.new ≡ gone_to plan.now (stage_of row) order self.old }
    {
        self.agenda = Agenda::saying(order, Some(asking_in(plan, &row.stage())));
        self.part = Part::Wording;
        self.slot.pass();
        self.slot.put(row);
        self.slot.begin(self.clock);
    }

    /// Behind the word at the front, the request of this row is asked once more, after a while.
    fn wait(&mut self, plan: &CarPlan, row: Row)
        ensures { self.new ≡ waiting_in plan.now (stage_of row) self.old }
    {
        self.agenda = Agenda::nothing();
        self.part = Part::Wording;
        self.slot.pass();
        self.slot.put(row);
        self.slot.wait(due_at(self.clock, u64::from(plan.pace)));
    }

    /// The word at the front is this reply. Before a dialect is chosen, it is one of another kind.
    fn take_reply(&mut self, plan: &CarPlan, reply: &Reply)
        requires plan { IsCarPlan plan.now }
        requires lives { is_some self.old.session ≡ true }
        ensures { self.new ≡ judging.read plan.now self.old (Told reply.now) }
    {
        match self.slot.step(plan, reply) {
            None => self.end_by(EndCause::WrongReply),
            Some(Moved::Ends(row, cause)) => {
                self.slot.put(row);
                self.end_by(cause);
            }
            Some(Moved::Waits(row)) => self.wait(plan, row),
            Some(Moved::Goes(row)) => self.go_on(plan, None, row),
            Some(Moved::Closes(row, right)) => self.go_on(plan, Some(right.spend()), row),
            Some(Moved::Opens(row)) => self.go_on(plan, Some(Order::Open), row),
        }
    }

    /// The payload that is wanted was judged so.
    pub fn read(&mut self, plan: &CarPlan, judged: &Judged)
        requires { IsCarPlan plan.now }
        ensures { self.new ≡ judging.read plan.now self.old (judged_of judged.now) }
    {
        if !self.slot.lives() {
            return;
        }
        match judged {
            Judged::Chosen(Some(dialect)) => {
                self.go_on(plan, None, Row::SettingUp(SettingUp::enter(plan, *dialect)));
            }
            Judged::Chosen(None) => self.end_by(EndCause::NoNegotiation),
            Judged::Told(reply) => self.take_reply(plan, reply),
            Judged::WrongSide => self.end_by(EndCause::WrongSide),
            Judged::Refused => self.end_by(EndCause::Refused),
        }
    }
}
