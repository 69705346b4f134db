//! The request whose reply a car awaits.

ghost use Rattle.std.specs.Prelude.{◌≡◌};
ghost use Rattle.session_words.specs.Plans.{IsCarPlan};
ghost use Rattle.evcc_rows.specs.Carrying.{stage_of};
ghost use Rattle.evcc_rows.specs.Leading.{Leads, LeadsOn};

use crate::power::{
    CableChecking, Charging, Ending, PreCharging, Renegotiating, Starting, Stopping, Welding,
};
use crate::right::CloseRight;
use crate::setup::{Asking, Authorizing, Discovering, Selecting, SettingUp};
use car_rules::{CarPhase, CarStage, reply_cause};
use session_words::{CarPlan, EndCause, Reply};

/// The request whose reply a car awaits, or that it asks once more.
#[derive(Drop)]
pub enum Row {
    SettingUp(SettingUp),
    Discovering(Discovering),
    Selecting(Selecting),
    Authorizing(Authorizing),
    Asking(Asking),
    CableChecking(CableChecking),
    PreCharging(PreCharging),
    Starting(Starting),
    Charging(Charging),
    Stopping(Stopping),
    Renegotiating(Renegotiating),
    Welding(Welding),
    Ending(Ending),
}

/// Where a reply leads.
pub enum Moved {
    /// The car ends by this cause, and the row is as it was.
    Ends(Row, EndCause),
    /// The request is asked once more, the car's pace behind the reply.
    Waits(Row),
    /// This is asked at once.
    Goes(Row),
    /// The contactor is ordered closed by spending the right, and then this is asked.
    Closes(Row, CloseRight),
    /// The contactor is ordered open, and then this is asked.
    Opens(Row),
}

impl Row {
    /// The stage of the session.
    pub fn stage(&self) -> CarStage
        ensures { result ≡ stage_of self.now }
    {
        match self {
            Row::SettingUp(row) => row.carried.stage(CarPhase::SettingUp),
            Row::Discovering(row) => row.carried.stage(CarPhase::Discovering),
            Row::Selecting(row) => row.carried.stage(CarPhase::Selecting),
            Row::Authorizing(row) => row.carried.stage(CarPhase::Authorizing),
            Row::Asking(row) => row.carried.stage(CarPhase::Asking),
            Row::CableChecking(row) => row.carried.stage(CarPhase::CableChecking),
            Row::PreCharging(row) => row.carried.stage(CarPhase::PreCharging),
            Row::Starting(row) => row.carried.stage(CarPhase::Starting),
            Row::Charging(row) => row.carried.stage(CarPhase::Charging),
            Row::Stopping(row) => row.charged.stage(CarPhase::Stopping),
            Row::Renegotiating(row) => row.carried.stage(CarPhase::Renegotiating),
            Row::Welding(row) => row.charged.stage(CarPhase::Welding { left: row.left }),
            Row::Ending(row) => row.charged.stage(CarPhase::Ending),
        }
    }

    /// Where a reply leads that ends nothing. One to SessionStop always ends the car.
    fn onward(self, reply: &Reply, stop: bool, plan: &CarPlan) -> Moved
        requires { IsCarPlan plan.now }
        ensures { LeadsOn plan.now (stage_of self) reply.now stop result }
    {
        match self {
            Row::SettingUp(row) => row.onward(reply, stop, plan),
            Row::Discovering(row) => row.onward(reply, stop, plan),
            Row::Selecting(row) => row.onward(reply, stop, plan),
            Row::Authorizing(row) => row.onward(reply, stop, plan),
            Row::Asking(row) => row.onward(reply, stop, plan),
            Row::CableChecking(row) => row.onward(reply, stop, plan),
            Row::PreCharging(row) => row.onward(reply, stop, plan),
            Row::Starting(row) => row.onward(reply, stop, plan),
            Row::Charging(row) => row.onward(reply, stop, plan),
            Row::Stopping(row) => row.onward(reply, stop, plan),
            Row::Renegotiating(row) => row.onward(reply, stop, plan),
            Row::Welding(row) => row.onward(reply, stop, plan),
            Row::Ending(row) => Moved::Goes(Row::Ending(row)),
        }
    }

    /// Where a reply leads. `awaited` says that the request was sent and has no reply yet, `stop` that somebody asked to stop since the
    /// connection came.
    pub fn step(self, reply: &Reply, awaited: bool, stop: bool, plan: &CarPlan) -> Moved
        requires { IsCarPlan plan.now }
        ensures { Leads plan.now (stage_of self) awaited reply.now stop result }
    {
        match reply_cause(plan, &self.stage(), awaited, reply) {
            Some(cause) => Moved::Ends(self, cause),
            None => self.onward(reply, stop, plan),
        }
    }
}
