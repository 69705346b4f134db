//! What a car keeps of a session that lives, beside its stream.

ghost use Rattle.std.specs.Prelude.{◌≡◌, false, [], Some};
ghost use Rattle.std.specs.Option.{option_map};
ghost use Rattle.car_rules.specs.Deadlines.{deadlines, hit as first_hit, least_moment};
ghost use Rattle.car_spec.specs.Deciding as deciding;
ghost use Rattle.car_spec.specs.Due as due;
ghost use Rattle.car_spec.specs.States.{first_session};
ghost use Rattle.car_spec.specs.Until.{or_never};
ghost use Rattle.evcc_rows.specs.Carrying.{stage_of};
ghost use Rattle.evcc_machine.specs.Views.{with_unread};

use crate::agenda::{Agenda, Spoken, asking};
use car_rules::{CarMoments, CarStage, hit, is_reached, next_due};
use evcc_rows::Row;
use session_words::{CarPlan, EndCause};

/// What is kept of a session that lives, beside its stream.
#[derive(Drop)]
pub(crate) struct Living {
    /// The request whose reply is awaited. None until a dialect is chosen.
    pub(crate) row: Option<Row>,
    pub(crate) moments: CarMoments,
    /// When the request is due that is asked once more, if it ever is.
    pub(crate) again: Option<u64>,
    /// Whether somebody asked to stop since the connection came.
    pub(crate) stop: bool,
}

/// Whether something is due.
pub(crate) fn is_due(moment: Option<u64>, now: u64) -> bool
    ensures { result ≡ due.is_due moment now }
{
    match moment {
        Some(moment) => is_reached(moment, now),
        None => false,
    }
}

/// The moment, and 2^64 - 1 where there is none.
pub(crate) fn or_never(moment: Option<u64>) -> u64
    ensures { result ≡ or_never moment }
{
    moment.unwrap_or(u64::MAX)
}

impl Living {
    /// A connection came at this moment.
    pub(crate) fn new(at: u64) -> Living
        ensures { with_unread [] result ≡ first_session at }
    {
        Living {
            row: None,
            moments: CarMoments {
                came: at,
                sent: None,
                begun: at,
            },
            again: None,
            stop: false,
        }
    }

    /// The stage of the session, once a dialect was chosen.
    pub(crate) fn stage(&self) -> Option<CarStage>
        ensures { result ≡ option_map stage_of self.now.row }
    {
        match &self.row {
            Some(row) => Some(row.stage()),
            None => None,
        }
    }

    /// The cause of the deadline that was reached, if one was.
    pub(crate) fn hit(&self, plan: &CarPlan, now: u64) -> Option<EndCause>
        ensures { result ≡ first_hit (deadlines plan.now (option_map stage_of self.now.row) self.now.moments) now }
    {
        hit(plan, &self.stage(), &self.moments, now)
    }

    /// When the session is due; 2^64 - 1 is never.
    pub(crate) fn due(&self, plan: &CarPlan) -> u64
        ensures { result ≡ least_moment (deadlines plan.now (option_map stage_of self.now.row) self.now.moments) }
    {
        next_due(plan, &self.stage(), &self.moments)
    }

    /// A request that is due is asked once more.
    pub(crate) fn repeating(&self, plan: &CarPlan, now: u64) -> Agenda
        ensures value { result ≡ deciding.repeating plan.now (Some (with_unread [] self.now)) now }
        ensures still { result.seeks ≡ false }
    {
        if is_due(self.again, now) {
            Agenda::saying(None, asking(plan, &self.stage()))
        } else {
            Agenda::nothing()
        }
    }
}
