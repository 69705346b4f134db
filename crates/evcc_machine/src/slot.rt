//! The session of a car, in memory of its own.

ghost use Rattle.std.specs.Prelude.{◌≡◌, ◌≤◌, Some, None, true, false, length, is_some, IfOk, IfSome};
ghost use Rattle.std.specs.Option.{option_map};
ghost use Rattle.session_words.specs.Plans.{IsCarPlan};
ghost use Rattle.car_rules.specs.Deadlines.{hit as first_hit, least_moment};
ghost use Rattle.car_spec.specs.Acting as acting;
ghost use Rattle.car_spec.specs.Deciding as deciding;
ghost use Rattle.car_spec.specs.Due as due;
ghost use Rattle.car_spec.specs.Hearing as hearings;
ghost use Rattle.car_spec.specs.Judging as judging;
ghost use Rattle.car_spec.specs.States.{first_session};
ghost use Rattle.car_spec.specs.Until.{or_never};
ghost use Rattle.evcc_rows.specs.Carrying.{stage_of};
ghost use Rattle.evcc_machine.specs.Leading.{at_stage, begun_at, again_at, LeadsIn};
ghost use Rattle.evcc_machine.specs.Resting.{IsReadOut};
ghost use Rattle.evcc_machine.specs.Views.{dialect_in, event_of, stage_in, wanted_of, with_unread};

use crate::NoMemory;
use crate::agenda::Agenda;
use crate::event::{CarEvent, brought, stop_heard};
use crate::living::{Living, or_never};
use car_rules::CarStage;
use charge_world::Dialect;
use evcc_rows::{Moved, Row};
use heard_bytes::Unread;
use session_words::{CarPlan, EndCause, Reply};
use std::alloc::Global;
use std::marker::Model;
use v2gtp_frames::whole_frame;

/// A payload that has to be read now.
#[derive(Clone, Copy)]
pub struct Wanted<'a> {
    /// The dialect in which it is read; none where it is the negotiation's.
    pub dialect: Option<Dialect>,
    /// Its bytes, at most 65,536.
    pub payload: &'a [u8],
}

/// The session of a car, if one lives. Contracts see it with what of its stream was not read yet.
#[derive(Drop)]
pub(crate) struct SessionSlot {
    living: Option<Living>,
    unread: Unread,
}

impl Model for SessionSlot {
    ghost use Rattle.std.specs.Prelude.{Option};
    ghost use Rattle.std.specs.Option.{option_map};
    ghost use Rattle.car_spec.specs.States.{Session};
    ghost use Rattle.evcc_machine.specs.Views.{with_unread};

    ghost Value = { Option Session };

    ghost view = { λ s. option_map (with_unread s.unread) s.living };
}

impl SessionSlot {
    /// No session. It takes the memory of a stream.
    pub(crate) fn make(alloc: Global) -> Result<SessionSlot, NoMemory>
        ensures { IfOk result (λ slot. slot ≡ None) }
    {
        Ok(SessionSlot {
            living: None,
            unread: Unread::make(alloc)?,
        })
    }

    /// The stage of the session, once a dialect was chosen.
    pub(crate) fn stage(&self) -> Option<CarStage>
        ensures { result ≡ stage_in self.now }
    {
        match &self.living {
            Some(living) => living.stage(),
            None => None,
        }
    }

    /// The dialect of the session, once one was chosen.
    pub(crate) fn dialect(&self) -> Option<Dialect>
        ensures { result ≡ dialect_in self.now }
    {
        match self.stage() {
            Some(stage) => Some(stage.dialect),
            None => None,
        }
    }

    /// Whether a session lives.
    pub(crate) fn lives(&self) -> bool
        ensures { result ≡ is_some self.now }
    {
        self.living.is_some()
    }

    /// The cause of the deadline that was reached, if one was.
    pub(crate) fn hit(&self, plan: &CarPlan, now: u64) -> Option<EndCause>
        ensures { result ≡ first_hit (due.session_deadlines plan.now self.now) now }
    {
        match &self.living {
            Some(living) => living.hit(plan, now),
            None => None,
        }
    }

    /// When the session is due: never without one.
    pub(crate) fn due(&self, plan: &CarPlan) -> u64
        ensures { result ≡ least_moment (due.session_deadlines plan.now self.now) }
    {
        match &self.living {
            Some(living) => living.due(plan),
            None => u64::MAX,
        }
    }

    /// When a request is due once more: never where none is.
    pub(crate) fn again(&self) -> u64
        ensures { result ≡ or_never (due.again_in self.now) }
    {
        match &self.living {
            Some(living) => or_never(living.again),
            None => u64::MAX,
        }
    }

    /// The end of the car, where a session lives.
    pub(crate) fn ending(&self, cause: EndCause, live: bool) -> Agenda
        ensures value { result ≡ deciding.ending_in self.now cause live }
        ensures still { result.seeks ≡ false }
    {
        match &self.living {
            Some(_) => Agenda::ending_by(cause, live),
            None => Agenda::nothing(),
        }
    }

    /// A request that is due is asked once more.
    pub(crate) fn repeating(&self, plan: &CarPlan, now: u64) -> Agenda
        ensures value { result ≡ deciding.repeating plan.now self.now now }
        ensures still { result.seeks ≡ false }
    {
        match &self.living {
            Some(living) => living.repeating(plan, now),
            None => Agenda::nothing(),
        }
    }

    /// A fault of the frame at the front ends the car.
    pub(crate) fn fronting(&self, live: bool) -> Agenda
        ensures value { result ≡ deciding.fronting self.now live }
        ensures still { result.seeks ≡ false }
    {
        if self.living.is_none() {
            return Agenda::nothing();
        }
        match whole_frame(self.unread.bytes()) {
            Err(_) => Agenda::ending_by(EndCause::BadFrame, live),
            Ok(_) => Agenda::nothing(),
        }
    }

    /// Whether a whole frame stands at the front.
    pub(crate) fn has_word(&self) -> bool
        ensures { result ≡ deciding.has_word self.now }
    {
        self.living.is_some() && matches!(whole_frame(self.unread.bytes()), Ok(Some(_)))
    }

    /// The payload of the frame at the front.
    pub(crate) fn payload(&self) -> Option<Wanted<'_>>
        ensures value { option_map wanted_of result ≡ judging.payload_in self.now }
        ensures short { IfSome result (λ wanted. length wanted.payload.now ≤ 65536) }
    {
        if self.living.is_none() {
            return None;
        }
        match whole_frame(self.unread.bytes()) {
            Ok(Some(len)) => Some(Wanted {
                dialect: self.dialect(),
                payload: &self.unread.bytes()[8..8 + len],
            }),
            _ => None,
        }
    }

    /// A connection came at this moment.
    fn open(&mut self, at: u64)
        ensures { self.new ≡ Some (first_session at) }
    {
        self.unread.clear();
        self.living = Some(Living::new(at));
    }

    /// The session is over.
    pub(crate) fn close(&mut self)
        ensures { self.new ≡ None }
    {
        self.living = None;
    }

    /// What is heard while a session lives, with its bytes.
    fn listen(&mut self, event: &CarEvent, bytes: &[u8])
        requires lives { is_some self.old ≡ true }
        requires short { length bytes.now ≤ 4096 }
        requires read { IsReadOut self.old }
        ensures { self.new ≡ option_map (hearings.heard_in (event_of event.now bytes.now)) self.old }
    {
        self.unread.feed(brought(event, bytes));
        if let Some(living) = &mut self.living {
            living.stop = stop_heard(event, living.stop);
        }
    }

    /// What is heard, with its bytes. A connection opens a session where none stands.
    pub(crate) fn hear(&mut self, now: u64, event: &CarEvent, bytes: &[u8])
        requires short { length bytes.now ≤ 4096 }
        requires read { IsReadOut self.old }
        ensures { self.new ≡ hearings.session_heard (event_of event.now bytes.now) now self.old }
    {
        if self.lives() {
            self.listen(event, bytes);
        } else if let CarEvent::Came { .. } = event {
            self.open(now);
        }
    }

    /// What was said at this moment awaits its reply.
    pub(crate) fn await_reply(&mut self, now: u64)
        ensures { self.new ≡ option_map (acting.awaiting now) self.old }
    {
        if let Some(living) = &mut self.living {
            living.moments.sent = Some(now);
            living.again = None;
        }
    }

    /// The reply at the front uses up the row that awaits one, if there is one.
    pub(crate) fn step(&mut self, plan: &CarPlan, reply: &Reply) -> Option<Moved>
        requires { IsCarPlan plan.now }
        ensures rest { self.new ≡ option_map (at_stage None) self.old }
        ensures led { LeadsIn plan.now self.old reply.now result }
    {
        match &mut self.living {
            Some(living) => match living.row.take() {
                Some(row) => {
                    Some(row.step(reply, living.moments.sent.is_some(), living.stop, plan))
                }
                None => None,
            },
            None => None,
        }
    }

    /// This row awaits a reply.
    pub(crate) fn put(&mut self, row: Row)
        ensures { self.new ≡ option_map (at_stage (Some (stage_of row))) self.old }
    {
        if let Some(living) = &mut self.living {
            living.row = Some(row);
        }
    }

    /// The word at the front was read.
    pub(crate) fn pass(&mut self)
        ensures { self.new ≡ option_map judging.passed self.old }
    {
        self.unread.pass();
        if let Some(living) = &mut self.living {
            living.moments.sent = None;
        }
    }

    /// The request of the session's row is asked for the first time at this moment.
    pub(crate) fn begin(&mut self, now: u64)
        ensures { self.new ≡ option_map (begun_at now) self.old }
    {
        if let Some(living) = &mut self.living {
            living.moments.begun = now;
            living.again = None;
        }
    }

    /// The request of the session's row is asked once more at this moment, if ever.
    pub(crate) fn wait(&mut self, due: Option<u64>)
        ensures { self.new ≡ option_map (again_at due) self.old }
    {
        if let Some(living) = &mut self.living {
            living.again = due;
        }
    }
}
