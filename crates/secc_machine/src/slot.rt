//! The session of a post, in memory of its own.

ghost use Rattle.std.specs.Prelude.{◌≡◌, ◌≤◌, List, ℕ, Option, Some, None, [], length, is_some, IfOk, IfSome, min};
ghost use Rattle.std.specs.Option.{option_map};
ghost use Rattle.session_words.specs.Plans.{IsPostPlan};
ghost use Rattle.session_words.specs.declared.phase.Phase.TheVariants as row;
ghost use Rattle.session_timers.specs.Due.{never};
ghost use Rattle.session_timers.specs.Law.{span_of as span};
ghost use Rattle.v2gtp_frames.specs.Reading.{behind_front};
ghost use Rattle.station_spec.specs.States.{State, first_session};
ghost use Rattle.station_spec.specs.Deciding as deciding;
ghost use Rattle.station_spec.specs.Judging as judging;
ghost use Rattle.station_spec.specs.Acting as acting;
ghost use Rattle.station_spec.specs.Hearing as hearings;
ghost use Rattle.station_spec.specs.Sharing.{asked_in, told_in};
ghost use Rattle.station_spec.specs.Until.{due_in};
ghost use Rattle.valid_isolation.specs.Isolated.{IsIsolated};
ghost use Rattle.secc_machine.specs.Resting.{IsReadOut};
ghost use Rattle.secc_machine.specs.Views.{wanted_of, with_unread, chosen_session, dialect_in, unread_in, facts_in};

use crate::NoMemory;
use crate::agenda::Agenda;
use crate::post::first_facts;
use crate::ruling::ruled;
use charge_world::{Dialect, Order};
use heard_bytes::Unread;
use secc_rows::{Place, Row};
use session_rules::{Lowered, is_set_up, is_waiting, timeout_of};
use session_words::{EndCause, Facts, Phase, PostPlan, Request, SessionId, Timeout};
use std::alloc::Global;
use std::marker::Model;
use std::mem;
use v2gtp_frames::whole_frame;

/// A payload that has to be read now.
#[derive(Clone, Copy)]
pub struct Wanted<'a> {
    /// The dialect in which it is read; none where it is the negotiation's.
    pub dialect: Option<Dialect>,
    /// Its bytes, at most 65,536.
    pub payload: &'a [u8],
}

/// What is kept of a session that lives, beside its stream.
#[derive(Drop)]
pub(crate) struct Living {
    pub(crate) row: Row,
    /// The moment from which its deadline counts.
    pub(crate) since: u64,
    /// The watts that it asks for; 0 where it doesn't.
    pub(crate) asked: u32,
    pub(crate) lowered: Option<Lowered>,
}

/// The session of a post, if one lives. Contracts see it with what of its stream was not read yet.
#[derive(Drop)]
pub(crate) struct SessionSlot {
    living: Option<Living>,
    unread: Unread,
}

impl Model for SessionSlot {
    ghost use Rattle.std.specs.Prelude.{Option};
    ghost use Rattle.std.specs.Option.{option_map};
    ghost use Rattle.station_spec.specs.States.{Session};
    ghost use Rattle.secc_machine.specs.Views.{with_unread};

    ghost Value = { Option Session };

    ghost view = { λ s. option_map (with_unread s.unread) s.living };
}

/// How long a deadline is, in milliseconds.
fn span_of(timeout: Timeout) -> u64
    ensures { result ≡ span timeout }
{
    match timeout {
        Timeout::Setup => 18_000,
        Timeout::Sequence => 60_000,
        Timeout::Feedback => 3_000,
    }
}

/// The dialect in which the words of a session are read.
fn speaks(place: Place) -> Option<Dialect>
    ensures { result ≡ judging.speaks_in place.row place.dialect }
{
    match place.row {
        Phase::Connected => None,
        _ => Some(place.dialect),
    }
}

impl Living {
    /// When it is due, in milliseconds; 2^64 - 1 is never.
    fn due(&self) -> u64
        ensures { result ≡ min never (deciding.due (with_unread [] self.now)) }
    {
        self.since
            .saturating_add(span_of(timeout_of(self.row.place().row)))
    }

    /// Whether its deadline was reached.
    fn is_due(&self, now: u64) -> bool
        ensures { result ≡ deciding.is_reached (deciding.due (with_unread [] self.now)) now }
    {
        match self
            .since
            .checked_add(span_of(timeout_of(self.row.place().row)))
        {
            Some(moment) => moment <= now && moment < u64::MAX,
            None => false,
        }
    }
}

impl SessionSlot {
    /// No session. It takes the memory of a stream.
    pub(crate) fn make(alloc: Global) -> Result<SessionSlot, NoMemory>
        ensures { IfOk result (λ slot. slot ≡ None) }
    {
        Ok(SessionSlot {
            living: None,
            unread: Unread::make(alloc)?,
        })
    }

    /// What is kept of the session, if one lives.
    pub(crate) fn living(&self) -> Option<&Living>
        ensures { option_map (λ living. with_unread (unread_in self.now) living.now) result ≡ self.now }
    {
        self.living.as_ref()
    }

    /// The session's identifier, if one lives.
    pub(crate) fn name(&self) -> Option<SessionId>
        ensures { result ≡ option_map (λ session. session.stage.session) self.now }
    {
        match &self.living {
            Some(living) => Some(living.row.stage().session),
            None => None,
        }
    }

    /// The dialect of the session, once one was chosen.
    pub(crate) fn dialect(&self) -> Option<Dialect>
        ensures { result ≡ dialect_in self.now }
    {
        match &self.living {
            Some(living) => speaks(living.row.place()),
            None => None,
        }
    }

    /// Whether a session lives.
    pub(crate) fn lives(&self) -> bool
        ensures { result ≡ is_some self.now }
    {
        self.living.is_some()
    }

    /// The watts that the session asks for: none without one.
    pub(crate) fn asked(&self) -> u32
        ensures { result ≡ asked_in self.now }
    {
        match &self.living {
            Some(living) => living.asked,
            None => 0,
        }
    }

    /// The watts that its replies told last: none without one.
    pub(crate) fn told(&self) -> u32
        ensures { result ≡ told_in self.now }
    {
        match &self.living {
            Some(living) => living.row.place().told,
            None => 0,
        }
    }

    /// When the session is due: never without one.
    pub(crate) fn due(&self) -> u64
        ensures { result ≡ min never (due_in self.now) }
    {
        match &self.living {
            Some(living) => living.due(),
            None => u64::MAX,
        }
    }

    /// What the clock asks for.
    pub(crate) fn timing(&self, now: u64, live: bool) -> Agenda
        ensures { result ≡ deciding.timing self.now now live }
    {
        match &self.living {
            Some(living) if living.is_due(now) => {
                Agenda::ending_by(EndCause::from(timeout_of(living.row.place().row)), live)
            }
            _ => Agenda::nothing(),
        }
    }

    /// The end of the session, where one lives.
    pub(crate) fn ending(&self, cause: EndCause, live: bool) -> Agenda
        ensures { result ≡ deciding.ending_in self.now cause live }
    {
        match &self.living {
            Some(_) => Agenda::ending_by(cause, live),
            None => Agenda::nothing(),
        }
    }

    /// A fault of the frame at the front ends the session, and so does a whole frame while a reply waits.
    pub(crate) fn fronting(&self, live: bool) -> Agenda
        ensures { result ≡ deciding.fronting self.now live }
    {
        let Some(living) = &self.living else {
            return Agenda::nothing();
        };
        match whole_frame(self.unread.bytes()) {
            Err(_) => Agenda::ending_by(EndCause::BadFrame, live),
            Ok(Some(_)) if is_waiting(living.row.place().row) => {
                Agenda::ending_by(EndCause::Impatient, live)
            }
            Ok(_) => Agenda::nothing(),
        }
    }

    /// The payload of the frame at the front, where no reply waits.
    pub(crate) fn payload(&self) -> Option<Wanted<'_>>
        ensures value { option_map wanted_of result ≡ judging.payload_in self.now }
        ensures short { IfSome result (λ wanted. length wanted.payload.now ≤ 65536) }
    {
        let place = self.living.as_ref()?.row.place();
        if is_waiting(place.row) {
            return None;
        }
        match whole_frame(self.unread.bytes()) {
            Ok(Some(len)) => Some(Wanted {
                dialect: speaks(place),
                payload: &self.unread.bytes()[8..8 + len],
            }),
            _ => None,
        }
    }

    /// A connection with this token began at this moment.
    pub(crate) fn open(&mut self, token: u64, at: u64)
        ensures { self.new ≡ Some (first_session token at) }
    {
        self.unread.clear();
        self.living = Some(Living {
            row: Row::new(token),
            since: at,
            asked: 0,
            lowered: None,
        });
    }

    /// The session is over.
    pub(crate) fn close(&mut self)
        ensures { self.new ≡ None }
    {
        self.living = None;
    }

    /// Bytes came for the session, if one lives.
    pub(crate) fn feed(&mut self, bytes: &[u8])
        requires short { length bytes.now ≤ 4096 }
        requires read { IsReadOut self.old }
        ensures { self.new ≡ option_map (hearings.with_bytes bytes.now) self.old }
    {
        if self.living.is_some() {
            self.unread.feed(bytes);
        }
    }

    /// The frame at the front was read.
    pub(crate) fn pass(&mut self)
        ensures { self.new ≡ option_map judging.passed self.old }
    {
        self.unread.pass();
    }

    /// From a Close on its feedback is awaited.
    pub(crate) fn ordered(&mut self, now: u64, order: &Order)
        ensures { self.new ≡ option_map (acting.since_order now order.now) self.old }
    {
        if let (Some(living), Order::Close) = (&mut self.living, order) {
            living.since = now;
        }
    }

    /// A reply was sent at this moment.
    pub(crate) fn replied(&mut self, now: u64)
        ensures { self.new ≡ option_map (acting.replied now) self.old }
    {
        if let Some(living) = self.living.take() {
            self.living = Some(replied(living, now));
        }
    }

    /// A negotiation was read, and leads to the dialect that was chosen; where none was, to nothing.
    pub(crate) fn choose(&mut self, chosen: Option<Dialect>)
        requires { IfSome self.old (λ session. session.stage.row ≡ row.Connected) }
        ensures { self.new ≡ option_map (chosen_session chosen) self.old }
    {
        self.unread.pass();
        if let Some(living) = self.living.take() {
            self.living = Some(negotiated(living, chosen));
        }
    }

    /// A request of the session was read, where these watts are shown: what is to be done about it.
    pub(crate) fn answer(
        &mut self,
        facts: &mut Facts,
        now: u64,
        live: bool,
        plan: &PostPlan,
        request: &Request,
        shown: u32,
    ) -> Option<Agenda>
        requires plan { IsPostPlan plan.now }
        requires isolation { IsIsolated self.old facts.old.isolation }
        ensures session { (s : State) → s.facts ≡ facts.old → s.clock ≡ now
            → self.new ≡ option_map (λ session. judging.asked_session session plan.now s request.now shown) self.old }
        ensures facts { facts.new ≡ facts_in self.old facts.old plan.now request.now }
        ensures agenda { (s : State) → s.facts ≡ facts.old → s.live ≡ live
            → result ≡ option_map (λ session. judging.asked_agenda session plan.now s request.now shown) self.old }
    {
        self.unread.pass();
        let living = self.living.take()?;
        let known = mem::replace(facts, first_facts());
        let ruling = ruled(living, known, now, live, plan, request, shown);
        self.living = Some(ruling.living);
        *facts = ruling.facts;
        Some(ruling.agenda)
    }
}

/// What is kept behind a reply that was sent at this moment.
fn replied(living: Living, now: u64) -> Living
    ensures { (unread : List ℕ) → with_unread unread result ≡ acting.replied now (with_unread unread living) }
{
    let Living {
        row,
        since,
        asked,
        lowered,
    } = living;
    let since = if is_set_up(row.place().row) {
        now
    } else {
        since
    };
    Living {
        row: row.confirmed(),
        since,
        asked,
        lowered,
    }
}

/// What is kept behind a negotiation, which comes first.
fn negotiated(living: Living, chosen: Option<Dialect>) -> Living
    requires { living.row.row ≡ row.Connected }
    ensures { (unread : List ℕ)
        → with_unread (behind_front unread) result ≡ chosen_session chosen (with_unread unread living) }
{
    let Living {
        row,
        since,
        asked,
        lowered,
    } = living;
    let row = match chosen {
        Some(dialect) => row.negotiated(dialect),
        None => row,
    };
    Living {
        row,
        since,
        asked,
        lowered,
    }
}
