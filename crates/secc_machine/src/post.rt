//! A post.

ghost use Rattle.std.specs.Prelude.{◌≡◌, ◌≤◌, IfOk, IfSome, is_some, length, min};
ghost use Rattle.std.specs.Option.{option_map};
ghost use Rattle.session_timers.specs.Due.{never};
ghost use Rattle.station_spec.specs.States.{first_facts, fresh, first};
ghost use Rattle.station_spec.specs.Judging as judging;
ghost use Rattle.station_spec.specs.Sharing.{asked_in, told_in};
ghost use Rattle.station_spec.specs.Until.{due_behind};
ghost use Rattle.secc_machine.specs.Views.{todo_of, wanted_of, dialect_in};

use crate::NoMemory;
use crate::agenda::{Agenda, Todo};
use crate::event::PostEvent;
use crate::slot::{SessionSlot, Wanted};
use charge_world::{Dialect, PilotState, Tenths};
use heard_bytes::NewestPiece;
use session_words::{Facts, Standing};
use std::alloc::Global;
use std::marker::Model;

/// The parts of a hearing, in order: an Open that failed is repeated, the deadlines, the event, the words.
#[derive(Clone, Copy)]
pub(crate) enum Part {
    Repeating,
    Timing,
    Eventing,
    Wording,
}

/// What a post keeps of what it heard and did. Contracts see the state of the definitions.
#[derive(Drop)]
pub struct Post {
    pub(crate) clock: u64,
    pub(crate) facts: Facts,
    pub(crate) live: bool,
    pub(crate) slot: SessionSlot,
    pub(crate) arrived: Option<u64>,
    pub(crate) event: PostEvent,
    pub(crate) piece: NewestPiece,
    pub(crate) stood: Standing,
    pub(crate) part: Part,
    pub(crate) agenda: Agenda,
}

impl Model for Post {
    ghost use Rattle.station_spec.specs.States.{State};
    ghost use Rattle.secc_machine.specs.Views.{event_of, part_of};

    ghost Value = { State };

    ghost view = { λ p. record {
      clock = p.clock;
      facts = p.facts;
      live = p.live;
      session = p.slot;
      arrived = p.arrived;
      event = event_of p.event p.piece;
      stood = p.stood;
      part = part_of p.part;
      agenda = p.agenda;
    } };
}

/// What is known of a charger that told nothing yet.
pub(crate) fn first_facts() -> Facts
    ensures { result ≡ first_facts }
{
    Facts {
        pilot: PilotState::A,
        isolation: None,
        voltage: Tenths::exactly(0),
        current: Tenths::exactly(0),
        paid: false,
        stop: false,
        contactor: Standing::Opened,
        kept: None,
        joined: false,
        renew: false,
    }
}

impl Post {
    /// A post that heard nothing yet. It takes all the memory that it will ever take: some 74 kB.
    pub fn make(alloc: Global) -> Result<Post, NoMemory>
        ensures { IfOk result (λ post. post ≡ fresh) }
    {
        let slot = SessionSlot::make(alloc)?;
        let piece = NewestPiece::make(alloc)?;
        Ok(Post {
            clock: 0,
            facts: first_facts(),
            live: false,
            slot,
            arrived: None,
            event: PostEvent::Clock,
            piece,
            stood: Standing::Opened,
            part: Part::Wording,
            agenda: Agenda::nothing(),
        })
    }

    /// What is done first of what was decided.
    pub fn first(&self) -> Option<Todo<'_>>
        ensures { option_map todo_of result ≡ first self.now.agenda }
    {
        self.agenda.first()
    }

    /// The payload that has to be read now: there is one once all that was decided is done.
    pub fn wanted(&self) -> Option<Wanted<'_>>
        ensures value { option_map wanted_of result ≡ judging.wanted self.now }
        ensures short { IfSome result (λ wanted. length wanted.payload.now ≤ 65536) }
    {
        if self.agenda.is_done() {
            self.slot.payload()
        } else {
            None
        }
    }

    /// When the session is due that stands behind the newest hearing, in milliseconds; 2^64 - 1 is never.
    pub fn next_due(&self) -> u64
        ensures { result ≡ min never (due_behind self.now) }
    {
        match self.arrived {
            Some(_) => self.clock.saturating_add(18_000),
            None => self.slot.due(),
        }
    }

    /// The dialect of the session; none where none lives, or where its negotiation hasn't matched.
    pub fn dialect(&self) -> Option<Dialect>
        ensures { result ≡ dialect_in self.now.session }
    {
        self.slot.dialect()
    }

    /// Whether a session lives.
    pub fn in_session(&self) -> bool
        ensures { result ≡ is_some self.now.session }
    {
        self.slot.lives()
    }

    /// Whether the contactor is live: a Close was ordered, taken or failed, and no Open was taken since.
    pub fn live(&self) -> bool
        ensures { result ≡ self.now.live }
    {
        self.live
    }

    /// The watts that the session asks for; 0 where it doesn't, or where none lives.
    pub fn asked(&self) -> u32
        ensures { result ≡ asked_in self.now.session }
    {
        self.slot.asked()
    }

    /// The watts that the session's replies told last; 0 before, or where none lives.
    pub fn told(&self) -> u32
        ensures { result ≡ told_in self.now.session }
    {
        self.slot.told()
    }
}
