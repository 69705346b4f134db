//! A car.

ghost use Rattle.std.specs.Prelude.{◌≡◌, ◌≤◌, IfOk, IfSome, is_some, length};
ghost use Rattle.std.specs.Option.{option_map};
ghost use Rattle.car_spec.specs.Judging as judging;
ghost use Rattle.car_spec.specs.States.{fresh, first};
ghost use Rattle.car_spec.specs.Until.{until};
ghost use Rattle.evcc_machine.specs.Views.{todo_of, wanted_of, dialect_in, stage_in};

use crate::NoMemory;
use crate::agenda::{Agenda, Todo};
use crate::event::CarEvent;
use crate::living::or_never;
use crate::slot::{SessionSlot, Wanted};
use car_rules::{CarDue, CarStage, Search, moment_of, next_request, search_due};
use charge_world::Dialect;
use heard_bytes::NewestPiece;
use session_words::CarPlan;
use std::alloc::Global;
use std::marker::Model;

/// Before the first hearing nothing is due; then the parts of a hearing, in order: the deadlines, the event, and the words with
/// what is due behind them.
#[derive(Clone, Copy)]
pub(crate) enum Part {
    Unheard,
    Timing,
    Eventing,
    Wording,
}

/// What a car keeps of what it heard and did. Contracts see the state of the definitions.
///
/// The plan is lent to each call that needs it, and has to be the same one for as long as the car goes on.
#[derive(Drop)]
pub struct Car {
    pub(crate) clock: u64,
    pub(crate) live: bool,
    pub(crate) slot: SessionSlot,
    pub(crate) search: Search,
    pub(crate) event: CarEvent,
    pub(crate) piece: NewestPiece,
    pub(crate) stood: bool,
    pub(crate) part: Part,
    pub(crate) agenda: Agenda,
    pub(crate) over: bool,
}

impl Model for Car {
    ghost use Rattle.std.specs.Prelude.{◌≡◌, ◌<◌, ◌≤◌, true};
    ghost use Rattle.car_spec.specs.States.{State};
    ghost use Rattle.evcc_machine.specs.Views.{event_of, part_of};

    ghost Value = { State };

    ghost view = { λ c. record {
      clock = c.clock;
      live = c.live;
      session = c.slot;
      search = c.search;
      event = event_of c.event c.piece;
      stood = c.stood;
      part = part_of c.part;
      agenda = c.agenda;
      over = c.over;
    } };

    ghost invariant = { λ c. (c.search.asked ≤ 50) × (c.agenda.seeks ≡ true → c.search.asked < 50) };
}

impl Car {
    /// A car that heard nothing yet. It takes all the memory that it will ever take: some 74 kB.
    pub fn make(alloc: Global) -> Result<Car, NoMemory>
        ensures { IfOk result (λ car. car ≡ fresh) }
    {
        let slot = SessionSlot::make(alloc)?;
        let piece = NewestPiece::make(alloc)?;
        Ok(Car {
            clock: 0,
            live: false,
            slot,
            search: Search::new(),
            event: CarEvent::Clock,
            piece,
            stood: false,
            part: Part::Unheard,
            agenda: Agenda::nothing(),
            over: false,
        })
    }

    /// The car is as one that heard nothing yet, in the memory that it has.
    pub fn renew(&mut self)
        ensures { self.new ≡ fresh }
    {
        self.slot.close();
        self.clock = 0;
        self.live = false;
        self.search = Search::new();
        self.event = CarEvent::Clock;
        self.stood = false;
        self.part = Part::Unheard;
        self.agenda = Agenda::nothing();
        self.over = false;
    }

    /// What is done first of what was decided.
    pub fn first(&self) -> Option<Todo<'_>>
        ensures { option_map todo_of result ≡ first self.now.agenda }
    {
        self.agenda.first()
    }

    /// The payload that has to be read now: there is one once all that was decided is done.
    pub fn wanted(&self) -> Option<Wanted<'_>>
        ensures value { option_map wanted_of result ≡ judging.wanted self.now }
        ensures short { IfSome result (λ wanted. length wanted.payload.now ≤ 65536) }
    {
        if self.agenda.is_done() {
            self.slot.payload()
        } else {
            None
        }
    }

    /// When a deadline, a repeated request or the next discovery request is due, in milliseconds; 2^64 - 1 is never.
    #[tactic(auto, using(crate::proofs::Dues::least_of))]
    pub fn next_due(&self, plan: &CarPlan) -> u64
        ensures { result ≡ until plan.now self.now }
    {
        let deadline = self
            .slot
            .due(plan)
            .min(moment_of(search_due(plan, &self.search)));
        let request = or_never(next_request(plan, &self.search));
        deadline.min(self.slot.again().min(request))
    }

    /// The dialect of the session; none where none lives, or where its negotiation hasn't matched.
    pub fn dialect(&self) -> Option<Dialect>
        ensures { result ≡ dialect_in self.now.session }
    {
        self.slot.dialect()
    }

    /// The stage of the session: the request whose reply is awaited, the identifier, the charging replies so far. None where no session
    /// lives, or where its negotiation hasn't matched.
    pub fn stage(&self) -> Option<CarStage>
        ensures { result ≡ stage_in self.now.session }
    {
        self.slot.stage()
    }

    /// Whether a session lives.
    pub fn in_session(&self) -> bool
        ensures { result ≡ is_some self.now.session }
    {
        self.slot.lives()
    }

    /// Whether the contactor is live: a Close was ordered, taken or failed, and no Open was taken since.
    pub fn live(&self) -> bool
        ensures { result ≡ self.now.live }
    {
        self.live
    }

    /// Whether the car has ended.
    pub fn is_over(&self) -> bool
        ensures { result ≡ self.now.over }
    {
        self.over
    }
}
