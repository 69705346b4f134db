//! What is kept of one post.

ghost use Rattle.std.specs.Prelude.{◌≡◌, ◌≤◌, ◌<◌, ℕ, min, max, nat_le, nat_lt, ◌&&◌, false, List, [], ◌∷◌, Option, Some, None, SomeIff};
ghost use Rattle.charge_world.specs.declared.entry.Entry.{Entry};
ghost use Rattle.session_timers.specs.Due.{never};
ghost use Rattle.session_timers.specs.Law.{span_of};
ghost use Rattle.session_rules.specs.Stages.{is_set_up};
ghost use Rattle.post_spec.specs.Causes.{running};
ghost use Rattle.post_spec.specs.Contactors.{standing};
ghost use Rattle.post_spec.specs.Course.{Talked, Course, facts_of};
ghost use Rattle.post_spec.specs.Facts as facts;
ghost use Rattle.post_spec.specs.Facts.{told_by};
ghost use Rattle.post_spec.specs.Sessions.{session, waits};
ghost use Rattle.post_spec.specs.Steps.{Seen, event_at};
ghost use Rattle.audit_sessions.specs.Changes as changes;
ghost use Rattle.audit_sessions.specs.Due.{counts_from, runs, reached_by, reached_in, IsReached};
ghost use Rattle.audit_sessions.specs.Values.{AreSeen, AreOf};

use charge_world::{Entry, Heard, IsolationLevel, Order, PilotState, PlantEvent, Tenths, What};
use session_words::{Facts, SessionId, Standing, Timeout};

/// A connection that came in the newest block.
#[derive(Clone, Copy)]
pub struct Arrival {
    /// When it came, in milliseconds.
    pub at: u64,
    /// Its token.
    pub token: u64,
}

/// The moments of a session, in milliseconds.
#[derive(Clone, Copy)]
pub struct Moments {
    /// The token of its connection.
    pub token: u64,
    /// When its connection came.
    pub came_at: u64,
    /// When its last reply was sent: 0 before the first.
    pub replied_at: u64,
    /// When Close was ordered and taken last: 0 before the first.
    pub closed_at: u64,
    /// A reply waits for the contactor.
    pub waits: bool,
}

/// What is kept of the session of a post and of its charger.
#[derive(Clone, Copy)]
pub struct SessionValues {
    /// The greatest moment heard so far, in milliseconds.
    pub moment: u64,
    /// A connection that came in the newest block.
    pub arrived: Option<Arrival>,
    /// The session, if one lives.
    pub session: Option<Moments>,
    /// The last state of the pilot.
    pub pilot: PilotState,
    /// What the isolation monitor found last since the newest connection.
    pub isolation: Option<IsolationLevel>,
    /// The voltage at the outlet.
    pub voltage: Tenths,
    /// The current at the outlet.
    pub current: Tenths,
    /// Somebody paid since a session ended last.
    pub paid: bool,
    /// Somebody asked to stop since the newest connection.
    pub stop: bool,
}

/// The connection of a post that came in a hearing at this moment.
fn arrival_at(post: u8, at: u64, what: &What) -> Option<Arrival>
    ensures { result ≡ changes.arrival_in at (event_at post what.now []) }
{
    match what {
        What::Came { post: of, token } => if *of == post {
            Some(Arrival { at, token: *token })
        } else {
            None
        },
        What::Bytes { .. }
        | What::Gone { .. }
        | What::Datagram { .. }
        | What::Plant { .. }
        | What::Tick
        | What::Over => None,
    }
}

impl Moments {
    /// Of a session that a connection opens.
    fn opened(arrival: &Arrival) -> Moments
        ensures { result ≡ record { token = arrival.now.token; came_at = arrival.now.at; replied_at = 0; closed_at = 0; waits = false } }
    {
        Moments {
            token: arrival.token,
            came_at: arrival.at,
            replied_at: 0,
            closed_at: 0,
            waits: false,
        }
    }

    /// Behind an order to the charger.
    fn ordered(self, given: Order, taken: bool, at: u64) -> Moments
        ensures { result ≡ changes.ordered given taken at self }
    {
        match (given, taken) {
            (Order::Close, true) => Moments {
                waits: true,
                closed_at: at,
                ..self
            },
            _ => self,
        }
    }

    /// Behind bytes on the connection.
    fn replied(self, at: u64) -> Moments
        ensures { result ≡ changes.replied at self }
    {
        Moments {
            waits: false,
            replied_at: at,
            ..self
        }
    }

    /// The deadline that runs, where SessionSetup was accepted, or wasn't.
    fn running(&self, set_up: bool) -> Timeout
        ensures { result ≡ runs set_up self.now }
    {
        match (set_up, self.waits) {
            (false, _) => Timeout::Setup,
            (true, false) => Timeout::Sequence,
            (true, true) => Timeout::Feedback,
        }
    }

    /// The moment from which a deadline counts.
    fn counts_from(&self, timeout: Timeout) -> u64
        ensures { result ≡ counts_from timeout self.now }
    {
        match timeout {
            Timeout::Setup => self.came_at,
            Timeout::Sequence => self.replied_at,
            Timeout::Feedback => self.closed_at,
        }
    }

    /// The deadline that is reached at this moment. One that would be at the last moment of all is none.
    fn reached(&self, set_up: bool, at: u64) -> Option<Timeout>
        ensures { result ≡ reached_by set_up at self.now }
    {
        let timeout = self.running(set_up);
        let due = self.counts_from(timeout).saturating_add(span_of(timeout));
        if is_due(due, at) { Some(timeout) } else { None }
    }
}

/// Whether that moment has come.
fn is_due(due: u64, at: u64) -> bool
    ensures { (sum : ℕ) → due ≡ min sum 18446744073709551615 → result ≡ (nat_le sum at && nat_lt sum never) }
{
    due <= at && due < u64::MAX
}

/// How long a deadline is, in milliseconds.
fn span_of(timeout: Timeout) -> u64
    ensures value { result ≡ span_of timeout }
    ensures bound { result ≤ 60000 }
{
    match timeout {
        Timeout::Setup => 18_000,
        Timeout::Sequence => 60_000,
        Timeout::Feedback => 3_000,
    }
}

impl SessionValues {
    /// Before any entry.
    pub fn new() -> SessionValues
        ensures value { result ≡ changes.at_first }
        ensures none { (post : ℕ) → AreOf post [] result }
    {
        SessionValues {
            moment: 0,
            arrived: None,
            session: None,
            pilot: PilotState::A,
            isolation: None,
            voltage: Tenths::exactly(0),
            current: Tenths::exactly(0),
            paid: false,
            stop: false,
        }
    }

    /// The session that the next hearing finds.
    fn opened(&self) -> Option<Moments>
        ensures { result ≡ changes.opened_by self.now.arrived self.now.session }
    {
        match &self.arrived {
            Some(arrival) => Some(Moments::opened(arrival)),
            None => self.session,
        }
    }

    /// With what the charger of this post told.
    fn told(self, post: u8, what: &What) -> SessionValues
        ensures { result ≡ changes.told_so (event_at post what.now []) self }
    {
        let What::Plant { post: at, event } = what else {
            return self;
        };
        if *at != post {
            return self;
        }
        match event {
            PlantEvent::Pilot(state) => SessionValues {
                pilot: *state,
                ..self
            },
            PlantEvent::Isolation(level) => SessionValues {
                isolation: Some(*level),
                ..self
            },
            PlantEvent::Measured { voltage, current } => SessionValues {
                voltage: *voltage,
                current: *current,
                ..self
            },
            PlantEvent::Paid => SessionValues { paid: true, ..self },
            PlantEvent::StopAsked => SessionValues { stop: true, ..self },
            PlantEvent::Feedback { .. } | PlantEvent::Emergency | PlantEvent::RenewAsked => self,
        }
    }

    /// Behind a hearing.
    fn heard(self, post: u8, heard: &Heard) -> SessionValues
        ensures { result ≡ changes.heard_by (max self.moment heard.now.at) (event_at post heard.now.what []) self }
    {
        let moment = self.moment.max(heard.at);
        let arrived = arrival_at(post, moment, &heard.what);
        let session = self.opened();
        let told = self.told(post, &heard.what);
        SessionValues {
            moment,
            session,
            isolation: if arrived.is_some() {
                None
            } else {
                told.isolation
            },
            stop: !arrived.is_some() && told.stop,
            arrived,
            ..told
        }
    }

    /// Behind an order to the charger.
    fn driven(self, given: Order, taken: bool) -> SessionValues
        ensures { result ≡ changes.driven given taken self }
    {
        let session = match self.session {
            Some(moments) => Some(moments.ordered(given, taken, self.moment)),
            None => None,
        };
        SessionValues { session, ..self }
    }

    /// Behind bytes on the connection.
    fn sent(self) -> SessionValues
        ensures { result ≡ changes.sent self }
    {
        let session = match self.session {
            Some(moments) => Some(moments.replied(self.moment)),
            None => None,
        };
        SessionValues { session, ..self }
    }

    /// Behind an entry, for the post of this number.
    fn then(self, post: u8, entry: &Entry) -> SessionValues
        ensures { result ≡ changes.behind post entry.now self }
    {
        match entry {
            Entry::Heard { heard, .. } => self.heard(post, heard),
            Entry::Sent { post: at, .. } => if *at == post { self.sent() } else { self },
            Entry::Drove {
                post: at,
                order,
                taken,
            } => if *at == post {
                self.driven(*order, *taken)
            } else {
                self
            },
            Entry::Ended { post: at, .. } => if *at == post {
                SessionValues {
                    session: None,
                    paid: false,
                    ..self
                }
            } else {
                self
            },
            Entry::Lost | Entry::Answered { .. } | Entry::Dialed { .. } => self,
        }
    }

    /// Behind an entry, the next of the trace, for the post of this number.
    pub fn behind(self, post: u8, entry: &Entry) -> SessionValues
        ensures { (past : List Entry) → AreOf post past self → AreOf post (entry.now ∷ past) result }
    {
        self.then(post, entry)
    }

    /// What a word is judged by, with how the contactor stands, and what was kept of paused sessions and of renegotiations.
    pub fn facts(
        &self,
        contactor: Standing,
        kept: Option<SessionId>,
        joined: bool,
        renew: bool,
    ) -> Facts
        ensures { (past : List Seen) (c : Course) → AreSeen past self.now → contactor ≡ standing past → kept ≡ c.kept → joined ≡ c.joined → renew ≡ c.renew
            → result ≡ facts_of past c }
    {
        Facts {
            pilot: self.pilot,
            isolation: self.isolation,
            voltage: self.voltage,
            current: self.current,
            paid: self.paid,
            stop: self.stop,
            contactor,
            kept,
            joined,
            renew,
        }
    }

    /// The deadline that the session has reached. SessionSetup was accepted in it (`set_up`), or wasn't.
    pub fn reached(&self, set_up: bool) -> Option<Timeout>
        ensures { (past es : List Seen) (talked : Talked) → AreSeen past self.now → session past ≡ Some es → is_set_up talked.stage.row ≡ set_up
            → SomeIff result (IsReached talked past es) (running set_up (waits es)) }
    {
        self.reached_now(set_up)
    }

    /// That deadline, off the values.
    fn reached_now(&self, set_up: bool) -> Option<Timeout>
        ensures { result ≡ reached_in set_up self.now.moment self.now.session }
    {
        match &self.session {
            Some(moments) => moments.reached(set_up, self.moment),
            None => None,
        }
    }
}
