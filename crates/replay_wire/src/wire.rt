//! The wire.

ghost use Rattle.std.specs.Prelude.{◌≡◌, ◌↔◌, ◌<◌, List, [], length, drop, Some, None, IsSome, IsOk, IfOk, OnOk, OnErr, true, is_ok};
ghost use Rattle.charge_world.specs.declared.entry.Entry.{Entry};
ghost use Rattle.charge_world.specs.declared.entry.Entry.TheVariants as variant;
ghost use Rattle.charge_world.specs.Outside.{Grows, posts_of, IsFault, bytes_of, IsOfPosts, HasCount};
ghost use Rattle.replay_wire.specs.Replays.{from_hearing, left_behind, hearing_of, last_moment, outcome_of, IsReplayOf, AllCanBeHeard};
ghost use Rattle.replay_wire.specs.Standing.{counted};
ghost use Rattle.replay_wire.specs.Telling.{IsCallOf, told_behind, with_hearing};

use crate::history::History;
use crate::places::{hear, hearing_place, moment_of, outcome_at, place_behind_call, posts_of};
use crate::told::Step;
use charge_world::{Entry, Failed, Heard, Order, Ports, What, Wire};
use std::marker::{Brand, Model, PhantomData};
use trace_text::Noted;

/// Names the trace that a wire replays, for proofs alone, so that calls which know the wire by its trait alone keep it.
pub trait Recorded {
    ghost use Rattle.std.specs.Prelude.{List};
    ghost use Rattle.charge_world.specs.declared.entry.Entry.{Entry};

    /// The entries of the trace, the oldest first.
    ghost entries: { List Entry };
}

impl Recorded for Brand {
    ghost entries = { [] };
}

/// A wire that replays a trace. Contracts see what is told of it; `replays` says what that has to do with the trace.
#[derive(Drop)]
pub struct ReplayWire<K: Recorded> {
    trace: Vec<Entry>,
    at: usize,
    last: u64,
    posts: u8,
    count: u64,
    started: Option<Ports>,
    history: History,
    recorded: PhantomData<K>,
}

impl<K: Recorded> Model for ReplayWire<K> {
    ghost use Rattle.replay_wire.specs.Standing.{Replaying, StandsAt};

    ghost Value = { Replaying };

    ghost view = { λ w. record { posts = w.posts; started = w.started; told = w.history.told } };

    ghost invariant = { λ w. StandsAt K.entries w.trace.items w.at w.last w.posts w.count w.history.told.past };
}

impl<K: Recorded> ReplayWire<K> {
    /// A wire that replays this trace, whose hearings are of so many posts.
    pub fn make(trace: Vec<Entry>, posts: u8) -> ReplayWire<K>
        requires trace { trace.items ≡ K.entries }
        requires heard { AllCanBeHeard posts trace.items }
        ensures { result ≡ record { posts = posts; started = None; told = record { past = []; untils = []; faults = 0 } } }
    {
        let last = moment_of(trace.as_slice());
        let at = hearing_place(trace.as_slice(), 0);
        ReplayWire {
            trace,
            at,
            last,
            posts,
            count: 0,
            started: None,
            history: History::new(),
            recorded: PhantomData,
        }
    }

    /// The past is heard off the trace, and its calls failed by the trace's marks. It does nothing: the wire is looked at for the prover, which
    /// so knows what its fields promise.
    pub fn replays(&self)
        ensures { IsReplayOf K.entries self.now.told.past }
    {
        let _ = &self.trace;
    }

    /// How many entries the past has; the count stands still at the end of its type.
    pub fn entries(&self) -> u64
        ensures { result ≡ counted self.now.told.past }
    {
        self.count
    }

    /// Whether the next call is taken.
    fn is_taken(&self) -> bool
        ensures { result ≡ outcome_of (left_behind K.entries self.now.told.past) }
    {
        outcome_at(self.trace.as_slice(), self.at)
    }

    /// Notes a call.
    fn note(&mut self, call: &Step<'_>)
        requires { IsCallOf K.entries (left_behind K.entries self.old.told.past) call.now }
        ensures { self.new ≡ record self.old { told = told_behind self.old.told call.now } }
    {
        let at = place_behind_call(self.trace.as_slice(), self.at);
        let history = self.history.then(call);
        self.at = at;
        self.count = self.count.saturating_add(1);
        self.history = history;
    }

    /// Hears the entry at this place of the trace.
    fn hear_at(&mut self, place: usize, until: u64, room: &mut [u8]) -> Result<Heard, Failed>
        requires room { length room.old ≡ 4096 }
        requires place { drop place K.entries ≡ from_hearing (left_behind K.entries self.old.told.past) }
        requires within { place < length K.entries }
        ensures heard { IfOk result (λ heard. self.new ≡ record self.old { told = with_hearing self.old.told (variant.Heard heard (bytes_of heard.what room.new)) until }) }
        ensures lost { OnErr result (self.new ≡ record self.old { told = with_hearing self.old.told variant.Lost until }) }
        ensures post { IfOk result (λ heard. IsOfPosts self.old.posts heard.what) }
        ensures count { IfOk result (λ heard. HasCount heard.what) }
    {
        let entry = &self.trace[place];
        let history = self.history.then(&Step::Heard(Noted::of(entry), until));
        let result = hear(entry, room);
        self.at = place + 1;
        self.count = self.count.saturating_add(1);
        self.history = history;
        result
    }

    /// That nothing more will be heard, at the last moment of the trace.
    fn over(&self) -> Heard
        ensures { result ≡ record { at = last_moment 0 K.entries; what = What.Over } }
    {
        Heard {
            at: self.last,
            what: What::Over,
        }
    }

    /// Hears that nothing more will be heard.
    fn hear_over(&mut self, until: u64)
        requires { from_hearing (left_behind K.entries self.old.told.past) ≡ [] }
        ensures { self.new ≡ record self.old { told = with_hearing self.old.told (hearing_of K.entries []) until } }
    {
        let heard = self.over();
        let history = self
            .history
            .then(&Step::Heard(Noted::Heard { heard, bytes: &[] }, until));
        self.at = self.trace.len();
        self.count = self.count.saturating_add(1);
        self.history = history;
    }
}

/// How a call went.
fn outcome(taken: bool) -> Result<(), Failed>
    ensures { is_ok result ≡ taken }
{
    if taken { Ok(()) } else { Err(Failed) }
}

impl<K: Recorded> Wire for ReplayWire<K> {
    ghost past = { λ w. Some w.told.past };

    ghost untils = { λ w. w.told.untils };

    ghost started = { λ w. w.started };

    ghost posts = { λ w. w.posts };

    ghost faults = { λ w. w.told.faults };

    fn start(&mut self, ports: &Ports) -> Result<(), Failed>
        ensures past { Grows (Some self.old.told.past) (Some self.new.told.past) [] }
        ensures untils { IsSome (Some self.new.told.past) → self.new.told.untils ≡ self.old.told.untils }
        ensures started { self.new.started ≡ Some ports.now }
        ensures posts { OnOk result (self.new.posts ≡ posts_of ports.now) }
        ensures faults { IsFault self.old.told.faults self.new.told.faults result }
        ensures same_posts { IsOk result ↔ (posts_of ports.now ≡ self.old.posts) }
    {
        self.started = Some(ports.copied());
        if posts_of(ports) == self.posts {
            return Ok(());
        }
        self.history = self.history.then(&Step::Refused);
        Err(Failed)
    }

    fn next(&mut self, until: u64, room: &mut [u8]) -> Result<Heard, Failed> {
        let place = hearing_place(self.trace.as_slice(), self.at);
        if place < self.trace.len() {
            self.hear_at(place, until, room)
        } else {
            self.hear_over(until);
            Ok(self.over())
        }
    }

    fn send(&mut self, post: u8, bytes: &[u8]) -> Result<(), Failed> {
        let taken = self.is_taken();
        self.note(&Step::Did(Noted::Sent { post, bytes, taken }));
        outcome(taken)
    }

    fn answer(&mut self, post: u8, bytes: &[u8]) -> Result<(), Failed> {
        let taken = self.is_taken();
        self.note(&Step::Did(Noted::Answered { post, bytes, taken }));
        outcome(taken)
    }

    fn drive(&mut self, post: u8, order: Order) -> Result<(), Failed> {
        let taken = self.is_taken();
        self.note(&Step::Did(Noted::Drove { post, order, taken }));
        outcome(taken)
    }

    fn dial(&mut self, port: u16) -> Result<(), Failed> {
        let taken = self.is_taken();
        self.note(&Step::Did(Noted::Dialed { port, taken }));
        outcome(taken)
    }

    fn end(&mut self, post: u8, cause: u8) {
        self.note(&Step::Did(Noted::Ended { post, cause }));
    }
}
