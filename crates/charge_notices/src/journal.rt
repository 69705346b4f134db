//! What is counted of the sessions for those who watch.

ghost use Rattle.std.specs.Prelude.{◌≡◌};

use crate::frame::{Request, request_in};
use arrayvec::ArrayVec;
use charge_world::{Dialect, Heard, Order, What};

/// Each so manieth charging request is told of.
const EACH: u32 = 100;

/// What a post's charger, or a car's contactor, was ordered in a session, and how often it took it.
#[derive(Clone, Copy, Default)]
pub struct Tally {
    /// When the session began (milliseconds).
    pub since: u64,
    pub closes: u32,
    pub opens: u32,
    pub limits: u32,
    /// Orders that were not taken.
    pub failed: u32,
}

impl Tally {
    fn count(&mut self, order: Order, taken: bool) {
        let place = match order {
            _ if !taken => &mut self.failed,
            Order::Close => &mut self.closes,
            Order::Open => &mut self.opens,
            Order::Limits { .. } => &mut self.limits,
        };
        *place = place.saturating_add(1);
    }
}

/// What a car's request is told of.
#[derive(Clone, Copy)]
pub enum Progress {
    Negotiated(Dialect),
    Cycle(u32),
}

/// The tallies of the posts, the moment of what was heard last, and how many charging requests a car sent.
#[derive(Drop)]
pub struct Journal {
    posts: ArrayVec<Tally, 8>,
    at: u64,
    cycles: u32,
}

impl Journal {
    /// That of so many posts, 8 at most, at the start.
    pub fn new(posts: usize) -> Journal {
        let mut tallies = ArrayVec::new();
        for _ in 0..posts.min(8) {
            let _ = tallies.try_push(Tally::default());
        }
        Journal {
            posts: tallies,
            at: 0,
            cycles: 0,
        }
    }

    /// The moment of what was heard last (milliseconds).
    pub fn at(&self) -> u64 {
        self.at
    }

    fn tally(&mut self, post: u8) -> Option<&mut Tally> {
        self.posts.get_mut(usize::from(post).checked_sub(1)?)
    }

    /// Something was heard. Answers the post at which a connection began.
    pub fn heard(&mut self, heard: &Heard) -> Option<u8> {
        self.at = heard.at;
        let What::Came { post, .. } = heard.what else {
            return None;
        };
        let since = heard.at;
        if let Some(tally) = self.tally(post) {
            *tally = Tally {
                since,
                ..Tally::default()
            };
        }
        Some(post)
    }

    /// An order was given.
    pub fn drove(&mut self, post: u8, order: Order, taken: bool) {
        if let Some(tally) = self.tally(post) {
            tally.count(order, taken);
        }
    }

    /// A car sent these bytes.
    pub fn sent(&mut self, frame: &[u8]) -> Option<Progress> {
        match request_in(frame)? {
            Request::SessionSetup(dialect) => Some(Progress::Negotiated(dialect)),
            Request::Charging => {
                self.cycles = self.cycles.saturating_add(1);
                (self.cycles % EACH == 0).then_some(Progress::Cycle(self.cycles))
            }
        }
    }

    /// What is known of the session of a post.
    pub fn tally_of(&self, post: u8) -> Tally {
        match usize::from(post).checked_sub(1) {
            Some(place) => self.posts.get(place).copied().unwrap_or_default(),
            None => Tally::default(),
        }
    }
}
