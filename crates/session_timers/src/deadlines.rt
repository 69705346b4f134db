//! The deadline that runs.

ghost use Rattle.std.specs.Prelude.{◌≡◌, true, false, List, [], ◌∷◌, Some, None};
ghost use Rattle.session_timers.specs.Due.{Call, came, set_up, replied, closing, stop, Moments, moments_of, due_of, capped, hit_of, next_of};

use session_words::Timeout;
use std::marker::Model;

/// What a post did last in its session. Moments are in milliseconds.
#[derive(Clone, Copy, Default)]
pub enum Last {
    /// No reply so far.
    #[default]
    Nothing,
    /// It sent a reply then.
    Replied(u64),
    /// It ordered its contactor closed then, and the reply waits for the feedback.
    Closing(u64),
}

/// A deadline that runs, and when it is due; 2^64 - 1 is never.
#[derive(Clone, Copy)]
struct Deadline {
    timeout: Timeout,
    moment: u64,
}

/// The deadlines of one post. All moments are in milliseconds.
///
/// Contracts see the moments from which they count.
#[derive(Drop)]
pub struct Deadlines {
    came: Option<u64>,
    set_up: bool,
    last: Last,
}

impl Model for Deadlines {
    ghost use Rattle.session_timers.specs.Due.{Moments};

    ghost Value = { Moments };

    ghost view = { λ d. record { came = d.came; set_up = d.set_up; last = d.last } };
}

impl Deadlines {
    /// The deadlines of a post before its first session: none.
    pub fn new() -> Deadlines
        ensures { result ≡ moments_of [] }
    {
        Deadlines {
            came: None,
            set_up: false,
            last: Last::Nothing,
        }
    }

    /// A session began with its connection.
    pub fn came(&mut self, now: u64)
        ensures moments { self.new ≡ record { came = Some now; set_up = false; last = Last.Nothing } }
        ensures calls { (calls : List Call) → self.old ≡ moments_of calls → self.new ≡ moments_of (came now ∷ calls) }
    {
        *self = Deadlines {
            came: Some(now),
            set_up: false,
            last: Last::Nothing,
        };
    }

    /// SessionSetup was accepted.
    pub fn set_up(&mut self)
        ensures moments { self.new ≡ record self.old { set_up = true } }
        ensures calls { (calls : List Call) → self.old ≡ moments_of calls → self.new ≡ moments_of (set_up ∷ calls) }
    {
        self.set_up = true;
    }

    /// A reply was sent, so none waits.
    pub fn replied(&mut self, now: u64)
        ensures moments { self.new ≡ record self.old { last = Last.Replied now } }
        ensures calls { (calls : List Call) → self.old ≡ moments_of calls → self.new ≡ moments_of (replied now ∷ calls) }
    {
        self.last = Last::Replied(now);
    }

    /// The contactor was ordered closed, and the reply waits for its feedback.
    pub fn closing(&mut self, now: u64)
        ensures moments { self.new ≡ record self.old { last = Last.Closing now } }
        ensures calls { (calls : List Call) → self.old ≡ moments_of calls → self.new ≡ moments_of (closing now ∷ calls) }
    {
        self.last = Last::Closing(now);
    }

    /// The session ended.
    pub fn stop(&mut self)
        ensures moments { self.new ≡ record { came = None; set_up = false; last = Last.Nothing } }
        ensures calls { (calls : List Call) → self.old ≡ moments_of calls → self.new ≡ moments_of (stop ∷ calls) }
    {
        *self = Deadlines::new();
    }

    /// The deadline that runs, if one does.
    fn running(&self) -> Option<Deadline>
        ensures { result ≡ capped (due_of self.now) }
    {
        let came = self.came?;
        if !self.set_up {
            return Some(Deadline {
                timeout: Timeout::Setup,
                moment: came.saturating_add(18_000),
            });
        }
        match self.last {
            Last::Nothing => None,
            Last::Replied(at) => Some(Deadline {
                timeout: Timeout::Sequence,
                moment: at.saturating_add(60_000),
            }),
            Last::Closing(at) => Some(Deadline {
                timeout: Timeout::Feedback,
                moment: at.saturating_add(3_000),
            }),
        }
    }

    /// The least moment at which a deadline is due; 2^64 - 1 where none ever is.
    pub fn next_due(&self) -> u64
        ensures { result ≡ next_of self.now }
    {
        match self.running() {
            Some(deadline) => deadline.moment,
            None => u64::MAX,
        }
    }

    /// The deadline that was reached by this moment, if one was. A moment of 2^64 - 1 or more is never reached.
    pub fn hit(&self, now: u64) -> Option<Timeout>
        ensures { result ≡ hit_of self.now now }
    {
        match self.running() {
            Some(deadline) if deadline.moment <= now && deadline.moment < u64::MAX => {
                Some(deadline.timeout)
            }
            _ => None,
        }
    }
}
