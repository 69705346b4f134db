//! What is counted at both ends. A count stands still at the end of its type.

ghost use Rattle.std.specs.Prelude.{◌≡◌};
ghost use Rattle.evcc_machine.specs.Views.{judged_of};
ghost use Rattle.pair_ends.specs.Tallies as spec;

use charge_world::Order;
use evcc_machine::Judged;

/// What is counted at the station.
#[derive(Clone, Copy)]
pub struct PostTally {
    /// The hearings since the newest car came, its coming counted.
    pub hearings: u64,
    /// The number of the cause by which the session ended since then.
    pub cause: Option<u8>,
    /// The replies of all sessions.
    pub replies: u64,
    /// Their bytes, with the headers of their frames.
    pub bytes: u64,
    /// The orders to close that the charger took.
    pub closed: u64,
    /// The orders to open that the charger took.
    pub opened: u64,
}

/// What is counted at the newest car.
#[derive(Clone, Copy)]
pub struct CarTally {
    /// Its hearings, its coming counted.
    pub hearings: u64,
    /// The replies that it heard.
    pub exchanges: u32,
    /// The number of the cause by which it ended.
    pub cause: Option<u8>,
}

impl PostTally {
    /// Nothing.
    pub fn nothing() -> PostTally
        ensures { result ≡ spec.post_nothing }
    {
        PostTally {
            hearings: 0,
            cause: None,
            replies: 0,
            bytes: 0,
            closed: 0,
            opened: 0,
        }
    }

    /// A car came.
    pub(crate) fn begin(&mut self)
        ensures { self.new ≡ spec.post_begun self.old }
    {
        self.hearings = 1;
        self.cause = None;
    }

    /// The post heard something.
    pub(crate) fn hear(&mut self)
        ensures { self.new ≡ spec.post_heard self.old }
    {
        self.hearings = self.hearings.saturating_add(1);
    }

    /// An order was given.
    pub(crate) fn give(&mut self, order: &Order)
        ensures { self.new ≡ spec.post_gave order.now self.old }
    {
        match order {
            Order::Close => self.closed = self.closed.saturating_add(1),
            Order::Open => self.opened = self.opened.saturating_add(1),
            Order::Limits { .. } => {}
        }
    }

    /// A reply of so many bytes was sent.
    pub(crate) fn send(&mut self, n: usize)
        ensures { self.new ≡ spec.post_sent n self.old }
    {
        self.replies = self.replies.saturating_add(1);
        self.bytes = self.bytes.saturating_add(n as u64);
    }

    /// The session ended by the cause of this number.
    pub(crate) fn end(&mut self, cause: u8)
        ensures { self.new ≡ spec.post_ended cause self.old }
    {
        self.cause = Some(cause);
    }
}

impl CarTally {
    /// Before a car came.
    pub fn nothing() -> CarTally
        ensures { result ≡ spec.car_nothing }
    {
        CarTally {
            hearings: 0,
            exchanges: 0,
            cause: None,
        }
    }

    /// A car that just came.
    pub(crate) fn begun() -> CarTally
        ensures { result ≡ spec.car_begun }
    {
        CarTally {
            hearings: 1,
            exchanges: 0,
            cause: None,
        }
    }

    /// The car heard something.
    pub(crate) fn hear(&mut self)
        ensures { self.new ≡ spec.car_heard self.old }
    {
        self.hearings = self.hearings.saturating_add(1);
    }

    /// The car read a word.
    pub(crate) fn read(&mut self, judged: &Judged)
        ensures { self.new ≡ spec.car_read (judged_of judged.now) self.old }
    {
        if let Judged::Chosen(_) | Judged::Told(_) = judged {
            self.exchanges = self.exchanges.saturating_add(1);
        }
    }

    /// The car ended by the cause of this number.
    pub(crate) fn end(&mut self, cause: u8)
        ensures { self.new ≡ spec.car_ended cause self.old }
    {
        self.cause = Some(cause);
    }
}
