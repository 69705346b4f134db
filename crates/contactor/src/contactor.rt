//! The contactor.

ghost use Rattle.std.specs.Prelude.{◌≡◌, IsTrue, List};
ghost use Rattle.charge_world.specs.declared.ports.Order.TheVariants as order;
ghost use Rattle.session_words.specs.declared.phase.Standing.TheVariants.{Opened};
ghost use Rattle.contactor.specs.Rights.{is_ready, is_safe};
ghost use Rattle.contactor.specs.Standing.{standing_of, is_live, is_against};
ghost use Rattle.contactor.specs.Calls.{Call, close, release, told, hears, acts_of, new_contactor, standing_heard, after, kept_after};

use crate::right::CloseRight;
use charge_world::Order;
use session_words::Standing;
use std::marker::Model;

/// Whether feedback is against the order by which a contactor stands.
fn is_against_order(standing: Standing, closed: bool) -> bool
    ensures { result ≡ is_against standing closed }
{
    match standing {
        Standing::Closed => !closed,
        Standing::Opened => closed,
        Standing::Closing | Standing::MustOpen | Standing::Opening => false,
    }
}

/// How a contactor stands behind feedback that it is closed, or open.
pub fn standing_behind(standing: Standing, closed: bool) -> Standing
    ensures { result ≡ standing_heard standing closed }
{
    match (standing, closed) {
        (Standing::Closing, true) => Standing::Closed,
        (Standing::Opening, false) => Standing::Opened,
        (Standing::Opened, true) => Standing::Opening,
        _ => standing,
    }
}

/// The contactor of one post, by the orders that were given and the feedback that was heard.
///
/// An order counts as taken until `told` says that it failed. Contracts see what is kept.
#[derive(Drop)]
pub struct Contactor {
    standing: Standing,
    live: bool,
    live_if_failed: bool,
    had_order: bool,
}

impl Model for Contactor {
    ghost use Rattle.contactor.specs.Calls.{Kept};

    ghost Value = { Kept };

    ghost view = { λ c. record { standing = c.standing; live = c.live; live_if_failed = c.live_if_failed; had_order = c.had_order } };
}

impl Contactor {
    /// A contactor that is open and had no order.
    pub fn new() -> Contactor
        ensures { result ≡ new_contactor }
    {
        Contactor {
            standing: Standing::Opened,
            live: false,
            live_if_failed: false,
            had_order: false,
        }
    }

    /// How it stands. An order that was just given counts as taken.
    pub fn state(&self) -> Standing
        ensures value { result ≡ self.now.standing }
        ensures whole { (calls : List Call) → self.now ≡ kept_after calls → result ≡ standing_of (acts_of calls) }
    {
        self.standing
    }

    /// Whether it is live: Close was ordered, taken or failed, and no Open was taken since.
    pub fn live(&self) -> bool
        ensures value { result ≡ self.now.live }
        ensures whole { (calls : List Call) → self.now ≡ kept_after calls → result ≡ is_live (acts_of calls) }
    {
        self.live
    }

    /// The order to close. It spends a right, whatever gave it, so its conditions held: the pilot was at C or D, and for
    /// DC the isolation was valid and the voltage at most 20.0 V off. The contactor must stand open.
    pub fn close(&mut self, right: CloseRight) -> Order
        requires { self.old.standing ≡ Opened }
        ensures kept { self.new ≡ after self.old close }
        ensures order { result ≡ order.Close }
        ensures pilot { IsTrue (is_ready right.pilot) }
        ensures check { IsTrue (is_safe right.check) }
    {
        right.spend();
        self.standing = Standing::Closing;
        self.live = true;
        self.live_if_failed = true;
        self.had_order = true;
        Order::Close
    }

    /// The order to open.
    pub fn release(&mut self) -> Order
        ensures kept { self.new ≡ after self.old release }
        ensures order { result ≡ order.Open }
    {
        self.standing = Standing::Opening;
        self.live_if_failed = self.live;
        self.live = false;
        self.had_order = true;
        Order::Open
    }

    /// Whether the charger took the last order. Without an order it says nothing.
    pub fn told(&mut self, taken: bool)
        ensures { self.new ≡ after self.old (told taken) }
    {
        if !taken && self.had_order {
            self.standing = Standing::MustOpen;
            self.live = self.live_if_failed;
        }
    }

    /// Hears the feedback of the auxiliary contact, and answers whether it is against the order: of open where the
    /// contactor is closed, of closed where it is open.
    pub fn feedback(&mut self, closed: bool) -> bool
        ensures kept { self.new ≡ after self.old (hears closed) }
        ensures against { result ≡ is_against self.old.standing closed }
        ensures whole { (calls : List Call) → self.old ≡ kept_after calls → result ≡ is_against (standing_of (acts_of calls)) closed }
    {
        let against = is_against_order(self.standing, closed);
        self.standing = standing_behind(self.standing, closed);
        against
    }
}
