//! When a car may close its contactor.

ghost use Rattle.std.specs.Prelude.{◌≡◌, ◌≤◌, None, IfSome, is_some};
ghost use Rattle.charge_world.specs.declared.ports.Order.TheVariants as order;
ghost use Rattle.car_rules.specs.Moves.{is_pre_charged};
ghost use Rattle.evcc_rows.specs.Rights.{off_in};

use charge_world::{Order, Tenths};
use session_words::Tell;
use std::marker::Model;

/// The right of a car to close its contactor once. It has to be spent, and exists only where its conditions held.
///
/// Contracts see, for direct current, how far the pre-charge was off its target, in tenths of a volt.
pub struct CloseRight {
    off: Option<u32>,
}

impl Model for CloseRight {
    ghost use Rattle.std.specs.Prelude.{ℕ, Option, ◌≤◌, IfSome};

    ghost Value = { Option ℕ };

    ghost view = { λ r. r.off };

    ghost invariant = { λ r. IfSome r.off (λ off. off ≤ 200) };
}

impl CloseRight {
    /// The right that a reply to PreCharge with this target gives, where its voltage is within 20.0 V of it, whatever unit it says.
    pub(crate) fn pre_charged(target: Tenths, tell: &Tell) -> Option<CloseRight>
        ensures given { is_some result ≡ is_pre_charged target tell.now }
        ensures off { IfSome result (λ right. right ≡ off_in target tell.now) }
    {
        let Tell::PreCharge { voltage, .. } = tell else {
            return None;
        };
        let off = voltage.size.abs_diff(u32::from(target.get()));
        if off <= 200 {
            Some(CloseRight { off: Some(off) })
        } else {
            None
        }
    }

    /// The right that an accepted PowerDelivery Start gives in alternating current.
    pub(crate) fn started() -> CloseRight
        ensures { result ≡ None }
    {
        CloseRight { off: None }
    }

    /// The order to close. It spends the right: whatever right it is, its conditions held.
    pub fn spend(self) -> Order
        ensures order { result ≡ order.Close }
        ensures near { IfSome self (λ off. off ≤ 200) }
    {
        let CloseRight { off: _ } = self;
        Order::Close
    }
}
