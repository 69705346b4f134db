//! What orders leave of a contactor, for a post as for a car.

ghost use Rattle.std.specs.Prelude.{◌≡◌};
ghost use Rattle.station_spec.specs.Acting.{live_ordered};
ghost use Rattle.station_spec.specs.Deciding.{opening_if};

use charge_world::Order;

/// The order that opens a contactor, where it is live.
pub fn opening_if(live: bool) -> Option<Order>
    ensures { result ≡ opening_if live }
{
    if live { Some(Order::Open) } else { None }
}

/// Whether the contactor is live behind an order that was taken, or failed.
pub fn live_behind(order: &Order, taken: bool, live: bool) -> bool
    ensures { result ≡ live_ordered order.now taken live }
{
    match order {
        Order::Open => live && !taken,
        Order::Close => true,
        Order::Limits { .. } => live,
    }
}
