//! The orders by which serving ends: each live contactor is ordered open.

ghost use Rattle.std.specs.Prelude.{◌≡◌, ◌≤◌, List, length, map, IsSome};
ghost use Rattle.charge_world.specs.declared.entry.Entry.{Entry};
ghost use Rattle.station_spec.specs.Sharing.{Post};
ghost use Rattle.station_spec.specs.Runs.{Closes};
ghost use Rattle.site_posts.specs.Places.{place_of};
ghost use Rattle.site_serving.specs.Serving.{ClosesTo};
ghost use Rattle.endpoint.specs.Telling.{Carries, HasClosing};

use charge_world::{Order, Wire};
use site_posts::Place;

/// Orders open each post from place `from` on whose contactor is live, in order of number. No line is written.
pub fn close_unwritten<W: Wire>(places: &[Place], from: usize, wire: &mut W)
    requires few { length places.now ≤ 8 }
    requires from { from ≤ length places.now }
    ensures closed { (posts : List Post) (blocks : List Entry) → places.now ≡ map place_of posts → Carries (W.past wire.old) (W.past wire.new) (ClosesTo posts from blocks) (Closes 1 posts blocks) }
    ensures orders { (blocks : List Entry) → Carries (W.past wire.old) (W.past wire.new) (λ past. past ≡ blocks) (HasClosing blocks) }
    ensures untils { IsSome (W.past wire.new) → W.untils wire.new ≡ W.untils wire.old }
    ensures started { W.started wire.new ≡ W.started wire.old }
    ensures posts { W.posts wire.new ≡ W.posts wire.old }
    ensures faults { W.faults wire.old ≤ W.faults wire.new }
{
    for i in from..places.len() {
        let place = &places[i];
        if place.post.live() {
            let _ = wire.drive(i as u8 + 1, Order::Open);
        }
    }
}
