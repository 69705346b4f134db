//! The orders by which serving ends, with their lines.

ghost use Rattle.std.specs.Prelude.{◌≡◌, ◌≤◌, ◌<◌, ◌+◌, List, length, map, IsSome};
ghost use Rattle.charge_world.specs.declared.entry.Entry.{Entry};
ghost use Rattle.charge_world.specs.Outside.{IsFault};
ghost use Rattle.station_spec.specs.Sharing.{Post};
ghost use Rattle.station_spec.specs.Runs.{Closes};
ghost use Rattle.endpoint.specs.Telling.{Carries, CarriesText, HasClosing, IsTraced, IsWrittenSo, IsClosedSo};
ghost use Rattle.site_posts.specs.Places.{place_of};
ghost use Rattle.site_serving.specs.Serving.{ClosesTo};

use charge_world::{Sink, Wire};
use endpoint::{TraceFailed, TraceLines, open};
use site_posts::Place;
use site_serving::close_unwritten;

/// Orders the post at place i open where its contactor is live, and writes the order's line.
fn close_one<W: Wire, J: Sink>(
    places: &[Place],
    i: usize,
    hearing: u64,
    lines: &mut TraceLines,
    wire: &mut W,
    trace: &mut J,
) -> Result<(), TraceFailed>
    requires within { i < length places.now }
    requires few { length places.now ≤ 8 }
    ensures closed { (posts : List Post) (blocks : List Entry) → places.now ≡ map place_of posts → Carries (W.past wire.old) (W.past wire.new) (ClosesTo posts i blocks) (ClosesTo posts (i + 1) blocks) }
    ensures orders { (blocks : List Entry) → Carries (W.past wire.old) (W.past wire.new) (HasClosing blocks) (HasClosing blocks) }
    ensures traced { CarriesText (W.past wire.old) (W.past wire.new) (J.taken trace.old) (J.taken trace.new) (IsTraced hearing) (IsWrittenSo hearing result) }
    ensures writes { IsFault (J.faults trace.old) (J.faults trace.new) result }
    ensures untils { IsSome (W.past wire.new) → W.untils wire.new ≡ W.untils wire.old }
    ensures started { W.started wire.new ≡ W.started wire.old }
    ensures posts { W.posts wire.new ≡ W.posts wire.old }
    ensures faults { W.faults wire.old ≤ W.faults wire.new }
{
    let place = &places[i];
    if place.post.live() {
        open(i as u8 + 1, hearing, lines, wire, trace)
    } else {
        Ok(())
    }
}

/// Orders open each post whose contactor is live, in order of number, and writes the line of each order. Behind a line that couldn't be
/// written the orders go on without lines.
pub fn close_all<W: Wire, J: Sink>(
    places: &[Place],
    hearing: u64,
    lines: &mut TraceLines,
    wire: &mut W,
    trace: &mut J,
) -> Result<(), TraceFailed>
    requires few { length places.now ≤ 8 }
    ensures closed { (posts : List Post) (blocks : List Entry) → places.now ≡ map place_of posts → Carries (W.past wire.old) (W.past wire.new) (λ past. past ≡ blocks) (Closes 1 posts blocks) }
    ensures orders { (blocks : List Entry) → Carries (W.past wire.old) (W.past wire.new) (λ past. past ≡ blocks) (HasClosing blocks) }
    ensures traced { CarriesText (W.past wire.old) (W.past wire.new) (J.taken trace.old) (J.taken trace.new) (IsTraced hearing) (IsClosedSo hearing result) }
    ensures writes { IsFault (J.faults trace.old) (J.faults trace.new) result }
    ensures untils { IsSome (W.past wire.new) → W.untils wire.new ≡ W.untils wire.old }
    ensures started { W.started wire.new ≡ W.started wire.old }
    ensures posts { W.posts wire.new ≡ W.posts wire.old }
    ensures faults { W.faults wire.old ≤ W.faults wire.new }
{
    for i in 0..places.len() {
        match close_one(places, i, hearing, lines, wire, trace) {
            Ok(()) => {}
            Err(fault) => {
                close_unwritten(places, i + 1, wire);
                return Err(fault);
            }
        }
    }
    Ok(())
}

/// Orders open each post whose contactor is live, in order of number. No line is written.
pub fn cut_all<W: Wire>(places: &[Place], wire: &mut W)
    requires few { length places.now ≤ 8 }
    ensures closed { (posts : List Post) (blocks : List Entry) → places.now ≡ map place_of posts → Carries (W.past wire.old) (W.past wire.new) (λ past. past ≡ blocks) (Closes 1 posts blocks) }
    ensures orders { (blocks : List Entry) → Carries (W.past wire.old) (W.past wire.new) (λ past. past ≡ blocks) (HasClosing blocks) }
    ensures untils { IsSome (W.past wire.new) → W.untils wire.new ≡ W.untils wire.old }
    ensures started { W.started wire.new ≡ W.started wire.old }
    ensures posts { W.posts wire.new ≡ W.posts wire.old }
    ensures faults { W.faults wire.old ≤ W.faults wire.new }
{
    close_unwritten(places, 0, wire);
}
