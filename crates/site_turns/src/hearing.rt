//! A hearing, and all that the posts do about it.

ghost use Rattle.std.specs.Prelude.{◌≡◌, ◌≤◌, ◌<◌, ◌+◌, ℕ, length, map, max, min, fold, false, IsSome, OnOk, All};
ghost use Rattle.charge_world.specs.declared.entry.Entry.TheVariants as entry;
ghost use Rattle.charge_world.specs.Outside.{IsFault, HasCount, IsOfPosts, bytes_of};
ghost use Rattle.session_timers.specs.Due.{never};
ghost use Rattle.session_words.specs.declared.plan.SitePlan.{SitePlan};
ghost use Rattle.post_spec.specs.Codecs.{codecs};
ghost use Rattle.station_spec.specs.Blocks.{IsHearing};
ghost use Rattle.endpoint.specs.Knowing.{Known, known_behind, AwaitsLine};
ghost use Rattle.endpoint.specs.Rooms.{FitsIn};
ghost use Rattle.endpoint.specs.Telling.{Carries, CarriesText, IsWrittenSo};
ghost use Rattle.site_posts.specs.Places.{RestsAt, HeardAll, due_at};
ghost use Rattle.site_acts.specs.Serving.{IsReady, InBlock};
ghost use Rattle.end_turns.specs.Turns.{Hears};

use charge_world::{Heard, Sink, Wire};
use endpoint::{Desk, TraceFailed, bound_heard, bytes_heard, write_heard};
use secc_machine::law_of_rest;
use site_codec::Codec;
use site_posts::{Place, hear_all};
use site_serving::answer_all;

/// Each post hears this, at this moment.
fn take_in(places: &mut [Place], now: u64, heard: &Heard, room: &[u8])
    requires few { length places.old ≤ 8 }
    requires room { FitsIn heard.now.what (length room.now) }
    requires count { HasCount heard.now.what }
    requires quiet { All RestsAt places.old }
    ensures heard { HeardAll now heard.now.what (bytes_of heard.now.what room.now) places.old places.new }
    ensures bounds { IsHearing heard.now (bytes_of heard.now.what room.now) }
{
    law_of_rest();
    bound_heard(heard, room);
    hear_all(places, now, heard, bytes_heard(heard.what, room));
}

/// Hears this at a site whose posts have nothing left to do, in the hearing of this number, by which the clock stands at `now`: writes its line, and
/// does all that the posts have to do about it, each deed with its line right behind its call. The bytes of a piece or a datagram are the first of
/// the room.
///
/// `TraceFailed` exactly where a line couldn't be written; nothing more is done then.
pub fn hear<C: Codec, W: Wire, J: Sink>(
    desk: &mut Desk<C>,
    places: &mut [Place],
    limit: u32,
    now: u64,
    hearing: u64,
    heard: &Heard,
    room: &[u8],
    wire: &mut W,
    trace: &mut J,
) -> Result<(), TraceFailed>
    requires few { length places.old ≤ 8 }
    requires room { FitsIn heard.now.what (length room.now) }
    requires count { HasCount heard.now.what }
    requires post { IsOfPosts (length places.old) heard.now.what }
    requires ready { All (IsReady C.reads) places.old }
    requires quiet { All RestsAt places.old }
    ensures carried { (plan : SitePlan) (k : Known) → plan.limit ≡ limit → k.last ≡ false → k.heard < plan.turns → max k.clock heard.now.at ≡ now → Carries (W.past wire.old) (W.past wire.new)
        (Hears (InBlock (codecs C.negotiates C.reads C.encodes) plan k places.old) heard.now (bytes_of heard.now.what room.now))
        (InBlock (codecs C.negotiates C.reads C.encodes) plan (known_behind k heard.now (bytes_of heard.now.what room.now) (fold min never (map due_at places.old))) places.new) }
    ensures traced { (n : ℕ) → hearing ≡ n + 1 → CarriesText (W.past wire.old) (W.past wire.new) (J.taken trace.old) (J.taken trace.new)
        (AwaitsLine n (entry.Heard heard.now (bytes_of heard.now.what room.now))) (IsWrittenSo hearing result) }
    ensures ready { All (IsReady C.reads) places.new }
    ensures quiet { OnOk result (All RestsAt places.new) }
    ensures writes { IsFault (J.faults trace.old) (J.faults trace.new) result }
    ensures untils { IsSome (W.past wire.new) → W.untils wire.new ≡ W.untils wire.old }
    ensures started { W.started wire.new ≡ W.started wire.old }
    ensures posts { W.posts wire.new ≡ W.posts wire.old }
    ensures faults { W.faults wire.old ≤ W.faults wire.new }
{
    take_in(places, now, heard, room);
    write_heard(&mut desk.lines, hearing, heard, room, trace)?;
    answer_all(desk, places, limit, hearing, wire, trace)
}
