//! The station's end.

ghost use Rattle.std.specs.Prelude.{◌≡◌, ◌≤◌, ◌<◌, MatchBool, List, ℕ, length, true};
ghost use Rattle.post_spec.specs.Codecs.{codecs};
ghost use Rattle.post_spec.specs.Steps.{event_at};
ghost use Rattle.station_spec.specs.Hearing.{hearing};
ghost use Rattle.station_spec.specs.Next.{IsQuiet};
ghost use Rattle.site_posts.specs.Filling.{at};
ghost use Rattle.site_posts.specs.Places.{RestsAt};
ghost use Rattle.site_posts.specs.Work.{work};
ghost use Rattle.site_acts.specs.Deeds.{act_of, IsFramed};
ghost use Rattle.site_acts.specs.Serving.{IsReady};
ghost use Rattle.pipe_spec.specs.Histories.{station_says};
ghost use Rattle.pair_ends.specs.Ends.{post_side, charger_behind, IsSent, IsReadySide, PostDoes, PostRests, post_heard_at, post_came_at};
ghost use Rattle.pair_ends.specs.Places.{AloneDoes, AloneRests};
ghost use Rattle.pair_ends.specs.Tallies.{post_did};

use crate::end::PostEnd;
use crate::tallies::PostTally;
use crate::way::Way;
use charge_world::{Heard, What};
use plant_sim::Sim;
use secc_machine::law_of_rest;
use site_acts::{Deed, keep, next_deed};
use site_codec::Codec;
use site_posts::{Place, hear_all};

/// What is done is carried out: the charger takes an order, and what is sent goes on its way.
fn carry_out(
    deed: &Deed,
    room: &[u8],
    charger: &mut Sim,
    tally: &mut PostTally,
    now: u64,
    way: &mut Way,
)
    requires room { length room.now ≡ 1032 }
    requires framed { IsFramed deed.now }
    ensures charger { charger.new ≡ charger_behind (act_of room.now deed.now) now charger.old }
    ensures tally { tally.new ≡ post_did (act_of room.now deed.now) tally.old }
    ensures short { length (station_says (act_of room.now deed.now)) ≤ 1032 }
    ensures sent { IsSent (station_says (act_of room.now deed.now)) way.old way.new }
{
    match deed {
        Deed::Answer(_) => {}
        Deed::Give(order) => {
            charger.order(*order, now);
            tally.give(order);
        }
        Deed::Send(n) => {
            way.send(&room[..*n]);
            tally.send(*n);
        }
        Deed::Finish(cause) => tally.end(cause.number()),
    }
}

/// The post that is alone does what it does next; `false` where it has nothing to do.
fn act_alone<C: Codec>(
    codec: &mut C,
    places: &mut [Place],
    limit: u32,
    room: &mut [u8],
    charger: &mut Sim,
    tally: &mut PostTally,
    now: u64,
    way: &mut Way,
) -> bool
    requires alone { length places.old ≡ 1 }
    requires room { length room.old ≡ 1032 }
    requires ready { IsReady C.reads (at places.old 0) }
    ensures goes { MatchBool result
        (AloneDoes (codecs C.negotiates C.reads C.encodes) limit now (at places.old 0) charger.old tally.old way.old (at places.new 0) charger.new tally.new way.new)
        (AloneRests (at places.old 0) charger.old tally.old way.old (at places.new 0) charger.new tally.new way.new) }
    ensures ready { IsReady C.reads (at places.new 0) }
    ensures work { result ≡ true → work (at places.new 0).post < work (at places.old 0).post }
{
    match next_deed(codec, places, 0, limit, room) {
        None => false,
        Some(deed) => {
            carry_out(&deed, room, charger, tally, now, way);
            keep(&mut places[0], &deed, true);
            true
        }
    }
}

/// The post does what it does next, at this moment (milliseconds); `false` where it has nothing to do.
pub fn act<C: Codec>(codec: &mut C, end: &mut PostEnd, now: u64, way: &mut Way) -> bool
    requires ready { IsReadySide C.reads (post_side end.old) }
    ensures goes { MatchBool result
        (PostDoes (codecs C.negotiates C.reads C.encodes) now (post_side end.old) way.old (post_side end.new) way.new)
        (PostRests (post_side end.old) way.old (post_side end.new) way.new) }
    ensures ready { IsReadySide C.reads (post_side end.new) }
    ensures work { result ≡ true → work (post_side end.new).post < work (post_side end.old).post }
{
    act_alone(
        codec,
        end.places.as_mut_slice(),
        end.limit,
        end.room.as_mut_slice(),
        &mut end.charger,
        &mut end.tally,
        now,
        way,
    )
}

/// The post that is alone hears this.
fn hear_alone(places: &mut [Place], now: u64, what: What, bytes: &[u8])
    requires alone { length places.old ≡ 1 }
    requires short { length bytes.now ≤ 4096 }
    requires rests { RestsAt (at places.old 0) }
    ensures plan { (at places.new 0).plan ≡ (at places.old 0).plan }
    ensures post { (at places.new 0).post ≡ hearing now (event_at 1 what bytes.now) (at places.old 0).post }
{
    law_of_rest();
    hear_all(places, now, &Heard { at: now, what }, bytes);
}

impl PostEnd {
    /// The post hears this at this moment (milliseconds), with these bytes. It has nothing left to do.
    pub fn hear(&mut self, now: u64, what: What, bytes: &[u8])
        requires short { length bytes.now ≤ 4096 }
        requires rests { IsQuiet (post_side self.old).plan (post_side self.old).post }
        ensures { post_side self.new ≡ post_heard_at now (event_at 1 what bytes.now) (post_side self.old) }
    {
        hear_alone(self.places.as_mut_slice(), now, what, bytes);
        self.tally.hear();
    }

    /// A car comes at this moment (milliseconds).
    pub fn come(&mut self, now: u64)
        requires { IsQuiet (post_side self.old).plan (post_side self.old).post }
        ensures { post_side self.new ≡ post_came_at now (post_side self.old) }
    {
        let came = What::Came { post: 1, token: 1 };
        hear_alone(self.places.as_mut_slice(), now, came, &[]);
        self.charger.came(now);
        self.tally.begin();
    }
}
