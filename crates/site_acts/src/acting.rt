//! What a post does next, done on the wire and in the trace.

ghost use Rattle.std.specs.Prelude.{◌≡◌, ◌≤◌, ◌<◌, ◌+◌, length, true, false, Ok, IsSome, All};
ghost use Rattle.std.specs.List.{AllWithin};
ghost use Rattle.charge_world.specs.Outside.{IsFault};
ghost use Rattle.session_words.specs.declared.plan.SitePlan.{SitePlan};
ghost use Rattle.post_spec.specs.Codecs.{codecs};
ghost use Rattle.endpoint.specs.Knowing.{Known};
ghost use Rattle.endpoint.specs.Telling.{Carries, CarriesText, IsTraced, IsWrittenSo};
ghost use Rattle.site_posts.specs.Places.{RestsAt};
ghost use Rattle.site_posts.specs.Filling.{at};
ghost use Rattle.site_posts.specs.Work.{work};
ghost use Rattle.site_acts.specs.Serving.{IsReady, InBlock};

use crate::choosing::next_deed;
use crate::deeds::keep;
use charge_world::{Sink, Wire};
use endpoint::{Desk, TraceFailed, done, perform};
use site_codec::Codec;
use site_posts::Place;

/// Does what post i does next; `false` where it has nothing to do.
pub fn act<C: Codec, W: Wire, J: Sink>(
    desk: &mut Desk<C>,
    places: &mut [Place],
    i: usize,
    limit: u32,
    hearing: u64,
    wire: &mut W,
    trace: &mut J,
) -> Result<bool, TraceFailed>
    requires within { i < length places.old }
    requires few { length places.old ≤ 8 }
    requires ready { All (IsReady C.reads) places.old }
    requires quiet { AllWithin RestsAt places.old 0 i }
    ensures carried { (site : SitePlan) (k : Known) → site.limit ≡ limit → Carries (W.past wire.old) (W.past wire.new)
        (InBlock (codecs C.negotiates C.reads C.encodes) site k places.old) (InBlock (codecs C.negotiates C.reads C.encodes) site k places.new) }
    ensures traced { CarriesText (W.past wire.old) (W.past wire.new) (J.taken trace.old) (J.taken trace.new) (IsTraced hearing) (IsWrittenSo hearing result) }
    ensures ready { All (IsReady C.reads) places.new }
    ensures quiet { AllWithin RestsAt places.new 0 i }
    ensures none { result ≡ Ok false → AllWithin RestsAt places.new 0 (i + 1) }
    ensures work { result ≡ Ok true → work (at places.new i).post < work (at places.old i).post }
    ensures writes { IsFault (J.faults trace.old) (J.faults trace.new) result }
    ensures untils { IsSome (W.past wire.new) → W.untils wire.new ≡ W.untils wire.old }
    ensures started { W.started wire.new ≡ W.started wire.old }
    ensures posts { W.posts wire.new ≡ W.posts wire.old }
    ensures faults { W.faults wire.old ≤ W.faults wire.new }
{
    match next_deed(&mut desk.codec, places, i, limit, desk.room.as_mut_slice()) {
        None => Ok(false),
        Some(deed) => {
            let call = deed.call(desk.room.as_slice());
            let outcome = perform(&call, i as u8 + 1, hearing, &mut desk.lines, wire, trace);
            keep(&mut places[i], &deed, outcome.taken);
            done(outcome.written)
        }
    }
}
