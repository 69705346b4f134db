//! All that the posts do about what was heard.

ghost use Rattle.std.specs.Prelude.{◌≡◌, ◌≤◌, ◌<◌, ◌+◌, length, OnOk, IsSome, All};
ghost use Rattle.std.specs.List.{AllWithin};
ghost use Rattle.charge_world.specs.Outside.{IsFault};
ghost use Rattle.session_words.specs.declared.plan.SitePlan.{SitePlan};
ghost use Rattle.post_spec.specs.Codecs.{codecs};
ghost use Rattle.endpoint.specs.Knowing.{Known};
ghost use Rattle.endpoint.specs.Telling.{Carries, CarriesText, IsTraced, IsWrittenSo};
ghost use Rattle.site_posts.specs.Places.{RestsAt};
ghost use Rattle.site_acts.specs.Serving.{IsReady, InBlock};

use charge_world::{Sink, Wire};
use endpoint::{Desk, TraceFailed};
use site_acts::act;
use site_codec::Codec;
use site_posts::Place;

/// Does all that post i has to do.
fn answer<C: Codec, W: Wire, J: Sink>(
    desk: &mut Desk<C>,
    places: &mut [Place],
    i: usize,
    limit: u32,
    hearing: u64,
    wire: &mut W,
    trace: &mut J,
) -> Result<(), TraceFailed>
    requires within { i < length places.old }
    requires few { length places.old ≤ 8 }
    requires ready { All (IsReady C.reads) places.old }
    requires quiet { AllWithin RestsAt places.old 0 i }
    ensures carried { (site : SitePlan) (k : Known) → site.limit ≡ limit → Carries (W.past wire.old) (W.past wire.new)
        (InBlock (codecs C.negotiates C.reads C.encodes) site k places.old) (InBlock (codecs C.negotiates C.reads C.encodes) site k places.new) }
    ensures traced { CarriesText (W.past wire.old) (W.past wire.new) (J.taken trace.old) (J.taken trace.new) (IsTraced hearing) (IsWrittenSo hearing result) }
    ensures ready { All (IsReady C.reads) places.new }
    ensures quiet { OnOk result (AllWithin RestsAt places.new 0 (i + 1)) }
    ensures writes { IsFault (J.faults trace.old) (J.faults trace.new) result }
    ensures untils { IsSome (W.past wire.new) → W.untils wire.new ≡ W.untils wire.old }
    ensures started { W.started wire.new ≡ W.started wire.old }
    ensures posts { W.posts wire.new ≡ W.posts wire.old }
    ensures faults { W.faults wire.old ≤ W.faults wire.new }
{
    while act(desk, places, i, limit, hearing, wire, trace)? {}
    Ok(())
}

/// Does all that the posts have to do, in order of number.
pub fn answer_all<C: Codec, W: Wire, J: Sink>(
    desk: &mut Desk<C>,
    places: &mut [Place],
    limit: u32,
    hearing: u64,
    wire: &mut W,
    trace: &mut J,
) -> Result<(), TraceFailed>
    requires few { length places.old ≤ 8 }
    requires ready { All (IsReady C.reads) places.old }
    ensures carried { (site : SitePlan) (k : Known) → site.limit ≡ limit → Carries (W.past wire.old) (W.past wire.new)
        (InBlock (codecs C.negotiates C.reads C.encodes) site k places.old) (InBlock (codecs C.negotiates C.reads C.encodes) site k places.new) }
    ensures traced { CarriesText (W.past wire.old) (W.past wire.new) (J.taken trace.old) (J.taken trace.new) (IsTraced hearing) (IsWrittenSo hearing result) }
    ensures ready { All (IsReady C.reads) places.new }
    ensures quiet { OnOk result (All RestsAt places.new) }
    ensures writes { IsFault (J.faults trace.old) (J.faults trace.new) result }
    ensures untils { IsSome (W.past wire.new) → W.untils wire.new ≡ W.untils wire.old }
    ensures started { W.started wire.new ≡ W.started wire.old }
    ensures posts { W.posts wire.new ≡ W.posts wire.old }
    ensures faults { W.faults wire.old ≤ W.faults wire.new }
{
    for i in 0..places.len() {
        answer(desk, places, i, limit, hearing, wire, trace)?;
    }
    Ok(())
}
