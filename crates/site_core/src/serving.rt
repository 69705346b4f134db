//! Serving.

ghost use Rattle.std.specs.Prelude.{◌≡◌, ◌≤◌, ◌<◌, [], vec_len};
ghost use Rattle.session_words.specs.declared.plan.SitePlan.{SitePlan};
ghost use Rattle.post_spec.specs.Codecs.{codecs};
ghost use Rattle.endpoint.specs.Telling.{Carries, CarriesText};
ghost use Rattle.site_turns.specs.Ending.{AreMade, AreMadeOf, EndedAs, RanAs, TracedAs, AwaitedAs, AreCounts, AreFaults};

use crate::site::Site;
use charge_world::{Sink, Wire};
use end_turns::{Ended, run};
use endpoint::SoFar;
use site_codec::Codec;
use station_laws::runs_of_posts;

/// Serves a site that was just made, on a wire that was started with its posts, until the wire says Over, a hearing fails, a line of the
/// trace can't be written, or the last turn is made. At the end each post whose contactor is live is ordered open.
///
/// Where the wire tells its past, that is a run of the site by its plan (`run`), cut where a line couldn't be written; it ended as the
/// answer says (`ended`); each `until` is the least moment at which a post is due (`untils`); and the reports count it (`reports`). Where the
/// trace tells its bytes, they are the text of the past, or a front of it where a line couldn't be written (`trace`). `Lost` comes only
/// where the wire failed, and `TraceFault` exactly where the trace did. No call takes memory.
pub fn serve<C: Codec, W: Wire, J: Sink>(wire: &mut W, trace: &mut J, site: &mut Site<C>) -> Ended
    requires made { AreMade site.old.places.items site.old.limit site.old.turns }
    requires posts { W.posts wire.old ≡ vec_len site.old.places }
    ensures run { (plan : SitePlan) → AreMadeOf plan site.old.places.items site.old.limit site.old.turns → Carries (W.past wire.old) (W.past wire.new) (λ past. past ≡ []) (RanAs (codecs C.negotiates C.reads C.encodes) plan result) }
    ensures ended { Carries (W.past wire.old) (W.past wire.new) (λ past. past ≡ []) (EndedAs site.old.turns result) }
    ensures trace { CarriesText (W.past wire.old) (W.past wire.new) (J.taken trace.old) (J.taken trace.new) (λ past text. (past ≡ []) × (text ≡ [])) (TracedAs result) }
    ensures untils { (plan : SitePlan) → AreMadeOf plan site.old.places.items site.old.limit site.old.turns → Carries (W.past wire.old) (W.past wire.new)
        (λ past. (past ≡ []) × (W.untils wire.old ≡ [])) (AwaitedAs (codecs C.negotiates C.reads C.encodes) plan (W.untils wire.new)) }
    ensures reports { Carries (W.past wire.old) (W.past wire.new) (λ past. past ≡ []) (AreCounts site.new.places.items) }
    ensures count { vec_len site.new.places ≡ vec_len site.old.places }
    ensures started { W.started wire.new ≡ W.started wire.old }
    ensures posts { W.posts wire.new ≡ W.posts wire.old }
    ensures faults { W.faults wire.old ≤ W.faults wire.new }
    ensures lost { result ≡ Ended.Lost → W.faults wire.old < W.faults wire.new }
    ensures trace_fault { AreFaults (J.faults trace.old) (J.faults trace.new) result }
{
    runs_of_posts::<C>();
    let mut so_far = SoFar::nothing();
    let ended = run(site, &mut so_far, wire, trace);
    site.so_far = so_far;
    ended
}
