//! A site whose codecs read back what they write is served lawfully: safe, within its limit, and silent without a session. It serves the
//! cars that conform, and isolates its posts; each session ends by its first cause.
//!
//! Proved: `serve`, with codecs that are lawful: the past besides is lawful (`IsLawful`): safe, within the limit at every moment, silent
//! without a session, a list of blocks, and told by what each post keeps; no contactor is ordered open without a reason, and every cause opens
//! it; it serves each session that conforms, and isolates the posts where the run is whole; `law_of_sites`: so is every run of a site, whole or
//! cut.
#![tactic(auto)]

ghost use Rattle.std.specs.Prelude.{◌≡◌, ◌≤◌, ◌<◌, List, [], vec_len};
ghost use Rattle.charge_world.specs.declared.entry.Entry.{Entry};
ghost use Rattle.session_words.specs.declared.plan.SitePlan.{SitePlan};
ghost use Rattle.post_spec.specs.Codecs.{codecs};
ghost use Rattle.station_spec.specs.Runs.{IsCutRun};
ghost use Rattle.endpoint.specs.Telling.{Carries, CarriesText};
ghost use Rattle.site_core.specs.Ending.{AreMade, AreMadeOf, EndedAs, RanAs, TracedAs, AwaitedAs, AreCounts, AreFaults};
ghost use Rattle.site_laws.specs.Lawful.{IsLawful};

use applied_causes::caused_ends::{
    opens_at_first_causes, opens_for_a_reason, sessions_end_by_causes,
};
use applied_causes::opens_have_reasons::{every_cause_opens, opens_for_reasons};
use applied_causes::read_agendas::agendas_are_read;
use applied_causes::served_sessions::serves_conforming_sessions;
use applied_causes::{applied_causes_are_causes, applied_words_are_causes};
use blocks_of_runs::runs_are_blocks;
use charge_world::{Sink, Wire};
use coming_causes_open::opens_at_causes;
use failed_replies::no_failed_reply_while_live;
use isolated_runs::posts_are_isolated;
use mandated_runs::ends_as_mandated;
use read_streams::streams_are_read;
use safe_runs::{closes_as_mandated, ends_open, opens_again};
use silent_runs::sends_in_sessions;
use site_codec::LawfulCodec;
pub use site_core;
use site_core::{Ended, Site};
use spelled_watts::spelled_within_limit;
use station_laws::{runs_of_posts, told_within_limit};

/// Every run of a site, whole or cut, is lawful: safe, within its limit at every moment, silent without a session, and a list of blocks. Each
/// session that conforms is served, and a whole run isolates each post from the others.
pub fn law_of_sites<C: LawfulCodec>()
    ensures { (plan : SitePlan) (past : List Entry) → IsCutRun (codecs C.negotiates C.reads C.encodes) plan past → IsLawful (codecs C.negotiates C.reads C.encodes) plan past }
{
    closes_as_mandated::<C>();
    opens_again::<C>();
    ends_open::<C>();
    no_failed_reply_while_live::<C>();
    ends_as_mandated::<C>();
    opens_at_causes::<C>();
    every_cause_opens::<C>();
    opens_for_reasons::<C>();
    sessions_end_by_causes::<C>();
    applied_causes_are_causes::<C>();
    applied_words_are_causes::<C>();
    opens_at_first_causes::<C>();
    opens_for_a_reason::<C>();
    sends_in_sessions::<C>();
    spelled_within_limit::<C>();
    told_within_limit::<C>();
    runs_are_blocks::<C>();
    runs_of_posts::<C>();
    agendas_are_read::<C>();
    streams_are_read::<C>();
    serves_conforming_sessions::<C>();
    posts_are_isolated::<C>();
}

/// Serves as `serve` of `site_core` does. Where the wire tells its past, that is lawful, however serving ended.
pub fn serve<C: LawfulCodec, W: Wire, J: Sink>(
    wire: &mut W,
    trace: &mut J,
    site: &mut Site<C>,
) -> Ended
    requires made { AreMade site.old.places.items site.old.limit site.old.turns }
    requires posts { W.posts wire.old ≡ vec_len site.old.places }
    ensures run { (plan : SitePlan) → AreMadeOf plan site.old.places.items site.old.limit site.old.turns → Carries (W.past wire.old) (W.past wire.new) (λ past. past ≡ []) (RanAs (codecs C.negotiates C.reads C.encodes) plan result) }
    ensures lawful { (plan : SitePlan) → AreMadeOf plan site.old.places.items site.old.limit site.old.turns → Carries (W.past wire.old) (W.past wire.new) (λ past. past ≡ []) (IsLawful (codecs C.negotiates C.reads C.encodes) plan) }
    ensures ended { Carries (W.past wire.old) (W.past wire.new) (λ past. past ≡ []) (EndedAs site.old.turns result) }
    ensures trace { CarriesText (W.past wire.old) (W.past wire.new) (J.taken trace.old) (J.taken trace.new) (λ past text. (past ≡ []) × (text ≡ [])) (TracedAs result) }
    ensures untils { (plan : SitePlan) → AreMadeOf plan site.old.places.items site.old.limit site.old.turns → Carries (W.past wire.old) (W.past wire.new)
        (λ past. (past ≡ []) × (W.untils wire.old ≡ [])) (AwaitedAs (codecs C.negotiates C.reads C.encodes) plan (W.untils wire.new)) }
    ensures reports { Carries (W.past wire.old) (W.past wire.new) (λ past. past ≡ []) (AreCounts site.new.places.items) }
    ensures count { vec_len site.new.places ≡ vec_len site.old.places }
    ensures started { W.started wire.new ≡ W.started wire.old }
    ensures posts { W.posts wire.new ≡ W.posts wire.old }
    ensures faults { W.faults wire.old ≤ W.faults wire.new }
    ensures lost { result ≡ Ended.Lost → W.faults wire.old < W.faults wire.new }
    ensures trace_fault { AreFaults (J.faults trace.old) (J.faults trace.new) result }
{
    law_of_sites::<C>();
    site_core::serve(wire, trace, site)
}
