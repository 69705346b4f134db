//! A site that is served by a plan.

ghost use Rattle.std.specs.Prelude.{◌≡◌, ◌≢◌, ◌<◌, ◌⊎◌};
ghost use Rattle.session_words.specs.Plans.{IsSitePlan};
ghost use Rattle.post_spec.specs.Codecs.{codecs};
ghost use Rattle.site_laws.specs.Ending.{AreMadeOf};
ghost use Rattle.command_status.specs.Told.{sink_told};
ghost use Rattle.station_command.specs.Served.{wire_told, Serves, IsBegun};

use crate::lines::conclude;
use crate::ports::ports_of;
use charge_world::{Sink, Wire};
use command_status::{Status, tell_fault};
use session_words::SitePlan;
use site_codec::LawfulCodec;
use site_laws::serve;
use site_laws::site_core::Site;
use std::alloc::Global;

/// Serves a site that was just made of a plan, and prints its reports.
fn serve_site<C: LawfulCodec + Drop, K: Sink, J: Sink, W: Wire>(
    site: &mut Site<C>,
    plan: &SitePlan,
    out: &mut K,
    trace: &mut J,
    wire: &mut W,
) -> Status
    requires made { AreMadeOf plan.now site.old.places.items site.old.limit site.old.turns }
    ensures served { Serves (codecs C.negotiates C.reads C.encodes) plan.now result
        (wire_told (W.past wire.old) (W.untils wire.old) (W.started wire.old)) (wire_told (W.past wire.new) (W.untils wire.new) (W.started wire.new))
        (J.taken trace.old) (J.taken trace.new) (sink_told (K.taken out.old) (K.faults out.old)) (sink_told (K.taken out.new) (K.faults out.new)) }
    ensures begun { IsBegun result }
    ensures wire_fault { result ≡ Status.WireFault → W.faults wire.old < W.faults wire.new }
    ensures sink_fault { result ≡ Status.SinkFault → (K.faults out.old < K.faults out.new) ⊎ (J.faults trace.old < J.faults trace.new) }
    ensures trace_fault { J.faults trace.old < J.faults trace.new → result ≡ Status.SinkFault }
{
    if wire.start(&ports_of(plan)).is_err() {
        tell_fault(out, b"wire\n");
        return Status::WireFault;
    }
    let ended = serve(wire, trace, site);
    conclude(ended, site, plan.post.len() as u8, out)
}

/// Makes a site of a plan, with these codecs, and serves it. Want of memory leaves all as it was.
pub(crate) fn serve_plan<C: LawfulCodec + Drop, K: Sink, J: Sink, W: Wire>(
    alloc: Global,
    codec: C,
    plan: &SitePlan,
    out: &mut K,
    trace: &mut J,
    wire: &mut W,
) -> Status
    requires { IsSitePlan plan.now }
    ensures served { result ≢ Status.NoMemory → Serves (codecs C.negotiates C.reads C.encodes) plan.now result
        (wire_told (W.past wire.old) (W.untils wire.old) (W.started wire.old)) (wire_told (W.past wire.new) (W.untils wire.new) (W.started wire.new))
        (J.taken trace.old) (J.taken trace.new) (sink_told (K.taken out.old) (K.faults out.old)) (sink_told (K.taken out.new) (K.faults out.new)) }
    ensures begun { (result ≡ Status.NoMemory) ⊎ IsBegun result }
    ensures no_memory { result ≡ Status.NoMemory → (wire.new ≡ wire.old) × (trace.new ≡ trace.old) × (out.new ≡ out.old) }
    ensures wire_fault { result ≡ Status.WireFault → W.faults wire.old < W.faults wire.new }
    ensures sink_fault { result ≡ Status.SinkFault → (K.faults out.old < K.faults out.new) ⊎ (J.faults trace.old < J.faults trace.new) }
    ensures trace_fault { J.faults trace.old < J.faults trace.new → result ≡ Status.SinkFault }
{
    match Site::make(alloc, codec, plan) {
        Ok(mut site) => serve_site(&mut site, plan, out, trace, wire),
        Err(_) => Status::NoMemory,
    }
}
