//! A car that is driven by a plan.

ghost use Rattle.std.specs.Prelude.{◌≡◌, ◌≢◌, ◌<◌, ◌⊎◌};
ghost use Rattle.session_words.specs.Plans.{IsCarPlan};
ghost use Rattle.car_spec.specs.Codecs.{codecs};
ghost use Rattle.car_core.specs.Made.{IsMadeOf};
ghost use Rattle.station_command.specs.Served.{wire_told, IsBegun};
ghost use Rattle.command_status.specs.Told.{sink_told};
ghost use Rattle.car_command.specs.Driven.{Drives};

use crate::lines::conclude;
use crate::ports::ports_of;
use car_codec::LawfulCarCodec;
use car_core::{CarSite, drive_car};
use charge_world::{Sink, Wire};
use command_status::{Status, tell_fault};
use session_words::CarPlan;
use std::alloc::Global;

/// Drives a car that was just made of a plan, and prints its report.
fn drive_site<C: LawfulCarCodec + Drop, K: Sink, J: Sink, W: Wire>(
    site: &mut CarSite<C>,
    plan: &CarPlan,
    out: &mut K,
    trace: &mut J,
    wire: &mut W,
) -> Status
    requires made { IsMadeOf plan.now site.old.driver }
    ensures driven { Drives (codecs C.offers C.responds C.reads C.encodes) plan.now result
        (wire_told (W.past wire.old) (W.untils wire.old) (W.started wire.old)) (wire_told (W.past wire.new) (W.untils wire.new) (W.started wire.new))
        (J.taken trace.old) (J.taken trace.new) (sink_told (K.taken out.old) (K.faults out.old)) (sink_told (K.taken out.new) (K.faults out.new)) }
    ensures begun { IsBegun result }
    ensures wire_fault { result ≡ Status.WireFault → W.faults wire.old < W.faults wire.new }
    ensures sink_fault { result ≡ Status.SinkFault → (K.faults out.old < K.faults out.new) ⊎ (J.faults trace.old < J.faults trace.new) }
    ensures trace_fault { J.faults trace.old < J.faults trace.new → result ≡ Status.SinkFault }
{
    if wire.start(&ports_of(plan)).is_err() {
        tell_fault(out, b"wire\n");
        return Status::WireFault;
    }
    let ended = drive_car(wire, trace, site);
    conclude(ended, &site.report(), out)
}

/// Makes a car of a plan, with these codecs, and drives it. Want of memory leaves all as it was.
pub(crate) fn drive_plan<C: LawfulCarCodec + Drop, K: Sink, J: Sink, W: Wire>(
    alloc: Global,
    codec: C,
    plan: &CarPlan,
    out: &mut K,
    trace: &mut J,
    wire: &mut W,
) -> Status
    requires { IsCarPlan plan.now }
    ensures driven { result ≢ Status.NoMemory → Drives (codecs C.offers C.responds C.reads C.encodes) plan.now result
        (wire_told (W.past wire.old) (W.untils wire.old) (W.started wire.old)) (wire_told (W.past wire.new) (W.untils wire.new) (W.started wire.new))
        (J.taken trace.old) (J.taken trace.new) (sink_told (K.taken out.old) (K.faults out.old)) (sink_told (K.taken out.new) (K.faults out.new)) }
    ensures begun { (result ≡ Status.NoMemory) ⊎ IsBegun result }
    ensures no_memory { result ≡ Status.NoMemory → (wire.new ≡ wire.old) × (trace.new ≡ trace.old) × (out.new ≡ out.old) }
    ensures wire_fault { result ≡ Status.WireFault → W.faults wire.old < W.faults wire.new }
    ensures sink_fault { result ≡ Status.SinkFault → (K.faults out.old < K.faults out.new) ⊎ (J.faults trace.old < J.faults trace.new) }
    ensures trace_fault { J.faults trace.old < J.faults trace.new → result ≡ Status.SinkFault }
{
    match CarSite::make(alloc, codec, plan) {
        Ok(mut site) => drive_site(&mut site, plan, out, trace, wire),
        Err(_) => Status::NoMemory,
    }
}
