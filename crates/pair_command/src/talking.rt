//! A pair that talks, and the line of that.

ghost use Rattle.std.specs.Prelude.{IfOk, string_bytes};
ghost use Rattle.session_words.specs.Plans.{IsCarPlan, IsSitePlan};
ghost use Rattle.post_spec.specs.Codecs.{codecs};
ghost use Rattle.car_spec.specs.Codecs as car_codecs;
ghost use Rattle.command_status.specs.Told.{sink_told};
ghost use Rattle.pair_command.specs.Talking.{IsToldLine};
ghost use Rattle.pair_command.specs.Printing.{Printed};

use crate::plans::PairPlans;
use car_codec::CarCodec;
use charge_world::Sink;
use command_status::{Status, print_line};
use pair_plans::talk_line;
use pair_talk::NoMemory;
use site_codec::Codec;
use std::alloc::Global;

/// The line of the session of a station and a car of these plans over a pipe in memory, whose pieces are drawn behind this seed.
fn line_of<C: Codec + Drop, D: CarCodec + Drop>(
    alloc: Global,
    codec: C,
    car_codec: D,
    plans: &PairPlans,
    seed: u64,
) -> Result<String, NoMemory>
    requires station { IsSitePlan plans.now.station }
    requires car { IsCarPlan plans.now.car }
    ensures { IfOk result (λ line. IsToldLine (codecs C.negotiates C.reads C.encodes) (car_codecs.codecs D.offers D.responds D.reads D.encodes)
        plans.now.station plans.now.car seed (string_bytes line)) }
{
    let report = pair_talk::talk(alloc, codec, car_codec, &plans.station, &plans.car, seed)?;
    talk_line(alloc, report.exchanges, report.cause)
}

/// Lets a station and a car of these plans talk, with these codecs, and prints the line of that. Want of memory leaves all as it was.
pub(crate) fn print_talk<C: Codec + Drop, D: CarCodec + Drop, K: Sink>(
    alloc: Global,
    codec: C,
    car_codec: D,
    plans: &PairPlans,
    seed: u64,
    out: &mut K,
) -> Status
    requires station { IsSitePlan plans.now.station }
    requires car { IsCarPlan plans.now.car }
    ensures { Printed (IsToldLine (codecs C.negotiates C.reads C.encodes) (car_codecs.codecs D.offers D.responds D.reads D.encodes)
        plans.now.station plans.now.car seed) result (sink_told (K.taken out.old) (K.faults out.old)) (sink_told (K.taken out.new) (K.faults out.new)) }
{
    match line_of(alloc, codec, car_codec, plans, seed) {
        Ok(line) => print_line(out, line.as_str().as_bytes(), Status::Done),
        Err(_) => Status::NoMemory,
    }
}
