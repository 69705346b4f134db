//! One session over the pipe.

ghost use Rattle.std.specs.Prelude.{◌≡◌, IfOk, unwrap_or};
ghost use Rattle.session_words.specs.Plans.{IsCarPlan, IsSitePlan};
ghost use Rattle.post_spec.specs.Codecs.{codecs};
ghost use Rattle.car_spec.specs.Codecs as car_codecs;
ghost use Rattle.pair_talk.specs.Reports.{IsTalk};
ghost use Rattle.pair_talk.specs.Sides.{sides};

use crate::NoMemory;
use crate::pair::Pair;
use crate::session::hold_session;
use car_codec::CarCodec;
use session_words::{CarPlan, SitePlan};
use site_codec::Codec;
use std::alloc::Global;

/// What is told of a session over the pipe.
#[derive(Drop)]
pub struct TalkReport {
    /// The replies that the car heard, the response to its offer counted.
    pub exchanges: u32,
    /// The number of the cause by which the car ended, 0 where it didn't.
    pub cause: u8,
}

/// What is told of the pair.
fn report_of(pair: &Pair) -> TalkReport
    ensures exchanges { result.exchanges ≡ (sides pair.now).car.tally.exchanges }
    ensures cause { result.cause ≡ unwrap_or (sides pair.now).car.tally.cause 0 }
{
    TalkReport {
        exchanges: pair.car.tally.exchanges,
        cause: pair.car.tally.cause.unwrap_or(0),
    }
}

/// Lets a station of this plan, whose first post is used alone, and a car talk over a pipe in memory, whose pieces are drawn behind this
/// seed, until their session is over. The car's ports are ignored.
///
/// It takes all its memory before the first turn.
pub fn talk<C: Codec + Drop, D: CarCodec + Drop>(
    alloc: Global,
    codec: C,
    car_codec: D,
    station: &SitePlan,
    car: &CarPlan,
    seed: u64,
) -> Result<TalkReport, NoMemory>
    requires station { IsSitePlan station.now }
    requires car { IsCarPlan car.now }
    ensures { IfOk result (IsTalk (codecs C.negotiates C.reads C.encodes) (car_codecs.codecs D.offers D.responds D.reads D.encodes) station.now car.now seed) }
{
    let mut codec = codec;
    let mut car_codec = car_codec;
    let mut pair = Pair::make(alloc, station, car, seed)?;
    hold_session(&mut codec, &mut car_codec, &mut pair);
    Ok(report_of(&pair))
}
