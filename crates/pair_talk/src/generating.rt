//! The sessions of a generated list.

ghost use Rattle.std.specs.Prelude.{◌≡◌, ◌≤◌, ◌+◌, ◌^◌, IfOk, ℕ};
ghost use Rattle.post_spec.specs.Codecs.{codecs};
ghost use Rattle.car_spec.specs.Codecs as car_codecs;
ghost use Rattle.pair_talk.specs.Generating.{AreHeld, AreCounts};
ghost use Rattle.pair_talk.specs.Keeping.{AreSound, PostIsQuiet};
ghost use Rattle.pair_talk.specs.Sides.{sides};

use crate::NoMemory;
use crate::pair::Pair;
use crate::parting::part;
use crate::session::hold_session;
use car_codec::CarCodec;
use pair_plans::{PipeCounts, drawn_car};
use site_codec::Codec;
use site_plan::{fixed, fixed_car};
use std::alloc::Global;

/// What was counted of the pair's sessions.
pub(crate) fn counts_of(pair: &Pair) -> PipeCounts
    ensures replies { result.replies ≡ (sides pair.now).post.tally.replies }
    ensures bytes { result.bytes ≡ (sides pair.now).post.tally.bytes }
    ensures closed { result.closed ≡ (sides pair.now).post.tally.closed }
    ensures opened { result.opened ≡ (sides pair.now).post.tally.opened }
{
    let tally = &pair.post.tally;
    PipeCounts {
        replies: tally.replies,
        bytes: tally.bytes,
        closed: tally.closed,
        opened: tally.opened,
    }
}

/// A pair of the plans without a file, whose first session is over. Its car is drawn, as that of each session is.
fn first_held<C: Codec, D: CarCodec>(
    alloc: Global,
    codec: &mut C,
    car_codec: &mut D,
    seed: u64,
) -> Result<Pair, NoMemory>
    ensures held { IfOk result (λ pair. AreHeld (codecs C.negotiates C.reads C.encodes) (car_codecs.codecs D.offers D.responds D.reads D.encodes) seed 1 (sides pair)) }
    ensures sound { IfOk result (λ pair. AreSound C.reads (sides pair)) }
    ensures quiet { IfOk result (λ pair. PostIsQuiet (sides pair)) }
{
    let mut pair = Pair::make(alloc, &fixed(false), &fixed_car(false), seed)?;
    let car = drawn_car(&mut pair.numbers);
    pair.take(&car);
    hold_session(codec, car_codec, &mut pair);
    Ok(pair)
}

/// One session more: its car is drawn, and comes once the connection of the session before has gone.
fn hold_next<C: Codec, D: CarCodec>(codec: &mut C, car_codec: &mut D, pair: &mut Pair)
    requires sound { AreSound C.reads (sides pair.old) }
    requires quiet { PostIsQuiet (sides pair.old) }
    requires early { (sides pair.old).moment ≤ 2 ^ 62 }
    ensures held { (seed count : ℕ) → AreHeld (codecs C.negotiates C.reads C.encodes) (car_codecs.codecs D.offers D.responds D.reads D.encodes) seed count (sides pair.old)
        → AreHeld (codecs C.negotiates C.reads C.encodes) (car_codecs.codecs D.offers D.responds D.reads D.encodes) seed (count + 1) (sides pair.new) }
    ensures sound { AreSound C.reads (sides pair.new) }
    ensures quiet { PostIsQuiet (sides pair.new) }
{
    let car = drawn_car(&mut pair.numbers);
    part::<C, D>(codec, pair);
    pair.take(&car);
    hold_session(codec, car_codec, pair);
}

/// Lets so many cars talk, one after another, with the station without a file over a pipe in memory, and counts what the station does. Each
/// is the car without a file, but for two numbers that are drawn behind this seed, as the pieces of the pipe are.
///
/// It takes all its memory before the first session.
pub fn generate<C: Codec + Drop, D: CarCodec + Drop>(
    alloc: Global,
    codec: C,
    car_codec: D,
    seed: u64,
    count: u32,
) -> Result<PipeCounts, NoMemory>
    requires some { 1 ≤ count }
    requires few { count ≤ 1000 }
    ensures { IfOk result (AreCounts (codecs C.negotiates C.reads C.encodes) (car_codecs.codecs D.offers D.responds D.reads D.encodes) seed count) }
{
    let mut codec = codec;
    let mut car_codec = car_codec;
    let mut pair = first_held(alloc, &mut codec, &mut car_codec, seed)?;
    for _held in 1..count {
        hold_next(&mut codec, &mut car_codec, &mut pair);
    }
    Ok(counts_of(&pair))
}
