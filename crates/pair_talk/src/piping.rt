//! What the calls of a pipe do to its pair.

ghost use Rattle.std.specs.Prelude.{◌≡◌, ◌≤◌, ◌+◌, ◌^◌, List, true};
ghost use Rattle.session_words.specs.declared.plan.CarPlan.{CarPlan};
ghost use Rattle.post_spec.specs.Codecs.{codecs};
ghost use Rattle.car_spec.specs.Codecs as car_codecs;
ghost use Rattle.pipe_spec.specs.Histories.{Happening};
ghost use Rattle.pipe_spec.specs.Pasts.{station_heard};
ghost use Rattle.pipe_spec.specs.Turns.{Station, BothRest, is_over};
ghost use Rattle.pair_talk.specs.Acting.{HaveDone};
ghost use Rattle.pair_talk.specs.Keeping.{IsAt};
ghost use Rattle.pair_talk.specs.Lessening.{over_by};
ghost use Rattle.pair_talk.specs.Pipes.{IsGoing, IsWaiting, IsReadyBy, KeepsBy, TurnsBy, HasLeft, begun, causes_by};
ghost use Rattle.pair_talk.specs.Sides.{sides};
ghost use Rattle.pair_talk.specs.Turning.{last_hearing};

use crate::acting::answer;
use crate::heard::LastHeard;
use crate::pair::Pair;
use crate::parting::part;
use crate::turning::turn;
use car_codec::CarCodec;
use site_codec::Codec;

/// In front of the first turn of a session its car comes, and both ends do what that asks for.
pub(crate) fn begin<C: Codec, D: CarCodec>(
    codec: &mut C,
    car_codec: &mut D,
    pair: &mut Pair,
    has_come: bool,
)
    requires ready { IsReadyBy C.reads has_come (sides pair.old) }
    ensures begins { (st : Station) (plan : CarPlan) (h : List Happening) → KeepsBy has_come (codecs C.negotiates C.reads C.encodes) (car_codecs.codecs D.offers D.responds D.reads D.encodes) st plan h (sides pair.old)
        → HaveDone (codecs C.negotiates C.reads C.encodes) (car_codecs.codecs D.offers D.responds D.reads D.encodes) st plan (begun has_come plan h) (sides pair.new) }
    ensures going { IsGoing C.reads (sides pair.new) }
    ensures time { (sides pair.new).moment ≡ (sides pair.old).moment }
{
    if !has_come {
        pair.come();
        answer(codec, car_codec, pair);
    }
}

/// Makes a turn, unless the session is over.
pub(crate) fn turn_on<C: Codec, D: CarCodec>(
    codec: &mut C,
    car_codec: &mut D,
    pair: &mut Pair,
    last: &mut LastHeard,
)
    requires going { IsGoing C.reads (sides pair.old) }
    ensures turns { (st : Station) (plan : CarPlan) (h : List Happening) → IsAt (codecs C.negotiates C.reads C.encodes) (car_codecs.codecs D.offers D.responds D.reads D.encodes) st plan h (sides pair.old)
        → last_hearing last.old ≡ station_heard h
        → TurnsBy (is_over st h) (codecs C.negotiates C.reads C.encodes) (car_codecs.codecs D.offers D.responds D.reads D.encodes) st plan h (record { sides = sides pair.new; has_come = true; heard = last_hearing last.new }) }
    ensures going { IsGoing C.reads (sides pair.new) }
    ensures time { (sides pair.new).moment ≤ (sides pair.old).moment + 10 }
{
    if !pair.is_over() {
        *last = turn(codec, car_codec, pair);
    }
}

/// Behind a session that is over, its connection goes where the station's still stands.
pub(crate) fn leave<C: Codec, D: CarCodec>(codec: &mut C, pair: &mut Pair, has_come: bool)
    requires ready { IsReadyBy C.reads has_come (sides pair.old) }
    requires over { has_come ≡ true → over_by (sides pair.old) ≡ true }
    requires early { (sides pair.old).moment ≤ 2 ^ 62 }
    ensures leaves { (st : Station) (plan : CarPlan) (h : List Happening) → BothRest st h → KeepsBy has_come (codecs C.negotiates C.reads C.encodes) (car_codecs.codecs D.offers D.responds D.reads D.encodes) st plan h (sides pair.old)
        → HasLeft (codecs C.negotiates C.reads C.encodes) (car_codecs.codecs D.offers D.responds D.reads D.encodes) st h (sides pair.new) }
    ensures waiting { IsWaiting C.reads (sides pair.new) }
    ensures time { (sides pair.new).moment ≡ (sides pair.old).moment }
{
    if has_come {
        part::<C, D>(codec, pair);
    }
}

/// The numbers of the causes by which both ends have ended since the newest car came, 0 without one.
pub(crate) fn causes_of(pair: &Pair, has_come: bool) -> (u8, u8)
    ensures { result ≡ causes_by has_come (sides pair.now) }
{
    if !has_come {
        return (0, 0);
    }
    let station = pair.post.tally.cause.unwrap_or(0);
    let car = pair.car.tally.cause.unwrap_or(0);
    (station, car)
}
