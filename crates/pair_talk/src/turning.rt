//! Turns.

ghost use Rattle.std.specs.Prelude.{◌≡◌, ◌<◌, ◌≤◌, ◌+◌, ◌^◌, List, false, true};
ghost use Rattle.session_words.specs.declared.plan.CarPlan.{CarPlan};
ghost use Rattle.plant_sim.specs.Charger.{NoneReached};
ghost use Rattle.post_spec.specs.Codecs.{codecs};
ghost use Rattle.car_spec.specs.Codecs as car_codecs;
ghost use Rattle.pipe_spec.specs.Histories.{Happening};
ghost use Rattle.pipe_spec.specs.Turns.{Station};
ghost use Rattle.pair_talk.specs.Keeping.{AreSound, PostIsQuiet, CarIsQuiet, IsAt};
ghost use Rattle.pair_talk.specs.Lessening.{over_by, left, Lessens, IsInTime};
ghost use Rattle.pair_talk.specs.Sides.{sides};
ghost use Rattle.pair_talk.specs.Turning.{HasHeard, HasTurned, last_hearing};

use crate::acting::answer;
use crate::heard::LastHeard;
use crate::pair::Pair;
use car_codec::CarCodec;
use charge_world::What;
use endpoint::bound_event;
use site_codec::Codec;

/// Where the charger tells nothing, the next piece is heard, at the station first; where nothing is under way, time passes. Tells what the station heard.
fn pass_on<C: Codec, D: CarCodec>(pair: &mut Pair) -> LastHeard
    requires sound { AreSound C.reads (sides pair.old) }
    requires post { PostIsQuiet (sides pair.old) }
    requires car { CarIsQuiet (sides pair.old) }
    requires early { (sides pair.old).moment + 10 < 2 ^ 64 }
    requires goes_on { over_by (sides pair.old) ≡ false }
    ensures goes { (st : Station) (plan : CarPlan) (h : List Happening) → IsAt (codecs C.negotiates C.reads C.encodes) (car_codecs.codecs D.offers D.responds D.reads D.encodes) st plan h (sides pair.old)
        → NoneReached (sides pair.old).post.charger.moments (sides pair.old).moment → HasHeard (codecs C.negotiates C.reads C.encodes) (car_codecs.codecs D.offers D.responds D.reads D.encodes) st plan h (last_hearing result) (sides pair.new) }
    ensures sound { AreSound C.reads (sides pair.new) }
    ensures lessens { Lessens (sides pair.old) (sides pair.new) }
    ensures time { IsInTime (sides pair.old) (sides pair.new) }
    ensures pace { (sides pair.new).moment ≤ (sides pair.old).moment + 10 }
{
    if !pair.to_station.is_empty() {
        pair.station_hears()
    } else if !pair.to_car.is_empty() {
        pair.car_hears();
        LastHeard::nothing()
    } else {
        pair.wait();
        LastHeard::of(pair.moment, What::Tick)
    }
}

/// What happens next: the charger goes first. Tells what the station heard.
fn happen<C: Codec, D: CarCodec>(pair: &mut Pair) -> LastHeard
    requires sound { AreSound C.reads (sides pair.old) }
    requires post { PostIsQuiet (sides pair.old) }
    requires car { CarIsQuiet (sides pair.old) }
    requires early { (sides pair.old).moment + 10 < 2 ^ 64 }
    requires goes_on { over_by (sides pair.old) ≡ false }
    ensures goes { (st : Station) (plan : CarPlan) (h : List Happening) → IsAt (codecs C.negotiates C.reads C.encodes) (car_codecs.codecs D.offers D.responds D.reads D.encodes) st plan h (sides pair.old) → HasHeard (codecs C.negotiates C.reads C.encodes) (car_codecs.codecs D.offers D.responds D.reads D.encodes) st plan h (last_hearing result) (sides pair.new) }
    ensures sound { AreSound C.reads (sides pair.new) }
    ensures lessens { Lessens (sides pair.old) (sides pair.new) }
    ensures time { IsInTime (sides pair.old) (sides pair.new) }
    ensures pace { (sides pair.new).moment ≤ (sides pair.old).moment + 10 }
{
    match pair.post.charger.next(pair.moment) {
        Some(event) => {
            bound_event(&event);
            pair.tell(event);
            LastHeard::of(pair.moment, What::Plant { post: 1, event })
        }
        None => pass_on::<C, D>(pair),
    }
}

/// A turn: something more is heard, and both ends do all that they have to do about it. Tells what the station heard.
pub(crate) fn turn<C: Codec, D: CarCodec>(
    codec: &mut C,
    car_codec: &mut D,
    pair: &mut Pair,
) -> LastHeard
    requires sound { AreSound C.reads (sides pair.old) }
    requires post { PostIsQuiet (sides pair.old) }
    requires car { CarIsQuiet (sides pair.old) }
    requires early { (sides pair.old).moment + 10 < 2 ^ 64 }
    requires goes_on { over_by (sides pair.old) ≡ false }
    ensures goes { (st : Station) (plan : CarPlan) (h : List Happening) → IsAt (codecs C.negotiates C.reads C.encodes) (car_codecs.codecs D.offers D.responds D.reads D.encodes) st plan h (sides pair.old) → HasTurned (codecs C.negotiates C.reads C.encodes) (car_codecs.codecs D.offers D.responds D.reads D.encodes) st plan h (last_hearing result) (sides pair.new) }
    ensures sound { AreSound C.reads (sides pair.new) }
    ensures post { PostIsQuiet (sides pair.new) }
    ensures car { CarIsQuiet (sides pair.new) }
    ensures less { left (sides pair.new) < left (sides pair.old) }
    ensures time { IsInTime (sides pair.old) (sides pair.new) }
    ensures pace { (sides pair.new).moment ≤ (sides pair.old).moment + 10 }
{
    let last = happen::<C, D>(pair);
    answer(codec, car_codec, pair);
    last
}

impl Pair {
    /// Whether the session is over.
    pub(crate) fn is_over(&self) -> bool
        ensures { result ≡ over_by (sides self.now) }
    {
        let station = self.post.tally.cause.is_some();
        let car = self.car.tally.cause.is_some();
        let nothing = self.to_station.is_empty() && self.to_car.is_empty();
        (station && car)
            || self.turns <= self.post.tally.hearings
            || self.car.driver.plan.turns <= self.car.tally.hearings
            || ((station || car) && nothing)
    }
}
