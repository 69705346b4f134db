//! A pipe that is driven turn by turn.

ghost use Rattle.std.specs.Prelude.{◌≡◌, ◌<◌, ◌≤◌, ◌+◌, ◌^◌, List, ◌∷◌, true, false, IfOk};
ghost use Rattle.session_words.specs.declared.plan.CarPlan.{CarPlan};
ghost use Rattle.session_words.specs.Plans.{IsCarPlan, IsSitePlan};
ghost use Rattle.post_spec.specs.Codecs.{codecs};
ghost use Rattle.car_spec.specs.Codecs as car_codecs;
ghost use Rattle.pipe_spec.specs.Counts.{counts};
ghost use Rattle.pipe_spec.specs.Histories.{Happening, NumberIsDrawn};
ghost use Rattle.pipe_spec.specs.Numbers.{drawn};
ghost use Rattle.pipe_spec.specs.Turns.{Station};
ghost use Rattle.pair_talk.specs.Lessening.{over_by};
ghost use Rattle.pair_talk.specs.Pipes.{MayGoOn, MayBeRenewed, StandsFor, IsMade, Turns, Renews, begun, behind_draw, capped_counts, both_causes};
ghost use Rattle.pair_talk.specs.Turning.{heard_in, bytes_in};

use crate::NoMemory;
use crate::generating::counts_of;
use crate::heard::LastHeard;
use crate::pair::Pair;
use crate::piping::{begin, causes_of, leave, turn_on};
use car_codec::CarCodec;
use charge_world::{Heard, What};
use pair_plans::PipeCounts;
use session_words::{CarPlan, SitePlan};
use site_codec::Codec;
use std::alloc::Global;
use std::marker::Model;

/// A station and the cars that come to it one behind another, joined by a pipe in memory, with the codecs of both ends. Each turn is a call.
///
/// Contracts see both ends, whether a turn was made in this session, and what the station heard last. `StandsFor` says of what history that is.
#[derive(Drop)]
pub struct Pipe<C: Codec + Drop, D: CarCodec + Drop> {
    codec: C,
    car_codec: D,
    pair: Pair,
    has_come: bool,
    last: LastHeard,
}

impl<C: Codec + Drop, D: CarCodec + Drop> Model for Pipe<C, D> {
    ghost use Rattle.pair_talk.specs.Pipes.{PipeState, IsReadyBy};
    ghost use Rattle.pair_talk.specs.Sides.{sides};
    ghost use Rattle.pair_talk.specs.Turning.{last_hearing};

    ghost Value = { PipeState };

    ghost view = { λ p. record { sides = sides p.pair; has_come = p.has_come; heard = last_hearing p.last } };

    ghost invariant = { λ p. IsReadyBy C.reads p.has_come (sides p.pair) };
}

impl<C: Codec + Drop, D: CarCodec + Drop> Pipe<C, D> {
    /// A pipe between a station of this plan, whose first post is used alone, and a car; its pieces are drawn behind this seed. The car's ports
    /// are ignored.
    ///
    /// It takes all the memory that there is to take.
    pub fn make(
        alloc: Global,
        codec: C,
        car_codec: D,
        station: &SitePlan,
        car: &CarPlan,
        seed: u64,
    ) -> Result<Pipe<C, D>, NoMemory>
        requires station { IsSitePlan station.now }
        requires car { IsCarPlan car.now }
        ensures { IfOk result (IsMade (codecs C.negotiates C.reads C.encodes) (car_codecs.codecs D.offers D.responds D.reads D.encodes) station.now car.now seed) }
    {
        let pair = Pair::make(alloc, station, car, seed)?;
        Ok(Pipe {
            codec,
            car_codec,
            pair,
            has_come: false,
            last: LastHeard::of(0, What::Came { post: 1, token: 1 }),
        })
    }

    /// Makes a turn, in front of which the car comes where none was made in this session; answers whether the session is over. One that is over
    /// as its car has come (by `turns`) has no turn but that.
    pub fn turn(&mut self) -> bool
        requires { MayGoOn self.old }
        ensures turns { (st : Station) (plan : CarPlan) (h : List Happening) → StandsFor (codecs C.negotiates C.reads C.encodes) (car_codecs.codecs D.offers D.responds D.reads D.encodes) st plan h self.old
            → Turns (codecs C.negotiates C.reads C.encodes) (car_codecs.codecs D.offers D.responds D.reads D.encodes) st plan (begun self.old.has_come plan h) self.new }
        ensures over { result ≡ over_by self.new.sides }
        ensures come { self.new.has_come ≡ true }
        ensures time { self.new.sides.moment ≤ self.old.sides.moment + 10 }
    {
        begin(
            &mut self.codec,
            &mut self.car_codec,
            &mut self.pair,
            self.has_come,
        );
        self.has_come = true;
        turn_on(
            &mut self.codec,
            &mut self.car_codec,
            &mut self.pair,
            &mut self.last,
        );
        self.pair.is_over()
    }

    /// The next car has this plan. Behind a session that is over, the station hears that its connection has gone, where its own session still
    /// stands; the car comes with the next turn. In front of the first turn of a session, its car is replaced.
    ///
    /// The clock must not be past 2^62 ms, so that it never outgrows its type.
    pub fn renew(&mut self, car: &CarPlan)
        requires plan { IsCarPlan car.now }
        requires may { MayBeRenewed self.old }
        requires early { self.old.sides.moment ≤ 2 ^ 62 }
        ensures renews { (st : Station) (plan : CarPlan) (h : List Happening) → StandsFor (codecs C.negotiates C.reads C.encodes) (car_codecs.codecs D.offers D.responds D.reads D.encodes) st plan h self.old
            → Renews (codecs C.negotiates C.reads C.encodes) (car_codecs.codecs D.offers D.responds D.reads D.encodes) st car.now h self.new }
        ensures waits { self.new.has_come ≡ false }
        ensures time { self.new.sides.moment ≡ self.old.sides.moment }
    {
        leave::<C, D>(&mut self.codec, &mut self.pair, self.has_come);
        self.pair.take(car);
        self.has_come = false;
        self.last = LastHeard::of(self.pair.moment, What::Came { post: 1, token: 1 });
    }

    /// Draws the next number below `n`, as the lengths of the pieces are drawn.
    pub fn draw(&mut self, n: u32) -> u32
        requires { 0 < n }
        ensures number { result ≡ drawn n self.old.sides.number }
        ensures state { self.new ≡ behind_draw self.old }
        ensures draws { (st : Station) (plan : CarPlan) (h : List Happening) → StandsFor (codecs C.negotiates C.reads C.encodes) (car_codecs.codecs D.offers D.responds D.reads D.encodes) st plan h self.old
            → StandsFor (codecs C.negotiates C.reads C.encodes) (car_codecs.codecs D.offers D.responds D.reads D.encodes) st plan (NumberIsDrawn ∷ h) self.new }
    {
        self.pair.numbers.draw(n)
    }

    /// What was counted over all turns.
    pub fn counts(&self) -> PipeCounts
        ensures { (st : Station) (plan : CarPlan) (h : List Happening) → StandsFor (codecs C.negotiates C.reads C.encodes) (car_codecs.codecs D.offers D.responds D.reads D.encodes) st plan h self.now → result ≡ capped_counts (counts h) }
    {
        counts_of(&self.pair)
    }

    /// The numbers of the causes by which the station and the car have ended in this session, 0 without one.
    pub fn causes(&self) -> (u8, u8)
        ensures { (st : Station) (plan : CarPlan) (h : List Happening) → StandsFor (codecs C.negotiates C.reads C.encodes) (car_codecs.codecs D.offers D.responds D.reads D.encodes) st plan h self.now
            → result ≡ both_causes (begun self.now.has_come plan h) }
    {
        causes_of(&self.pair, self.has_come)
    }

    /// What the station heard in the last turn; in front of the first turn of a session, that its car comes. `None` where it heard nothing in
    /// the last turn.
    pub fn station_heard(&self) -> Option<Heard>
        ensures { result ≡ heard_in self.now.heard }
    {
        self.last.heard
    }

    /// The bytes of that hearing, none where it has none.
    pub fn station_bytes(&self) -> &[u8]
        ensures { result.now ≡ bytes_in self.now.heard }
    {
        self.last.told_bytes()
    }
}
