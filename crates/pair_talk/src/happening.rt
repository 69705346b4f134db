//! What happens to a pair.

ghost use Rattle.std.specs.Prelude.{◌≡◌, ◌<◌, ◌^◌, ◌≤◌, ◌+◌, Some, length, take};
ghost use Rattle.charge_world.specs.declared.heard.What.TheVariants as what;
ghost use Rattle.car_spec.specs.Next.{IsQuiet};
ghost use Rattle.session_words.specs.Plans.{IsCarPlan};
ghost use Rattle.car_codec.specs.Requests.{IsPlan};
ghost use Rattle.pipe_spec.specs.Histories.{joined, ported};
ghost use Rattle.pipe_spec.specs.Pasts.{hearing_at};
ghost use Rattle.pair_talk.specs.Keeping.{PostIsQuiet, CarIsQuiet};
ghost use Rattle.pair_talk.specs.Sides.{sides, with_car, with_event, with_piece_at_station, with_piece_at_car, later, gone, with_plan, heard_by, piece_of};
ghost use Rattle.pair_talk.specs.Turning.{last_hearing};
ghost use Rattle.pair_ends.specs.Ends.{car_side};
ghost use Rattle.evcc_machine.specs.Views.{event_of};
ghost use Rattle.pipe_spec.specs.Numbers.{next};

use crate::heard::LastHeard;
use crate::making::{bound_car, plan_joined};
use crate::pair::Pair;
use charge_world::{PlantEvent, What};
use evcc_machine::CarEvent;
use pair_ends::{CarEnd, Way};
use pipe_spec::Numbers;
use session_words::CarPlan;

/// How many bytes of those under way are heard next.
fn piece_length(numbers: &mut Numbers, way: &Way) -> usize
    ensures within { result ≤ length way.now }
    ensures piece { take result way.now ≡ piece_of numbers.old way.now }
    ensures length { result ≡ length (piece_of numbers.old way.now) }
    ensures short { result ≤ 64 }
    ensures numbers { numbers.new ≡ next numbers.old }
{
    let drawn = numbers.draw(64) as usize;
    way.bytes().len().min(1 + drawn)
}

/// The car hears this. One that has ended hears nothing.
fn car_hears(car: &mut CarEnd, now: u64, event: CarEvent, bytes: &[u8])
    requires short { length bytes.now ≤ 4096 }
    requires rests { IsQuiet car.old.driver.plan car.old.driver.car }
    ensures { car_side car.new ≡ heard_by now (event_of event bytes.now) (car_side car.old) }
{
    if !car.driver.car.is_over() {
        car.hear(now, event, bytes);
    }
}

impl Pair {
    /// A car comes.
    pub(crate) fn come(&mut self)
        requires { PostIsQuiet (sides self.old) }
        ensures { sides self.new ≡ with_car (sides self.old) }
    {
        self.to_station.clear();
        self.to_car.clear();
        self.post.come(self.moment);
        self.car.come(self.moment);
    }

    /// The charger tells this.
    pub(crate) fn tell(&mut self, event: PlantEvent)
        requires { PostIsQuiet (sides self.old) }
        ensures { sides self.new ≡ with_event event (sides self.old).post.charger (sides self.old) }
    {
        self.post
            .hear(self.moment, What::Plant { post: 1, event }, &[]);
    }

    /// The station hears the next piece of what is under way to it.
    pub(crate) fn station_hears(&mut self) -> LastHeard
        requires { PostIsQuiet (sides self.old) }
        ensures sides { sides self.new ≡ with_piece_at_station (sides self.old) }
        ensures heard { let bytes = piece_of (sides self.old).number (sides self.old).to_station in
            last_hearing result ≡ Some (hearing_at (sides self.old).moment (what.Bytes 1 (length bytes)) bytes) }
    {
        let n = piece_length(&mut self.numbers, &self.to_station);
        let piece = &self.to_station.bytes()[..n];
        let last = LastHeard::of_bytes(self.moment, piece);
        let what = What::Bytes {
            post: 1,
            n: n as u32,
        };
        self.post.hear(self.moment, what, piece);
        self.to_station.pass(n);
        last
    }

    /// The car hears the next piece of what is under way to it.
    pub(crate) fn car_hears(&mut self)
        requires { CarIsQuiet (sides self.old) }
        ensures { sides self.new ≡ with_piece_at_car (sides self.old) }
    {
        let n = piece_length(&mut self.numbers, &self.to_car);
        car_hears(
            &mut self.car,
            self.moment,
            CarEvent::Bytes,
            &self.to_car.bytes()[..n],
        );
        self.to_car.pass(n);
    }

    /// Ten milliseconds pass.
    pub(crate) fn wait(&mut self)
        requires post { PostIsQuiet (sides self.old) }
        requires car { CarIsQuiet (sides self.old) }
        requires early { (sides self.old).moment + 10 < 2 ^ 64 }
        ensures { sides self.new ≡ later (sides self.old) }
    {
        self.moment += 10;
        self.post.hear(self.moment, What::Tick, &[]);
        car_hears(&mut self.car, self.moment, CarEvent::Clock, &[]);
    }

    /// The connection goes.
    pub(crate) fn go(&mut self)
        requires { PostIsQuiet (sides self.old) }
        ensures { sides self.new ≡ gone (sides self.old) }
    {
        self.post.hear(self.moment, What::Gone { post: 1 }, &[]);
    }

    /// The next car has this plan.
    pub(crate) fn take(&mut self, car: &CarPlan)
        requires { IsCarPlan car.now }
        ensures plan { sides self.new ≡ with_plan (ported (joined car.now)) (sides self.old) }
        ensures rules { IsPlan (sides self.new).car.plan }
    {
        let plan = plan_joined(car);
        bound_car(&plan);
        self.car.driver.plan = plan;
    }
}
