//! The car's end.

ghost use Rattle.std.specs.Prelude.{◌≡◌, ◌≤◌, ◌<◌, MatchBool, length, true, false};
ghost use Rattle.car_codec.specs.Requests.{IsPlan};
ghost use Rattle.car_spec.specs.Codecs.{codecs};
ghost use Rattle.car_spec.specs.Next.{IsQuiet};
ghost use Rattle.car_acts.specs.Deeds.{act_of, IsFramed};
ghost use Rattle.car_acts.specs.Sound.{IsSound};
ghost use Rattle.car_spec.specs.Steps.{Spoken};
ghost use Rattle.evcc_machine.specs.Views.{event_of};
ghost use Rattle.evcc_machine.specs.Work.{work};
ghost use Rattle.pair_ends.specs.Ends.{IsSent, CarGoes, CarRests, ReadsWord, car_side, side_by, car_heard_at, car_came_at};
ghost use Rattle.pair_ends.specs.Tallies.{car_did};
ghost use Rattle.pipe_spec.specs.Histories.{car_says};

use crate::end::CarEnd;
use crate::tallies::CarTally;
use crate::way::Way;
use car_acts::{Deed, Driver, judge, keep, prepare};
use car_codec::CarCodec;
use evcc_machine::{CarEvent, law_of_acts, law_of_rest, law_of_words};

/// What is done is carried out: what is said goes on its way. A car that is joined to a station neither dials nor looks for one, and its own
/// contactor takes each order.
fn carry_out(deed: &Deed, room: &[u8], tally: &mut CarTally, way: &mut Way)
    requires room { length room.now ≡ 1032 }
    requires framed { IsFramed deed.now }
    ensures tally { (spoken : Spoken) → tally.new ≡ car_did (act_of room.now spoken deed.now) tally.old }
    ensures short { (spoken : Spoken) → length (car_says (act_of room.now spoken deed.now)) ≤ 1032 }
    ensures sent { (spoken : Spoken) → IsSent (car_says (act_of room.now spoken deed.now)) way.old way.new }
{
    match deed {
        Deed::Dial(_) | Deed::Give(_) | Deed::Seek(_) => {}
        Deed::Say(n) => way.send(&room[..*n]),
        Deed::Finish(cause) => tally.end(cause.number()),
    }
}

/// Reads the word that the car wants, if it wants one; says whether it did.
fn read_word<D: CarCodec>(codec: &mut D, driver: &mut Driver, tally: &mut CarTally) -> bool
    requires { IsPlan driver.old.plan }
    ensures read { ReadsWord (codecs D.offers D.responds D.reads D.encodes) driver.old.plan driver.old.car tally.old result driver.new.car tally.new }
    ensures plan { driver.new.plan ≡ driver.old.plan }
{
    match judge(codec, &driver.plan, &driver.car) {
        None => false,
        Some(judged) => {
            tally.read(&judged);
            driver.car.read(&driver.plan, &judged);
            true
        }
    }
}

/// The car does what it does next, or reads its next word.
fn step_driver<D: CarCodec>(
    codec: &mut D,
    driver: &mut Driver,
    room: &mut [u8],
    tally: &mut CarTally,
    way: &mut Way,
) -> bool
    requires plan { IsPlan driver.old.plan }
    requires sound { IsSound driver.old.plan driver.old.car }
    requires room { length room.old ≡ 1032 }
    ensures goes { MatchBool result
        (CarGoes (codecs D.offers D.responds D.reads D.encodes) (side_by driver.old tally.old) way.old (side_by driver.new tally.new) way.new)
        (CarRests (side_by driver.old tally.old) way.old (side_by driver.new tally.new) way.new) }
    ensures plan { driver.new.plan ≡ driver.old.plan }
    ensures sound { IsSound driver.old.plan driver.new.car }
    ensures work { result ≡ true → work driver.old.plan driver.new.car < work driver.old.plan driver.old.car }
{
    law_of_rest();
    law_of_words();
    law_of_acts::<D>();
    driver.car.decide(&driver.plan);
    match prepare(codec, &driver.plan, &driver.car, room) {
        Some(deed) => {
            carry_out(&deed, room, tally, way);
            keep(driver, &deed, true);
            true
        }
        None => read_word(codec, driver, tally),
    }
}

/// The car does what it does next, or reads its next word; `false` where neither is left before something is heard.
pub fn step<D: CarCodec>(codec: &mut D, end: &mut CarEnd, way: &mut Way) -> bool
    requires plan { IsPlan end.old.driver.plan }
    requires sound { IsSound end.old.driver.plan end.old.driver.car }
    ensures goes { MatchBool result
        (CarGoes (codecs D.offers D.responds D.reads D.encodes) (car_side end.old) way.old (car_side end.new) way.new)
        (CarRests (car_side end.old) way.old (car_side end.new) way.new) }
    ensures plan { end.new.driver.plan ≡ end.old.driver.plan }
    ensures sound { IsSound end.old.driver.plan end.new.driver.car }
    ensures work { result ≡ true → work end.old.driver.plan end.new.driver.car < work end.old.driver.plan end.old.driver.car }
{
    step_driver(
        codec,
        &mut end.driver,
        end.room.as_mut_slice(),
        &mut end.tally,
        way,
    )
}

impl CarEnd {
    /// The car hears this at this moment (milliseconds), with these bytes. It has nothing left to do, and hasn't ended.
    pub fn hear(&mut self, now: u64, event: CarEvent, bytes: &[u8])
        requires short { length bytes.now ≤ 4096 }
        requires rests { IsQuiet self.old.driver.plan self.old.driver.car }
        requires lives { self.old.driver.car.over ≡ false }
        ensures { car_side self.new ≡ car_heard_at now (event_of event bytes.now) (car_side self.old) }
    {
        law_of_rest();
        self.driver.car.hear(now, event, bytes);
        self.tally.hear();
    }

    /// A car with the same plan comes at this moment (milliseconds).
    pub fn come(&mut self, now: u64)
        ensures { car_side self.new ≡ car_came_at now (car_side self.old) }
    {
        self.driver.car.renew();
        self.driver.car.hear(now, CarEvent::Came { token: 1 }, &[]);
        self.tally = CarTally::begun();
    }
}
