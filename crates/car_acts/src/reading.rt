//! The word that a car reads.

ghost use Rattle.std.specs.Prelude.{◌≡◌};
ghost use Rattle.std.specs.Option.{option_map};
ghost use Rattle.car_codec.specs.Requests.{IsPlan};
ghost use Rattle.car_spec.specs.Codecs.{codecs};
ghost use Rattle.car_spec.specs.Judging.{wanted};
ghost use Rattle.evcc_machine.specs.Views.{judged_of};
ghost use Rattle.car_acts.specs.Deeds.{JudgesFor, ReadsSo};

use crate::driver::Driver;
use car_codec::CarCodec;
use evcc_machine::{Car, Judged};
use session_words::CarPlan;

/// What the payload is judged as that a car wants read now, if it wants one.
pub fn judge<C: CarCodec>(codec: &mut C, plan: &CarPlan, car: &Car) -> Option<Judged>
    requires { IsPlan plan.now }
    ensures { JudgesFor (codecs C.offers C.responds C.reads C.encodes) plan.now.dialects.items (wanted car.now) (option_map judged_of result) }
{
    let wanted = car.wanted()?;
    let judged = match wanted.dialect {
        None => codec.respond(plan.dialects.as_slice(), wanted.payload),
        Some(dialect) => codec.judge(dialect, wanted.payload),
    };
    Some(judged)
}

/// Reads the word that the car wants, if it wants one; says whether it did.
pub(crate) fn read_word<C: CarCodec>(codec: &mut C, driver: &mut Driver) -> bool
    requires { IsPlan driver.old.plan }
    ensures read { ReadsSo (codecs C.offers C.responds C.reads C.encodes) driver.old.plan driver.old.car result driver.new.car }
    ensures plan { driver.new.plan ≡ driver.old.plan }
    ensures report { driver.new.report ≡ driver.old.report }
{
    match judge(codec, &driver.plan, &driver.car) {
        None => false,
        Some(judged) => {
            driver.car.read(&driver.plan, &judged);
            true
        }
    }
}
