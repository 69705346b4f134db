//! What a car does next, before it is done.

ghost use Rattle.std.specs.Prelude.{◌≡◌, length};
ghost use Rattle.car_codec.specs.Requests.{IsPlan};
ghost use Rattle.car_spec.specs.Codecs.{codecs};
ghost use Rattle.car_acts.specs.Deeds.{Nexts};
ghost use Rattle.car_acts.specs.Sound.{IsSound};

use crate::deeds::Deed;
use crate::driver::Driver;
use crate::preparing::prepare;
use crate::reading::read_word;
use car_codec::CarCodec;

/// What is next.
#[derive(Drop)]
pub(crate) enum Next {
    /// Nothing, before something is heard.
    Rest,
    /// A word was read.
    Read,
    /// This is done.
    Do(Deed),
}

/// What the car does next, once it decided: it reads the word that it wants where nothing is to be done first.
pub(crate) fn choose<C: CarCodec>(codec: &mut C, driver: &mut Driver, room: &mut [u8]) -> Next
    requires room { length room.old ≡ 1032 }
    requires plan { IsPlan driver.old.plan }
    requires sound { IsSound driver.old.plan driver.old.car }
    ensures next { Nexts (codecs C.offers C.responds C.reads C.encodes) driver.old.plan driver.old.car room.new result driver.new.car }
    ensures plan { driver.new.plan ≡ driver.old.plan }
    ensures report { driver.new.report ≡ driver.old.report }
{
    driver.car.decide(&driver.plan);
    match prepare(codec, &driver.plan, &driver.car, room) {
        Some(deed) => Next::Do(deed),
        None => {
            if read_word(codec, driver) {
                Next::Read
            } else {
                Next::Rest
            }
        }
    }
}
