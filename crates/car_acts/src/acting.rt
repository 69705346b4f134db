//! What a car does next, done on the wire and in the trace.

ghost use Rattle.std.specs.Prelude.{◌≡◌, ◌≤◌, ◌<◌, true, false, Ok, IsSome};
ghost use Rattle.charge_world.specs.Outside.{IsFault};
ghost use Rattle.endpoint.specs.Knowing.{Known};
ghost use Rattle.endpoint.specs.Telling.{Carries, CarriesText, IsTraced, IsWrittenSo};
ghost use Rattle.car_codec.specs.Requests.{IsPlan};
ghost use Rattle.car_spec.specs.Codecs.{codecs};
ghost use Rattle.car_spec.specs.Next.{IsQuiet};
ghost use Rattle.evcc_machine.specs.Work.{work};
ghost use Rattle.car_acts.specs.Driving.{InRun};
ghost use Rattle.car_acts.specs.Sound.{IsSound};

use crate::choosing::{Next, choose};
use crate::deeds::keep;
use crate::driver::Driver;
use car_codec::CarCodec;
use charge_world::{Sink, Wire};
use endpoint::{Desk, TraceFailed, done, perform};
use evcc_machine::{law_of_acts, law_of_rest, law_of_words};

/// Does what the car does next, or reads its next word; `false` where neither is left before something is heard.
pub fn step<C: CarCodec, W: Wire, J: Sink>(
    desk: &mut Desk<C>,
    driver: &mut Driver,
    hearing: u64,
    wire: &mut W,
    trace: &mut J,
) -> Result<bool, TraceFailed>
    requires plan { IsPlan driver.old.plan }
    requires sound { IsSound driver.old.plan driver.old.car }
    ensures carried { (k : Known) → Carries (W.past wire.old) (W.past wire.new)
        (InRun (codecs C.offers C.responds C.reads C.encodes) driver.old.plan k driver.old.car driver.old.report)
        (InRun (codecs C.offers C.responds C.reads C.encodes) driver.old.plan k driver.new.car driver.new.report) }
    ensures traced { CarriesText (W.past wire.old) (W.past wire.new) (J.taken trace.old) (J.taken trace.new) (IsTraced hearing) (IsWrittenSo hearing result) }
    ensures plan { driver.new.plan ≡ driver.old.plan }
    ensures sound { IsSound driver.old.plan driver.new.car }
    ensures quiet { result ≡ Ok false → IsQuiet driver.old.plan driver.new.car }
    ensures work { result ≡ Ok true → work driver.old.plan driver.new.car < work driver.old.plan driver.old.car }
    ensures writes { IsFault (J.faults trace.old) (J.faults trace.new) result }
    ensures untils { IsSome (W.past wire.new) → W.untils wire.new ≡ W.untils wire.old }
    ensures started { W.started wire.new ≡ W.started wire.old }
    ensures posts { W.posts wire.new ≡ W.posts wire.old }
    ensures faults { W.faults wire.old ≤ W.faults wire.new }
{
    law_of_rest();
    law_of_words();
    law_of_acts::<C>();
    match choose(&mut desk.codec, driver, desk.room.as_mut_slice()) {
        Next::Rest => Ok(false),
        Next::Read => Ok(true),
        Next::Do(deed) => {
            let call = deed.call(desk.room.as_slice());
            let outcome = perform(&call, 1, hearing, &mut desk.lines, wire, trace);
            keep(driver, &deed, outcome.taken);
            done(outcome.written)
        }
    }
}
