//! What a car does about a hearing, and the order by which driving ends.

ghost use Rattle.std.specs.Prelude.{◌≡◌, ◌≤◌, ℕ, length, false, not, ◌&&◌, IsSome, OnOk};
ghost use Rattle.charge_world.specs.Outside.{IsFault, HasCount, bytes_of};
ghost use Rattle.session_words.specs.declared.plan.CarPlan.{CarPlan};
ghost use Rattle.post_spec.specs.Steps.{event_at};
ghost use Rattle.station_spec.specs.Blocks.{IsHearing};
ghost use Rattle.endpoint.specs.Knowing.{Known};
ghost use Rattle.endpoint.specs.Rooms.{FitsIn};
ghost use Rattle.endpoint.specs.Telling.{Carries, CarriesText, IsTraced, IsWrittenSo};
ghost use Rattle.car_codec.specs.Requests.{IsPlan};
ghost use Rattle.car_spec.specs.Codecs.{codecs};
ghost use Rattle.car_spec.specs.Hearing.{hearing};
ghost use Rattle.car_spec.specs.Next.{IsQuiet};
ghost use Rattle.car_spec.specs.Runs.{Closes};
ghost use Rattle.car_spec.specs.Until.{until};
ghost use Rattle.car_acts.specs.declared.driver.Driver.{Driver as Driving};
ghost use Rattle.car_acts.specs.Driving.{InRun};
ghost use Rattle.car_acts.specs.Sound.{IsSound};
ghost use Rattle.car_turns.specs.Ending.{opens_if};
ghost use Rattle.car_turns.specs.Made.{IsReady};

use crate::site::CarSite;
use car_acts::{Driver, step};
use car_codec::CarCodec;
use charge_world::{Heard, Order, Sink, Wire};
use end_turns::End;
use endpoint::{
    Desk, TraceFailed, TraceLines, bound_heard, bytes_heard, open, write_heard, write_lost,
};
use evcc_machine::{Car, CarEvent, law_of_rest};

/// The car hears this, at this moment.
fn take_in(driver: &mut Driver, now: u64, heard: &Heard, room: &[u8])
    requires room { FitsIn heard.now.what (length room.now) }
    requires count { HasCount heard.now.what }
    requires quiet { IsQuiet driver.old.plan driver.old.car }
    requires lives { driver.old.car.over ≡ false }
    ensures car { driver.new.car ≡ hearing now (event_at 1 heard.now.what (bytes_of heard.now.what room.now)) driver.old.car }
    ensures plan { driver.new.plan ≡ driver.old.plan }
    ensures report { driver.new.report ≡ driver.old.report }
    ensures bounds { IsHearing heard.now (bytes_of heard.now.what room.now) }
{
    law_of_rest();
    bound_heard(heard, room);
    driver.car.hear(now, CarEvent::of(heard.what), bytes_heard(heard.what, room));
}

/// Does and reads all that is left before the next hearing.
fn answer<C: CarCodec, W: Wire, J: Sink>(
    desk: &mut Desk<C>,
    driver: &mut Driver,
    hearing: u64,
    wire: &mut W,
    trace: &mut J,
) -> Result<(), TraceFailed>
    requires plan { IsPlan driver.old.plan }
    requires sound { IsSound driver.old.plan driver.old.car }
    ensures carried { (k : Known) → Carries (W.past wire.old) (W.past wire.new)
        (InRun (codecs C.offers C.responds C.reads C.encodes) driver.old.plan k driver.old.car driver.old.report)
        (InRun (codecs C.offers C.responds C.reads C.encodes) driver.old.plan k driver.new.car driver.new.report) }
    ensures traced { CarriesText (W.past wire.old) (W.past wire.new) (J.taken trace.old) (J.taken trace.new) (IsTraced hearing) (IsWrittenSo hearing result) }
    ensures plan { driver.new.plan ≡ driver.old.plan }
    ensures sound { IsSound driver.old.plan driver.new.car }
    ensures quiet { OnOk result (IsQuiet driver.old.plan driver.new.car) }
    ensures writes { IsFault (J.faults trace.old) (J.faults trace.new) result }
    ensures untils { IsSome (W.past wire.new) → W.untils wire.new ≡ W.untils wire.old }
    ensures started { W.started wire.new ≡ W.started wire.old }
    ensures posts { W.posts wire.new ≡ W.posts wire.old }
    ensures faults { W.faults wire.old ≤ W.faults wire.new }
{
    while step(desk, driver, hearing, wire, trace)? {}
    Ok(())
}

/// Whether a car that didn't end has a live contactor.
fn must_open(car: &Car) -> bool
    ensures { result ≡ (car.now.live && not car.now.over) }
{
    car.live() && !car.is_over()
}

impl<C: CarCodec> End for CarSite<C> {
    ghost Plan = { Unit {0} };

    ghost State = { Driving };

    ghost Kept = { CarPlan };

    ghost state = { λ site. site.driver };

    ghost kept = { λ d. d.plan };

    ghost turns_in = { λ plan. plan.turns };

    ghost posts_in = { λ _. 1 };

    ghost runs = { λ _ d k. InRun (codecs C.offers C.responds C.reads C.encodes) d.plan k d.car d.report };

    ghost rests = { IsReady };

    ghost over = { λ d. d.car.over };

    ghost due = { λ d. until d.plan d.car };

    ghost closes = { λ d whole. Closes (opens_if whole d.car) };

    ghost known = { λ _ _ _ _ run. run.known_is };

    fn turns(&self) -> u64 {
        self.driver.plan.turns
    }

    fn until(&self) -> u64 {
        self.driver.car.next_due(&self.driver.plan)
    }

    fn is_over(&self) -> bool {
        self.driver.car.is_over()
    }

    fn lines(&self) -> &TraceLines {
        &self.desk.lines
    }

    fn hear<W: Wire, J: Sink>(
        &mut self,
        now: u64,
        hearing: u64,
        heard: &Heard,
        room: &[u8],
        wire: &mut W,
        trace: &mut J,
    ) -> Result<(), TraceFailed> {
        take_in(&mut self.driver, now, heard, room);
        write_heard(&mut self.desk.lines, hearing, heard, room, trace)?;
        answer(&mut self.desk, &mut self.driver, hearing, wire, trace)
    }

    fn miss<J: Sink>(&mut self, hearing: u64, trace: &mut J) -> Result<(), TraceFailed> {
        write_lost(&mut self.desk.lines, hearing, trace)
    }

    fn close<W: Wire, J: Sink>(
        &mut self,
        hearing: u64,
        wire: &mut W,
        trace: &mut J,
    ) -> Result<(), TraceFailed> {
        if must_open(&self.driver.car) {
            open(1, hearing, &mut self.desk.lines, wire, trace)
        } else {
            Ok(())
        }
    }

    fn cut<W: Wire>(&self, wire: &mut W) {
        if self.driver.car.live() {
            let _ = wire.drive(1, Order::Open);
        }
    }
}
