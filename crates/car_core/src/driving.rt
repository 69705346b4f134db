//! Driving a car.

ghost use Rattle.std.specs.Prelude.{◌≡◌, ◌≤◌, ◌<◌, []};
ghost use Rattle.endpoint.specs.Telling.{Carries, CarriesText};
ghost use Rattle.car_spec.specs.Codecs.{codecs};
ghost use Rattle.car_acts.specs.Reporting.{reported};
ghost use Rattle.car_turns.specs.Ending.{EndedAs, TracedAs, AreFaults};
ghost use Rattle.car_core.specs.Lawful.{IsDrivenLawfully};
ghost use Rattle.car_turns.specs.Made.{IsMadeOf};

use crate::lawful::law_of_cars;
use car_codec::LawfulCarCodec;
use car_turns::{CarSite, Ended};
use charge_world::{Sink, Wire};
use end_turns::{End, run};
use endpoint::SoFar;

/// Drives a car that was just made, on a wire that was started for a car, until the car ends, the wire says Over, a hearing fails, a line of
/// the trace can't be written, or the last turn is made. At the end a live contactor is ordered open.
///
/// Where the wire tells its past, that is a run of the car by its plan, cut where a line couldn't be written; each `until` is the least moment
/// at which the car is due, and its report counts the run's steps; and by these steps it is lawful: its contactor closes by the words that
/// mandate it, as the bytes of its session say them, and is ordered open at the end (`driven`). It ended as the answer says (`ended`). Where the
/// trace tells its bytes, they are the text of the past, or a front of it where a line couldn't be written (`trace`). `Lost` comes only where the
/// wire failed, and `TraceFault` exactly where the trace did. No call takes memory.
pub fn drive_car<C: LawfulCarCodec, W: Wire, J: Sink>(
    wire: &mut W,
    trace: &mut J,
    car: &mut CarSite<C>,
) -> Ended
    requires made { IsMadeOf car.old.driver.plan car.old.driver }
    requires posts { W.posts wire.old ≡ 1 }
    ensures driven { Carries (W.past wire.old) (W.past wire.new) (λ past. past ≡ [])
        (IsDrivenLawfully (codecs C.offers C.responds C.reads C.encodes) car.old.driver.plan result (W.untils wire.old) (W.untils wire.new) (reported car.new.driver.report car.new.driver.car)) }
    ensures ended { Carries (W.past wire.old) (W.past wire.new) (λ past. past ≡ []) (EndedAs car.old.driver.plan.turns result) }
    ensures trace { CarriesText (W.past wire.old) (W.past wire.new) (J.taken trace.old) (J.taken trace.new) (λ past text. (past ≡ []) × (text ≡ [])) (TracedAs result) }
    ensures plan { car.new.driver.plan ≡ car.old.driver.plan }
    ensures started { W.started wire.new ≡ W.started wire.old }
    ensures posts { W.posts wire.new ≡ W.posts wire.old }
    ensures faults { W.faults wire.old ≤ W.faults wire.new }
    ensures lost { result ≡ Ended.Lost → W.faults wire.old < W.faults wire.new }
    ensures trace_fault { AreFaults (J.faults trace.old) (J.faults trace.new) result }
{
    law_of_cars::<C>();
    let stopped = run(car, &mut SoFar::nothing(), wire, trace);
    Ended::by(stopped, car.is_over())
}
