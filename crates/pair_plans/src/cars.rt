//! The cars that are drawn.

ghost use Rattle.std.specs.Prelude.{◌≡◌};
ghost use Rattle.session_words.specs.Plans.{IsCarPlan};
ghost use Rattle.pipe_spec.specs.Numbers.{behind};
ghost use Rattle.pair_plans.specs.Drawn.{IsDrawnCar};

use charge_world::Tenths;
use pipe_spec::Numbers;
use session_words::CarPlan;
use site_plan::fixed_car;

/// The car of a session that is generated: it asks for 1 to 200 charging replies and for 200 V to 399 V, and is else the car without a file.
pub fn drawn_car(numbers: &mut Numbers) -> CarPlan
    ensures car { IsDrawnCar numbers.old result }
    ensures within { IsCarPlan result }
    ensures numbers { numbers.new ≡ behind numbers.old 2 }
{
    let cycles = 1 + numbers.draw(200);
    let volts = 200 + numbers.draw(200) as u16;
    CarPlan {
        cycles,
        target_voltage: Tenths::of(10 * volts).unwrap(),
        ..fixed_car(false)
    }
}
