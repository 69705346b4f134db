//! Where a car dials and where it looks for its post.

ghost use Rattle.std.specs.Prelude.{◌≡◌};
ghost use Rattle.car_command.specs.Ports.{ports_of};

use charge_world::Ports;
use session_words::CarPlan;

/// The ports of a car by its plan.
pub(crate) fn ports_of(plan: &CarPlan) -> Ports
    ensures { result ≡ ports_of plan.now }
{
    Ports::Car {
        tcp: plan.tcp.unwrap_or(0),
        sdp: plan.sdp,
    }
}
