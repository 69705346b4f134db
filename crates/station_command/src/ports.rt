//! Where a station listens.

ghost use Rattle.std.specs.Prelude.{◌≡◌, ◌≤◌, length};
ghost use Rattle.station_command.specs.Ports.{ports_of};

use arrayvec::ArrayVec;
use charge_world::{PortPair, Ports};
use session_words::SitePlan;

/// The ports of the posts of a plan, and how many connections they serve in all.
pub(crate) fn ports_of(plan: &SitePlan) -> Ports
    requires { length plan.now.post.items ≤ 8 }
    ensures { result ≡ ports_of plan.now }
{
    let mut pairs = ArrayVec::new();
    for post in plan.post.as_slice() {
        pairs.push(PortPair {
            tcp: post.tcp,
            sdp: post.sdp,
        });
    }
    Ports::Posts {
        pairs,
        sessions: plan.sessions,
    }
}
