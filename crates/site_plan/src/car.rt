//! The keys of a car.

ghost use Rattle.std.specs.Prelude.{◌≡◌, ◌≤◌, ◌==◌, IfOk, IfSome, IsSome, length, codes};
ghost use Rattle.session_words.specs.Plans.{IsCarPlan, IsWithin};
ghost use Rattle.plan_keys.specs.Keys.{Reads, Says, perhaps};
ghost use Rattle.plan_keys.specs.Faults.{AnswersBy};
ghost use Rattle.site_plan.specs.Keys.{car_rules};
ghost use Rattle.site_plan.specs.Plans.{IsCarPlanOf, car_told};

use crate::words::{dialects, mode, stop, tenths};
use plan_keys::{Keys, PlanFault, Short, document, list_of};
use session_words::{CarPlan, Mode, SessionId};
use std::alloc::Global;

/// Six bytes.
fn six(bytes: Short) -> [u8; 6]
    requires { length bytes.items ≡ 6 }
    ensures { result ≡ bytes.items }
{
    let mut list = [0u8; 6];
    list.copy_from_slice(bytes.as_slice());
    list
}

/// The port that a car dials at once, which has to be there where it has no discovery.
fn tcp_port(keys: &mut Keys<'_>, port: Option<u64>, sdp: u16) -> Option<u16>
    requires { IfSome port (IsWithin 1 65535) }
    ensures said { Says (perhaps (codes "tcp") 1 65535 port (sdp == 0)) keys.old keys.new result }
    ensures there { sdp ≡ 0 → IsSome result }
    ensures some { IfSome result (λ p. 1 ≤ p) }
{
    keys.perhaps("tcp", 1, 65535, port, sdp == 0)
        .map(|port| port as u16)
}

/// Reads the plan of a car, whose port and mode have these defaults.
pub(crate) fn car_keys(keys: &mut Keys<'_>, port: Option<u64>, usual: Mode) -> CarPlan
    requires { IfSome port (IsWithin 1 65535) }
    ensures read { Reads (car_rules port usual) keys.old keys.new result }
    ensures within { IsCarPlan result }
{
    // a fault of `tcp` is told before one of `sdp`, which decides whether `tcp` has to be there
    let _port = keys.perhaps("tcp", 1, 65535, port, false);
    let sdp = keys.number("sdp", 0, 65535, Some(0)) as u16;
    let tcp = tcp_port(keys, port, sdp);
    let turns = keys.number("turns", 1, 4_294_967_296, Some(1_000_000));
    let mode = mode(keys, usual);
    CarPlan {
        tcp,
        sdp,
        turns,
        mode,
        dialects: dialects(keys, mode),
        car_id: six(keys.bytes("car_id", 6, 6, &[0, 1, 2, 3, 4, 5])),
        soc: keys.number("soc", 0, 100, Some(20)) as u8,
        target_voltage: tenths(keys, "target_voltage", 4000),
        target_current: tenths(keys, "target_current", 1000),
        max_voltage: tenths(keys, "max_voltage", 4500),
        max_current: tenths(keys, "max_current", 2000),
        min_current: tenths(keys, "min_current", 60),
        max_watts: keys.number("max_watts", 1, 1_000_000, Some(50_000)) as u32,
        cycles: keys.number("cycles", 1, 10_000, Some(200)) as u32,
        welding: keys.number("welding", 0, 10, Some(1)) as u8,
        pace: keys.number("pace", 100, 1000, Some(100)) as u16,
        stop: stop(keys),
        session: SessionId {
            bytes: list_of(keys.bytes("session", 0, 8, &[]).as_slice()),
        },
    }
}

/// Reads the plan of a car from TOML, or names its first fault (own).
pub fn car_plan_of(alloc: Global, text: &[u8]) -> Result<CarPlan, PlanFault>
    ensures plan { IfOk result (IsCarPlanOf text.now) }
    ensures told { AnswersBy (car_told text.now) result }
    ensures within { IfOk result IsCarPlan }
{
    let table = document(alloc, text)?;
    let mut keys = Keys::of(Some(&table));
    let car = car_keys(&mut keys, None, Mode::DcExtended);
    keys.judged(alloc, "")?;
    keys.unknown(alloc, "")?;
    Ok(car)
}
