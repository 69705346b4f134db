ghost use Rattle.pilot_basic.specs.Machine.{IsInRange};

use crate::cases::{Case, all_hold};
use charge_world::PilotState;
use pilot_basic::{Basic, BasicEvent, BasicOrder, Offered, current_of, duty_of};
use std::alloc::Global;

/// A duty in tenths of a percent, and what it offers: whole tenths of an ampere, rounded down.
struct Duty(u16, Offered);

/// A current, and the greatest duty that doesn't pass it.
struct Current(u16, u16);

impl Case for Duty {
    fn holds(&self, _: Global) -> bool {
        current_of(self.0) == self.1
    }
}

impl Case for Current {
    fn holds(&self, _: Global) -> bool {
        60 <= self.0 && self.0 <= 800 && duty_of(self.0) == self.1
    }
}

const DUTIES: [Duty; 10] = [
    Duty(100, Offered::Amps(60)),
    Duty(533, Offered::Amps(319)),
    Duty(850, Offered::Amps(510)),
    Duty(851, Offered::Amps(527)),
    Duty(960, Offered::Amps(800)),
    Duty(80, Offered::Amps(60)),
    Duty(970, Offered::Amps(800)),
    Duty(50, Offered::Digital),
    Duty(75, Offered::Nothing),
    Duty(971, Offered::Nothing),
];

const CURRENTS: [Current; 5] = [
    Current(60, 100),
    Current(160, 266),
    Current(520, 850),
    Current(528, 851),
    Current(800, 960),
];

/// An event at a moment leads to these orders.
fn leads(post: &mut Basic, at: u64, event: BasicEvent, orders: &[BasicOrder]) -> bool
    requires { IsInRange event }
{
    post.step(at, &event).as_slice() == orders
}

/// A post goes digital, and pauses three seconds after it.
fn pauses() -> bool {
    let mut post = Basic::new();
    leads(
        &mut post,
        0,
        BasicEvent::Offer(160),
        &[BasicOrder::Duty(266)],
    ) && leads(
        &mut post,
        5,
        BasicEvent::Pilot(PilotState::C),
        &[BasicOrder::Close],
    ) && leads(
        &mut post,
        9,
        BasicEvent::GoDigital,
        &[BasicOrder::Open, BasicOrder::Duty(50)],
    ) && leads(
        &mut post,
        20,
        BasicEvent::DigitalEnded,
        &[BasicOrder::Duty(1000)],
    ) && leads(&mut post, 3019, BasicEvent::Offer(160), &[])
        && leads(
            &mut post,
            3020,
            BasicEvent::Offer(160),
            &[BasicOrder::Duty(266)],
        )
}

#[test]
fn duties_currents_and_a_post(rt: HostRuntime) {
    all_hold(&rt, rt.alloc(), &DUTIES);
    all_hold(&rt, rt.alloc(), &CURRENTS);
    assert!(rt; pauses());
}
