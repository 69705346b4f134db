//! The orders that accepted requests give.

ghost use Rattle.std.specs.Prelude.{◌≡◌, ◌≤◌, min};
ghost use Rattle.charge_world.specs.declared.ports.Order.TheVariants as order;
ghost use Rattle.session_words.specs.Plans.{IsPostPlan};
ghost use Rattle.session_rules.specs.Orders as rule;
ghost use Rattle.session_rules.specs.Verdict.{verdict};

use crate::offers::ac_current_at;
use crate::stage::Stage;
use crate::verdict::is_accepted;
use charge_world::{Order, Tenths};
use session_words::{Amount, Ask, Code, Facts, PostPlan, Progress, Request};

/// The order of an accepted PowerDelivery.
fn delivery_order(progress: Progress) -> Order
    ensures { result ≡ rule.delivery_order progress }
{
    match progress {
        Progress::Start => Order::Close,
        Progress::Stop | Progress::Renegotiate => Order::Open,
    }
}

/// The lesser of an amount and this.
fn at_most(amount: Amount, most: Tenths) -> Tenths
    ensures { result ≡ min amount.size most }
{
    if amount.size < u32::from(most.get()) {
        Tenths::of(amount.size as u16).unwrap()
    } else {
        most
    }
}

/// The order of an accepted PreCharge: its target, at most 2.0 A, and the watts told before.
fn pre_charge_order(plan: &PostPlan, told: u32, voltage: Amount, current: Amount) -> Order
    requires { voltage.size ≤ plan.now.max_voltage }
    ensures { result ≡ order.Limits voltage.size (min current.size 20) told }
{
    Order::Limits {
        voltage: at_most(voltage, plan.max_voltage),
        current: at_most(current, Tenths::of(20).unwrap()),
        watts: told,
    }
}

/// The order that a request which was judged so gives before its reply, where these watts are shown.
pub fn order_of(
    stage: &Stage,
    facts: &Facts,
    plan: &PostPlan,
    request: &Request,
    code: Code,
    shown: u32,
) -> Option<Order>
    requires plan { IsPostPlan plan.now }
    requires judged { code ≡ verdict stage.now facts.now plan.now request.now }
    ensures { result ≡ rule.order_of stage.now facts.now plan.now request.now shown }
{
    if !is_accepted(code) {
        return None;
    }
    match &request.ask {
        Ask::PowerDelivery { progress, .. } => Some(delivery_order(*progress)),
        Ask::PreCharge {
            voltage,
            current,
            ..
        } => Some(pre_charge_order(plan, stage.told, *voltage, *current)),
        Ask::CurrentDemand {
            voltage,
            current,
            ..
        } => Some(Order::Limits {
            voltage: at_most(*voltage, plan.max_voltage),
            current: at_most(*current, plan.max_current),
            watts: shown,
        }),
        Ask::ChargingStatus => Some(Order::Limits {
            voltage: Tenths::of(10 * plan.nominal).unwrap(),
            current: ac_current_at(plan, shown),
            watts: shown,
        }),
        _ => None,
    }
}
