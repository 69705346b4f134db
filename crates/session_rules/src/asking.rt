//! What a post asks for, and which replies tell watts.

ghost use Rattle.std.specs.Prelude.{◌≡◌, ◌≤◌};
ghost use Rattle.session_rules.specs.Asks as rule;

use session_words::{Ask, CarLimits, PostPlan, ac_watts, dc_watts};

/// The watts that the car can take at the post.
fn car_watts(plan: &PostPlan, car: &CarLimits) -> u64
    ensures { result ≡ rule.car_watts plan.now car.now }
{
    match car {
        CarLimits::Ac { most_current, .. } => {
            ac_watts(most_current.size, plan.nominal, plan.mode.phases())
        }
        CarLimits::Dc {
            watts: Some(watts),
            ..
        } => u64::from(watts.size),
        CarLimits::Dc {
            watts: None,
            voltage,
            current,
            ..
        } => dc_watts(voltage.size, current.size),
    }
}

/// The watts that a post asks for behind a ChargeParameterDiscovery with these parameters.
pub fn ask_of(plan: &PostPlan, car: &CarLimits) -> u32
    ensures value { result ≡ rule.ask_of plan.now car.now }
    ensures bound { result ≤ 1000000 }
    ensures most { result ≤ plan.now.max_watts }
{
    let most = plan.max_watts.min(1_000_000);
    car_watts(plan, car).min(u64::from(most)) as u32
}

/// The watts for which this request makes its post ask, where it is accepted; none where it changes nothing of that.
pub fn asks(plan: &PostPlan, ask: &Ask) -> Option<u32>
    ensures { result ≡ rule.asks plan.now ask.now }
{
    match ask {
        Ask::ChargeParameters { limits, .. } => Some(ask_of(plan, limits)),
        _ => None,
    }
}

/// Whether the reply to this request, where it is accepted, shows watts and so makes them the told ones.
pub fn shows_watts(ask: &Ask) -> bool
    ensures { result ≡ rule.shows_watts ask.now }
{
    matches!(
        ask,
        Ask::ChargeParameters { .. } | Ask::CurrentDemand { .. } | Ask::ChargingStatus
    )
}
