//! What a post can give, as its replies tell it.

ghost use Rattle.std.specs.Prelude.{◌≡◌};
ghost use Rattle.session_words.specs.Plans.{IsPostPlan};
ghost use Rattle.session_rules.specs.Offers as rule;

use crate::status::{dc_status, notify_of};
use arrayvec::ArrayVec;
use charge_world::{Dialect, Tenths};
use session_words::{Amount, Ask, Code, EvseId, Facts, PostLimits, PostPlan, Tuple, ac_current};

/// An amount in the unit that its place wants.
pub(crate) fn amount(size: u32) -> Amount
    ensures { result ≡ rule.amount size }
{
    Amount { size, right: true }
}

/// A voltage or a current in the unit that its place wants.
pub(crate) fn amount_of(tenths: Tenths) -> Amount
    ensures { result ≡ rule.amount tenths }
{
    amount(u32::from(tenths.get()))
}

/// The EVSEID of the post.
pub(crate) fn evse_of(dialect: Dialect, plan: &PostPlan) -> EvseId
    ensures { result ≡ rule.evse_of dialect plan.now }
{
    match dialect {
        Dialect::Iso => EvseId::Text(plan.evse_id.copied()),
        Dialect::Din => { EvseId::Bytes(ArrayVec::try_from(plan.evse_id_din.as_slice()).unwrap()) }
    }
}

/// The power of the schedule where these watts are shown.
fn scheduled_watts(dialect: Dialect, watts: u32) -> u32
    ensures { result ≡ rule.scheduled_watts dialect watts }
{
    match dialect {
        Dialect::Iso => watts,
        Dialect::Din => watts.min(32767),
    }
}

/// The watts that a Value of 16 bits with a sign and the least Multiplier spell.
fn spelled_watts(watts: u32) -> u32
    ensures { result ≡ rule.spelled_watts watts }
{
    if watts < 32768 {
        return watts;
    }
    if watts < 327_680 {
        return watts / 10 * 10;
    }
    if watts < 3_276_800 {
        return watts / 100 * 100;
    }
    watts / 1000 * 1000
}

/// The watts that the PMax of a schedule spells where these are shown.
pub fn p_max_of(dialect: Dialect, watts: u32) -> u32
    ensures { result ≡ rule.p_max_of dialect watts }
{
    match dialect {
        Dialect::Iso => spelled_watts(watts),
        Dialect::Din => watts.min(32767),
    }
}

/// The schedule of these watts.
pub(crate) fn schedule_of(dialect: Dialect, watts: u32) -> Option<ArrayVec<Tuple, 3>>
    ensures { result ≡ rule.schedule_of dialect watts }
{
    let mut tuples = ArrayVec::new();
    tuples.push(Tuple {
        id: 1,
        entries: 1,
        least: amount(scheduled_watts(dialect, watts)),
    });
    Some(tuples)
}

/// The current at which an AC post gives these watts, in tenths of an ampere.
pub(crate) fn ac_current_at(plan: &PostPlan, watts: u32) -> Tenths
    requires { IsPostPlan plan.now }
    ensures { result ≡ rule.ac_current_at plan.now watts }
{
    ac_current(watts, plan.nominal, plan.mode.phases())
}

/// What a post of either kind can give where these watts are shown.
pub(crate) fn limits_of(
    ac: bool,
    dialect: Dialect,
    facts: &Facts,
    plan: &PostPlan,
    code: Code,
    ask: &Ask,
    watts: u32,
) -> PostLimits
    requires { IsPostPlan plan.now }
    ensures { result ≡ rule.limits_of ac dialect facts.now plan.now code ask.now watts }
{
    if ac {
        PostLimits::Ac {
            notify: notify_of(dialect, facts, code, ask),
            nominal: amount(10 * u32::from(plan.nominal)),
            current: amount_of(ac_current_at(plan, watts)),
        }
    } else {
        PostLimits::Dc {
            status: dc_status(dialect, facts, code, ask),
            current: amount_of(plan.max_current),
            watts: Some(amount(watts)),
            voltage: amount_of(plan.max_voltage),
            least_current: amount_of(plan.min_current),
            least_voltage: amount_of(plan.min_voltage),
            ripple: amount_of(plan.ripple),
        }
    }
}
