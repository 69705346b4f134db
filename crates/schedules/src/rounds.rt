//! The best plans of ever more steps.

ghost use Rattle.std.specs.Prelude.{◌≡◌, ℕ, ◌+◌, ◌<◌, ◌≤◌, List, [], ◌∷◌, length, drop};
ghost use Rattle.schedules.specs.Steps.{RiseWithin};
ghost use Rattle.schedules.specs.Plans.{IsPlan, IsBestOf, ArePlans, AreBest, HaveRoom, plan_at, steps_at};

use crate::plan::{Choice, Plan, copy_of, followed, whole};
use crate::power::Step;
use arrayvec::ArrayVec;

/// The best plan for these limits with one step more than the plans behind it have: one step over the first limit and some of those
/// that follow, and then the plan for those that are left.
fn extended(first: Step, rest: &[Step], behind: &[Plan], departure: u32) -> Plan
    requires rise { RiseWithin 0 departure (first ∷ rest.now) }
    requires day { departure ≤ 86400 }
    requires plans { ArePlans departure rest.now behind.now }
    requires room { HaveRoom 0 behind.now }
    ensures plan { IsPlan departure (first ∷ rest.now) result.energy result.steps.items }
    ensures best { (most : ℕ) → AreBest departure most 0 rest.now behind.now → IsBestOf departure (most + 1) (first ∷ rest.now) result.steps.items }
{
    let mut low = first.watts;
    let mut best = Choice::new(first.start, low, 0, &behind[0], departure);
    for (at, limit) in rest.iter().enumerate() {
        low = low.min(limit.watts);
        let other = Choice::new(first.start, low, at + 1, &behind[at + 1], departure);
        if other.is_better(&best) {
            best = other;
        }
    }
    Plan {
        energy: best.energy,
        steps: followed(
            Step {
                start: first.start,
                watts: best.watts,
            },
            &behind[best.place].steps,
        ),
    }
}

/// The best plan for what is left behind `at` limits, with one step more than the plans behind it have.
fn longer(limits: &[Step], plans: &[Plan], at: usize, departure: u32) -> Plan
    requires place { at < length limits.now }
    requires rise { RiseWithin 0 departure limits.now }
    requires day { departure ≤ 86400 }
    requires plans { ArePlans departure limits.now plans.now }
    requires room { HaveRoom (at + 1) plans.now }
    ensures plan { IsPlan departure (drop at limits.now) result.energy result.steps.items }
    ensures best { (most : ℕ) → AreBest departure most (at + 1) limits.now plans.now → IsBestOf departure (most + 1) (drop at limits.now) result.steps.items }
{
    let (_, behind) = plans.split_at(at + 1);
    extended(limits[at], &limits[at + 1..], behind, departure)
}

/// Each plan becomes the best with one step more. The plans in front go first, so that those behind are still as they were.
fn lengthen(limits: &[Step], plans: &mut [Plan], departure: u32)
    requires rise { RiseWithin 0 departure limits.now }
    requires day { departure ≤ 86400 }
    requires plans { ArePlans departure limits.now plans.old }
    requires room { HaveRoom 0 plans.old }
    ensures plans { ArePlans departure limits.now plans.new }
    ensures best { (most : ℕ) → AreBest departure most 0 limits.now plans.old → AreBest departure (most + 1) 0 limits.now plans.new }
{
    for at in 0..limits.len() {
        plans[at] = longer(limits, plans, at, departure);
    }
}

/// A plan of one step for what is left behind each number of limits, and one of none.
fn first_plans(limits: &[Step], departure: u32) -> ArrayVec<Plan, 130>
    requires few { length limits.now ≤ 129 }
    requires rise { RiseWithin 0 departure limits.now }
    requires day { departure ≤ 86400 }
    ensures plans { ArePlans departure limits.now result.items }
    ensures best { AreBest departure 1 0 limits.now result.items }
{
    let mut plans = ArrayVec::new();
    for at in 0..limits.len() {
        plans.push(whole(limits[at], &limits[at + 1..], departure));
    }
    plans.push(Plan::default());
    plans
}

/// The first of some plans.
fn first_of(plans: &[Plan]) -> Plan
    requires { 0 < length plans.now }
    ensures energy { result.energy ≡ (plan_at plans.now 0).energy }
    ensures steps { result.steps.items ≡ steps_at plans.now 0 }
{
    copy_of(&plans[0])
}

/// The best plan of at most 24 steps for the limits, from plans of one step.
fn best_of(limits: &[Step], plans: &mut [Plan], departure: u32) -> Plan
    requires rise { RiseWithin 0 departure limits.now }
    requires day { departure ≤ 86400 }
    requires plans { ArePlans departure limits.now plans.old }
    requires best { AreBest departure 1 0 limits.now plans.old }
    ensures plan { IsPlan departure limits.now result.energy result.steps.items }
    ensures best { IsBestOf departure 24 limits.now result.steps.items }
{
    for _most in 1..24_usize {
        lengthen(limits, plans, departure);
    }
    first_of(plans)
}

/// The best plan of at most 24 steps for the limits.
pub(crate) fn plan_of(limits: &[Step], departure: u32) -> Plan
    requires few { length limits.now ≤ 129 }
    requires rise { RiseWithin 0 departure limits.now }
    requires day { departure ≤ 86400 }
    ensures plan { IsPlan departure limits.now result.energy result.steps.items }
    ensures best { IsBestOf departure 24 limits.now result.steps.items }
{
    let mut plans = first_plans(limits, departure);
    best_of(limits, &mut plans, departure)
}
