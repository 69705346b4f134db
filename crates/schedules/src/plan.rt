//! Plans: the steps that are to be taken, with their energy.

ghost use Rattle.std.specs.Prelude.{◌≡◌, ℕ, ◌+◌, ◌-◌, ◌*◌, ◌^◌, ◌<◌, ◌≤◌, ◌↔◌, List, [], ◌∷◌, length, IsTrue};
ghost use Rattle.schedules.specs.declared.power.Step.{Step as Limit};
ghost use Rattle.schedules.specs.Steps.{next, RiseWithin};
ghost use Rattle.schedules.specs.Plans.{least, IsPlan, IsBestOf, IsMore};

use crate::power::Step;
use arrayvec::ArrayVec;

/// Steps up to a departure.
#[derive(Debug, Default, Drop)]
pub struct Plan {
    /// Their energy in watt-seconds.
    pub energy: u64,
    /// The steps.
    pub steps: ArrayVec<Step, 24>,
}

/// A step that is followed by a plan.
#[derive(Clone, Copy, Debug)]
pub(crate) struct Choice {
    /// Watts of the step.
    pub watts: u32,
    /// Watt-seconds of both.
    pub energy: u64,
    /// How many steps the plan has.
    pub steps: usize,
    /// The place of the plan.
    pub place: usize,
}

impl Choice {
    /// The step with these watts from a start on, and then the plan of a place.
    pub(crate) fn new(start: u32, watts: u32, place: usize, plan: &Plan, departure: u32) -> Choice
        requires order { start ≤ next departure plan.now.steps.items }
        requires end { next departure plan.now.steps.items ≤ departure }
        requires day { departure ≤ 86400 }
        requires fits { plan.now.energy ≤ 2 ^ 32 * (departure - next departure plan.now.steps.items) }
        ensures watts { result.watts ≡ watts }
        ensures energy { result.energy ≡ watts * (next departure plan.now.steps.items - start) + plan.now.energy }
        ensures steps { result.steps ≡ length plan.now.steps.items }
        ensures place { result.place ≡ place }
        ensures fits { result.watts < 2 ^ 32 }
    {
        let end = first_start(&plan.steps, departure);
        Choice {
            watts,
            energy: u64::from(watts) * u64::from(end - start) + plan.energy,
            steps: plan.steps.len(),
            place,
        }
    }

    /// More energy, or as much with fewer steps.
    pub(crate) fn is_better(&self, other: &Choice) -> bool
        ensures { IsTrue result ↔ IsMore self.now.energy self.now.steps other.now.energy other.now.steps }
    {
        self.energy > other.energy || self.energy == other.energy && self.steps < other.steps
    }
}

/// The start of the first step, or the departure where there is none.
fn first_start(steps: &[Step], departure: u32) -> u32
    ensures { result ≡ next departure steps.now }
{
    match steps {
        [first, ..] => first.start,
        [] => departure,
    }
}

/// A step, and then the others.
pub(crate) fn followed(first: Step, others: &[Step]) -> ArrayVec<Step, 24>
    requires { length others.now < 24 }
    ensures { result.items ≡ first ∷ others.now }
{
    let mut steps = ArrayVec::new();
    steps.push(first);
    for step in others {
        steps.push(*step);
    }
    steps
}

/// The same steps.
fn copied(steps: &[Step]) -> ArrayVec<Step, 24>
    requires { length steps.now ≤ 24 }
    ensures { result.items ≡ steps.now }
{
    let mut copy = ArrayVec::new();
    for step in steps {
        copy.push(*step);
    }
    copy
}

/// The same plan.
pub(crate) fn copy_of(plan: &Plan) -> Plan
    ensures energy { result.energy ≡ plan.now.energy }
    ensures steps { result.steps.items ≡ plan.now.steps.items }
{
    Plan {
        energy: plan.energy,
        steps: copied(&plan.steps),
    }
}

/// One step over all the limits.
pub(crate) fn whole(first: Step, rest: &[Step], departure: u32) -> Plan
    requires rise { RiseWithin 0 departure (first ∷ rest.now) }
    requires day { departure ≤ 86400 }
    ensures plan { IsPlan departure (first ∷ rest.now) result.energy result.steps.items }
    ensures best { IsBestOf departure 1 (first ∷ rest.now) result.steps.items }
{
    let watts = least_of(first.watts, rest);
    Plan {
        energy: u64::from(watts) * u64::from(departure - first.start),
        steps: followed(
            Step {
                start: first.start,
                watts,
            },
            &[],
        ),
    }
}

/// The least of these watts and those of the limits.
fn least_of(watts: u32, limits: &[Step]) -> u32
    ensures { result ≡ least watts limits.now }
{
    limits.iter().fold(watts, |low, limit| low.min(limit.watts))
}
