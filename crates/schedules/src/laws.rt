//! What holds of each offer, and of the best charging profile. Each of these functions does nothing: its contract is the law.

ghost use Rattle.std.specs.Prelude.{◌≡◌, ℕ, List};
ghost use Rattle.schedules.specs.declared.power.Step.{Step};
ghost use Rattle.schedules.specs.declared.power.Schedule.{Schedule};
ghost use Rattle.schedules.specs.Offers.{IsOffer};
ghost use Rattle.schedules.specs.Profiles.{IsBest};
ghost use Rattle.schedules.specs.Bounds.{AreBounded};

/// A calendar has one offer at a moment.
pub fn one_offer()
    ensures { (calendar : List Step) (moment : ℕ) (one other : List Step) → IsOffer calendar moment one → IsOffer calendar moment other → one ≡ other }
{}

/// A schedule has one best profile at most, for a cap and a departure.
pub fn one_best()
    ensures { (schedule : Schedule) (cap departure : ℕ) (one other : List Step) → IsBest schedule cap departure one → IsBest schedule cap departure other → one ≡ other }
{}

/// The best profile has a step. Each starts before the departure, and takes no more than the cap.
pub fn steps_are_bounded()
    ensures { (schedule : Schedule) (cap departure : ℕ) (steps : List Step) → IsBest schedule cap departure steps → AreBounded cap departure steps }
{}
