//! What holds of every want and choice.

ghost use Rattle.std.specs.Prelude.{◌≡◌, ℕ, ℤ, List, map};
ghost use Rattle.service_spec.specs.declared.Parameter.{Parameter as AnyPair};
ghost use Rattle.service_spec.specs.Services.{Said, SaidSet, said_of, IsPicked, PicksNone};
ghost use Rattle.service_spec.specs.Wants.{IsWant};

/// A word spells one want.
pub fn one_want()
    ensures { (word : List ℕ) (one other : List AnyPair) → IsWant word one → IsWant word other → map said_of one ≡ map said_of other }
{}

/// One set is picked, or none is.
pub fn one_choice()
    ensures one { (want : List Said) (sets : List SaidSet) (id other : ℤ) → IsPicked want sets id → IsPicked want sets other → id ≡ other }
    ensures apart { (want : List Said) (sets : List SaidSet) (id : ℤ) → IsPicked want sets id → PicksNone want sets → ⊥ }
{}
