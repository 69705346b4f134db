//! What holds of every list of calls.

ghost use Rattle.std.specs.Prelude.{◌≡◌, ℕ, ◌≤◌, List, sum};
ghost use Rattle.power_share.specs.Sharing.{Sharing, Call, Reached, IsLevel};

/// There is one level, whatever the posts ask for.
pub fn one_level()
    ensures some { (limit : ℕ) (asks : List ℕ) → (n : ℕ) × IsLevel limit asks n }
    ensures one { (limit : ℕ) (asks : List ℕ) (m n : ℕ) →
        IsLevel limit asks m → IsLevel limit asks n → m ≡ n }
{}

/// Whatever was called, the watts told last never add up to more than the limit.
pub fn within_limit()
    ensures { (limit posts : ℕ) (calls : List Call) (s : Sharing) →
        Reached limit posts calls s → sum s.told ≤ limit }
{}
