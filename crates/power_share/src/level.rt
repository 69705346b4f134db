//! The level up to which each post may take what it asks for.

ghost use Rattle.std.specs.Prelude.{◌≡◌, ◌≤◌, length};
ghost use Rattle.power_share.specs.Sharing.{greatest_ask, taken_up_to, IsLevel};

/// The greatest of the asks, 0 of none.
fn greatest(asks: &[u32]) -> u32
    ensures { result ≡ greatest_ask asks.now }
{
    asks.iter().fold(0, |most, ask| most.max(*ask))
}

/// What the posts take together where each takes what it asks for, but at most `n`.
fn taken(asks: &[u32], n: u32) -> u64
    requires { length asks.now ≤ 8 }
    ensures { result ≡ taken_up_to n asks.now }
{
    asks.iter().map(|ask| u64::from((*ask).min(n))).sum()
}

/// The greatest number, up to the greatest ask, at which the posts together stay within the limit (own).
pub(crate) fn level_of(limit: u32, asks: &[u32]) -> u32
    requires { length asks.now ≤ 8 }
    ensures { IsLevel limit asks.now result }
{
    let mut low = 0;
    let mut high = greatest(asks);
    while low < high {
        let middle = high - (high - low) / 2;
        if taken(asks, middle) <= u64::from(limit) {
            low = middle;
        } else {
            high = middle - 1;
        }
    }
    low
}
