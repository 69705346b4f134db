//! How the posts share the site's watts.

ghost use Rattle.std.specs.Prelude.{◌≡◌, ◌≤◌, ◌<◌, ◌*◌, length};
ghost use Rattle.std.specs.List.{sum_by};
ghost use Rattle.site_posts.specs.Places.{told_at, Shares as IsShared, AsksOf};

use crate::place::Place;
use power_share::Shares;

/// What these posts were told together, in watts.
fn told_to(places: &[Place]) -> u64
    requires { length places.now ≤ 8 }
    ensures value { result ≡ sum_by told_at places.now }
    ensures small { result ≤ 8 * 4294967296 }
{
    let mut sum: u64 = 0;
    for i in 0..places.len() {
        let place = &places[i];
        sum += u64::from(place.post.told());
    }
    sum
}

/// The shares of posts that ask for what these do, none of which was told watts.
fn asks_of(places: &[Place], limit: u32) -> Shares
    requires some { 1 ≤ length places.now }
    requires few { length places.now ≤ 8 }
    ensures { AsksOf limit places.now (length places.now) result }
{
    let mut shares = Shares::new(limit, places.len() as u8);
    for i in 0..places.len() {
        let place = &places[i];
        shares.ask(i as u8 + 1, place.post.asked());
    }
    shares
}

/// The watts that post i is shown where it asks for these (own): the least of what it asks for, the level, and the limit less what the
/// others were told.
pub fn share(places: &[Place], i: usize, asked: u32, limit: u32) -> u32
    requires within { i < length places.now }
    requires few { length places.now ≤ 8 }
    ensures { IsShared limit places.now i asked result }
{
    let most = asks_of(places, limit).shown(i as u8 + 1, asked);
    let others = told_to(&places[..i]) + told_to(&places[i + 1..]);
    let left = u64::from(limit).saturating_sub(others);
    u64::from(most).min(left) as u32
}
