//! How the posts share the site's watts.

ghost use Rattle.std.specs.Prelude.{◌≡◌, ◌≤◌, ◌<◌, ◌+◌, ◌*◌, ◌-◌, ◌^◌, ◌↔◌, ◌⊎◌, ℕ, List, length, min, IsTrue};
ghost use Rattle.std.specs.List.{sum_by};
ghost use Rattle.charge_world.specs.declared.entry.Entry.{Entry};
ghost use Rattle.told_pasts.specs.Site.{ToldPost, Shows};
ghost use Rattle.told_pasts.specs.Steps.{ToldStep};
ghost use Rattle.faultless_pasts.specs.Faultless.{told_codecs};
ghost use Rattle.audit_contactors.specs.Site.{acting};
ghost use Rattle.audited_posts.specs.Posts.{ShownAt};
ghost use Rattle.trace_audit.specs.Seats.{IsAt, IsSeat, AreSeated, ShownEach};
ghost use Rattle.trace_audit.specs.Shares.{asked_at, told_at, spelled_at, IsShared, AsksOf, AreOthers};
ghost use Rattle.trace_audit.specs.declared.seats.Seat.{Seat};
ghost use Rattle.trace_reading.specs.Readings.{IsOf};

use crate::seats::Seat;
use audit_streams::ToldReader;
use charge_world::Entry;
use power_share::Shares;
use session_words::{PostPlan, SitePlan};

/// The watts that a post asks for.
fn asked_at(seat: &Seat) -> u32
    ensures { result ≡ asked_at seat.now }
{
    match &seat.post.kept.course.session {
        Some(talk) => talk.asked,
        None => 0,
    }
}

/// The watts that it was told last.
fn told_at(seat: &Seat) -> u32
    ensures { result ≡ told_at seat.now }
{
    match &seat.post.kept.course.session {
        Some(talk) => talk.told,
        None => 0,
    }
}

/// What these posts were told together, in watts.
fn told_to(seats: &[Seat]) -> u64
    requires { length seats.now ≤ 8 }
    ensures value { result ≡ sum_by told_at seats.now }
    ensures small { result ≤ 8 * 4294967296 }
{
    let mut sum: u64 = 0;
    for i in 0..seats.len() {
        sum += u64::from(told_at(&seats[i]));
    }
    sum
}

/// What their last replies spell together, in watts.
fn spelled_by(seats: &[Seat]) -> u64
    ensures { result ≡ min (sum_by spelled_at seats.now) (2 ^ 64 - 1) }
{
    let mut sum: u64 = 0;
    for i in 0..seats.len() {
        let seat = &seats[i];
        sum = sum.saturating_add(seat.post.kept.spelled);
    }
    sum
}

/// Whether what they were told, or what their replies spell, is above a limit.
pub(crate) fn is_above(seats: &[Seat], limit: u32) -> bool
    requires { length seats.now ≤ 8 }
    ensures { IsTrue result ↔ ((limit < sum_by spelled_at seats.now) ⊎ (limit < sum_by told_at seats.now)) }
{
    u64::from(limit) < spelled_by(seats) || u64::from(limit) < told_to(seats)
}

/// The shares of posts that ask for what these do, none of which was told watts.
fn asks_of(seats: &[Seat], limit: u32) -> Shares
    requires some { 1 ≤ length seats.now }
    requires few { length seats.now ≤ 8 }
    ensures { AsksOf limit seats.now (length seats.now) result }
{
    let mut shares = Shares::new(limit, seats.len() as u8);
    for i in 0..seats.len() {
        let asked = asked_at(&seats[i]);
        shares.ask(i as u8 + 1, asked);
    }
    shares
}

/// The watts that post i is shown where it asks for these (own): the least of what it asks for, the level, and the limit less what the
/// others were told.
fn share(seats: &[Seat], i: usize, asked: u32, limit: u32) -> u32
    requires within { i < length seats.now }
    requires few { length seats.now ≤ 8 }
    ensures { IsShared limit seats.now i asked result }
{
    let most = asks_of(seats, limit).shown(i as u8 + 1, asked);
    let others = told_to(&seats[..i]) + told_to(&seats[i + 1..]);
    let left = u64::from(limit).saturating_sub(others);
    u64::from(most).min(left) as u32
}

/// The post that an entry is an act of.
fn acting(entry: &Entry) -> Option<u8>
    ensures { result ≡ acting entry.now }
{
    match entry {
        Entry::Sent { post, .. }
        | Entry::Answered { post, .. }
        | Entry::Drove { post, .. }
        | Entry::Ended { post, .. } => Some(*post),
        Entry::Heard { .. } | Entry::Lost | Entry::Dialed { .. } => None,
    }
}

/// The watts that the post with place i is shown for the word that an entry judges, 0 where it is shown no share.
fn shown_at<R: ToldReader>(
    seats: &[Seat],
    plan: &PostPlan,
    limit: u32,
    i: usize,
    entry: &Entry,
) -> u32
    requires within { i < length seats.now }
    requires few { length seats.now ≤ 8 }
    ensures { (seat : Seat) → IsAt seats.now i seat → (before behind : List ToldPost) (past : List Entry) (steps : List ToldStep)
        → IsSeat (told_codecs R.negotiates R.reads R.encodes R.responds R.watts) plan.now (i + 1) past steps seat
        → AreOthers seats.now i before behind
        → ShownAt (told_codecs R.negotiates R.reads R.encodes R.responds R.watts) (Shows limit before behind) plan.now (i + 1) steps entry.now result }
{
    let seat = &seats[i];
    match seat.post.asks::<R>(i as u8 + 1, plan, entry) {
        Some(asked) => share(seats, i, asked, limit),
        None => 0,
    }
}

/// The watts that the word of an entry is shown: 0 where it is shown no share.
pub(crate) fn shown<R: ToldReader>(seats: &[Seat], plan: &SitePlan, entry: &Entry) -> u32
    requires count { length seats.now ≡ length plan.now.post.items }
    requires few { length seats.now ≤ 8 }
    requires of { IsOf (length seats.now) entry.now }
    ensures { (past : List Entry) (posts : List ToldPost) → AreSeated (told_codecs R.negotiates R.reads R.encodes R.responds R.watts) plan.now past posts seats.now
        → ShownEach (told_codecs R.negotiates R.reads R.encodes R.responds R.watts) plan.now.limit posts entry.now result }
{
    match acting(entry) {
        Some(post) => {
            let i = usize::from(post) - 1;
            let own = &plan.post.as_slice()[i];
            shown_at::<R>(seats, own, plan.limit, i, entry)
        }
        None => 0,
    }
}
