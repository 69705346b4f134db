//! Which check fails at an entry.

ghost use Rattle.std.specs.Prelude.{◌≡◌, ◌≤◌, ◌+◌, ◌↔◌, ◌||◌, ℕ, List, length, IsTrue};
ghost use Rattle.std.specs.List.{list_any};
ghost use Rattle.charge_world.specs.declared.entry.Entry.{Entry};
ghost use Rattle.session_words.specs.declared.plan.SitePlan.{SitePlan};
ghost use Rattle.told_pasts.specs.Checks as checks;
ghost use Rattle.told_pasts.specs.Faults.{FailsAt};
ghost use Rattle.told_pasts.specs.Site.{ToldPost};
ghost use Rattle.faultless_pasts.specs.Faultless.{told_codecs};
ghost use Rattle.audit_checks.specs.Checks as numbers;
ghost use Rattle.audit_checks.specs.Checks.{FailsOf};
ghost use Rattle.trace_audit.specs.Seats.{IsJudgedSeat, AreJudged};
ghost use Rattle.trace_audit.specs.Verdicts.{IsEntryPlace, IsFirst, IsLeast, IsVerdict, fault_before};

use crate::seats::Seat;
use audit_checks::Check;
use audit_streams::ToldReader;
use audited_posts::Place;
use charge_world::Entry;

/// What is told of the place of an entry, for all posts.
#[derive(Clone, Copy)]
pub(crate) struct EntryPlace {
    /// Something was heard before the entry.
    pub begun: bool,
    /// The entry is the last of its block.
    pub ends: bool,
    /// It is the last of the trace.
    pub last: bool,
    /// Behind it the watts of all posts are above the limit of the site.
    pub above: bool,
}

/// A check that fails at an entry.
#[derive(Clone, Copy)]
pub(crate) struct Finding {
    /// Its number.
    pub check: u8,
    /// The first post for which it fails.
    pub post: u8,
}

/// The least check that fails at an entry, if one does.
#[derive(Clone, Copy)]
pub(crate) struct Verdict {
    /// Where something follows that isn't heard.
    pub goes_on: Option<Finding>,
    /// Where a hearing follows.
    pub hears: Option<Finding>,
    /// Where nothing follows.
    pub ends: Option<Finding>,
}

/// The check of this number.
fn check_of(number: u8) -> Check
    requires some { 1 ≤ number }
    requires most { number ≤ 10 }
    ensures { numbers.number result ≡ number }
{
    match number {
        1 => Check::ClosesUnmandated,
        2 => Check::FailsLive,
        3 => Check::PassesCause,
        4 => Check::ForgetsOpen,
        5 => Check::StaysClosed,
        6 => Check::PassesLimit,
        7 => Check::SpellsOthers,
        8 => Check::EndsLive,
        9 => Check::AnswersNothing,
        _ => Check::LeavesWord,
    }
}

impl Seat {
    /// Whether a check fails for the post of this number at the newest entry, which stands at this place.
    fn fails<R: ToldReader>(&self, check: Check, post: u8, entry: &Entry, place: EntryPlace) -> bool
        ensures { (site : SitePlan) (earlier behind : List Entry) (own : ToldPost)
            → IsJudgedSeat (told_codecs R.negotiates R.reads R.encodes R.responds R.watts) site post earlier entry.now own self.now
            → IsEntryPlace (told_codecs R.negotiates R.reads R.encodes R.responds R.watts) site earlier entry.now behind place
            → (IsTrue result ↔ FailsOf (told_codecs R.negotiates R.reads R.encodes R.responds R.watts) site earlier entry.now behind post check) }
    {
        let place = Place {
            begun: place.begun,
            ends: place.ends,
            last: place.last,
            alone: self.alone,
            writes: self.post.writes,
            above: place.above,
        };
        self.post
            .fails::<R>(check, post, entry, &self.passed, place)
    }
}

/// The first post for which a check fails at the newest entry, if it does for one.
fn first_failing<R: ToldReader>(
    seats: &[Seat],
    check: Check,
    entry: &Entry,
    place: EntryPlace,
) -> Option<u8>
    requires some { 1 ≤ length seats.now }
    requires few { length seats.now ≤ 8 }
    ensures { (site : SitePlan) (earlier behind : List Entry) (posts : List ToldPost)
        → AreJudged (told_codecs R.negotiates R.reads R.encodes R.responds R.watts) site earlier entry.now posts seats.now
        → IsEntryPlace (told_codecs R.negotiates R.reads R.encodes R.responds R.watts) site earlier entry.now behind place
        → IsFirst (told_codecs R.negotiates R.reads R.encodes R.responds R.watts) site earlier entry.now behind check result }
{
    for i in 0..seats.len() {
        let seat = &seats[i];
        if seat.fails::<R>(check, i as u8 + 1, entry, place) {
            return Some(i as u8 + 1);
        }
    }
    None
}

/// The first post for which a check fails at the newest entry, if it does for one. Where it can fail for none, no post is looked at.
fn first_due<R: ToldReader>(
    seats: &[Seat],
    check: Check,
    entry: &Entry,
    place: EntryPlace,
) -> Option<u8>
    requires some { 1 ≤ length seats.now }
    requires few { length seats.now ≤ 8 }
    ensures { (site : SitePlan) (earlier behind : List Entry) (posts : List ToldPost)
        → AreJudged (told_codecs R.negotiates R.reads R.encodes R.responds R.watts) site earlier entry.now posts seats.now
        → IsEntryPlace (told_codecs R.negotiates R.reads R.encodes R.responds R.watts) site earlier entry.now behind place
        → IsFirst (told_codecs R.negotiates R.reads R.encodes R.responds R.watts) site earlier entry.now behind check result }
{
    if check.may_fail::<R>(entry, place.ends, place.last, place.above) {
        first_failing::<R>(seats, check, entry, place)
    } else {
        None
    }
}

/// The least check that fails at the newest entry, and the first post for which it does, if one does.
fn least<R: ToldReader>(seats: &[Seat], entry: &Entry, place: EntryPlace) -> Option<Finding>
    requires some { 1 ≤ length seats.now }
    requires few { length seats.now ≤ 8 }
    ensures { (site : SitePlan) (earlier behind : List Entry) (posts : List ToldPost)
        → AreJudged (told_codecs R.negotiates R.reads R.encodes R.responds R.watts) site earlier entry.now posts seats.now
        → IsEntryPlace (told_codecs R.negotiates R.reads R.encodes R.responds R.watts) site earlier entry.now behind place
        → IsLeast (told_codecs R.negotiates R.reads R.encodes R.responds R.watts) site earlier entry.now behind result }
{
    for number in 1..11 {
        if let Some(post) = first_due::<R>(seats, check_of(number), entry, place) {
            return Some(Finding {
                check: number,
                post,
            });
        }
    }
    None
}

/// Whether an entry is a hearing.
pub(crate) fn is_heard(entry: &Entry) -> bool
    ensures { result ≡ checks.is_heard entry.now }
{
    matches!(entry, Entry::Heard { .. })
}

/// Whether something was heard, with an entry more.
pub(crate) fn begins(begun: bool, entry: &Entry) -> bool
    ensures { result ≡ (checks.is_heard entry.now || begun) }
{
    is_heard(entry) || begun
}

impl Verdict {
    /// Before any entry nothing fails.
    pub(crate) fn nothing() -> Verdict
        ensures { result ≡ record { goes_on = None; hears = None; ends = None } }
    {
        Verdict {
            goes_on: None,
            hears: None,
            ends: None,
        }
    }

    /// At the newest entry, behind which the posts are so; something was heard before, or wasn't, and the watts of all posts are `above` the limit.
    pub(crate) fn of<R: ToldReader>(
        seats: &[Seat],
        entry: &Entry,
        begun: bool,
        above: bool,
    ) -> Verdict
        requires some { 1 ≤ length seats.now }
        requires few { length seats.now ≤ 8 }
        ensures { (site : SitePlan) (earlier : List Entry) (posts : List ToldPost)
            → AreJudged (told_codecs R.negotiates R.reads R.encodes R.responds R.watts) site earlier entry.now posts seats.now
            → begun ≡ list_any checks.is_heard earlier → (IsTrue above ↔ checks.PassesLimit (told_codecs R.negotiates R.reads R.encodes R.responds R.watts) site earlier entry.now)
            → IsVerdict (told_codecs R.negotiates R.reads R.encodes R.responds R.watts) site earlier entry.now result }
    {
        let ends = begins(begun, entry);
        let goes_on = EntryPlace {
            begun,
            ends: false,
            last: false,
            above,
        };
        let hears = EntryPlace { ends, ..goes_on };
        let last = EntryPlace {
            ends,
            last: true,
            ..goes_on
        };
        Verdict {
            goes_on: least::<R>(seats, entry, goes_on),
            hears: least::<R>(seats, entry, hears),
            ends: least::<R>(seats, entry, last),
        }
    }

    /// The check that fails where this entry follows, if one does.
    pub(crate) fn before(&self, entry: &Entry) -> Option<Finding>
        ensures { result ≡ fault_before self.now entry.now }
    {
        if is_heard(entry) {
            self.hears
        } else {
            self.goes_on
        }
    }
}
