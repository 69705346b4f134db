//! What is kept of all posts.

ghost use Rattle.std.specs.Prelude.{◌≡◌, ◌↔◌, ◌||◌, List, [], ◌∷◌, IsTrue};
ghost use Rattle.std.specs.List.{list_any};
ghost use Rattle.charge_world.specs.declared.entry.Entry.{Entry};
ghost use Rattle.trace_reading.specs.Readings.{IsOf};
ghost use Rattle.told_pasts.specs.Checks.{is_heard, opens, EndsBlock, ForgetsOpen, EndsLive};
ghost use Rattle.audit_contactors.specs.Site.{AreAllOf, acting, is_forgotten, is_left, forgets_by};

use crate::values::ContactorValues;
use charge_world::{Entry, Order};
use session_words::Standing;

/// Posts are numbered from 1 to 8.
const POSTS: usize = 8;

/// What is kept of the contactors of posts 1 to 8.
#[derive(Clone, Copy)]
pub struct Contactors {
    posts: [ContactorValues; POSTS],
    begun: bool,
}

/// Whether an entry is a hearing.
fn is_heard(entry: &Entry) -> bool
    ensures { result ≡ is_heard entry.now }
{
    matches!(entry, Entry::Heard { .. })
}

/// Whether something was heard, with an entry more.
fn begins(begun: bool, entry: &Entry) -> bool
    ensures { result ≡ (is_heard entry.now || begun) }
{
    is_heard(entry) || begun
}

/// Whether an entry is an order to open.
fn opens(entry: &Entry) -> bool
    ensures { result ≡ opens entry.now }
{
    matches!(
        entry,
        Entry::Drove {
            order: Order::Open,
            ..
        }
    )
}

/// The post that an entry is an act of.
fn acting(entry: &Entry) -> Option<u8>
    ensures { result ≡ acting entry.now }
{
    match entry {
        Entry::Sent { post, .. }
        | Entry::Answered { post, .. }
        | Entry::Drove { post, .. }
        | Entry::Ended { post, .. } => Some(*post),
        Entry::Heard { .. } | Entry::Lost | Entry::Dialed { .. } => None,
    }
}

impl Contactors {
    /// Before any entry.
    pub fn new() -> Contactors
        ensures { AreAllOf [] result }
    {
        Contactors {
            posts: [ContactorValues::new(); POSTS],
            begun: false,
        }
    }

    /// Behind an entry, the next of the trace, which names no post above 8.
    pub fn behind(&self, entry: &Entry) -> Contactors
        requires { IsOf 8 entry.now }
        ensures { (past : List Entry) → AreAllOf past self.now → AreAllOf (entry.now ∷ past) result }
    {
        let mut posts = self.posts;
        for at in 0..POSTS {
            posts[at] = posts[at].then(at as u8 + 1, entry);
        }
        let begun = begins(self.begun, entry);
        Contactors { posts, begun }
    }

    /// Whether an entry is the first act of a post in its block, behind one that ended with a failed order, and doesn't open.
    fn forgets(&self, entry: &Entry) -> bool
        requires { IsOf 8 entry.now }
        ensures { result ≡ forgets_by (acting entry.now) self.now entry.now }
    {
        match acting(entry) {
            Some(post) => {
                self.begun && !opens(entry) && is_forgotten(&self.posts[post as usize - 1])
            }
            None => false,
        }
    }

    /// Whether the fourth check fails at an entry: the block before ended with a failed order to the contactor of a post, and the entry is the
    /// first that the post does in its block and no order to open, or its block `ends` with it and the post did nothing. These values are those
    /// before the entry, and `later` those behind it.
    pub fn forgets_open(&self, entry: &Entry, later: &Contactors, ends: bool) -> bool
        requires { IsOf 8 entry.now }
        ensures { (earlier : List Entry) (behind : List Entry) → AreAllOf earlier self.now → AreAllOf (entry.now ∷ earlier) later.now
            → (IsTrue ends ↔ EndsBlock behind (entry.now ∷ earlier)) → (IsTrue result ↔ ForgetsOpen earlier entry.now behind) }
    {
        self.forgets(entry) || ends && any_forgotten(&later.posts)
    }

    /// Whether the eighth check fails at the end of a trace: the contactor of a post is live, and nothing opened it.
    pub fn ends_live(&self) -> bool
        ensures { (earlier : List Entry) (e : Entry) → AreAllOf (e ∷ earlier) self.now → (IsTrue result ↔ EndsLive earlier e []) }
    {
        any_left(&self.posts)
    }
}

/// Whether a post did nothing behind a block that ended with a failed order.
fn is_forgotten(values: &ContactorValues) -> bool
    ensures { result ≡ is_forgotten values.now }
{
    !values.acted && matches!(values.stood, Standing::MustOpen)
}

/// Whether one of these posts did nothing behind such a block.
fn any_forgotten(posts: &[ContactorValues]) -> bool
    ensures { result ≡ list_any is_forgotten posts.now }
{
    posts.iter().any(|values| is_forgotten(values))
}

/// Whether the contactor of one of them is live, and nothing opened it.
fn any_left(posts: &[ContactorValues]) -> bool
    ensures { result ≡ list_any is_left posts.now }
{
    posts
        .iter()
        .any(|values| values.live && !values.ends_opened)
}
