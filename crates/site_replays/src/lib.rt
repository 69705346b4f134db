//! A site that replays a trace: the posts hear what the trace tells, their calls fail by its marks, and the whole trace is written anew
//! (own).
//!
//! Proved: `replay`: a site replays a trace and writes it anew (`IsReplayed`).
#![tactic(auto)]

ghost use Rattle.std.specs.Prelude.{◌≡◌, vec_len};
ghost use Rattle.session_words.specs.declared.plan.SitePlan.{SitePlan};
ghost use Rattle.post_spec.specs.Codecs.{codecs};
ghost use Rattle.replay_wire.specs.Replays.{AllCanBeHeard};
ghost use Rattle.site_turns.specs.Ending.{AreMade, AreMadeOf, AreFaults};
ghost use Rattle.site_replays.specs.Replayed.{IsReplayed};

use charge_world::{Entry, Sink};
use replay_wire::{Recorded, ReplayWire};
use site_codec::Codec;
pub use site_core;
use site_core::{Ended, Site, serve};
use std::marker::Brand;

/// How a replay ended, and how many entries its past has; that count stands still at the end of its type.
#[derive(Clone, Copy)]
pub struct Replayed {
    pub ended: Ended,
    pub entries: u64,
}

/// Replays entries that a type names, as `replay` does.
fn replay_recorded<K: Recorded, C: Codec, J: Sink>(
    recorded: Vec<Entry>,
    posts: u8,
    site: &mut Site<C>,
    trace: &mut J,
) -> Replayed
    requires recorded { recorded.items ≡ K.entries }
    requires heard { AllCanBeHeard posts recorded.items }
    requires made { AreMade site.old.places.items site.old.limit site.old.turns }
    requires posts { posts ≡ vec_len site.old.places }
    ensures replayed { (plan : SitePlan) → AreMadeOf plan site.old.places.items site.old.limit site.old.turns
        → IsReplayed (codecs C.negotiates C.reads C.encodes) plan K.entries (J.taken trace.old) (J.taken trace.new) result.ended result.entries }
    ensures faults { AreFaults (J.faults trace.old) (J.faults trace.new) result.ended }
{
    let mut wire = ReplayWire::<K>::make(recorded, posts);
    let ended = serve(&mut wire, trace, site);
    wire.replays();
    let entries = wire.entries();
    Replayed { ended, entries }
}

/// Replays recorded entries, the oldest first, at a site that was just made with so many posts, and writes the whole trace anew. The posts
/// hear what is recorded, and Over at its last moment where that ends without Over or a lost hearing; the calls behind a hearing fail by the
/// marks of the entries behind it.
///
/// It takes no memory. `TraceFault` comes exactly where a line couldn't be written.
pub fn replay<C: Codec, J: Sink>(
    recorded: Vec<Entry>,
    posts: u8,
    site: &mut Site<C>,
    trace: &mut J,
) -> Replayed
    requires heard { AllCanBeHeard posts recorded.items }
    requires made { AreMade site.old.places.items site.old.limit site.old.turns }
    requires posts { posts ≡ vec_len site.old.places }
    ensures replayed { (plan : SitePlan) → AreMadeOf plan site.old.places.items site.old.limit site.old.turns
        → IsReplayed (codecs C.negotiates C.reads C.encodes) plan recorded.items (J.taken trace.old) (J.taken trace.new) result.ended result.entries }
    ensures faults { AreFaults (J.faults trace.old) (J.faults trace.new) result.ended }
{
    replay_recorded::<Brand, C, J>(recorded, posts, site, trace)
}
