//! A site that replays a session.

ghost use Rattle.std.specs.Prelude.{◌≡◌, IfOk, length};
ghost use Rattle.session_words.specs.Plans.{IsSitePlan};
ghost use Rattle.replay_wire.specs.Replays.{AllCanBeHeard};

use crate::memory::heap_bytes;
use anyhow::{Result, bail};
use charge_world::{Entry, MemorySink};
use replay_wire::traces_can_be_heard;
use session_words::SitePlan;
use site_codecs::ChargeCodecs;
use site_core::Site;
use site_plan::site_plan_of;
use site_replays::replay;
use std::alloc::Global;
use std::mem::size_of;
use trace_reading::read_trace;

/// Room for a trace that is written, in bytes.
const ROOM: u32 = 268_435_456;

/// The plan of a text.
fn plan_of(alloc: Global, text: &str) -> Result<SitePlan>
    ensures { IfOk result IsSitePlan }
{
    match site_plan_of(alloc, text.as_bytes()) {
        Ok(plan) => Ok(plan),
        Err(_) => bail!("a plan that is refused"),
    }
}

/// How many posts a plan has.
fn posts_of(plan: &SitePlan) -> u8
    requires { IsSitePlan plan.now }
    ensures { result ≡ length plan.now.post.items }
{
    plan.post.len() as u8
}

/// The entries of a trace.
fn entries_of(alloc: Global, trace: &[u8], posts: u8) -> Result<Vec<Entry>>
    ensures { IfOk result (λ entries. AllCanBeHeard posts entries.items) }
{
    traces_can_be_heard();
    match read_trace(alloc, trace, posts) {
        Ok(entries) => Ok(entries),
        Err(_) => bail!("a trace that isn't read"),
    }
}

/// How many entries a trace at so many posts has.
pub(crate) fn count_read(alloc: Global, trace: &[u8], posts: u8) -> Result<usize> {
    Ok(entries_of(alloc, trace, posts)?.len())
}

/// What was written of a session that was replayed, and the bytes that its site took at most.
#[derive(Drop)]
pub(crate) struct Served {
    pub(crate) entries: u64,
    pub(crate) taken: u64,
    pub(crate) trace: MemorySink,
}

/// Replays the hearings of a trace at a site that was just made.
pub(crate) fn serve(rt: &HostRuntime, plan: &str, trace: &[u8]) -> Result<Served> {
    let alloc = rt.alloc();
    let plan = plan_of(alloc, plan)?;
    let posts = posts_of(&plan);
    let entries = entries_of(alloc, trace, posts)?;
    let before = heap_bytes(rt)?;
    let mut site = Site::make(alloc, ChargeCodecs::make(alloc)?, &plan)?;
    let behind = heap_bytes(rt)?;
    let inside = size_of::<Site<ChargeCodecs>>() as u64;
    let taken = behind.saturating_sub(before).saturating_add(inside);
    let mut sink = MemorySink::make(alloc, Vec::new(alloc), ROOM)?;
    let replayed = replay(entries, posts, &mut site, &mut sink);
    Ok(Served {
        entries: replayed.entries,
        taken,
        trace: sink,
    })
}
