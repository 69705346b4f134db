//! The session that is served, and the plan of its site.

use anyhow::{Context, Result};
use std::alloc::Global;
use std::fmt::Write;

/// The milliseconds from a request to the next.
const PACE: u64 = 100;

/// The plan of so many posts, with turns enough for so many hearings.
pub(crate) fn plan_text(alloc: Global, posts: u8, hearings: u32) -> Result<String> {
    let mut text = format!(in alloc; "limit = 50000\nturns = {hearings}\n")?;
    for k in 0..posts {
        let port = 15120 + u16::from(k);
        write!(
            text,
            "[[post]]\ntcp = {port}\ndialects = [\"iso\", \"din\"]\n"
        )?;
    }
    Ok(text)
}

/// The trace of a session: the lines of its opening, and its last request so many times more.
pub(crate) fn session_text(alloc: Global, opening: &str, requests: u32) -> Result<String> {
    let mut text = String::from_str(alloc, opening)?;
    let last = opening.lines().last().context("no opening")?;
    let (_, request) = last.rsplit_once(' ').context("no request")?;
    let mut at = 1000u64;
    for _ in 0..requests {
        at = at.saturating_add(PACE);
        write!(text, "heard {at} 1 bytes {request}\n")?;
    }
    Ok(text)
}
