//! Serves a charging session from memory, or replays the trace of a file, so that it can be timed. The clock stands outside.
//!
//! The words are a task, a number of posts and a number of requests:
//! - `read` reads the trace of the session: that of `opening.trace`, whose last request comes so many times more;
//! - `serve` serves it at the first post too, and says whether the site takes less than 1 MB;
//! - `write` serves it, and prints the trace that is written.
//!
//! Or they are `replay` and a file: the trace in it is replayed at one post, and it is said whether the same is written.
#![tactic(auto)]

mod memory;
mod serving;
mod session;

use anyhow::{Context, Result, bail};
use serving::{Served, count_read, serve};
use session::{plan_text, session_text};
use std::process::ExitCode;
use std::{env, fs};

/// A site takes fewer bytes.
const MOST: u64 = 1_000_000;

fn main(rt: HostRuntime) -> Result<ExitCode> {
    let mut words = env::args(&rt)?.skip(1);
    let task = words.next().context("no task")?;
    let word = words.next().context("no number of posts, and no file")?;
    if task.as_str() == "replay" {
        replay_file(&rt, word.as_str())?;
    } else {
        let requests: u32 = words
            .next()
            .context("no number of requests")?
            .as_str()
            .parse()?;
        serve_session(&rt, task.as_str(), word.as_str().parse()?, requests)?;
    }
    Ok(ExitCode::SUCCESS)
}

/// Does a task with a session of so many requests more at a site of so many posts.
fn serve_session(rt: &HostRuntime, task: &str, posts: u8, requests: u32) -> Result<()> {
    let alloc = rt.alloc();
    let opening = fs::read(rt, "opening.trace")?;
    let trace = session_text(alloc, str::from_utf8(opening.as_slice())?, requests)?;
    let plan = plan_text(alloc, posts, requests.saturating_add(100))?;
    match task {
        "read" => println!(rt; "hearings {}", count_read(alloc, trace.as_bytes(), posts)?)?,
        "serve" => tell(rt, posts, &serve(rt, plan.as_str(), trace.as_bytes())?)?,
        "write" => {
            let served = serve(rt, plan.as_str(), trace.as_bytes())?;
            print!(rt; "{}", str::from_utf8(served.trace.bytes())?)?;
        }
        _ => bail!("no such task"),
    }
    Ok(())
}

/// Prints what was written, and whether the site takes little.
fn tell(rt: &HostRuntime, posts: u8, served: &Served) -> Result<()> {
    println!(rt;
        "entries {} bytes {}",
        served.entries,
        served.trace.bytes().len()
    )?;
    let below = if served.taken < MOST { "yes" } else { "no" };
    println!(rt; "site of {posts} posts: below {MOST} bytes: {below}")?;
    Ok(())
}

/// Replays the trace of a file, and prints how much was written, and whether it is the same.
fn replay_file(rt: &HostRuntime, file: &str) -> Result<()> {
    let recorded = fs::read(rt, file)?;
    let plan = plan_text(rt.alloc(), 1, u32::MAX)?;
    let served = serve(rt, plan.as_str(), recorded.as_slice())?;
    let same = served.trace.bytes() == recorded.as_slice();
    println!(rt; "entries {} same {same}", served.entries)?;
    Ok(())
}
