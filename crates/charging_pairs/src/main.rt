//! A car and a station of this program charge together over the loopback network.
//!
//! Without words it plays scenes, each of a station and the cars at its posts, and prints a line for each scene: what its ends printed. A
//! busy machine may miss the 250 ms of a reply to CurrentDemand, so a scene is tried up to six times. Where no try went as it should, what
//! came instead is printed, and the status is 1.
//!
//! It starts itself as the other ends of a scene: `station PLAN` and `car PLAN` are one end by the plan of this text.
#![tactic(auto)]

mod bounded;
mod end;
mod free;
mod neighbour;
mod pair;
mod playing;
mod scene;

use crate::end::{End, printed_by};
use crate::playing::goes_well;
use crate::scene::SCENES;
use anyhow::{Context, Result};
use std::env;
use std::process::ExitCode;

fn main(rt: HostRuntime) -> Result<ExitCode> {
    let mut words = env::args(&rt)?.skip(1);
    if let Some(word) = words.next() {
        let end = End::of(word.as_str()).context("neither a station nor a car")?;
        let plan = words.next().context("no plan")?;
        let lines = printed_by(&rt, rt.alloc(), end, plan.as_str())?;
        rt.print(lines)?;
        return Ok(ExitCode::SUCCESS);
    }
    for scene in &SCENES {
        if !goes_well(&rt, rt.alloc(), scene)? {
            return Ok(ExitCode::from(1));
        }
    }
    Ok(ExitCode::SUCCESS)
}
