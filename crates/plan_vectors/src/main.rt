//! Reads two files of vectors, plans of stations and plans of cars, and counts those that are answered as the file says.
//!
//! A vector is a line `=== ANSWER` and the text behind it. An answer is `ok`, or the fault and its key.
#![tactic(auto)]

use anyhow::{Context, Result};
use row_texts::{code_of, count};
use site_plan::{PlanFault, car_plan_of, site_plan_of};
use std::alloc::{AllocError, Global};
use std::process::ExitCode;
use std::{env, fs};

/// Whose plans are read.
#[derive(Clone, Copy)]
enum Whose {
    Station,
    Car,
}

fn main(rt: HostRuntime) -> Result<ExitCode> {
    let mut words = env::args(&rt)?.skip(1);
    let (Some(stations), Some(cars)) = (words.next(), words.next()) else {
        println!(rt; "words: STATIONS CARS, two files of vectors")?;
        return Ok(ExitCode::from(2));
    };
    let mut wrong = 0_u64;
    for (whose, file) in [(Whose::Station, stations), (Whose::Car, cars)] {
        let text = fs::read_to_string(&rt, file.as_str())?;
        let of_file = wrong_of(&rt, rt.alloc(), whose, file.as_str(), text.as_str())?;
        wrong = wrong.saturating_add(of_file);
    }
    Ok(code_of(wrong))
}

/// Prints how many vectors of a text are answered as they say, and tells how many are not.
fn wrong_of(rt: &impl Print, alloc: Global, whose: Whose, file: &str, text: &str) -> Result<u64> {
    let mut all = 0u64;
    let mut right = 0u64;
    for block in text.split("=== ").skip(1) {
        let (wanted, plan) = block.split_once('\n').context("a vector without a text")?;
        let said = answer(alloc, whose, plan.as_bytes())?;
        count(&mut all);
        if said.as_str() == wanted {
            count(&mut right);
        } else {
            println!(rt; "{file}: vector {all} gives {said}")?;
        }
    }
    println!(rt; "{file}: {right} of {all}")?;
    Ok(all.saturating_sub(right))
}

/// What a text is as a plan, as the vectors write it.
fn answer(alloc: Global, whose: Whose, text: &[u8]) -> Result<String, AllocError> {
    let fault = match whose {
        Whose::Station => site_plan_of(alloc, text).err(),
        Whose::Car => car_plan_of(alloc, text).err(),
    };
    match fault {
        None => String::from_str(alloc, "ok"),
        Some(PlanFault::NotToml) => String::from_str(alloc, "NotToml"),
        Some(PlanFault::Missing(key)) => format!(in alloc; "Missing {key}"),
        Some(PlanFault::BadValue(key)) => format!(in alloc; "BadValue {key}"),
        Some(PlanFault::OverLimit(key)) => format!(in alloc; "OverLimit {key}"),
        Some(PlanFault::Memory) => String::from_str(alloc, "Memory"),
    }
}
