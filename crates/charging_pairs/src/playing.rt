//! How a scene is played.

use crate::end::{End, printed_by};
use crate::free::free_ports;
use crate::neighbour::Neighbour;
use crate::pair::{Charge, Pair, station_plan};
use crate::scene::Scene;
use anyhow::{Context, Result};
use std::alloc::Global;
use std::net::{Net, TcpStream};
use std::process::{OpenProcess, Processes};
use std::random::RandomSource;
use std::rt::Env;
use std::time::Clock;

/// How often a scene is tried at most.
const TRIES: u32 = 6;

/// Tries a scene until it goes as it should, and prints what its ends printed. A try that goes otherwise is told on the standard error.
/// Where no try went as it should, that is what came last, with what should have come.
pub(crate) fn goes_well<
    R: Net<Stream = TcpStream>
        + Clock
        + RandomSource
        + Processes
        + Env
        + Print
        + Eprint
        + AllocGlobal,
>(rt: &R, alloc: Global, scene: &Scene) -> Result<bool> {
    let name = scene.name;
    let wanted = scene.printed;
    let mut printed = String::new(alloc);
    for _ in 0..TRIES {
        printed = played(rt, alloc, scene)?;
        if printed.as_str() == wanted {
            println!(rt; "{name}: {wanted}")?;
            return Ok(true);
        }
        eprintln!(rt; "{name}: {printed}")?;
    }
    println!(rt; "{name}: {printed} in place of {wanted}")?;
    Ok(false)
}

/// What the ends of a scene print: the car of the first post, which is in this process, the other cars, and the station.
fn played<R: Net<Stream = TcpStream> + Clock + RandomSource + Processes + Env + AllocGlobal>(
    rt: &R,
    alloc: Global,
    scene: &Scene,
) -> Result<String> {
    let pairs = pairs_of(rt, alloc, scene.charges)?;
    let (first, others) = pairs.as_slice().split_first().context("no car")?;
    let plan = station_plan(alloc, pairs.as_slice())?;
    let station = Neighbour::start(rt, End::Station, plan.as_str())?;
    let cars = cars_of(rt, alloc, others, scene.cycles)?;
    let plan = first.car_plan(alloc, scene.cycles)?;
    let lines = printed_by(rt, alloc, End::Car, plan.as_str())?;
    let mut printed = String::new(alloc);
    add(&mut printed, lines.as_str())?;
    for car in cars {
        add(&mut printed, car.printed(alloc)?.as_str())?;
    }
    add(&mut printed, station.printed(alloc)?.as_str())?;
    Ok(printed)
}

/// A pair at free ports for each of these ways to charge.
fn pairs_of(rt: &impl Net, alloc: Global, charges: &[Charge]) -> Result<Vec<Pair>> {
    let mut pairs = Vec::new(alloc);
    for charge in charges {
        pairs.push(Pair {
            charge: *charge,
            ports: free_ports(rt)?,
        })?;
    }
    Ok(pairs)
}

/// The cars of these pairs, each for so many charging replies, started beside this process.
fn cars_of<R: Processes + Env + AllocGlobal>(
    rt: &R,
    alloc: Global,
    pairs: &[Pair],
    cycles: u32,
) -> Result<Vec<Neighbour<R::Started>>> {
    let mut cars = Vec::new(alloc);
    for pair in pairs {
        let plan = pair.car_plan(alloc, cycles)?;
        cars.push(Neighbour::start(rt, End::Car, plan.as_str())?)?;
    }
    Ok(cars)
}

/// Adds lines to a line.
fn add(text: &mut String, lines: &str) -> Result<()> {
    for line in lines.lines() {
        if !text.is_empty() {
            text.push_str(", ")?;
        }
        text.push_str(line)?;
    }
    Ok(())
}
