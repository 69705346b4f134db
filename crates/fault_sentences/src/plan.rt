//! Why a plan is refused.

use crate::value::{Described, value_at};
use charge_world::Source;
use plan_files::{site_plan_in, text_in};
use plan_keys::{Key, LONGEST};
use site_plan::{PlanFault, car_plan_of, site_plan_of};
use std::alloc::Global;
use std::io;

/// Says why the plan in the file of that name is refused: the key, what it must say, and what was found.
pub fn say_plan<E: Eprint, F: Source>(
    rt: &E,
    alloc: Global,
    files: &mut F,
    is_car: bool,
    name: &str,
) -> io::Result<()> {
    let Ok(text) = text_in(alloc, files, name, LONGEST) else {
        return eprintln!(rt;
            "The plan {name} is refused, and can't be read a second time to say why."
        );
    };
    let fault = if is_car {
        car_plan_of(alloc, text.as_slice()).err()
    } else {
        site_plan_of(alloc, text.as_slice()).err()
    };
    match fault {
        None => eprintln!(rt; "The plan {name} was refused, and has changed since."),
        Some(PlanFault::NotToml) => say_not_toml(rt, alloc, name, text.as_slice()),
        Some(PlanFault::Memory) => rt.eprintln(
            "There is too little memory to say why the plan is refused.",
        ),
        Some(fault) => say_key(rt, alloc, name, &fault, text.as_slice()),
    }
}

/// Says why one of two plans is refused: that of the station, or, where it isn't, that of the car.
pub fn say_plans<E: Eprint, F: Source>(
    rt: &E,
    alloc: Global,
    files: &mut F,
    station: &str,
    car: &str,
) -> io::Result<()> {
    match site_plan_in(alloc, files, station) {
        Ok(_) => say_plan(rt, alloc, files, true, car),
        Err(_) => say_plan(rt, alloc, files, false, station),
    }
}

/// Says where a text is no TOML.
fn say_not_toml<E: Eprint>(rt: &E, alloc: Global, name: &str, text: &[u8]) -> io::Result<()> {
    match toml::table_from_slice(alloc, text) {
        Ok(_) => eprintln!(rt; "The plan {name} was refused, and has changed since."),
        Err(error) => eprintln!(rt; "The plan {name} is no TOML document: {error}"),
    }
}

/// Says what is wrong with a key.
fn say_key<E: Eprint>(
    rt: &E,
    alloc: Global,
    name: &str,
    fault: &PlanFault,
    text: &[u8],
) -> io::Result<()> {
    eprintln!(rt; "The plan {name} is refused: {fault}.")?;
    let Some(key) = key_of(fault) else {
        return Ok(());
    };
    if key.as_str() == "bytes" {
        return rt.eprintln("The file is longer than that.");
    }
    let Ok(table) = toml::table_from_slice(alloc, text) else {
        return Ok(());
    };
    match value_at(&table, key.as_str()) {
        Some(value) => eprintln!(rt; "There stands {}.", Described(value)),
        None => Ok(()),
    }
}

fn key_of(fault: &PlanFault) -> Option<&Key> {
    match fault {
        PlanFault::Missing(key) | PlanFault::BadValue(key) | PlanFault::OverLimit(key) => Some(key),
        PlanFault::NotToml | PlanFault::Memory => None,
    }
}
