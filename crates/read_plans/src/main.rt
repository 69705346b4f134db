//! Reads plans from files and prints what each key says, with its unit, or the fault.
//!
//! The words are pairs: `station FILE` or `car FILE`. The status is 3 where a plan is refused.
#![tactic(auto)]

use anyhow::Result;
use charge_world::{Dialect, Tenths};
use site_plan::{
    CarPlan, PlanFault, PostPlan, SitePlan, Stop, car_plan_of, mode_name, site_plan_of,
};
use std::process::ExitCode;
use std::{env, fmt, fs, io};

fn main(rt: HostRuntime) -> Result<ExitCode> {
    let mut words = env::args(&rt)?.skip(1);
    let mut status = ExitCode::SUCCESS;
    while let Some(whose) = words.next() {
        let Some(file) = words.next() else {
            println!(rt; "words: station FILE or car FILE, so many of them")?;
            return Ok(ExitCode::from(2));
        };
        let text = fs::read(&rt, file.as_str())?;
        println!(rt; "{file}")?;
        let fault = if whose.as_str() == "car" {
            match car_plan_of(rt.alloc(), text.as_slice()) {
                Ok(plan) => {
                    print_car(&rt, &plan)?;
                    continue;
                }
                Err(fault) => fault,
            }
        } else {
            match site_plan_of(rt.alloc(), text.as_slice()) {
                Ok(plan) => {
                    print_site(&rt, &plan)?;
                    continue;
                }
                Err(fault) => fault,
            }
        };
        println!(rt; "{file}: {fault}")?;
        status = ExitCode::from(3);
    }
    Ok(status)
}

/// So many tenths, with one decimal.
#[derive(Clone, Copy)]
struct OneDecimal(Tenths);

impl fmt::Display for OneDecimal {
    fn fmt<W: fmt::Write>(&self, f: &mut fmt::Formatter<W>) -> fmt::Result {
        let tenths = self.0.get();
        let whole = tenths / 10;
        let rest = tenths % 10;
        write!(f, "{whole}.{rest}")
    }
}

/// Bytes in hexadecimal.
#[derive(Clone, Copy)]
struct Hexadecimal<'a>(&'a [u8]);

impl fmt::Display for Hexadecimal<'_> {
    fn fmt<W: fmt::Write>(&self, f: &mut fmt::Formatter<W>) -> fmt::Result {
        for byte in self.0 {
            let byte = *byte;
            write!(f, "{byte:02x}")?;
        }
        Ok(())
    }
}

/// Dialects in order of preference.
#[derive(Clone, Copy)]
struct Names<'a>(&'a [Dialect]);

impl fmt::Display for Names<'_> {
    fn fmt<W: fmt::Write>(&self, f: &mut fmt::Formatter<W>) -> fmt::Result {
        let mut first = true;
        for dialect in self.0 {
            if !first {
                f.write_str(" ")?;
            }
            first = false;
            f.write_str(match dialect {
                Dialect::Iso => "iso",
                Dialect::Din => "din",
            })?;
        }
        Ok(())
    }
}

/// A line for each key of a station.
fn print_site(rt: &impl Print, plan: &SitePlan) -> io::Result<()> {
    println!(rt; "  limit {} W", plan.limit)?;
    println!(rt; "  turns {} hearings", plan.turns)?;
    println!(rt; "  sessions {}", plan.sessions)?;
    let mut number = 1u8;
    for post in plan.post.as_slice() {
        println!(rt; "  post {number}")?;
        print_post(rt, post)?;
        number = number.wrapping_add(1);
    }
    Ok(())
}

/// A line for each key of a post.
fn print_post(rt: &impl Print, post: &PostPlan) -> io::Result<()> {
    println!(rt; "    tcp {}", post.tcp)?;
    println!(rt; "    sdp {}", post.sdp)?;
    println!(rt; "    mode {}", mode_name(post.mode))?;
    println!(rt; "    dialects {}", Names(post.dialects.as_slice()))?;
    println!(rt; "    evse_id {}", post.evse_id.as_str())?;
    println!(rt;
        "    evse_id_din {}",
        Hexadecimal(post.evse_id_din.as_slice())
    )?;
    println!(rt; "    free {}", post.free)?;
    println!(rt; "    max_watts {} W", post.max_watts)?;
    println!(rt; "    max_voltage {} V", OneDecimal(post.max_voltage))?;
    println!(rt; "    min_voltage {} V", OneDecimal(post.min_voltage))?;
    println!(rt; "    max_current {} A", OneDecimal(post.max_current))?;
    println!(rt; "    min_current {} A", OneDecimal(post.min_current))?;
    println!(rt; "    ripple {} A", OneDecimal(post.ripple))?;
    println!(rt; "    nominal {} V", post.nominal)
}

/// A line for each key of a car.
fn print_car(rt: &impl Print, plan: &CarPlan) -> io::Result<()> {
    match plan.tcp {
        Some(port) => println!(rt; "  tcp {port}")?,
        None => println!(rt; "  tcp by discovery")?,
    }
    println!(rt; "  sdp {}", plan.sdp)?;
    println!(rt; "  turns {} hearings", plan.turns)?;
    println!(rt; "  mode {}", mode_name(plan.mode))?;
    println!(rt; "  dialects {}", Names(plan.dialects.as_slice()))?;
    println!(rt; "  car_id {}", Hexadecimal(&plan.car_id))?;
    println!(rt; "  soc {} %", plan.soc)?;
    print_drive(rt, plan)
}

/// A line for each key of what a car asks for.
fn print_drive(rt: &impl Print, plan: &CarPlan) -> io::Result<()> {
    println!(rt; "  target_voltage {} V", OneDecimal(plan.target_voltage))?;
    println!(rt; "  target_current {} A", OneDecimal(plan.target_current))?;
    println!(rt; "  max_voltage {} V", OneDecimal(plan.max_voltage))?;
    println!(rt; "  max_current {} A", OneDecimal(plan.max_current))?;
    println!(rt; "  min_current {} A", OneDecimal(plan.min_current))?;
    println!(rt; "  max_watts {} W", plan.max_watts)?;
    println!(rt; "  cycles {} replies", plan.cycles)?;
    println!(rt; "  welding {} detections", plan.welding)?;
    println!(rt; "  pace {} ms", plan.pace)?;
    println!(rt;
        "  stop {}",
        match plan.stop {
            Stop::Terminate => "terminate",
            Stop::Pause => "pause",
        }
    )?;
    println!(rt; "  session {}", Hexadecimal(plan.session.bytes.as_slice()))
}
