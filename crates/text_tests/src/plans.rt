//! What no clause says: the messages of faults, and that there is memory for a plan.

use crate::cases::{Case, all_hold};
use charge_world::Dialect;
use site_plan::{
    CarPlan, Mode, PlanFault, SitePlan, Stop, car_plan_of, fixed, fixed_car, mode_name,
    site_plan_of,
};
use std::alloc::{AllocError, Global};

/// What a text is read as.
#[derive(Clone, Copy)]
enum Reader {
    Station,
    Car,
}

/// A text, up to which length a comment stands behind it, and what is told of both as a plan: "ok" or its fault.
struct Plan(Reader, &'static [u8], usize, &'static str);

fn fault_of(alloc: Global, reader: Reader, text: &[u8]) -> Option<PlanFault> {
    match reader {
        Reader::Station => site_plan_of(alloc, text).err(),
        Reader::Car => car_plan_of(alloc, text).err(),
    }
}

/// Whether this is told of a text.
fn is_told(alloc: Global, reader: Reader, text: &[u8], wanted: &str) -> bool {
    match fault_of(alloc, reader, text) {
        None => wanted == "ok",
        Some(fault) => match format!(in alloc; "{fault}") {
            Ok(told) => told.as_str() == wanted,
            Err(_) => false,
        },
    }
}

/// The start of a text, and then a comment up to so many bytes.
fn padded(alloc: Global, start: &[u8], length: usize) -> Result<Vec<u8>, AllocError> {
    let mut text = Vec::from_slice(alloc, start)?;
    for place in start.len()..length {
        text.push(if place == start.len() { b'#' } else { b'-' })?;
    }
    Ok(text)
}

impl Case for Plan {
    fn holds(&self, alloc: Global) -> bool {
        match padded(alloc, self.1, self.2) {
            Ok(text) => is_told(alloc, self.0, text.as_slice(), self.3),
            Err(_) => false,
        }
    }
}

const PLANS: [Plan; 26] = [
    Plan(Reader::Station, b"[[post]]\ntcp = 15120", 0, "ok"),
    Plan(Reader::Station, b"limit =", 0, "not a TOML document"),
    Plan(
        Reader::Station,
        b"limit = 0",
        0,
        "limit must be 1 to 8000000",
    ),
    Plan(
        Reader::Station,
        b"",
        0,
        "post is missing, and must be 1 to 8 tables",
    ),
    Plan(
        Reader::Station,
        b"post = []",
        0,
        "post must be 1 to 8 tables",
    ),
    Plan(
        Reader::Station,
        b"[[post]]",
        0,
        "post.1.tcp is missing, and must be 1 to 65535",
    ),
    Plan(
        Reader::Station,
        b"[[post]]\ntcp = 15120\nmax_watts = 0",
        0,
        "post.1.max_watts must be 1 to 1000000",
    ),
    Plan(
        Reader::Station,
        b"[[post]]\ntcp = 15120\nmode = \"DC\"",
        0,
        "post.1.mode must be one of AC_single_phase_core, AC_three_phase_core, DC_core, DC_extended, DC_combo_core, DC_unique",
    ),
    Plan(
        Reader::Station,
        b"[[post]]\ntcp = 1\n[[post]]\ntcp = 2\nmode = \"DC_unique\"\ndialects = [\"din\"]",
        0,
        "post.2.dialects must be a list of one or more of iso, each once",
    ),
    Plan(
        Reader::Station,
        b"[[post]]\ntcp = 15120\nevse_id = \"ZZ\"",
        0,
        "post.1.evse_id must be 7 to 37 ASCII characters",
    ),
    Plan(
        Reader::Station,
        b"[[post]]\ntcp = 15120\nevse_id_din = \"0\"",
        0,
        "post.1.evse_id_din must be 1 to 32 bytes in hexadecimal",
    ),
    Plan(
        Reader::Station,
        b"[[post]]\ntcp = 15120\nfree = 1",
        0,
        "post.1.free must be true or false",
    ),
    Plan(
        Reader::Station,
        b"colour = 1\n[[post]]\ntcp = 15120",
        0,
        "colour must be left out, since there is no such key",
    ),
    Plan(Reader::Car, b"tcp = 15120", 0, "ok"),
    Plan(Reader::Car, b"sdp = 15118", 0, "ok"),
    Plan(
        Reader::Car,
        b"sdp = 0",
        0,
        "tcp is missing, and must be 1 to 65535",
    ),
    Plan(Reader::Car, b"sdp = 65536", 0, "sdp must be 0 to 65535"),
    Plan(
        Reader::Car,
        b"tcp = 0\nsdp = 65536",
        0,
        "tcp must be 1 to 65535",
    ),
    Plan(
        Reader::Car,
        b"tcp = 1\nstop = \"go\"",
        0,
        "stop must be one of terminate, pause",
    ),
    Plan(
        Reader::Car,
        b"tcp = 1\ncar_id = \"00\"",
        0,
        "car_id must be 6 to 6 bytes in hexadecimal",
    ),
    // bytes that are no text
    Plan(
        Reader::Station,
        b"# \xff\ntcp = 15120\n",
        0,
        "not a TOML document",
    ),
    Plan(
        Reader::Car,
        b"# \xff\ntcp = 15120\n",
        0,
        "not a TOML document",
    ),
    Plan(Reader::Station, b"[[post]]\ntcp = 15120\n", 65536, "ok"),
    Plan(Reader::Car, b"tcp = 15120\n", 65536, "ok"),
    Plan(
        Reader::Station,
        b"tcp = 15120\n",
        65537,
        "bytes must be at most 65536",
    ),
    Plan(
        Reader::Car,
        b"tcp = 15120\n",
        65537,
        "bytes must be at most 65536",
    ),
];

/// Whether a station has all defaults.
fn has_site_defaults(plan: &SitePlan) -> bool {
    for post in plan.post.as_slice() {
        if mode_name(post.mode) != "DC_extended"
            || post.dialects.as_slice() != [Dialect::Iso, Dialect::Din].as_slice()
            || post.evse_id.as_str() != "ZZ00000"
            || post.max_voltage.get() != 9200
            || post.nominal != 230
        {
            return false;
        }
    }
    plan.limit == 150000 && plan.turns == 1000000 && plan.sessions == 1
}

/// Whether a car has all defaults.
fn has_car_defaults(plan: &CarPlan) -> bool {
    plan.tcp == Some(15120)
        && plan.mode == Mode::DcExtended
        && plan.car_id == [0, 1, 2, 3, 4, 5]
        && plan.pace == 100
        && plan.stop == Stop::Terminate
}

/// The plans of the shortest texts, and those that are stored.
fn are_defaults(alloc: Global) -> bool {
    let Ok(site) = site_plan_of(alloc, b"[[post]]\ntcp = 15120\n") else {
        return false;
    };
    let Ok(car) = car_plan_of(alloc, b"tcp = 15120\n") else {
        return false;
    };
    has_site_defaults(&site)
        && has_site_defaults(&fixed(false))
        && has_car_defaults(&car)
        && has_car_defaults(&fixed_car(false))
        && fixed_car(true).mode == Mode::AcThreePhaseCore
}

#[test]
fn plans_and_their_faults(rt: HostRuntime) {
    all_hold(&rt, rt.alloc(), &PLANS);
    assert!(rt; are_defaults(rt.alloc()));
}
