//! The program's call over a wire that ticks for ever, and on texts that are longer than a row.

use crate::ticking::Ticking;
use plain_run::{Failing, left_by};
use std::alloc::Global;
use std::test::*;

/// The status and the output of a run of these words over this wire, with this text in the file `plan`.
fn told_by(
    alloc: Global,
    words: &[&str],
    plan: &str,
    wire: &mut Ticking,
) -> Result<(u8, String), Fail> {
    let files = [("plan", plan.as_bytes())];
    let left = left_by(alloc, words, &files, Failing::none(alloc), wire)?;
    let text = String::from_str(alloc, str::from_utf8(left.out.bytes())?)?;
    Ok((left.status.number(), text))
}

#[test]
fn a_station_stops_behind_its_last_turn(rt: HostRuntime) -> Result<(), Fail> {
    let mut wire = Ticking::new();
    let plan = "turns = 1000\n[[post]]\ntcp = 15120\n";
    let (status, out) = told_by(rt.alloc(), &["station", "plan"], plan, &mut wire)?;
    assert_eq!(rt; status, 8);
    assert_eq!(rt; wire.hearings(), 1000);
    assert_eq!(rt;
        out.as_str(),
        "post 1 sessions 0 closed 0 causes 00000000\nturns\n"
    );
    Ok(())
}

#[test]
fn a_plan_has_at_most_65_536_bytes(rt: HostRuntime) -> Result<(), Fail> {
    let plan = "turns = 1\n[[post]]\ntcp = 15120\n#";
    let rest = "#".repeat(rt.alloc(), 65_536 - plan.len())?;
    for (end, wanted) in [("", 8), ("#", 3)] {
        let mut wire = Ticking::new();
        let text = format!(in rt.alloc(); "{plan}{rest}{end}")?;
        let (status, out) = told_by(rt.alloc(), &["station", "plan"], text.as_str(), &mut wire)?;
        assert_eq!(rt; status, wanted);
        assert_eq!(rt; out.as_str() == "plan bytes\n", wanted == 3);
    }
    Ok(())
}

#[test]
fn a_payload_of_65_537_bytes_is_refused(rt: HostRuntime) -> Result<(), Fail> {
    let mut wire = Ticking::new();
    let hex = "80".repeat(rt.alloc(), 65_537)?;
    let (status, out) = told_by(rt.alloc(), &["decode", "app", hex.as_str()], "", &mut wire)?;
    assert_eq!(rt; status, 4);
    assert_eq!(rt; out.as_str(), "input 131072\n");
    Ok(())
}
