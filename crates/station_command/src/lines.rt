//! The lines that a station prints.

ghost use Rattle.std.specs.Prelude.{◌≡◌, ◌+◌, ◌≤◌, ◌++◌, OnOk, OnErr, vec_len};
ghost use Rattle.arrayvec.specs.ArrayVec.{array_vec_len};
ghost use Rattle.charge_world.specs.Outside.{Appends, AppendsSome, IsFault};
ghost use Rattle.station_command.specs.Lines.{hex8, report_line, report_lines, reports_of, Concludes};

use bitflags::Flags;
use charge_world::{Failed, Sink};
use command_status::{Line, Status, add, add_number, tell_fault};
use site_laws::site_core::{CauseSet, Ended, PostReport, Site};

/// The line of a post.
#[tactic(auto, unfolding(crate::specs::Lines::report_line))]
fn line_of(post: u8, report: &PostReport) -> Line
    ensures { result.items ≡ report_line post report.now }
{
    let mut line = Line::new();
    add(&mut line, b"post ");
    add_number(&mut line, u64::from(post));
    add(&mut line, b" sessions ");
    add_number(&mut line, report.sessions);
    add(&mut line, b" closed ");
    add_number(&mut line, report.closed);
    add(&mut line, b" causes ");
    add_causes(&mut line, report.causes);
    add(&mut line, b"\n");
    line
}

fn add_causes(line: &mut Line, causes: CauseSet)
    requires { array_vec_len line.old + 8 ≤ 128 }
    ensures items { line.new.items ≡ line.old.items ++ hex8 causes.0 }
    ensures len { array_vec_len line.new ≡ array_vec_len line.old + 8 }
{
    let mut digits = [0u8; 8];
    hex::encode_to_slice(causes.bits().to_be_bytes().as_slice(), &mut digits).unwrap();
    add(line, &digits);
}

/// Writes the lines of all posts of a site, in order of number.
fn write_reports<C: Drop, K: Sink>(out: &mut K, site: &Site<C>, posts: u8) -> Result<(), Failed>
    requires few { posts ≤ 8 }
    requires all { posts ≡ vec_len site.now.places }
    ensures ok { OnOk result (Appends (K.taken out.old) (K.taken out.new) (report_lines 1 (reports_of site.now.places.items))) }
    ensures failed { OnErr result (AppendsSome (K.taken out.old) (K.taken out.new) (report_lines 1 (reports_of site.now.places.items))) }
    ensures faults { IsFault (K.faults out.old) (K.faults out.new) result }
{
    for place in 0..posts {
        let number = place + 1;
        out.write(line_of(number, &site.report(number)).as_slice())?;
    }
    Ok(())
}

/// Prints what serving a site of so many posts came to, and says the status.
pub(crate) fn conclude<C: Drop, K: Sink>(
    ended: Ended,
    site: &Site<C>,
    posts: u8,
    out: &mut K,
) -> Status
    requires few { posts ≤ 8 }
    requires all { posts ≡ vec_len site.now.places }
    ensures { Concludes ended (reports_of site.now.places.items) result (K.taken out.old) (K.taken out.new) (K.faults out.old) (K.faults out.new) }
{
    match ended {
        Ended::Lost => {
            tell_fault(out, b"wire\n");
            Status::WireFault
        }
        Ended::TraceFault => Status::SinkFault,
        Ended::Over => match write_reports(out, site, posts) {
            Err(_) => Status::SinkFault,
            Ok(()) => Status::Done,
        },
        Ended::Turns => match write_reports(out, site, posts) {
            Err(_) => Status::SinkFault,
            Ok(()) => {
                tell_fault(out, b"turns\n");
                Status::TurnsSpent
            }
        },
    }
}
