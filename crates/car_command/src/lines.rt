//! The line that a car prints.

ghost use Rattle.std.specs.Prelude.{◌≡◌, ◌+◌, ◌≤◌, ◌*◌, ◌++◌, length};
ghost use Rattle.arrayvec.specs.ArrayVec.{array_vec_len};
ghost use Rattle.hex.specs.Hex.{encode_lower};
ghost use Rattle.command_status.specs.Told.{sink_told};
ghost use Rattle.car_command.specs.Lines.{session_text, report_line, Prints, Concludes};

use car_core::{CarReport, Ended};
use charge_world::Sink;
use command_status::{Line, Status, add, add_number, tell_fault};
use session_words::SessionId;

/// Puts the identifier of the session to come back to behind a line, where there is one.
fn add_session(line: &mut Line, session: &Option<SessionId>)
    requires { array_vec_len line.old + 25 ≤ 128 }
    ensures items { line.new.items ≡ line.old.items ++ session_text session.now }
    ensures len { array_vec_len line.new ≤ array_vec_len line.old + 25 }
{
    if let Some(session) = session {
        add(line, b" session ");
        add_hex(line, session.bytes.as_slice());
    }
}

/// Puts at most 8 bytes behind a line, in lower-case hexadecimal digits.
fn add_hex(line: &mut Line, bytes: &[u8])
    requires few { length bytes.now ≤ 8 }
    requires room { array_vec_len line.old + 16 ≤ 128 }
    ensures items { line.new.items ≡ line.old.items ++ encode_lower bytes.now }
    ensures len { array_vec_len line.new ≡ array_vec_len line.old + 2 * length bytes.now }
{
    let mut room = [0u8; 16];
    let digits = &mut room[..2 * bytes.len()];
    hex::encode_to_slice(bytes, digits).unwrap();
    add(line, digits);
}

/// The line of a report.
#[tactic(auto, unfolding(crate::specs::Lines::report_line))]
fn line_of(report: &CarReport) -> Line
    ensures { result.items ≡ report_line report.now }
{
    let mut line = Line::new();
    add(&mut line, b"cycles ");
    add_number(&mut line, u64::from(report.cycles));
    add(&mut line, b" cause ");
    add_number(&mut line, u64::from(report.cause));
    add_session(&mut line, &report.session);
    add(&mut line, b"\n");
    line
}

/// Prints the line of a report.
fn print_report<K: Sink>(out: &mut K, report: &CarReport) -> Status
    ensures { Prints (report_line report.now) result (sink_told (K.taken out.old) (K.faults out.old)) (sink_told (K.taken out.new) (K.faults out.new)) }
{
    match out.write(line_of(report).as_slice()) {
        Ok(()) => Status::Done,
        Err(_) => Status::SinkFault,
    }
}

/// Prints what driving a car came to, and says the status.
pub(crate) fn conclude<K: Sink>(ended: Ended, report: &CarReport, out: &mut K) -> Status
    ensures { Concludes ended report.now result (sink_told (K.taken out.old) (K.faults out.old)) (sink_told (K.taken out.new) (K.faults out.new)) }
{
    match ended {
        Ended::Lost => {
            tell_fault(out, b"wire\n");
            Status::WireFault
        }
        Ended::TraceFault => Status::SinkFault,
        Ended::Over | Ended::Finished => print_report(out, report),
        Ended::Turns => match print_report(out, report) {
            Status::Done => {
                tell_fault(out, b"turns\n");
                Status::TurnsSpent
            }
            other => other,
        },
    }
}
