//! The lines that a replay prints.

ghost use Rattle.std.specs.Prelude.{◌≡◌, ◌+◌, ◌≤◌, length, min};
ghost use Rattle.command_status.specs.Told.{sink_told};
ghost use Rattle.replay_command.specs.Lines.{replay_line, Prints, Concludes, Refuses};

use charge_world::Sink;
use command_status::{Line, Status, add, add_number, line_of_input, tell_fault, tell_plan};
use planned_traces::FilesFault;
use site_replays::Replayed;
use site_replays::site_core::Ended;
use station_command::key_of;

/// The line of a replay that wrote so many lines.
#[tactic(auto, unfolding(crate::specs::Lines::replay_line))]
fn line_of(lines: u64, how: &str) -> Line
    requires { length how.now ≤ 90 }
    ensures { result.items ≡ replay_line lines how.now }
{
    let mut line = Line::new();
    add(&mut line, b"lines ");
    add_number(&mut line, lines);
    add(&mut line, b" ended ");
    add(&mut line, how.as_bytes());
    add(&mut line, b"\n");
    line
}

fn print_line<K: Sink>(out: &mut K, lines: u64, how: &str) -> Status
    requires { length how.now ≤ 90 }
    ensures { Prints (replay_line lines how.now) result (sink_told (K.taken out.old) (K.faults out.old)) (sink_told (K.taken out.new) (K.faults out.new)) }
{
    match out.write(line_of(lines, how).as_slice()) {
        Ok(()) => Status::Done,
        Err(_) => Status::SinkFault,
    }
}

/// Prints what a replay came to, and says the status. The first line of the trace counts too.
pub(crate) fn conclude<K: Sink>(replayed: Replayed, out: &mut K) -> Status
    ensures { Concludes replayed.ended (min (replayed.entries + 1) 18446744073709551615) result
        (sink_told (K.taken out.old) (K.faults out.old)) (sink_told (K.taken out.new) (K.faults out.new)) }
{
    let lines = replayed.entries.saturating_add(1);
    match replayed.ended {
        Ended::Over => print_line(out, lines, "over"),
        Ended::Lost => print_line(out, lines, "lost"),
        Ended::Turns => print_line(out, lines, "turns"),
        Ended::TraceFault => Status::SinkFault,
    }
}

/// Tells why there is nothing to replay, and says the status. Want of memory has no line.
pub(crate) fn refuse<K: Sink>(out: &mut K, fault: FilesFault) -> Status
    ensures refuses { Refuses fault result (sink_told (K.taken out.old) (K.faults out.old)) (sink_told (K.taken out.new) (K.faults out.new)) }
    ensures no_memory { result ≡ Status.NoMemory → out.new ≡ out.old }
{
    match fault {
        FilesFault::Unread => {
            tell_fault(out, b"source\n");
            Status::SourceFault
        }
        FilesFault::Plan(fault) => match key_of(&fault) {
            Some(key) => {
                tell_plan(out, key);
                Status::Plan
            }
            None => Status::NoMemory,
        },
        FilesFault::Line(number) => {
            tell_fault(out, line_of_input(number).as_slice());
            Status::Input
        }
        FilesFault::Memory => Status::NoMemory,
    }
}
