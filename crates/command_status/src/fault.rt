//! The lines that tell of faults.

ghost use Rattle.std.specs.Prelude.{◌≡◌, OnOk, OnErr};
ghost use Rattle.charge_world.specs.Outside.{Appends, AppendsSome, IsFault};
ghost use Rattle.command_status.specs.FaultLines.{Tells, input_line, plan_line};

use crate::line::{Line, add, add_number};
use charge_world::{Failed, Sink};

/// Writes the line of a fault. Where that fails, nothing changes for it.
pub fn tell_fault<K: Sink>(out: &mut K, line: &[u8])
    ensures { Tells (K.taken out.old) (K.taken out.new) (K.faults out.old) (K.faults out.new) line.now }
{
    let _ = out.write(line);
}

/// Writes the line of a plan that is refused at this key. Where that fails, nothing changes for it.
pub fn tell_plan<K: Sink>(out: &mut K, key: &str)
    ensures { Tells (K.taken out.old) (K.taken out.new) (K.faults out.old) (K.faults out.new) (plan_line key.now) }
{
    let _ = write_plan(out, key);
}

fn write_plan<K: Sink>(out: &mut K, key: &str) -> Result<(), Failed>
    ensures ok { OnOk result (Appends (K.taken out.old) (K.taken out.new) (plan_line key.now)) }
    ensures failed { OnErr result (AppendsSome (K.taken out.old) (K.taken out.new) (plan_line key.now)) }
    ensures faults { IsFault (K.faults out.old) (K.faults out.new) result }
{
    out.write(b"plan ")?;
    out.write(key.as_bytes())?;
    out.write(b"\n")
}

/// The line of an input that is refused at this place.
#[tactic(auto, unfolding(crate::specs::FaultLines::input_line))]
pub fn line_of_input(place: u64) -> Line
    ensures { result.items ≡ input_line place }
{
    let mut line = Line::new();
    add(&mut line, b"input ");
    add_number(&mut line, place);
    add(&mut line, b"\n");
    line
}
