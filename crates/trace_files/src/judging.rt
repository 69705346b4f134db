//! The trace of a text.

ghost use Rattle.std.specs.Prelude.{◌≡◌, ◌==◌, ◌+◌, ◌≤◌, ℕ, List, length, IfOk, IfErr};
ghost use Rattle.std.specs.List.{count_by};
ghost use Rattle.plan_files.specs.FileTexts.{IsBeginning};
ghost use Rattle.replay_wire.specs.Replays.{AllCanBeHeard};
ghost use Rattle.trace_files.specs.Recordings.{IsRecorded, IsRefusedAt};

use charge_world::Entry;
use replay_wire::traces_can_be_heard;
use std::alloc::Global;
use trace_reading::{TraceFault, read_trace};

/// The bytes that a trace has at most: 256 MiB.
pub const LONGEST_TRACE: usize = 268_435_456;

/// How many line feeds there are, and one more.
fn lines_in(bytes: &[u8]) -> u64
    requires { length bytes.now ≤ 268435456 }
    ensures { result ≡ count_by (λ byte. byte == 10) bytes.now + 1 }
{
    let mut lines = 1;
    for byte in bytes {
        if *byte == b'\n' {
            lines += 1;
        }
    }
    lines
}

/// Reads the trace of a text that begins with these bytes, and is these where they are no more than a trace may have. The fault names its
/// first line that is outside the grammar, or the one in which it passes 256 MiB.
pub fn trace_of(alloc: Global, bytes: &[u8], posts: u8) -> Result<Vec<Entry>, TraceFault>
    ensures read { IfOk result (λ trace. (text : List ℕ) → IsBeginning text bytes.now 268435457 → IsRecorded posts text trace.items) }
    ensures heard { IfOk result (λ trace. AllCanBeHeard posts trace.items) }
    ensures fault { IfErr result (λ fault. (text : List ℕ) (number : ℕ) → IsBeginning text bytes.now 268435457 → fault ≡ TraceFault.BadLine number → IsRefusedAt posts text number) }
{
    if bytes.len() > LONGEST_TRACE {
        return Err(TraceFault::BadLine(lines_in(&bytes[..LONGEST_TRACE])));
    }
    traces_can_be_heard();
    read_trace(alloc, bytes, posts)
}
