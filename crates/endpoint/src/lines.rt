//! The lines of hearings.

ghost use Rattle.std.specs.Prelude.{◌≡◌, ◌+◌, ℕ, List, Option, length};
ghost use Rattle.charge_world.specs.declared.entry.Entry.{Entry};
ghost use Rattle.charge_world.specs.declared.entry.Entry.TheVariants as entry;
ghost use Rattle.charge_world.specs.Outside.{IsFault, HasCount, IsOfPosts, bytes_of};
ghost use Rattle.endpoint.specs.Knowing.{AwaitsLine};
ghost use Rattle.endpoint.specs.Rooms.{FitsIn};
ghost use Rattle.endpoint.specs.Telling.{CarriesText, IsWrittenSo};

use crate::hearing::bytes_heard;
use charge_world::{Heard, Sink};
use trace_lines::{TraceFailed, TraceLines};
use trace_text::Noted;

/// Writes the line of what was heard in the hearing of this number. Its bytes are the first of the room.
pub fn write_heard<J: Sink>(
    lines: &mut TraceLines,
    hearing: u64,
    heard: &Heard,
    room: &[u8],
    trace: &mut J,
) -> Result<(), TraceFailed>
    requires room { FitsIn heard.now.what (length room.now) }
    requires count { HasCount heard.now.what }
    requires post { IsOfPosts 8 heard.now.what }
    ensures traced { (n : ℕ) (past : Option (List Entry)) → hearing ≡ n + 1 → CarriesText past past (J.taken trace.old) (J.taken trace.new)
        (AwaitsLine n (entry.Heard heard.now (bytes_of heard.now.what room.now))) (IsWrittenSo hearing result) }
    ensures writes { IsFault (J.faults trace.old) (J.faults trace.new) result }
{
    let noted = Noted::Heard {
        heard: *heard,
        bytes: bytes_heard(heard.what, room),
    };
    lines.write(hearing, &noted, trace)
}

/// Writes the line of a lost hearing, by its number.
pub fn write_lost<J: Sink>(
    lines: &mut TraceLines,
    hearing: u64,
    trace: &mut J,
) -> Result<(), TraceFailed>
    ensures traced { (n : ℕ) (past : Option (List Entry)) → hearing ≡ n + 1 → CarriesText past past (J.taken trace.old) (J.taken trace.new)
        (AwaitsLine n entry.Lost) (IsWrittenSo hearing result) }
    ensures writes { IsFault (J.faults trace.old) (J.faults trace.new) result }
{
    lines.write(hearing, &Noted::Lost, trace)
}
