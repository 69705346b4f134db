//! That the file and the payload decide what the command `schedule` leaves. Each of these functions does nothing: its contract is the law.

ghost use Rattle.std.specs.Prelude.{◌≡◌, ◌⊎◌, ℕ, List, Some};
ghost use Rattle.command_status.specs.declared.status.Status.TheVariants as status;
ghost use Rattle.command_status.specs.declared.status.Status.{Status};
ghost use Rattle.command_status.specs.Told.{FileTold, SinkTold};
ghost use Rattle.payload_commands.specs.Scheduling.{ScheduleLeaves};
ghost use Rattle.payload_commands.specs.ScheduleFates.{Fate, IsFate, Follows};

use iso_codec::laws::messages_and_refusals;
use service_messages::schedule_answers::one_fate;

/// The text of a need's file and the hexadecimal text of a payload have one fate at most.
pub fn one_fate_of_files()
    ensures { (text hex : List ℕ) (one other : Fate) → IsFate text hex one → IsFate text hex other → one ≡ other }
{
    one_fate();
    messages_and_refusals();
}

/// Where the source tells the file's text to the last call, and the file could be read, what the command leaves is the fate of the file and
/// the payload, but for want of memory.
pub fn fates_of_files_are_followed()
    ensures { (s : Status) (hex text rest : List ℕ) (file : FileTold) (before after : SinkTold) (fate : Fate) → ScheduleLeaves s hex file before after
        → file.left ≡ Some rest → file.text ≡ Some text → file.m ≡ file.n → IsFate text hex fate
        → Follows fate s before after ⊎ (s ≡ status.NoMemory) }
{
    one_fate_of_files();
}
