//! The command `schedule`.

ghost use Rattle.std.specs.Prelude.{◌≡◌, ◌<◌, ℕ, List, [], ◌∷◌};
ghost use Rattle.charging_files.specs.ScheduleKeys.{IsNeed};
ghost use Rattle.command_status.specs.Told.{file_told, sink_told};
ghost use Rattle.command_status.specs.Completeness.{Completes};
ghost use Rattle.payload_commands.specs.Scheduling.{AnswersBy, IsAnswerStatus, ScheduleLeaves, NoAnswerTold};

use crate::answers::{NoAnswer, text_of};
use charge_world::{Sink, Source};
use charging_files::{Status, need_in, print_lines, refuse_file};
use command_status::{line_of_input, tell_fault};
use schedules::Need;
use service_messages::schedule_answers::ScheduleFault;
use std::alloc::Global;

/// Tells why there is no answer. Want of memory has no line.
fn refuse<K: Sink>(out: &mut K, fault: NoAnswer) -> Status
    ensures { NoAnswerTold fault result (sink_told (K.taken out.old) (K.faults out.old)) (sink_told (K.taken out.new) (K.faults out.new)) }
{
    match fault {
        NoAnswer::Place(place) => {
            tell_fault(out, line_of_input(place).as_slice());
            Status::Input
        }
        NoAnswer::Schedule(ScheduleFault::NoSchedule) => {
            tell_fault(out, b"no schedule\n");
            Status::NoSchedule
        }
        NoAnswer::Schedule(ScheduleFault::Unreached) => {
            tell_fault(out, b"unreached\n");
            Status::Unreached
        }
        NoAnswer::Memory => Status::NoMemory,
    }
}

/// Prints the answer of a car that needs so much.
fn answer<K: Sink>(alloc: Global, need: Need, hex: &str, out: &mut K) -> Status
    requires { IsNeed need }
    ensures answers { AnswersBy result need hex.now (sink_told (K.taken out.old) (K.faults out.old)) (sink_told (K.taken out.new) (K.faults out.new)) }
    ensures other { IsAnswerStatus result }
{
    match text_of(alloc, need, hex) {
        Ok(text) => print_lines(out, text.as_str()),
        Err(fault) => refuse(out, fault),
    }
}

/// Prints the charging profile with which a car, by the need in the file of that name, should answer the ChargeParameterDiscoveryRes of
/// ISO 15118-2 whose payload this hexadecimal text spells: a line `tuple T entries N energy WH`, a line `START WATTS` for each step, and the
/// payload of its PowerDeliveryReq Start, under the identifier of no session, in lower-case hexadecimal digits.
///
/// `Done` where all was written, in one call, else `SinkFault`. Before that, and in this order: `SourceFault` where the file can't be read;
/// `Plan` where it is no need, with the first key that is wrong, or `toml`; `Input` where the text spells no bytes or the payload no message;
/// `NoSchedule` where the message has no schedules that can be answered; `Unreached` where no profile of any of them reaches the energy.
/// `NoMemory` comes freely, before anything is written. Each fault but want of memory and that of the output has its line, whose failure
/// changes nothing.
pub fn schedule<F: Source, K: Sink>(
    alloc: Global,
    name: &str,
    hex: &str,
    files: &mut F,
    out: &mut K,
) -> Status
    ensures leaves { ScheduleLeaves result hex.now (file_told (F.holds files.old name.now) (F.left files.new) (F.faults files.old) (F.faults files.new))
        (sink_told (K.taken out.old) (K.faults out.old)) (sink_told (K.taken out.new) (K.faults out.new)) }
    ensures no_memory { result ≡ Status.NoMemory → (K.taken out.new ≡ K.taken out.old) × (K.faults out.new ≡ K.faults out.old) }
    ensures sink_fault { result ≡ Status.SinkFault → K.faults out.old < K.faults out.new }
    ensures holds { (other : List ℕ) → F.holds files.new other ≡ F.holds files.old other }

    // Where no call failed, the file and the payload decide, but for want of memory.
    ensures complete { Completes ((F.faults files.old, F.faults files.new) ∷ (K.faults out.old, K.faults out.new) ∷ []) (Status.Plan ∷ Status.Input ∷ Status.NoSchedule ∷ Status.Unreached ∷ []) result }
{
    match need_in(alloc, files, name) {
        Ok(need) => answer(alloc, need, hex, out),
        Err(fault) => refuse_file(out, &fault),
    }
}
