//! The turns of an end, from what its wire tells to what is done on it.

ghost use Rattle.std.specs.Prelude.{◌≡◌, ◌≤◌, ◌<◌, ◌+◌, ◌-◌, ◌^◌, ℕ, List, [], length, false, Some, None, Ok, OnOk, OnErr, IsSome};
ghost use Rattle.charge_world.specs.declared.entry.Entry.{Entry};
ghost use Rattle.charge_world.specs.Outside.{IsFault};
ghost use Rattle.endpoint.specs.Knowing.{known_first};
ghost use Rattle.endpoint.specs.Telling.{Carries, CarriesText, HasClosing, IsTraced, IsWrittenSo};
ghost use Rattle.end_turns.specs.Ending.{is_whole, HasRun, TracedAs, AreFaults};
ghost use Rattle.end_turns.specs.Lasts.{ended_by, ended_so};
ghost use Rattle.end_turns.specs.Turns.{Waits, Stops, Turned, IsFinished, ClosedText};

use crate::end::End;
use crate::ending::{Ended, Last};
use charge_world::{Sink, Wire};
use endpoint::{SoFar, TraceFailed};

/// Hears once, and does all that follows from it; says why no hearing follows, where none does.
fn turn<E: End, W: Wire, J: Sink>(
    near: &mut E,
    so_far: &mut SoFar,
    room: &mut [u8],
    wire: &mut W,
    trace: &mut J,
) -> Result<Option<Last>, TraceFailed>
    requires few { E.posts_in (E.kept (E.state near.old)) ≤ 8 }
    requires room { length room.old ≡ 4096 }
    requires posts { W.posts wire.old ≡ E.posts_in (E.kept (E.state near.old)) }
    requires left { so_far.old.hearing < E.turns_in (E.kept (E.state near.old)) }
    requires countable { so_far.old.hearing < 2 ^ 64 - 1 }
    requires rests { E.rests (E.state near.old) }
    requires lives { E.over (E.state near.old) ≡ false }
    ensures carried { (plan : E.Plan) (before : List ℕ) → Carries (W.past wire.old) (W.past wire.new)
        (Waits (E.runs plan (E.state near.old)) so_far.old (W.untils wire.old) before)
        (Turned (E.runs plan (E.state near.new)) (E.turns_in (E.kept (E.state near.old))) (E.over (E.state near.new)) result so_far.new (W.untils wire.new) before) }
    ensures traced { CarriesText (W.past wire.old) (W.past wire.new) (J.taken trace.old) (J.taken trace.new) (IsTraced so_far.old.hearing) (IsWrittenSo so_far.new.hearing result) }
    ensures hearing { so_far.new.hearing ≡ so_far.old.hearing + 1 }
    ensures kept { E.kept (E.state near.new) ≡ E.kept (E.state near.old) }
    ensures rests { OnOk result (E.rests (E.state near.new)) }
    ensures lives { result ≡ Ok None → E.over (E.state near.new) ≡ false }
    ensures writes { IsFault (J.faults trace.old) (J.faults trace.new) result }
    ensures started { W.started wire.new ≡ W.started wire.old }
    ensures posts { W.posts wire.new ≡ W.posts wire.old }
    ensures faults { W.faults wire.old ≤ W.faults wire.new }
    ensures lost { result ≡ Ok (Some Last.Lost) → W.faults wire.old < W.faults wire.new }
{
    match wire.next(near.until(), room) {
        Err(_) => {
            so_far.lose();
            near.miss(so_far.hearing, trace)?;
            Ok(Some(Last::Lost))
        }
        Ok(heard) => {
            so_far.count(heard.at);
            near.hear(so_far.moment, so_far.hearing, &heard, room, wire, trace)?;
            Ok(Last::heard(heard.what, near.is_over()))
        }
    }
}

/// Makes turns until the end is over, nothing more is heard, a hearing or a line fails, or the last turn is made.
fn take_turns<E: End, W: Wire, J: Sink>(
    near: &mut E,
    so_far: &mut SoFar,
    wire: &mut W,
    trace: &mut J,
) -> Result<Last, TraceFailed>
    requires few { E.posts_in (E.kept (E.state near.old)) ≤ 8 }
    requires posts { W.posts wire.old ≡ E.posts_in (E.kept (E.state near.old)) }
    requires first { so_far.old.hearing ≡ 0 }
    requires rests { E.rests (E.state near.old) }
    requires lives { E.over (E.state near.old) ≡ false }
    ensures carried { (plan : E.Plan) (before : List ℕ) → Carries (W.past wire.old) (W.past wire.new)
        (Waits (E.runs plan (E.state near.old)) so_far.old (W.untils wire.old) before)
        (Stops (E.runs plan (E.state near.new)) (E.turns_in (E.kept (E.state near.old))) (E.over (E.state near.new)) (ended_so result) (W.untils wire.new) before) }
    ensures traced { CarriesText (W.past wire.old) (W.past wire.new) (J.taken trace.old) (J.taken trace.new) (IsTraced so_far.old.hearing) (IsWrittenSo so_far.new.hearing result) }
    ensures kept { E.kept (E.state near.new) ≡ E.kept (E.state near.old) }
    ensures rests { OnOk result (E.rests (E.state near.new)) }
    ensures writes { IsFault (J.faults trace.old) (J.faults trace.new) result }
    ensures started { W.started wire.new ≡ W.started wire.old }
    ensures posts { W.posts wire.new ≡ W.posts wire.old }
    ensures faults { W.faults wire.old ≤ W.faults wire.new }
    ensures lost { result ≡ Ok Last.Lost → W.faults wire.old < W.faults wire.new }
{
    let mut room = [0u8; 4096];
    for _ in 0..near.turns() {
        match turn(near, so_far, &mut room, wire, trace)? {
            None => {}
            Some(last) => return Ok(last),
        }
    }
    Ok(Last::Turns)
}

/// How the turns stopped, by why no hearing follows and how the writes of the closing orders' lines went.
fn closed(last: Last, written: Result<(), TraceFailed>) -> Ended
    ensures ok { OnOk written (result ≡ ended_by last) }
    ensures failed { OnErr written (result ≡ Ended.TraceFault) }
{
    match written {
        Ok(()) => last.ended(),
        Err(_) => Ended::TraceFault,
    }
}

/// Gives the closing orders, with their lines where all lines before could be written.
fn finish<E: End, W: Wire, J: Sink>(
    last: Result<Last, TraceFailed>,
    near: &mut E,
    hearing: u64,
    wire: &mut W,
    trace: &mut J,
) -> Ended
    requires few { E.posts_in (E.kept (E.state near.old)) ≤ 8 }
    ensures closed { (blocks : List Entry) → Carries (W.past wire.old) (W.past wire.new) (λ past. past ≡ blocks) (E.closes (E.state near.old) (is_whole result) blocks) }
    ensures orders { (blocks : List Entry) → Carries (W.past wire.old) (W.past wire.new) (λ past. past ≡ blocks) (HasClosing blocks) }
    ensures traced { CarriesText (W.past wire.old) (W.past wire.new) (J.taken trace.old) (J.taken trace.new) (IsWrittenSo hearing last) (ClosedText result hearing) }
    ensures how { IsFinished last result }
    ensures same { E.state near.new ≡ E.state near.old }
    ensures writes { (start : ℕ) → IsFault start (J.faults trace.old) last → AreFaults start (J.faults trace.new) result }
    ensures untils { IsSome (W.past wire.new) → W.untils wire.new ≡ W.untils wire.old }
    ensures started { W.started wire.new ≡ W.started wire.old }
    ensures posts { W.posts wire.new ≡ W.posts wire.old }
    ensures faults { W.faults wire.old ≤ W.faults wire.new }
{
    match last {
        Err(_) => {
            near.cut(wire);
            Ended::TraceFault
        }
        Ok(last) => closed(last, near.close(hearing, wire, trace)),
    }
}

/// Makes the turns of an end that heard nothing yet, behind the trace's first line.
fn run_begun<E: End, W: Wire, J: Sink>(
    near: &mut E,
    so_far: &mut SoFar,
    wire: &mut W,
    trace: &mut J,
) -> Ended
    requires few { E.posts_in (E.kept (E.state near.old)) ≤ 8 }
    requires posts { W.posts wire.old ≡ E.posts_in (E.kept (E.state near.old)) }
    requires rests { E.rests (E.state near.old) }
    requires lives { E.over (E.state near.old) ≡ false }
    ensures ran { (plan : E.Plan) → Carries (W.past wire.old) (W.past wire.new) (λ past. (past ≡ []) × E.runs plan (E.state near.old) known_first past)
        (HasRun (E.runs plan (E.state near.new)) (E.closes (E.state near.new)) (E.rests (E.state near.new)) (E.turns_in (E.kept (E.state near.new))) (E.over (E.state near.new)) result (W.untils wire.old) (W.untils wire.new)) }
    ensures trace { CarriesText (W.past wire.old) (W.past wire.new) (J.taken trace.old) (J.taken trace.new) (IsTraced 0) (TracedAs result) }
    ensures kept { E.kept (E.state near.new) ≡ E.kept (E.state near.old) }
    ensures started { W.started wire.new ≡ W.started wire.old }
    ensures posts { W.posts wire.new ≡ W.posts wire.old }
    ensures faults { W.faults wire.old ≤ W.faults wire.new }
    ensures lost { result ≡ Ended.Lost → W.faults wire.old < W.faults wire.new }
    ensures trace_fault { AreFaults (J.faults trace.old) (J.faults trace.new) result }
{
    *so_far = SoFar::nothing();
    let last = take_turns(near, so_far, wire, trace);
    finish(last, near, so_far.hearing, wire, trace)
}

/// Makes the turns of an end that heard nothing yet and has no live contactor, on a wire that was started for it, until the end is over, the wire
/// says Over, a hearing fails, a line of the trace can't be written, or the last turn is made. At the end each live contactor is ordered open. What
/// was heard so far begins anew.
///
/// Where the wire tells its past, that is a run of the end, closed by the orders to open (`ran`). Where the trace tells its bytes, they are the text
/// of the past, or a front of it where a line couldn't be written (`trace`). `Lost` comes only where the wire failed, and `TraceFault` exactly
/// where the trace did.
pub fn run<E: End, W: Wire, J: Sink>(
    near: &mut E,
    so_far: &mut SoFar,
    wire: &mut W,
    trace: &mut J,
) -> Ended
    requires few { E.posts_in (E.kept (E.state near.old)) ≤ 8 }
    requires posts { W.posts wire.old ≡ E.posts_in (E.kept (E.state near.old)) }
    requires rests { E.rests (E.state near.old) }
    requires lives { E.over (E.state near.old) ≡ false }
    requires idle { (blocks : List Entry) → E.closes (E.state near.old) false blocks blocks }
    ensures ran { (plan : E.Plan) → Carries (W.past wire.old) (W.past wire.new) (λ past. (past ≡ []) × E.runs plan (E.state near.old) known_first past)
        (HasRun (E.runs plan (E.state near.new)) (E.closes (E.state near.new)) (E.rests (E.state near.new)) (E.turns_in (E.kept (E.state near.new))) (E.over (E.state near.new)) result (W.untils wire.old) (W.untils wire.new)) }
    ensures trace { CarriesText (W.past wire.old) (W.past wire.new) (J.taken trace.old) (J.taken trace.new) (λ past text. (past ≡ []) × (text ≡ [])) (TracedAs result) }
    ensures kept { E.kept (E.state near.new) ≡ E.kept (E.state near.old) }
    ensures started { W.started wire.new ≡ W.started wire.old }
    ensures posts { W.posts wire.new ≡ W.posts wire.old }
    ensures faults { W.faults wire.old ≤ W.faults wire.new }
    ensures lost { result ≡ Ended.Lost → W.faults wire.old < W.faults wire.new }
    ensures trace_fault { AreFaults (J.faults trace.old) (J.faults trace.new) result }
{
    match near.lines().begin(trace) {
        Err(_) => Ended::TraceFault,
        Ok(()) => run_begun(near, so_far, wire, trace),
    }
}
