//! Places in a trace.

ghost use Rattle.std.specs.Prelude.{◌≡◌, ◌≤◌, ℕ, true, drop, take, length, IfOk, OnErr};
ghost use Rattle.charge_world.specs.declared.entry.Entry.TheVariants as variant;
ghost use Rattle.charge_world.specs.Outside.{bytes_of, posts_of};
ghost use Rattle.trace_text.specs.TraceText.{taken_of};
ghost use Rattle.trace_text.specs.Pasts.{is_hearing};
ghost use Rattle.replay_wire.specs.Replays.{from_hearing, behind_call, outcome_of, last_moment, CanBeHeard};

use charge_world::{Entry, Failed, Heard, Ports};
use trace_reading::is_hearing;

/// The place of the first hearing from a place on, or the trace's end.
pub(crate) fn hearing_place(trace: &[Entry], at: usize) -> usize
    requires { at ≤ length trace.now }
    ensures place { drop result trace.now ≡ from_hearing (drop at trace.now) }
    ensures within { result ≤ length trace.now }
{
    for place in at..trace.len() {
        if is_hearing(&trace[place]) {
            return place;
        }
    }
    trace.len()
}

/// The place behind a call.
pub(crate) fn place_behind_call(trace: &[Entry], at: usize) -> usize
    requires { at ≤ length trace.now }
    ensures place { drop result trace.now ≡ behind_call (drop at trace.now) }
    ensures within { result ≤ length trace.now }
{
    if at < trace.len() && !is_hearing(&trace[at]) {
        at + 1
    } else {
        at
    }
}

/// Whether an entry is anything but a call that failed.
fn is_taken(entry: &Entry) -> bool
    ensures { result ≡ taken_of entry.now }
{
    match entry {
        Entry::Sent { taken, .. }
        | Entry::Answered { taken, .. }
        | Entry::Drove { taken, .. }
        | Entry::Dialed { taken, .. } => *taken,
        Entry::Heard { .. } | Entry::Lost | Entry::Ended { .. } => true,
    }
}

/// Whether a call is taken.
pub(crate) fn outcome_at(trace: &[Entry], at: usize) -> bool
    requires { at ≤ length trace.now }
    ensures { result ≡ outcome_of (drop at trace.now) }
{
    if at < trace.len() {
        is_taken(&trace[at])
    } else {
        true
    }
}

/// The moment of the last thing heard, 0 where nothing was.
pub(crate) fn moment_of(trace: &[Entry]) -> u64
    ensures { result ≡ last_moment 0 trace.now }
{
    let mut moment = 0;
    for entry in trace {
        if let Entry::Heard { heard, bytes: _ } = entry {
            moment = heard.at;
        }
    }
    moment
}

/// Copies bytes to the front of a room.
fn put(bytes: &[u8], room: &mut [u8])
    requires { length bytes.now ≤ length room.old }
    ensures { take (length bytes.now) room.new ≡ bytes.now }
{
    room[..bytes.len()].copy_from_slice(bytes);
}

/// Hears an entry, with its bytes at the front of the room.
pub(crate) fn hear(entry: &Entry, room: &mut [u8]) -> Result<Heard, Failed>
    requires room { length room.old ≡ 4096 }
    requires hearing { is_hearing entry.now ≡ true }
    requires heard { (posts : ℕ) × CanBeHeard posts entry.now }
    ensures heard { IfOk result (λ heard. entry.now ≡ variant.Heard heard (bytes_of heard.what room.new)) }
    ensures lost { OnErr result (entry.now ≡ variant.Lost) }
{
    match entry {
        Entry::Heard { heard, bytes } => {
            put(bytes.bytes(), room);
            Ok(*heard)
        }
        Entry::Lost
        | Entry::Sent { .. }
        | Entry::Answered { .. }
        | Entry::Drove { .. }
        | Entry::Dialed { .. }
        | Entry::Ended { .. } => Err(Failed),
    }
}

/// How many posts are started.
pub(crate) fn posts_of(ports: &Ports) -> u8
    ensures { result ≡ posts_of ports.now }
{
    match ports {
        Ports::Posts { pairs, sessions: _ } => pairs.len() as u8,
        Ports::Car { .. } => 1,
    }
}
