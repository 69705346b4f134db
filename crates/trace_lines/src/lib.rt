//! A trace that is written line by line as its entries come (own). Nothing takes memory but `make`.
//!
//! Proved: a trace written line by line, the line of each entry whole or a front of it where the write failed.
#![tactic(auto)]

ghost use Rattle.std.specs.Prelude.{◌≤◌, length, OnOk, OnErr};
ghost use Rattle.charge_world.specs.Outside.{IsFault, Appends, AppendsSome};
ghost use Rattle.trace_text.specs.Noted.{entry_of};
ghost use Rattle.trace_text.specs.Pasts.{first_line_2};
ghost use Rattle.trace_text.specs.TraceText.{numbered_line_of};
ghost use Rattle.trace_lines.specs.Short.{IsShort, HasNumbers, IsOrderShort, IsEventShort, IsWhatShort};

use charge_world::{Order, PlantEvent, Sink, What};
pub use std::alloc::AllocError as NoMemory;
use std::alloc::Global;
use std::marker::Model;
use trace_text::{Noted, write_noted};

/// A write on the trace failed.
#[derive(Clone, Copy, Debug)]
pub struct TraceFailed;

/// The bytes of the longest line that a site writes, and some more.
const ROOM: usize = 8448;

/// The room in which lines are written. Contracts see nothing of it.
#[derive(Drop)]
pub struct TraceLines {
    room: Vec<u8>,
}

impl Model for TraceLines {
    ghost use Rattle.std.specs.Prelude.{◌≤◌, vec_len};

    ghost Value = { Unit {0} };

    ghost view = { λ _. tt {0} };

    ghost invariant = { λ l. 8448 ≤ vec_len l.room };
}

impl TraceLines {
    /// Takes the room.
    pub fn make(alloc: Global) -> Result<TraceLines, NoMemory> {
        Ok(TraceLines {
            room: vec![in alloc; 0; ROOM]?,
        })
    }

    /// Writes the first line of a trace, which names its format.
    pub fn begin<J: Sink>(&self, trace: &mut J) -> Result<(), TraceFailed>
        ensures ok { OnOk result (Appends (J.taken trace.old) (J.taken trace.new) first_line_2) }
        ensures failed { OnErr result (AppendsSome (J.taken trace.old) (J.taken trace.new) first_line_2) }
        ensures faults { IsFault (J.faults trace.old) (J.faults trace.new) result }
    {
        put(b"v2g-trace 2\n", trace)
    }

    /// Writes the line of an entry of the hearing with this number, by one call of the trace. A piece that came or is sent has at most
    /// 4,096 bytes.
    pub fn write<J: Sink>(
        &mut self,
        hearing: u64,
        noted: &Noted<'_>,
        trace: &mut J,
    ) -> Result<(), TraceFailed>
        requires { IsShort (entry_of noted.now) }
        ensures ok { OnOk result (Appends (J.taken trace.old) (J.taken trace.new) (numbered_line_of hearing (entry_of noted.now))) }
        ensures failed { OnErr result (AppendsSome (J.taken trace.old) (J.taken trace.new) (numbered_line_of hearing (entry_of noted.now))) }
        ensures faults { IsFault (J.faults trace.old) (J.faults trace.new) result }
    {
        bound_numbers(noted);
        write_line(hearing, noted, self.room.as_mut_slice(), trace)
    }
}

/// Writes the line of an entry by way of a room.
fn write_line<J: Sink>(
    hearing: u64,
    noted: &Noted<'_>,
    room: &mut [u8],
    trace: &mut J,
) -> Result<(), TraceFailed>
    requires room { 8448 ≤ length room.old }
    requires short { IsShort (entry_of noted.now) }
    requires numbers { HasNumbers (entry_of noted.now) }
    ensures ok { OnOk result (Appends (J.taken trace.old) (J.taken trace.new) (numbered_line_of hearing (entry_of noted.now))) }
    ensures failed { OnErr result (AppendsSome (J.taken trace.old) (J.taken trace.new) (numbered_line_of hearing (entry_of noted.now))) }
    ensures faults { IsFault (J.faults trace.old) (J.faults trace.new) result }
{
    let n = write_noted(hearing, noted, room).unwrap() as usize;
    put(&room[..n], trace)
}

/// Writes a piece.
fn put<J: Sink>(piece: &[u8], trace: &mut J) -> Result<(), TraceFailed>
    ensures ok { OnOk result (Appends (J.taken trace.old) (J.taken trace.new) piece.now) }
    ensures failed { OnErr result (AppendsSome (J.taken trace.old) (J.taken trace.new) piece.now) }
    ensures faults { IsFault (J.faults trace.old) (J.faults trace.new) result }
{
    match trace.write(piece) {
        Ok(()) => Ok(()),
        Err(_) => Err(TraceFailed),
    }
}

/// The numbers of an entry are within their types. It does nothing, as the next three: each number is looked at for the prover, which so
/// knows its bound.
fn bound_numbers(noted: &Noted<'_>)
    ensures { HasNumbers (entry_of noted.now) }
{
    match noted {
        Noted::Heard { heard, bytes: _ } => {
            let _at = heard.at;
            bound_what(&heard.what);
        }
        Noted::Drove {
            post: _,
            order,
            taken: _,
        } => bound_order(order),
        Noted::Ended { post: _, cause } => {
            let _cause = *cause;
        }
        Noted::Dialed { port, taken: _ } => {
            let _port = *port;
        }
        Noted::Lost | Noted::Sent { .. } | Noted::Answered { .. } => {}
    }
}

/// The numbers of what was heard are within their types.
fn bound_what(what: &What)
    ensures { IsWhatShort what.now }
{
    if let What::Plant { post: _, event } = what {
        bound_event(event);
    }
}

/// The amounts of an event of the charger are within their types.
fn bound_event(event: &PlantEvent)
    ensures { IsEventShort event.now }
{
    if let PlantEvent::Measured { voltage, current } = event {
        let _voltage = voltage.get();
        let _current = current.get();
    }
}

/// The amounts of an order are within their types.
fn bound_order(order: &Order)
    ensures { IsOrderShort order.now }
{
    if let Order::Limits {
        voltage,
        current,
        watts,
    } = order
    {
        let _voltage = voltage.get();
        let _current = current.get();
        let _watts = *watts;
    }
}
