//! A call of an end on its wire, with its line of the trace.

ghost use Rattle.std.specs.Prelude.{◌≡◌, ◌≤◌, true, Ok, OnOk, OnErr, IsErr, IsSome};
ghost use Rattle.charge_world.specs.Outside.{GrowsByOne, IsFault};
ghost use Rattle.trace_text.specs.Noted.{entry_of};
ghost use Rattle.trace_text.specs.TraceText.{IsPost};
ghost use Rattle.endpoint.specs.Calls.{entry_by, MayTake, IsSendable};
ghost use Rattle.endpoint.specs.Telling.{CarriesText, IsTraced, IsWrittenSo};

use charge_world::{Order, Sink, Wire};
use trace_lines::{TraceFailed, TraceLines};
use trace_text::Noted;

/// A call on the wire. Contracts see its entry by `entry_by`.
#[derive(Clone, Copy)]
pub enum Call<'a> {
    /// Sends this datagram, of 1 to 4,096 bytes.
    Answer(&'a [u8]),
    /// Gives this order.
    Give(Order),
    /// Sends these bytes, 1 to 4,096, on the connection.
    Send(&'a [u8]),
    /// Hangs up: the session ended by the cause of this number. It can't fail.
    End(u8),
    /// Connects to this port.
    Dial(u16),
}

/// How a call on the wire went, and the write of its line.
#[derive(Drop)]
pub struct Outcome {
    /// Whether the wire took it.
    pub taken: bool,
    /// Whether its line was written.
    pub written: Result<(), TraceFailed>,
}

/// Makes a call for post k, and says whether the wire took it.
fn make<W: Wire>(call: &Call<'_>, k: u8, wire: &mut W) -> bool
    ensures may { MayTake call.now result }
    ensures grown { GrowsByOne (W.past wire.old) (W.past wire.new) (entry_by k call.now result) }
    ensures untils { IsSome (W.past wire.new) → W.untils wire.new ≡ W.untils wire.old }
    ensures started { W.started wire.new ≡ W.started wire.old }
    ensures posts { W.posts wire.new ≡ W.posts wire.old }
    ensures faults { W.faults wire.old ≤ W.faults wire.new }
{
    match *call {
        Call::Answer(bytes) => wire.answer(k, bytes).is_ok(),
        Call::Give(order) => wire.drive(k, order).is_ok(),
        Call::Send(bytes) => wire.send(k, bytes).is_ok(),
        Call::End(cause) => {
            wire.end(k, cause);
            true
        }
        Call::Dial(port) => wire.dial(port).is_ok(),
    }
}

/// The entry of a call for post k.
fn noted<'a>(call: &Call<'a>, k: u8, taken: bool) -> Noted<'a>
    ensures { entry_of result ≡ entry_by k call.now taken }
{
    match *call {
        Call::Answer(bytes) => Noted::Answered {
            post: k,
            bytes,
            taken,
        },
        Call::Give(order) => Noted::Drove {
            post: k,
            order,
            taken,
        },
        Call::Send(bytes) => Noted::Sent {
            post: k,
            bytes,
            taken,
        },
        Call::End(cause) => Noted::Ended { post: k, cause },
        Call::Dial(port) => Noted::Dialed { port, taken },
    }
}

/// Makes a call for post k, and writes its line. A car's post is 1, and a call to dial is of no post.
pub fn perform<W: Wire, J: Sink>(
    call: &Call<'_>,
    k: u8,
    hearing: u64,
    lines: &mut TraceLines,
    wire: &mut W,
    trace: &mut J,
) -> Outcome
    requires post { IsPost k }
    requires sendable { IsSendable call.now }
    ensures may { MayTake call.now result.taken }
    ensures grown { GrowsByOne (W.past wire.old) (W.past wire.new) (entry_by k call.now result.taken) }
    ensures traced { CarriesText (W.past wire.old) (W.past wire.new) (J.taken trace.old) (J.taken trace.new) (IsTraced hearing) (IsWrittenSo hearing result.written) }
    ensures writes { IsFault (J.faults trace.old) (J.faults trace.new) result.written }
    ensures untils { IsSome (W.past wire.new) → W.untils wire.new ≡ W.untils wire.old }
    ensures started { W.started wire.new ≡ W.started wire.old }
    ensures posts { W.posts wire.new ≡ W.posts wire.old }
    ensures faults { W.faults wire.old ≤ W.faults wire.new }
{
    let taken = make(call, k, wire);
    let entry = noted(call, k, taken);
    let written = lines.write(hearing, &entry, trace);
    Outcome { taken, written }
}

/// Whether something was done, where its line was written.
pub fn done(written: Result<(), TraceFailed>) -> Result<bool, TraceFailed>
    ensures ok { OnOk written (result ≡ Ok true) }
    ensures failed { OnErr written (IsErr result) }
{
    match written {
        Ok(()) => Ok(true),
        Err(fault) => Err(fault),
    }
}
