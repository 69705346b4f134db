//! The order by which an end closes.

ghost use Rattle.std.specs.Prelude.{◌≡◌, ◌≤◌, Bool, List, IsSome};
ghost use Rattle.charge_world.specs.declared.entry.Entry.{Entry};
ghost use Rattle.charge_world.specs.declared.entry.Entry.TheVariants as entry;
ghost use Rattle.charge_world.specs.declared.ports.Order.TheVariants as order;
ghost use Rattle.charge_world.specs.Outside.{GrowsByOne, IsFault};
ghost use Rattle.trace_text.specs.TraceText.{IsPost};
ghost use Rattle.endpoint.specs.Telling.{Carries, CarriesText, HasClosing, IsTraced, IsWrittenSo};

use crate::calls::{Call, perform};
use charge_world::{Order, Sink, Wire};
use trace_lines::{TraceFailed, TraceLines};

/// Orders the contactor of post k open, and writes the order's line.
pub fn open<W: Wire, J: Sink>(
    k: u8,
    hearing: u64,
    lines: &mut TraceLines,
    wire: &mut W,
    trace: &mut J,
) -> Result<(), TraceFailed>
    requires { IsPost k }
    ensures opened { (taken : Bool) × GrowsByOne (W.past wire.old) (W.past wire.new) (entry.Drove k order.Open taken) }
    ensures orders { (blocks : List Entry) → Carries (W.past wire.old) (W.past wire.new) (HasClosing blocks) (HasClosing blocks) }
    ensures traced { CarriesText (W.past wire.old) (W.past wire.new) (J.taken trace.old) (J.taken trace.new) (IsTraced hearing) (IsWrittenSo hearing result) }
    ensures writes { IsFault (J.faults trace.old) (J.faults trace.new) result }
    ensures untils { IsSome (W.past wire.new) → W.untils wire.new ≡ W.untils wire.old }
    ensures started { W.started wire.new ≡ W.started wire.old }
    ensures posts { W.posts wire.new ≡ W.posts wire.old }
    ensures faults { W.faults wire.old ≤ W.faults wire.new }
{
    perform(&Call::Give(Order::Open), k, hearing, lines, wire, trace).written
}
