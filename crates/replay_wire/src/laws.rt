//! Laws of traces that are replayed.

ghost use Rattle.std.specs.Prelude.{ℕ, List, reverse};
ghost use Rattle.charge_world.specs.declared.entry.Entry.{Entry};
ghost use Rattle.trace_reading.specs.Readings.{Tells};
ghost use Rattle.replay_wire.specs.Replays.{AllCanBeHeard};

/// What a trace of so many posts tells can be heard again.
pub fn traces_can_be_heard()
    ensures { (posts : ℕ) (text : List ℕ) (trace : List Entry) → Tells posts text (reverse trace) → AllCanBeHeard posts trace }
{}
