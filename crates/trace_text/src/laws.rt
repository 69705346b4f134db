//! Laws of the lines of a trace.

ghost use Rattle.std.specs.Prelude.{◌≡◌, ◌≢◌, ◌^◌, ◌<◌, ℕ, List};
ghost use Rattle.charge_world.specs.declared.entry.Entry.{Entry};
ghost use Rattle.trace_text.specs.TraceText.{line_of, numbered_line_of, IsLine};
ghost use Rattle.trace_text.specs.Pasts.{trace_text, trace_text_1, IsTrace, IsTrace1};

/// No two entries have one line, so no line says two entries; with the number of a hearing likewise (own).
pub fn lines_are_unambiguous()
    ensures plain { (d e : Entry) → IsLine d → IsLine e → line_of d ≡ line_of e → d ≡ e }
    ensures numbered { (m n : ℕ) (d e : Entry) → m < 2 ^ 64 → n < 2 ^ 64 → IsLine d → IsLine e
        → numbered_line_of m d ≡ numbered_line_of n e → (m ≡ n) × (d ≡ e) }
{}

/// No two pasts have one text, in either format, and no text is of both formats (own).
pub fn traces_are_unambiguous()
    ensures format_1 { (p q : List Entry) → IsTrace1 p → IsTrace1 q → trace_text_1 p ≡ trace_text_1 q → p ≡ q }
    ensures format_2 { (p q : List Entry) → IsTrace p → IsTrace q → trace_text p ≡ trace_text q → p ≡ q }
    ensures formats { (p q : List Entry) → trace_text_1 p ≢ trace_text q }
{}
