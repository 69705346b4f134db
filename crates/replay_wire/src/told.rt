//! Steps of a wire.

use trace_text::Noted;

/// One step of a wire.
#[derive(Clone, Copy)]
pub(crate) enum Step<'a> {
    /// Something was heard, or nothing was, and the `until` of that call.
    Heard(Noted<'a>, u64),
    /// A call that was made.
    Did(Noted<'a>),
    /// A start that was refused.
    Refused,
}
