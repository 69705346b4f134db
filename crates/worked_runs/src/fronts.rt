//! What a trace leaves that fails.

use plain_run::{Left, Status};

/// Whether a run whose trace failed was cut off there, where the whole one wrote a trace, and else came out the same.
pub(crate) fn is_front(left: &Left, cut: &Left) -> bool {
    if left.status == Status::Done {
        cut.status == Status::SinkFault
            && cut.out.bytes().is_empty()
            && left.trace.bytes().starts_with(cut.trace.bytes())
    } else {
        cut.status == left.status && cut.trace.bytes().is_empty()
    }
}
