//! The lines.

ghost use Rattle.std.specs.Prelude.{◌≡◌, IfOk, string_bytes};
ghost use Rattle.pair_plans.specs.Lines as spec;

use std::alloc::{AllocError, Global};
use std::marker::Model;

/// What is counted over all sessions of a pipe.
#[derive(Drop)]
pub struct PipeCounts {
    /// The replies of the station.
    pub replies: u64,
    /// Their bytes, with the headers of their frames.
    pub bytes: u64,
    /// The orders to close that its charger took.
    pub closed: u64,
    /// The orders to open that its charger took.
    pub opened: u64,
}

impl Model for PipeCounts {
    ghost use Rattle.pipe_spec.specs.Counts.{Counts};

    ghost Value = { Counts };

    ghost view = { λ c. record { replies = c.replies; bytes = c.bytes; closed = c.closed; opened = c.opened } };
}

/// The line of a session: `exchanges N cause C`.
pub fn talk_line(alloc: Global, exchanges: u32, cause: u8) -> Result<String, AllocError>
    ensures { IfOk result (λ line. string_bytes line ≡ spec.talk_line exchanges cause) }
{
    format!(in alloc; "exchanges {exchanges} cause {cause}\n")
}

/// The line of sessions that were generated: `sessions N replies R bytes B closed C opened O`.
pub fn generated_line(
    alloc: Global,
    sessions: u32,
    counts: &PipeCounts,
) -> Result<String, AllocError>
    ensures { IfOk result (λ line. string_bytes line ≡ spec.generated_line sessions counts.now) }
{
    let PipeCounts {
        replies,
        bytes,
        closed,
        opened,
    } = *counts;
    format!(in alloc;
        "sessions {sessions} replies {replies} bytes {bytes} closed {closed} opened {opened}\n"
    )
}
