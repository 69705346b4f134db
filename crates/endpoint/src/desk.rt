//! The memory in which an end makes what it sends and writes.

ghost use Rattle.std.specs.Prelude.{◌≡◌, ◌≤◌, ◌+◌, length, take, drop, vec_len};
ghost use Rattle.v2gtp_frames.specs.Frames.{frame};

use std::alloc::Global;
use trace_lines::{NoMemory, TraceLines};
use v2gtp_frames::put_frame;

/// The bytes of the longest frame that an end sends.
pub const FRAME: usize = 1032;

/// The codecs of an end, the room in which a frame is made, and that in which lines of the trace are.
#[derive(Drop)]
pub struct Desk<C> {
    pub codec: C,
    pub room: Vec<u8>,
    pub lines: TraceLines,
    ghost wide: { vec_len room ≡ 1032 },
}

impl<C: Drop> Desk<C> {
    /// The codecs of an end, with the rooms in which frames and lines are made.
    pub fn make(alloc: Global, codec: C) -> Result<Desk<C>, NoMemory> {
        let room = vec![in alloc; 0; FRAME]?;
        let lines = TraceLines::make(alloc)?;
        Ok(Desk { codec, room, lines })
    }
}

/// Writes the frame of a payload that stands behind the header's place.
pub fn put_header(room: &mut [u8], n: usize)
    requires within { 8 + n ≤ length room.old }
    requires small { n ≤ 1024 }
    ensures { take (8 + n) room.new ≡ frame (take n (drop 8 room.old)) }
{
    room[..8].copy_from_slice(&put_frame(0x8001, n as u32));
}
