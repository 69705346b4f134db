//! What of a session's stream was not read yet.

ghost use Rattle.std.specs.Prelude.{◌≡◌, ◌≤◌, ◌++◌, [], drop, length, IfOk, Ok, None, vec_len, vec_capacity};
ghost use Rattle.v2gtp_frames.specs.Reading.{whole_at, behind_front};

use crate::NoMemory;
use std::alloc::Global;
use std::marker::Model;
use v2gtp_frames::whole_frame;

/// The room of a stream: a frame that isn't whole yet, and one piece of 4,096 bytes.
const ROOM: usize = 69640;

/// The bytes of a stream that came and were not read yet. It takes its memory when it is made. Contracts see the bytes.
#[derive(Drop)]
pub struct Unread {
    buf: Vec<u8>,
    start: usize,
}

impl Model for Unread {
    ghost use Rattle.std.specs.Prelude.{ℕ, List, drop, ◌≤◌, vec_len, vec_capacity};

    ghost Value = { List ℕ };

    ghost view = { λ u. drop u.start u.buf.items };

    ghost invariant = { λ u. (u.start ≤ vec_len u.buf) × (69640 ≤ vec_capacity u.buf) };
}

impl Unread {
    /// A stream of which nothing came yet. It takes 69,640 bytes of memory.
    pub fn make(alloc: Global) -> Result<Unread, NoMemory>
        ensures { IfOk result (λ unread. unread ≡ []) }
    {
        Ok(Unread {
            buf: Vec::with_capacity(alloc, ROOM)?,
            start: 0,
        })
    }

    /// The bytes.
    pub fn bytes(&self) -> &[u8]
        ensures { result.now ≡ self.now }
    {
        &self.buf[self.start..]
    }

    /// The next piece of the stream came, of at most 4,096 bytes. No whole frame and no fault may stand at the front.
    #[tactic(auto, using(v2gtp_frames::proofs::Fronts::waits_short))]
    pub fn feed(&mut self, piece: &[u8])
        requires short { length piece.now ≤ 4096 }
        requires read { whole_at self.old ≡ Ok None }
        ensures { self.new ≡ self.old ++ piece.now }
    {
        drop_front(&mut self.buf, self.start);
        self.start = 0;
        let _ = self.buf.extend_from_slice(piece);
    }

    /// The frame at the front was read, where there is a whole one.
    pub fn pass(&mut self)
        ensures { self.new ≡ behind_front self.old }
    {
        if let Ok(Some(len)) = whole_frame(self.bytes()) {
            self.start += 8 + len;
        }
    }

    /// Forgets what came: the next piece begins a new stream.
    pub fn clear(&mut self)
        ensures { self.new ≡ [] }
    {
        self.buf.clear();
        self.start = 0;
    }
}

/// Drops the first bytes, and keeps the memory.
fn drop_front(buf: &mut Vec<u8>, n: usize)
    requires { n ≤ vec_len buf.old }
    ensures items { buf.new.items ≡ drop n buf.old.items }
    ensures capacity { vec_capacity buf.new ≡ vec_capacity buf.old }
{
    drop(buf.drain(..n));
}
