//! The frames of V2GTP (ISO 15118-2:2014, section 7.8.3): their header, and the frames of a TCP stream in any cutting.
//!
//! Proved: `put_frame` writes a frame; `FrameReader` answers the first frame of the bytes fed, or their first wrong field (`whole_at`);
//! `split`: over any cutting into pieces the payloads are those of the one reading of the whole stream (`Frames`), and the fault is the
//! first; `whole_frames_stay`, `words_of_a_stream`.
#![tactic(auto)]

ghost use Rattle.std.specs.Prelude.{ℕ, List, ◌≡◌, ◌≤◌, ◌++◌, ◌+◌, ◌<◌, ◌↔◌, [], length, drop, slice_index_or, All, Ok, Err, None, Some, IfOk, IfSome, vec_len, vec_capacity};
ghost use Rattle.std.specs.Borrow.{sem};
ghost use Rattle.std.specs.Io.BufRead.{Rests};
ghost use Rattle.v2gtp_frames.specs.Frames.{Frames, IsFault, IsRest, IsRight};
ghost use Rattle.v2gtp_frames.specs.Header.{header};
ghost use Rattle.v2gtp_frames.specs.Reading.{whole_at, behind, payload_at, behind_frames, IsNext};

mod splitting;

use byteorder::{BigEndian, ByteOrder};
pub use splitting::{StreamFrames, split};
pub use std::alloc::AllocError as NoMemory;
use std::alloc::Global;
use std::marker::Model;

/// The version of the protocol, and its inverse.
pub const VERSION: u16 = 0x01fe;

/// The first wrong field of a frame, with its value.
#[derive(Clone, Copy, Debug, PartialEq, Eq)]
pub enum FrameFault {
    /// The version isn't 0x01fe.
    BadVersion(u16),
    /// The payload type isn't 0x8001.
    BadType(u16),
    /// The payload would have more than 65,536 bytes.
    LongPayload(u32),
}

/// The header of a frame of this payload type, whose payload has so many bytes.
pub fn put_frame(kind: u16, payload_len: u32) -> [u8; 8]
    ensures { result ≡ header kind payload_len }
{
    let mut bytes = [0u8; 8];
    BigEndian::write_u16(&mut bytes, VERSION);
    BigEndian::write_u16(&mut bytes[2..], kind);
    BigEndian::write_u32(&mut bytes[4..], payload_len);
    bytes
}

/// The payload length of the whole frame at the front: none yet where no frame is whole, or the first wrong field.
#[tactic(auto, unfolding(crate::specs::Reading::whole_at))]
pub fn whole_frame(bytes: &[u8]) -> Result<Option<usize>, FrameFault>
    ensures value { result ≡ whole_at bytes.now }
    ensures fits { IfOk result (λ answer. IfSome answer (λ n. (8 + n ≤ length bytes.now) × (n ≤ 65536))) }
{
    if bytes.len() < 2 {
        return Ok(None);
    }
    let version = BigEndian::read_u16(bytes);
    if version != VERSION {
        return Err(FrameFault::BadVersion(version));
    }
    if bytes.len() < 4 {
        return Ok(None);
    }
    let kind = BigEndian::read_u16(&bytes[2..]);
    if kind != 0x8001 {
        return Err(FrameFault::BadType(kind));
    }
    if bytes.len() < 8 {
        return Ok(None);
    }
    let len = BigEndian::read_u32(&bytes[4..]);
    if len > 65536 {
        return Err(FrameFault::LongPayload(len));
    }
    if bytes.len() < 8 + len as usize {
        return Ok(None);
    }
    Ok(Some(len as usize))
}

/// The room of a reader: a frame that isn't whole yet, and one piece of 4,096 bytes.
const ROOM: usize = 69640;

/// Reads the frames of one stream. It takes its memory when it is made.
///
/// Contracts see the bytes that came and were not given yet.
#[derive(Drop)]
pub struct FrameReader {
    buf: Vec<u8>,
    start: usize,
}

impl Model for FrameReader {
    ghost use Rattle.std.specs.Prelude.{ℕ, List, drop, ◌≤◌, vec_len, vec_capacity};

    ghost Value = { List ℕ };

    ghost view = { λ r. drop r.start r.buf.items };

    ghost invariant = { λ r. (r.start ≤ vec_len r.buf) × (69640 ≤ vec_capacity r.buf) };
}

impl FrameReader {
    ghost use Rattle.v2gtp_frames.specs.contracts.FrameReader.{the_row};

    /// A reader of a stream of which nothing came yet. It takes 69,640 bytes of memory.
    pub fn make(alloc: Global) -> Result<FrameReader, NoMemory>
        ensures { IfOk result (λ r. r ≡ []) }
    {
        Ok(FrameReader {
            buf: Vec::with_capacity(alloc, ROOM)?,
            start: 0,
        })
    }

    /// Takes the next piece of the stream, of at most 4,096 bytes. No whole frame and no fault may stand at the
    /// front: `next` has answered `Ok(None)`, or `clear` was called, since the last piece.
    #[tactic(auto, using(crate::proofs::Fronts::waits_short))]
    pub fn feed(&mut self, piece: &[u8])
        requires short { length piece.now ≤ 4096 }
        requires read { whole_at self.old ≡ Ok None }
        ensures { self.new ≡ self.old ++ piece.now }
    {
        drop_front(&mut self.buf, self.start);
        self.start = 0;
        let _ = self.buf.extend_from_slice(piece);
    }

    /// The payload of the frame at the front, `None` exactly where no frame is whole and no whole field is wrong.
    /// A fault is answered again until `clear`.
    pub fn next(&mut self) -> Result<Option<&[u8]>, FrameFault>
        ensures value { IsNext self.old result }
        ensures short { IfOk result (λ answer. IfSome answer (λ payload. length payload.now ≤ 65536)) }
        ensures* after { sem 𝓛 (Rests the_row self.entry (λ new. new ≡ behind (whole_at self.old) self.old)) }
    {
        match whole_frame(&self.buf[self.start..])? {
            None => Ok(None),
            Some(len) => {
                let from = self.start + 8;
                self.start = from + len;
                Ok(Some(&self.buf[from..from + len]))
            }
        }
    }

    /// Forgets what came: the next piece begins a new stream.
    pub fn clear(&mut self)
        ensures { self.new ≡ [] }
    {
        self.buf.clear();
        self.start = 0;
    }
}

/// Drops the first bytes, and keeps the memory.
fn drop_front(buf: &mut Vec<u8>, n: usize)
    requires { n ≤ vec_len buf.old }
    ensures items { buf.new.items ≡ drop n buf.old.items }
    ensures capacity { vec_capacity buf.new ≡ vec_capacity buf.old }
{
    drop(buf.drain(..n));
}

/// Reading a stream frame by frame gives its payloads one after another, and then its rest, where the reading says
/// whether a field is wrong.
pub fn words_of_a_stream()
    // Behind n frames stands the frame of the payload at place n.
    ensures word { (stream : List ℕ) (payloads : List (List ℕ)) (rest : List ℕ) (n : ℕ) → Frames stream payloads rest → n < length payloads
        → let payload = slice_index_or payloads n [] in (whole_at (behind_frames n stream) ≡ Ok (Some (length payload)))
        × (payload_at (length payload) (behind_frames n stream) ≡ payload) }
    // Behind them all stands the rest.
    ensures rest { (stream : List ℕ) (payloads : List (List ℕ)) (rest : List ℕ) → Frames stream payloads rest
        → behind_frames (length payloads) stream ≡ rest }
    // A fault is read exactly where it is the first wrong whole field.
    ensures fault { (rest : List ℕ) (fault : FrameFault) → (whole_at rest ≡ Err fault) ↔ IsFault rest fault }
    // Nothing is read yet exactly where no frame is whole and no whole field is wrong.
    ensures waits { (rest : List ℕ) → All (λ byte. byte < 256) rest → (whole_at rest ≡ Ok None) ↔ (IsRest rest × IsRight rest) }
{}

/// What is whole at the front of a stream stays so, whatever comes behind it.
pub fn whole_frames_stay()
    ensures { (bytes more : List ℕ) (n : ℕ) → whole_at bytes ≡ Ok (Some n) → whole_at (bytes ++ more) ≡ Ok (Some n) }
{}
