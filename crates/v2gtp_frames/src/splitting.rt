//! The frames of a stream that comes in pieces.
ghost use Rattle.std.specs.Prelude.{ℕ, List, ◌≡◌, ◌≤◌, ◌<◌, ◌++◌, All, None, Ok, length, IfOk, OnOk, vec_len};
ghost use Rattle.v2gtp_frames.specs.Frames.{Frames};
ghost use Rattle.v2gtp_frames.specs.Reading.{whole_at, behind_front};
ghost use Rattle.v2gtp_frames.specs.Splits.{joined, payload_bytes, IsFirstFault};
ghost use Rattle.v2gtp_frames.specs.Taking.{Takes, IsFront, answer_of};

use super::{FrameFault, FrameReader, NoMemory};
use std::alloc::Global;

/// The frames that were read of a stream.
#[derive(Drop)]
pub struct StreamFrames {
    /// The payloads of its frames, in the order of the stream.
    pub payloads: Vec<Vec<u8>>,
    /// What ended the reading: the first wrong field behind these frames, or none.
    pub fault: Option<FrameFault>,
}

/// The frames of a stream that comes in these pieces, each of at most 4,096 bytes. Behind a fault nothing is read.
pub fn split(alloc: Global, pieces: &[Vec<u8>]) -> Result<StreamFrames, NoMemory>
    requires { All (λ piece. vec_len piece ≤ 4096) pieces.now }
    // Up to a rest that begins with no frame the stream is these payloads' frames, and the fault is the rest's.
    ensures frames { IfOk result (λ split. (rest : List ℕ) × Frames (joined pieces.now) (payload_bytes split.payloads.items) rest
        × IsFirstFault rest split.fault) }
    // No other payloads are, so it doesn't matter how the stream was cut into pieces.
    ensures only { IfOk result (λ split. (others : List (List ℕ)) (rest : List ℕ) → Frames (joined pieces.now) others rest
        → others ≡ payload_bytes split.payloads.items) }
{
    let mut reader = FrameReader::make(alloc)?;
    let mut payloads = Vec::new(alloc);
    for piece in pieces {
        if let Some(fault) = take_piece(alloc, &mut reader, &mut payloads, piece)? {
            return Ok(StreamFrames {
                payloads,
                fault: Some(fault),
            });
        }
    }
    Ok(StreamFrames {
        payloads,
        fault: None,
    })
}

/// Takes the next piece of the stream, and then each frame that is whole now. Answers the fault behind them.
fn take_piece(
    alloc: Global,
    reader: &mut FrameReader,
    payloads: &mut Vec<Vec<u8>>,
    piece: &[u8],
) -> Result<Option<FrameFault>, NoMemory>
    requires short { length piece.now ≤ 4096 }
    requires read { whole_at reader.old ≡ Ok None }
    requires bytes { All (λ byte. byte < 256) reader.old }
    ensures taken { OnOk result (Takes (reader.old ++ piece.now) reader.new payloads.old.items payloads.new.items) }
    ensures end { IfOk result (λ fault. whole_at reader.new ≡ answer_of fault) }
{
    reader.feed(piece);
    take_frames(alloc, reader, payloads)
}

/// Takes each whole frame at the front, and answers the fault behind them.
fn take_frames(
    alloc: Global,
    reader: &mut FrameReader,
    payloads: &mut Vec<Vec<u8>>,
) -> Result<Option<FrameFault>, NoMemory>
    requires { All (λ byte. byte < 256) reader.old }
    ensures taken { OnOk result (Takes reader.old reader.new payloads.old.items payloads.new.items) }
    ensures end { IfOk result (λ fault. whole_at reader.new ≡ answer_of fault) }
{
    loop {
        match take_frame(alloc, reader)? {
            Front::Waits => return Ok(None),
            Front::Wrong(fault) => return Ok(Some(fault)),
            Front::Payload(payload) => payloads.push(payload)?,
        }
    }
}

/// What stood at the front.
#[derive(Drop)]
enum Front {
    /// No whole frame, and no wrong field.
    Waits,
    /// A wrong field.
    Wrong(FrameFault),
    /// The frame of this payload.
    Payload(Vec<u8>),
}

/// Takes the frame at the front, with a copy of its payload.
fn take_frame(alloc: Global, reader: &mut FrameReader) -> Result<Front, NoMemory>
    ensures front { IfOk result (IsFront reader.old) }
    ensures left { OnOk result (reader.new ≡ behind_front reader.old) }
{
    match reader.next() {
        Err(fault) => Ok(Front::Wrong(fault)),
        Ok(None) => Ok(Front::Waits),
        Ok(Some(payload)) => Ok(Front::Payload(Vec::from_slice(alloc, payload)?)),
    }
}
