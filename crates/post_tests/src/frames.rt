ghost use Rattle.std.specs.Prelude.{◌≤◌, length};

use crate::cases::{Case, all_hold};
use std::alloc::Global;
use v2gtp_frames::{FrameFault, FrameReader, NoMemory, StreamFrames, put_frame, split};

/// The frames of these bytes in one piece, and with one byte in each piece.
fn split_both(alloc: Global, bytes: &[u8]) -> Result<(StreamFrames, StreamFrames), NoMemory>
    requires { length bytes.now ≤ 4096 }
{
    let mut single = Vec::new(alloc);
    for byte in bytes {
        single.push(Vec::from_slice(alloc, &[*byte])?)?;
    }
    let mut whole = Vec::new(alloc);
    whole.push(Vec::from_slice(alloc, bytes)?)?;
    Ok((split(alloc, &whole)?, split(alloc, &single)?))
}

/// The bytes of a stream, the payloads of their frames, and the first wrong field as soon as it is whole.
struct Stream(&'static [u8], &'static [&'static [u8]], Option<FrameFault>);

impl Stream {
    /// Whether these are its frames.
    fn has(&self, frames: &StreamFrames) -> bool {
        if frames.payloads.len() != self.1.len() || frames.fault != self.2 {
            return false;
        }
        for (payload, wanted) in frames.payloads.iter().zip(self.1) {
            if payload.as_slice() != *wanted {
                return false;
            }
        }
        true
    }
}

impl Case for Stream {
    fn holds(&self, alloc: Global) -> bool {
        if self.0.len() > 4096 {
            return false;
        }
        match split_both(alloc, self.0) {
            Ok((whole, single)) => self.has(&whole) && self.has(&single),
            Err(_) => false,
        }
    }
}

/// A frame of one byte, and then one of two.
const TWO_FRAMES: [u8; 19] = [
    0x01, 0xfe, 0x80, 0x01, 0x00, 0x00, 0x00, 0x01, 0x80, 0x01, 0xfe, 0x80, 0x01, 0x00, 0x00, 0x00,
    0x02, 0x9a, 0x00,
];

const STREAMS: [Stream; 7] = [
    Stream(&[0x02], &[], None),
    Stream(&[0x02, 0xfe], &[], Some(FrameFault::BadVersion(0x02fe))),
    Stream(
        &[0x02, 0xfe, 0x80, 0x01, 0x00, 0x00, 0x00, 0x00],
        &[],
        Some(FrameFault::BadVersion(0x02fe)),
    ),
    Stream(
        &[0x01, 0xfe, 0x80, 0x02],
        &[],
        Some(FrameFault::BadType(0x8002)),
    ),
    Stream(
        &[0x01, 0xfe, 0x80, 0x01, 0x00, 0x01, 0x00, 0x01],
        &[],
        Some(FrameFault::LongPayload(65537)),
    ),
    Stream(&[0x01, 0xfe, 0x80, 0x01, 0x00, 0x01, 0x00, 0x00], &[], None),
    Stream(&TWO_FRAMES, &[&[0x80], &[0x9a, 0x00]], None),
];

/// A fault is answered again until the reader is cleared.
#[tactic(auto, unfolding(v2gtp_frames::specs::Reading::whole_at))]
fn is_cleared(alloc: Global) -> bool {
    let Ok(mut reader) = FrameReader::make(alloc) else {
        return false;
    };
    reader.feed(&[0x01, 0xfe, 0x80, 0x02]);
    for _ in 0..2 {
        if reader.next() != Err(FrameFault::BadType(0x8002)) {
            return false;
        }
    }
    reader.clear();
    if reader.next() != Ok(None) {
        return false;
    }
    reader.clear();
    reader.feed(&TWO_FRAMES);
    reader.next() == Ok(Some(&[0x80]))
}

#[test]
fn streams_are_split_into_frames(rt: HostRuntime) {
    all_hold(&rt, rt.alloc(), &STREAMS);
    assert!(rt; is_cleared(rt.alloc()));
    assert!(rt; put_frame(0x8001, 34) == [0x01, 0xfe, 0x80, 0x01, 0x00, 0x00, 0x00, 0x22]);
}
