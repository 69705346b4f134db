//! What is kept of a hearing.

ghost use Rattle.std.specs.Prelude.{◌≡◌, ◌≤◌, [], Some, None, length};
ghost use Rattle.charge_world.specs.declared.heard.What.TheVariants as what;
ghost use Rattle.pipe_spec.specs.Pasts.{hearing_at};
ghost use Rattle.pair_talk.specs.Turning.{last_hearing, bytes_in};

use crate::heard::LastHeard;
use arrayvec::ArrayVec;
use charge_world::{Heard, What};

impl LastHeard {
    /// Nothing was heard.
    pub(crate) fn nothing() -> LastHeard
        ensures { last_hearing result ≡ None }
    {
        LastHeard {
            heard: None,
            bytes: ArrayVec::new(),
        }
    }

    /// This was heard at this moment (milliseconds), without bytes.
    pub(crate) fn of(at: u64, what: What) -> LastHeard
        ensures { last_hearing result ≡ Some (hearing_at at what []) }
    {
        LastHeard {
            heard: Some(Heard { at, what }),
            bytes: ArrayVec::new(),
        }
    }

    /// These bytes were heard at this moment (milliseconds).
    pub(crate) fn of_bytes(at: u64, bytes: &[u8]) -> LastHeard
        requires { length bytes.now ≤ 64 }
        ensures { last_hearing result ≡ Some (hearing_at at (what.Bytes 1 (length bytes.now)) bytes.now) }
    {
        let what = What::Bytes {
            post: 1,
            n: bytes.len() as u32,
        };
        LastHeard {
            heard: Some(Heard { at, what }),
            bytes: ArrayVec::try_from(bytes).unwrap(),
        }
    }

    /// The bytes of the hearing.
    pub(crate) fn told_bytes(&self) -> &[u8]
        ensures { result.now ≡ bytes_in (last_hearing self.now) }
    {
        match self.heard {
            Some(_) => self.bytes.as_slice(),
            None => &[],
        }
    }
}
