//! Events of a script.

ghost use Rattle.std.specs.Prelude.{◌≡◌, []};

use charge_world::{Heard, Piece, Scripted, What};
use std::alloc::Global;

/// An event at moment 0 without bytes.
pub fn event(alloc: Global, what: What) -> Scripted
    ensures moment { result.heard.at ≡ 0 }
    ensures kind { result.heard.what ≡ what }
    ensures bytes { result.bytes ≡ [] }
{
    Scripted {
        heard: Heard { at: 0, what },
        bytes: Piece::of(Vec::new(alloc)),
    }
}

/// The connection of post 1 begins, at moment 0 and with the token 1.
pub fn came(alloc: Global) -> Scripted
    ensures moment { result.heard.at ≡ 0 }
    ensures kind { result.heard.what ≡ What.Came 1 1 }
    ensures bytes { result.bytes ≡ [] }
{
    event(alloc, What::Came { post: 1, token: 1 })
}
