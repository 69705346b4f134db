//! What a read and a random token come to.

ghost use Rattle.std.specs.Prelude.{◌≡◌, ◌≤◌};
ghost use Rattle.std.specs.Int.{w64, from_be_bytes};
ghost use Rattle.wire_events.specs.Told.{read_of};

use charge_world::What;

/// What a read of so many bytes of a post's connection tells: the end of the connection where there are none.
pub fn piece_or_end(post: u8, n: usize) -> What
    requires { n ≤ 4096 }
    ensures { result ≡ read_of post n }
{
    if n == 0 {
        What::Gone { post }
    } else {
        What::Bytes { post, n: n as u32 }
    }
}

/// The token of these random bytes, the highest first.
pub fn token_of(bytes: [u8; 8]) -> u64
    ensures { result ≡ from_be_bytes w64 bytes }
{
    u64::from_be_bytes(bytes)
}
