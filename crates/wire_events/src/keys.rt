//! The numbers under which the sockets of posts are watched.

ghost use Rattle.std.specs.Prelude.{◌≡◌, ◌<◌, ◌^◌};
ghost use Rattle.wire_events.specs.Told.{key_number};

use crate::seat::Socket;

/// A socket of the post at a place.
#[derive(Clone, Copy)]
pub struct Key {
    pub place: usize,
    pub socket: Socket,
}

/// The number of a socket: each has one of its own.
pub fn number_of(key: Key) -> usize
    requires { key.place < 2 ^ 32 }
    ensures { result ≡ key_number key }
{
    3 * key.place
        + match key.socket {
            Socket::Listener => 0,
            Socket::Stream => 1,
            Socket::Discovery => 2,
        }
}

/// The socket of a number.
pub fn key_of(number: usize) -> Key
    ensures { key_number result ≡ number }
{
    let socket = match number % 3 {
        0 => Socket::Listener,
        1 => Socket::Stream,
        _ => Socket::Discovery,
    };
    Key {
        place: number / 3,
        socket,
    }
}
