//! What a site is started with, and what it orders.

ghost use Rattle.std.specs.Prelude.{◌≡◌};

use crate::numbers::Tenths;
use arrayvec::ArrayVec;

/// An order to the charger of a post or to the car's contactor.
#[derive(Clone, Copy, Debug, PartialEq, Eq)]
pub enum Order {
    /// Open the contactor.
    Open,
    /// Close the contactor.
    Close,
    /// Charge with at most this voltage and current (tenths) and these watts.
    Limits {
        voltage: Tenths,
        current: Tenths,
        watts: u32,
    },
}

/// The ports of one post: TCP for the session and UDP for discovery, 0 for no discovery.
#[derive(Clone, Copy, Default)]
pub struct PortPair {
    pub tcp: u16,
    pub sdp: u16,
}

/// Where a wire listens, or what a car dials.
#[derive(Drop)]
pub enum Ports {
    /// A station's posts, in order of number, and the connections that it serves in all.
    Posts {
        pairs: ArrayVec<PortPair, 8>,
        sessions: u32,
    },
    /// A car's TCP and discovery ports; with `sdp` 0 it dials its TCP port at once.
    Car {
        tcp: u16,
        sdp: u16,
    },
}

impl Ports {
    /// The same ports once more.
    pub fn copied(&self) -> Ports
        ensures { result ≡ self.now }
    {
        match self {
            Ports::Posts { pairs, sessions } => Ports::Posts {
                pairs: copied_pairs(pairs),
                sessions: *sessions,
            },
            Ports::Car { tcp, sdp } => Ports::Car {
                tcp: *tcp,
                sdp: *sdp,
            },
        }
    }
}

fn copied_pairs(pairs: &ArrayVec<PortPair, 8>) -> ArrayVec<PortPair, 8>
    ensures { result ≡ pairs.now }
{
    let mut copies = ArrayVec::new();
    copies.try_extend_from_slice(pairs.as_slice()).unwrap();
    copies
}
