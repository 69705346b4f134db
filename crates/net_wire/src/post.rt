//! The sockets and the charger of one post.

use mio::net::{TcpListener, TcpStream, UdpSocket};
use plant_sim::Sim;
use std::net::SocketAddr;

/// To whom datagrams go.
#[derive(Clone, Copy)]
pub(crate) enum Partner {
    /// A station answers the sender of the last datagram, if one came.
    LastSender(Option<SocketAddr>),
    /// A car asks at its discovery port, and hears no other.
    Fixed(SocketAddr),
}

impl Partner {
    /// Where a datagram goes to.
    pub(crate) fn address(&self) -> Option<SocketAddr> {
        match self {
            Partner::LastSender(sender) => *sender,
            Partner::Fixed(address) => Some(*address),
        }
    }

    /// Whether a datagram of this sender is heard. A station's post remembers it.
    pub(crate) fn hears(&mut self, sender: SocketAddr) -> bool {
        match self {
            Partner::LastSender(last) => {
                *last = Some(sender);
                true
            }
            Partner::Fixed(address) => *address == sender,
        }
    }
}

/// One post. A car has neither a listener nor a charger.
#[derive(Drop)]
pub(crate) struct Post {
    pub(crate) listener: Option<TcpListener>,
    pub(crate) stream: Option<TcpStream>,
    pub(crate) discovery: Option<UdpSocket>,
    pub(crate) partner: Partner,
    pub(crate) charger: Option<Sim>,
}
