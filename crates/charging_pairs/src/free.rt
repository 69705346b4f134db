//! Ports that nobody uses.

use charge_world::PortPair;
use std::io;
use std::net::{Ipv4Addr, Net, OpenListener, SocketAddr};

/// Two ports of the loopback network that the system gave a moment ago.
pub(crate) fn free_ports(rt: &impl Net) -> io::Result<PortPair> {
    let any = SocketAddr::from((Ipv4Addr::LOCALHOST, 0));
    let tcp = rt.bind(any)?.local_addr()?.port();
    let sdp = rt.bind_udp(any)?.local_addr()?.port();
    Ok(PortPair { tcp, sdp })
}
