//! Ports that nobody uses.

use std::io;
use std::net::{Ipv4Addr, Net, OpenListener, SocketAddr, TcpListener, UdpSocket};

pub fn loopback(port: u16) -> SocketAddr {
    SocketAddr::from((Ipv4Addr::LOCALHOST, port))
}

/// A TCP port that the system gave a moment ago.
pub fn free_port<R: Net>(rt: &R) -> io::Result<u16> {
    let listener = rt.bind(loopback(0))?;
    Ok(listener.local_addr()?.port())
}

/// A UDP port that the system gave a moment ago.
pub fn free_udp_port<R: Net>(rt: &R) -> io::Result<u16> {
    let socket = rt.bind_udp(loopback(0))?;
    Ok(socket.local_addr()?.port())
}
