//! Sockets of the loopback network, each watched under its own number.

ghost use Rattle.std.specs.Prelude.{◌<◌, ◌^◌};

use crate::post::{Partner, Post};
use crate::trouble::{Attempt, Trouble};
use charge_world::PortPair;
use mio::net::{TcpListener, TcpStream, UdpSocket};
use mio::{Interest, Registry, Token};
use plant_sim::Sim;
use std::net::{Ipv4Addr, Net, SocketAddr};
use std::time::Duration;
use std::{io, net};
use wire_events::{Key, Socket, number_of};

/// How long a car waits until its connection is made, in milliseconds.
const DIALING: u64 = 1000;

fn loopback(port: u16) -> SocketAddr {
    SocketAddr::from((Ipv4Addr::LOCALHOST, port))
}

/// The number under which a socket of a post is watched.
fn token(place: usize, socket: Socket) -> Token
    requires { place < 2 ^ 32 }
{
    Token(number_of(Key { place, socket }))
}

/// Opens the sockets of a station's post.
pub(crate) fn open_post<R: Net>(
    rt: &R,
    registry: &Registry,
    place: usize,
    pair: PortPair,
) -> Result<Post, Trouble>
    requires { place < 255 }
{
    let post = place as u8 + 1;
    let listener = match open_listener(rt, registry, place, pair.tcp) {
        Ok(listener) => listener,
        Err(reason) => {
            return Err(Trouble {
                attempt: Attempt::Listen {
                    post,
                    port: pair.tcp,
                },
                reason,
            });
        }
    };
    let discovery = if pair.sdp == 0 {
        None
    } else {
        Some(open_discovery(rt, registry, place, pair.sdp)?)
    };
    Ok(Post {
        listener: Some(listener),
        stream: None,
        discovery,
        partner: Partner::LastSender(None),
        charger: Some(Sim::new(false)),
    })
}

/// Opens the sockets of a car, but for its connection.
pub(crate) fn open_car<R: Net>(rt: &R, registry: &Registry, sdp: u16) -> Result<Post, Trouble> {
    let discovery = if sdp == 0 {
        None
    } else {
        Some(open_discovery(rt, registry, 0, 0)?)
    };
    Ok(Post {
        listener: None,
        stream: None,
        discovery,
        partner: Partner::Fixed(loopback(sdp)),
        charger: None,
    })
}

/// A socket for connections.
fn open_listener<R: Net>(
    rt: &R,
    registry: &Registry,
    place: usize,
    port: u16,
) -> io::Result<TcpListener>
    requires { place < 2 ^ 32 }
{
    let mut listener = TcpListener::bind(rt, loopback(port))?;
    registry.register(
        &mut listener,
        token(place, Socket::Listener),
        Interest::READABLE,
    )?;
    Ok(listener)
}

/// A socket for the datagrams of the post at a place, at any port where 0 is given.
fn open_discovery<R: Net>(
    rt: &R,
    registry: &Registry,
    place: usize,
    port: u16,
) -> Result<UdpSocket, Trouble>
    requires { place < 255 }
{
    match bind_datagrams(rt, registry, place, port) {
        Ok(socket) => Ok(socket),
        Err(reason) => Err(Trouble {
            attempt: Attempt::Discover {
                post: place as u8 + 1,
                port,
            },
            reason,
        }),
    }
}

fn bind_datagrams<R: Net>(
    rt: &R,
    registry: &Registry,
    place: usize,
    port: u16,
) -> io::Result<UdpSocket>
    requires { place < 2 ^ 32 }
{
    let mut socket = UdpSocket::bind(rt, loopback(port))?;
    registry.register(
        &mut socket,
        token(place, Socket::Discovery),
        Interest::READABLE,
    )?;
    Ok(socket)
}

/// A connection to a port of the loopback network.
pub(crate) fn connect<R: Net<Stream = net::TcpStream>>(rt: &R, port: u16) -> io::Result<TcpStream> {
    let stream = rt.connect_timeout(loopback(port), Duration::from_millis(DIALING))?;
    stream.set_nonblocking(true)?;
    Ok(TcpStream::from_std(stream))
}

/// Watches a connection. Small pieces go out at once.
pub(crate) fn watch(registry: &Registry, place: usize, stream: &mut TcpStream) -> io::Result<()>
    requires { place < 2 ^ 32 }
{
    stream.set_nodelay(true)?;
    registry.register(
        stream,
        token(place, Socket::Stream),
        Interest::READABLE | Interest::WRITABLE,
    )
}
