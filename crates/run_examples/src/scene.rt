//! What is done over wires and by clients, one thing after the other, and what came of it as text.

ghost use Rattle.std.specs.Prelude.{◌≡◌, length};

use crate::free::loopback;
use arrayvec::ArrayVec;
use charge_world::{Failed, Order, PortPair, Ports, What, Wire};
use std::alloc::Global;
use std::io::{Read, Write};
use std::net::{Net, TcpStream, UdpSocket};
use std::test::Fail;

/// How long is heard at most, in milliseconds since the start of a wire.
const LAST: u64 = 10_000;

/// As what a wire is started.
#[derive(Clone, Copy)]
pub enum Part {
    /// A post at the first port, until one connection has ended.
    Post,
    /// The same, which answers datagrams.
    FoundPost,
    /// A post at each port, until two connections have ended.
    Posts,
    /// A car that dials the first port.
    Car,
    /// A car that asks for a port.
    SeekingCar,
}

/// A call of a wire.
#[derive(Clone, Copy)]
pub enum Call<'a> {
    Start(Part),
    Send(u8, &'a [u8]),
    /// 4,096 bytes are sent to the first post, 16,000 times.
    Flood,
    Answer(u8, &'a [u8]),
    /// Its charger is to close.
    Close(u8),
    /// The first port is dialed.
    Dial,
    End(u8),
}

/// One thing that is done. Wires, clients and TCP ports have numbers from 0.
#[derive(Clone, Copy)]
pub enum Act<'a> {
    /// A client more connects to a port.
    Connect(usize),
    /// A client sends.
    Say(usize, &'a [u8]),
    /// A client reads once.
    Read(usize),
    /// A client closes its connection.
    Leave(usize),
    /// A car without a wire sends a datagram to the post.
    Ask(&'a [u8]),
    /// It gets one.
    Get,
    /// A wire hears the next event that isn't the charger's.
    Hear(usize),
    /// A wire hears the next event.
    HearAny(usize),
    /// A wire is called.
    On(usize, Call<'a>),
}

/// Where posts listen: two TCP ports, and one for datagrams.
#[derive(Clone, Copy)]
pub struct Places {
    pub tcp: [u16; 2],
    pub sdp: u16,
}

impl Places {
    /// The TCP port of a number.
    fn port(self, number: usize) -> u16 {
        if number == 0 {
            self.tcp[0]
        } else {
            self.tcp[1]
        }
    }

    /// The ports of a wire.
    fn of(self, part: Part) -> Ports {
        let tcp = self.port(0);
        match part {
            Part::Post => posts_at(&[PortPair { tcp, sdp: 0 }]),
            Part::FoundPost => posts_at(&[PortPair { tcp, sdp: self.sdp }]),
            Part::Posts => posts_at(&[
                PortPair { tcp, sdp: 0 },
                PortPair {
                    tcp: self.port(1),
                    sdp: 0,
                },
            ]),
            Part::Car => Ports::Car { tcp, sdp: 0 },
            Part::SeekingCar => Ports::Car {
                tcp: 0,
                sdp: self.sdp,
            },
        }
    }
}

/// Posts at these ports, until as many connections have ended.
fn posts_at(list: &[PortPair]) -> Ports {
    let mut pairs = ArrayVec::new();
    let mut sessions = 0_u32;
    for pair in list {
        let _ = pairs.try_push(*pair);
        sessions = sessions.saturating_add(1);
    }
    Ports::Posts { pairs, sessions }
}

/// Wires, clients, and what came of the acts so far, each behind a space.
#[derive(Drop)]
pub struct Scene<W: Wire + Drop> {
    alloc: Global,
    places: Places,
    wires: Vec<W>,
    clients: Vec<Option<TcpStream>>,
    seeker: Option<UdpSocket>,
    pub text: String,
}

impl<W: Wire + Drop> Scene<W> {
    pub fn new(alloc: Global, places: Places, wires: Vec<W>) -> Scene<W> {
        Scene {
            alloc,
            places,
            wires,
            clients: Vec::new(alloc),
            seeker: None,
            text: String::new(alloc),
        }
    }

    /// Does these things in order.
    pub fn play<R: Net<Stream = TcpStream>>(
        &mut self,
        rt: &R,
        acts: &[Act<'_>],
    ) -> Result<(), Fail> {
        for act in acts {
            match act {
                Act::Connect(number) => self.connect(rt, *number)?,
                Act::Say(client, bytes) => self.say(*client, bytes)?,
                Act::Leave(client) => self.leave(*client),
                Act::Read(client) => self.read(*client)?,
                Act::Ask(bytes) => self.ask(rt, bytes)?,
                Act::Get => self.get()?,
                Act::Hear(wire) => self.hear(*wire, 20)?,
                Act::HearAny(wire) => self.hear(*wire, 0)?,
                Act::On(wire, call) => self.call(*wire, *call)?,
            }
        }
        Ok(())
    }

    /// A client more connects to a port.
    fn connect<R: Net<Stream = TcpStream>>(&mut self, rt: &R, number: usize) -> Result<(), Fail> {
        let stream = rt.connect(loopback(self.places.port(number)))?;
        self.clients.push(Some(stream))?;
        Ok(())
    }

    /// A client sends.
    fn say(&mut self, client: usize, bytes: &[u8]) -> Result<(), Fail> {
        if let Some(Some(stream)) = self.clients.get_mut(client) {
            stream.write_all(bytes)?;
        }
        Ok(())
    }

    /// A client closes its connection.
    fn leave(&mut self, client: usize) {
        if let Some(place) = self.clients.get_mut(client) {
            *place = None;
        }
    }

    /// A car without a wire sends a datagram.
    fn ask<R: Net>(&mut self, rt: &R, bytes: &[u8]) -> Result<(), Fail> {
        let socket = rt.bind_udp(loopback(0))?;
        socket.send_to(bytes, loopback(self.places.sdp))?;
        self.seeker = Some(socket);
        Ok(())
    }

    /// It gets one.
    fn get(&mut self) -> Result<(), Fail> {
        let mut room = [0u8; 64];
        let Some(socket) = &self.seeker else {
            return Ok(());
        };
        let (n, _) = socket.recv_from(&mut room)?;
        write!(self.text, " got {n}")?;
        Ok(())
    }

    /// A client reads once.
    fn read(&mut self, client: usize) -> Result<(), Fail> {
        let mut room = [0u8; 64];
        let Some(Some(stream)) = self.clients.get_mut(client) else {
            return Ok(());
        };
        let n = stream.read(&mut room)?;
        write!(self.text, " read {n}")?;
        Ok(())
    }

    /// Calls a wire.
    fn call(&mut self, wire: usize, call: Call<'_>) -> Result<(), Fail> {
        let Some(wire) = self.wires.get_mut(wire) else {
            return Ok(());
        };
        let name = name_of(call);
        match called(wire, self.places, call) {
            Ok(()) => write!(self.text, " {name}")?,
            Err(Failed) => write!(self.text, " not {name}")?,
        }
        Ok(())
    }

    /// Hears, with at most so many events of the charger before.
    fn hear(&mut self, wire: usize, before: u32) -> Result<(), Fail> {
        let mut room = [0u8; 4096];
        let Some(wire) = self.wires.get_mut(wire) else {
            return Ok(());
        };
        match next_of(wire, &mut room, before) {
            Ok(what) => {
                let line = line_of(self.alloc, what)?;
                self.text.push_str(line.as_str())?;
            }
            Err(Failed) => self.text.push_str(" lost")?,
        }
        Ok(())
    }
}

fn name_of(call: Call<'_>) -> &'static str {
    match call {
        Call::Start(_) => "started",
        Call::Send(..) => "sent",
        Call::Flood => "flooded",
        Call::Answer(..) => "answered",
        Call::Close(_) => "drove",
        Call::Dial => "dialed",
        Call::End(_) => "ended",
    }
}

fn called<W: Wire>(wire: &mut W, places: Places, call: Call<'_>) -> Result<(), Failed> {
    match call {
        Call::Start(part) => wire.start(&places.of(part)),
        Call::Send(post, bytes) => wire.send(post, bytes),
        Call::Flood => flood(wire),
        Call::Answer(post, bytes) => wire.answer(post, bytes),
        Call::Close(post) => wire.drive(post, Order::Close),
        Call::Dial => wire.dial(places.port(0)),
        Call::End(post) => {
            wire.end(post, 1);
            Ok(())
        }
    }
}

fn flood<W: Wire>(wire: &mut W) -> Result<(), Failed> {
    let bytes = [7u8; 4096];
    for _ in 0..16_000 {
        wire.send(1, &bytes)?;
    }
    Ok(())
}

/// What is heard next, but for so many events of the charger.
fn next_of<W: Wire>(wire: &mut W, room: &mut [u8], before: u32) -> Result<What, Failed>
    requires { length room.old ≡ 4096 }
{
    for _ in 0..before {
        match wire.next(LAST, room)?.what {
            What::Plant { .. } => {}
            what => return Ok(what),
        }
    }
    Ok(wire.next(LAST, room)?.what)
}

fn line_of(alloc: Global, what: What) -> Result<String, Fail> {
    Ok(match what {
        What::Came { post, token: _ } => format!(in alloc; " came {post}")?,
        What::Bytes { post, n } => format!(in alloc; " bytes {post} {n}")?,
        What::Gone { post } => format!(in alloc; " gone {post}")?,
        What::Datagram { post, n } => format!(in alloc; " datagram {post} {n}")?,
        What::Plant { post, event } => format!(in alloc; " plant {post} {event:?}")?,
        What::Tick => String::from_str(alloc, " tick")?,
        What::Over => String::from_str(alloc, " over")?,
    })
}
