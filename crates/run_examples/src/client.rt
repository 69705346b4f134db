//! Clients that do one thing after the other, and never wait.

use crate::free::loopback;
use std::alloc::Global;
use std::io;
use std::io::{Read, Write};
use std::net::{Net, TcpStream};

/// The published request of a car that speaks DIN SPEC 70121, in its frame; its answer is `01fe80010000000480400040`.
const REQUEST: &'static str = "01fe800100000022\
8000dbab9371d3234b71d1b981899189d191818991d26b9b3a232b30020000040040";

/// Its first 20 bytes, and the others.
const HALF: &'static str = "01fe8001000000228000dbab9371d3234b71d1b9";

const REST: &'static str = "81899189d191818991d26b9b3a232b30020000040040";

/// The next request of that car.
const SETUP: &'static str = "01fe800100000015809a02000000000000000011d0180004080c101400";

/// What a client sends.
#[derive(Clone, Copy)]
pub enum Bytes {
    /// The published request.
    Request,
    /// Its first 20 bytes.
    Half,
    /// The others.
    Rest,
    /// The next request of that car.
    Setup,
    /// A frame of a version that there isn't.
    OtherVersion,
}

impl Bytes {
    /// In hexadecimal.
    fn hex(self) -> &'static str {
        match self {
            Bytes::Request => REQUEST,
            Bytes::Half => HALF,
            Bytes::Rest => REST,
            Bytes::Setup => SETUP,
            Bytes::OtherVersion => "02fe800100000000",
        }
    }
}

/// One thing that a client does. Connections have numbers from 0, in the order in which they are made.
#[derive(Clone, Copy)]
pub enum Deed {
    /// One connection more is made, to the post of this number.
    Connect(usize),
    /// The connection sends these bytes in one piece.
    Send(usize, Bytes),
    /// The connection sends bytes one by one, each in a turn of its own.
    Trickle(usize, Bytes),
    /// Nothing more is done until the connection got so many bytes in all, or was ended.
    Await(usize, usize),
    /// The connection is closed, by a reset where bytes came that weren't read.
    Close(usize),
    /// Nothing is done for so many turns.
    Rest(usize),
}

/// A connection of a client, and what it got.
#[derive(Drop)]
struct Line {
    stream: Option<TcpStream>,
    got: Vec<u8>,
    ended: bool,
}

/// Clients at the posts of these ports, and what they do: the deed of this place, which was begun so many turns ago, and those behind it.
#[derive(Drop)]
pub struct Clients {
    alloc: Global,
    ports: [u16; 2],
    lines: Vec<Line>,
    deeds: Vec<Deed>,
    place: usize,
    turns: usize,
}

impl Clients {
    /// Clients that do these things in order.
    pub fn new(alloc: Global, ports: [u16; 2], deeds: Vec<Deed>) -> Clients {
        Clients {
            alloc,
            ports,
            lines: Vec::new(alloc),
            deeds,
            place: 0,
            turns: 0,
        }
    }

    /// Does what can be done now. An error ends all that was to be done.
    pub fn take_turn<R: Net<Stream = TcpStream>>(&mut self, rt: &R) {
        for _ in 0..1000 {
            let Some(deed) = self.deeds.get(self.place).copied() else {
                return;
            };
            match self.is_done(rt, deed) {
                Ok(true) => {
                    self.place = self.place.saturating_add(1);
                    self.turns = 0;
                }
                Ok(false) => {
                    self.turns = self.turns.saturating_add(1);
                    return;
                }
                Err(_) => self.place = usize::MAX,
            }
        }
    }

    /// For each connection, a line: how many bytes it got, the first twelve of them, and `ended` where it was. Where not all was done,
    /// the place of what was not.
    pub fn report(&self) -> io::Result<String> {
        let mut text = String::new(self.alloc);
        for line in self.lines.as_slice() {
            let told = line.told(self.alloc)?;
            text.push_str(told.as_str())?;
        }
        if self.place != self.deeds.len() {
            let place = self.place;
            let undone = format!(in self.alloc; "not done from {place}\n")?;
            text.push_str(undone.as_str())?;
        }
        Ok(text)
    }

    /// Does this, or a part of it. `false` where it has to wait.
    fn is_done<R: Net<Stream = TcpStream>>(&mut self, rt: &R, deed: Deed) -> io::Result<bool> {
        match deed {
            Deed::Connect(post) => self.connect(rt, post),
            Deed::Send(number, bytes) => self.send(number, bytes.hex()),
            Deed::Trickle(number, bytes) => self.trickle(number, bytes.hex()),
            Deed::Await(number, bytes) => self.has_got(number, bytes),
            Deed::Close(number) => self.close(number),
            Deed::Rest(turns) => Ok(self.turns >= turns),
        }
    }

    fn connect<R: Net<Stream = TcpStream>>(&mut self, rt: &R, post: usize) -> io::Result<bool> {
        let port = if post == 1 {
            self.ports[0]
        } else {
            self.ports[1]
        };
        let line = Line::connected(rt, self.alloc, port)?;
        match self.lines.push(line) {
            Ok(()) => Ok(true),
            Err(_) => Err(io::Error::from(io::ErrorKind::OutOfMemory)),
        }
    }

    fn send(&mut self, number: usize, hex: &str) -> io::Result<bool> {
        let alloc = self.alloc;
        if let Some(line) = self.lines.get_mut(number) {
            line.send(alloc, hex)?;
        }
        Ok(true)
    }

    /// Sends the byte of this turn. `true` once there is no more.
    fn trickle(&mut self, number: usize, hex: &str) -> io::Result<bool> {
        let place = self.turns.saturating_mul(2);
        match hex.get(place..place.saturating_add(2)) {
            Some(byte) => {
                self.send(number, byte)?;
                Ok(false)
            }
            None => Ok(true),
        }
    }

    fn close(&mut self, number: usize) -> io::Result<bool> {
        if let Some(line) = self.lines.get_mut(number) {
            line.stream = None;
        }
        Ok(true)
    }

    /// Reads what came, and says whether there are so many bytes, or the connection was ended.
    fn has_got(&mut self, number: usize, bytes: usize) -> io::Result<bool> {
        let Some(line) = self.lines.get_mut(number) else {
            return Ok(true);
        };
        line.read()?;
        Ok(line.ended || line.got.len() >= bytes)
    }
}

impl Line {
    /// A connection to this port.
    fn connected<R: Net<Stream = TcpStream>>(rt: &R, alloc: Global, port: u16) -> io::Result<Line> {
        let stream = rt.connect(loopback(port))?;
        stream.set_nodelay(true)?;
        stream.set_nonblocking(true)?;
        Ok(Line {
            stream: Some(stream),
            got: Vec::new(alloc),
            ended: false,
        })
    }

    /// Sends bytes.
    fn send(&mut self, alloc: Global, hex: &str) -> io::Result<()> {
        let Ok(bytes) = hex::decode(alloc, hex) else {
            return Err(io::Error::from(io::ErrorKind::InvalidInput));
        };
        match &mut self.stream {
            Some(stream) => stream.write_all(bytes.as_slice()),
            None => Ok(()),
        }
    }

    /// Reads what came.
    fn read(&mut self) -> io::Result<()> {
        let mut room = [0u8; 256];
        let Some(stream) = &mut self.stream else {
            return Ok(());
        };
        match stream.read(&mut room) {
            Ok(0) => self.ended = true,
            Ok(n) => self.got.extend_from_slice(&room[..n])?,
            Err(error) if error.kind() == io::ErrorKind::WouldBlock => {}
            Err(_) => self.ended = true,
        }
        Ok(())
    }

    /// How many bytes came, the first twelve of them, and `ended` where it was.
    fn told(&self, alloc: Global) -> io::Result<String> {
        let got = self.got.as_slice();
        let hex = hex::encode(alloc, &got[..got.len().min(12)])?;
        let count = got.len();
        let ended = if self.ended { " ended" } else { "" };
        Ok(format!(in alloc; "{count} {hex}{ended}\n")?)
    }
}
