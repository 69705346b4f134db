//! The wire over sockets.

ghost use Rattle.std.specs.Prelude.{None, []};
ghost use Rattle.net_wire.specs.Posts.{posts_started};

use crate::open::OpenWire;
use crate::trouble::Trouble;
use charge_world::{Failed, Heard, Order, Ports, What, Wire};
use std::alloc::Global;
use std::net;
use std::net::{Net, SocketAddr};
use std::random::RandomSource;
use std::time::Clock;
use wire_events::Faults;

/// The connections, datagrams and chargers of a site on the loopback network, on one thread that waits for many sockets at once.
///
/// Nothing is opened before `start`. A connection at a post that has one takes its place: the one before is told to be gone. `Over`
/// is told once as many connections have ended as `start` was given; a car's wire has one. A send never waits: where the peer's
/// buffer has no room for all of it, it fails. It tells no past.
#[derive(Drop)]
pub struct NetWire<'r, R: Net<Stream = net::TcpStream> + Clock + RandomSource> {
    rt: &'r R,
    alloc: Global,
    stoppable: bool,
    started: Option<Ports>,
    opened: Option<OpenWire>,
    trouble: Option<Trouble>,
    faults: Faults,
}

impl<'r, R: Net<Stream = net::TcpStream> + Clock + RandomSource> NetWire<'r, R> {
    /// A wire that wasn't started.
    pub fn new(rt: &'r R, alloc: Global) -> NetWire<'r, R> {
        NetWire {
            rt,
            alloc,
            stoppable: false,
            started: None,
            opened: None,
            trouble: None,
            faults: Faults::none(),
        }
    }

    /// A wire that wasn't started. From its start on it listens to standard input where that is a terminal in whose foreground the
    /// process is, or a pipe: at the line `stop`, or the end of a terminal's input, it tells `Over`.
    pub fn stoppable(rt: &'r R, alloc: Global) -> NetWire<'r, R> {
        NetWire {
            stoppable: true,
            ..NetWire::new(rt, alloc)
        }
    }
}

/// What a wire knows of its sockets, beside what it tells.
pub trait Sockets {
    /// The other end of the connection of a post.
    fn peer(&self, post: u8) -> Option<SocketAddr>;

    /// Why it last failed to start, to wait or to connect.
    fn trouble(&self) -> Option<&Trouble>;

    /// Whether somebody can ask it to stop at standard input.
    fn is_stoppable(&self) -> bool;

    /// Whether somebody did.
    fn is_stopped(&self) -> bool;
}

impl<'r, R: Net<Stream = net::TcpStream> + Clock + RandomSource> Sockets for NetWire<'r, R> {
    fn peer(&self, post: u8) -> Option<SocketAddr> {
        self.opened.as_ref()?.peer(place_of(post))
    }

    fn trouble(&self) -> Option<&Trouble> {
        self.trouble.as_ref()
    }

    fn is_stoppable(&self) -> bool {
        match &self.opened {
            Some(wire) => wire.is_stoppable(),
            None => false,
        }
    }

    fn is_stopped(&self) -> bool {
        match &self.opened {
            Some(wire) => wire.is_stopped(),
            None => false,
        }
    }
}

/// The place of a post: its number less 1. There is no post 0.
fn place_of(post: u8) -> usize {
    match post {
        0 => usize::MAX,
        _ => post as usize - 1,
    }
}

impl<'r, R: Net<Stream = net::TcpStream> + Clock + RandomSource> Wire for NetWire<'r, R> {
    ghost past = { λ _. None };

    ghost untils = { λ _. [] };

    ghost started = { λ w. w.started };

    ghost posts = { λ w. posts_started w.opened w.started };

    ghost faults = { λ w. w.faults };

    fn start(&mut self, ports: &Ports) -> Result<(), Failed> {
        self.started = Some(ports.copied());
        self.opened = None;
        match OpenWire::start(self.rt, self.alloc, ports, self.stoppable) {
            Ok(wire) => {
                self.opened = Some(wire);
                Ok(())
            }
            Err(trouble) => {
                self.trouble = Some(trouble);
                self.faults.fail(())
            }
        }
    }

    fn next(&mut self, until: u64, room: &mut [u8]) -> Result<Heard, Failed> {
        if let Some(wire) = &mut self.opened {
            match wire.hear(self.rt, until, room) {
                Ok(heard) => return Ok(heard),
                Err(reason) => self.trouble = Some(Trouble::waiting(reason)),
            }
        }
        self.faults.fail(Heard {
            at: u64::MAX,
            what: What::Over,
        })
    }

    fn send(&mut self, post: u8, bytes: &[u8]) -> Result<(), Failed> {
        if let Some(wire) = &mut self.opened {
            if wire.send(place_of(post), bytes).is_ok() {
                return Ok(());
            }
        }
        self.faults.fail(())
    }

    fn answer(&mut self, post: u8, bytes: &[u8]) -> Result<(), Failed> {
        if let Some(wire) = &mut self.opened {
            if wire.answer(place_of(post), bytes).is_ok() {
                return Ok(());
            }
        }
        self.faults.fail(())
    }

    fn drive(&mut self, post: u8, order: Order) -> Result<(), Failed> {
        if let Some(wire) = &mut self.opened {
            if wire.drive(self.rt, place_of(post), order).is_ok() {
                return Ok(());
            }
        }
        self.faults.fail(())
    }

    fn dial(&mut self, port: u16) -> Result<(), Failed> {
        if let Some(wire) = &mut self.opened {
            match wire.dial(self.rt, port) {
                Ok(()) => return Ok(()),
                Err(trouble) => self.trouble = Some(trouble),
            }
        }
        self.faults.fail(())
    }

    fn end(&mut self, post: u8, _cause: u8) {
        if let Some(wire) = &mut self.opened {
            wire.hang_up(place_of(post));
        }
    }
}
