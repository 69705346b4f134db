//! The wire.

use crate::telling::Telling;
use charge_world::{Failed, Heard, Order, Ports, Wire};
use net_wire::{Sockets, Trouble};
use std::net::SocketAddr;

/// A wire that says on standard error, in a line each, that it listens, that a session begins and that it ends, and what a car does. It keeps
/// each promise of the wire that it holds, whose past it tells.
#[derive(Drop)]
pub struct ToldWire<'r, R: Eprint, W: Wire + Sockets + Drop> {
    wire: W,
    telling: Option<Telling<'r, R>>,
}

impl<'r, R: Eprint, W: Wire + Sockets + Drop> ToldWire<'r, R, W> {
    /// This wire, which says what happens on it, or is quiet.
    pub fn new(rt: &'r R, wire: W, quiet: bool) -> ToldWire<'r, R, W> {
        let telling = if quiet { None } else { Some(Telling::new(rt)) };
        ToldWire { wire, telling }
    }

    /// Why it last failed to start, to wait or to connect.
    pub fn trouble(&self) -> Option<&Trouble> {
        self.wire.trouble()
    }

    /// The other end of the connection of a post.
    pub fn peer(&self, post: u8) -> Option<SocketAddr> {
        self.wire.peer(post)
    }
}

impl<'r, R: Eprint, W: Wire + Sockets + Drop> Wire for ToldWire<'r, R, W> {
    ghost past = { λ w. W.past w.wire };

    ghost untils = { λ w. W.untils w.wire };

    ghost started = { λ w. W.started w.wire };

    ghost posts = { λ w. W.posts w.wire };

    ghost faults = { λ w. W.faults w.wire };

    fn start(&mut self, ports: &Ports) -> Result<(), Failed> {
        if let Some(telling) = &self.telling {
            telling.starts(ports);
        }
        self.wire.start(ports)?;
        if let Some(telling) = &mut self.telling {
            telling.started(ports, &self.wire);
        }
        Ok(())
    }

    fn next(&mut self, until: u64, room: &mut [u8]) -> Result<Heard, Failed> {
        let heard = self.wire.next(until, room)?;
        if let Some(telling) = &mut self.telling {
            telling.heard(&heard, &self.wire);
        }
        Ok(heard)
    }

    fn send(&mut self, post: u8, bytes: &[u8]) -> Result<(), Failed> {
        let sent = self.wire.send(post, bytes);
        if let Some(telling) = &mut self.telling {
            telling.sent(bytes);
        }
        sent
    }

    fn answer(&mut self, post: u8, bytes: &[u8]) -> Result<(), Failed> {
        self.wire.answer(post, bytes)
    }

    fn drive(&mut self, post: u8, order: Order) -> Result<(), Failed> {
        let told = copied(&order);
        let driven = self.wire.drive(post, order);
        if let Some(telling) = &mut self.telling {
            telling.drove(post, told, driven.is_ok());
        }
        driven
    }

    fn dial(&mut self, port: u16) -> Result<(), Failed> {
        let dialed = self.wire.dial(port);
        if let Some(telling) = &self.telling {
            telling.dialed(port, dialed.is_ok());
        }
        dialed
    }

    fn end(&mut self, post: u8, cause: u8) {
        self.wire.end(post, cause);
        if let Some(telling) = &self.telling {
            telling.ended(post, cause);
        }
    }
}

/// The same order once more.
fn copied(order: &Order) -> Order {
    *order
}
