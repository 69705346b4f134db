//! A wire with clients beside it.

ghost use Rattle.std.specs.Prelude.{None, []};

use crate::client::Clients;
use charge_world::{Failed, Heard, Order, Ports, What, Wire};
use std::net::{Net, TcpStream};

/// How many turns of 5 ms a client may take in one hearing. Behind them nothing more is heard.
const TURNS: u32 = 600;

/// A wire beside which clients take a turn before each hearing, and each 5 ms in it.
#[derive(Drop)]
pub struct Visited<'r, R: Net<Stream = TcpStream>, W: Wire + Drop> {
    rt: &'r R,
    wire: W,
    pub clients: Clients,
    at: u64,
}

impl<'r, R: Net<Stream = TcpStream>, W: Wire + Drop> Visited<'r, R, W> {
    pub fn new(rt: &'r R, wire: W, clients: Clients) -> Visited<'r, R, W> {
        Visited {
            rt,
            wire,
            clients,
            at: 0,
        }
    }
}

impl<'r, R: Net<Stream = TcpStream>, W: Wire + Drop> Wire for Visited<'r, R, W> {
    ghost past = { λ _. None };

    ghost untils = { λ _. [] };

    ghost started = { λ w. W.started w.wire };

    ghost posts = { λ w. W.posts w.wire };

    ghost faults = { λ w. W.faults w.wire };

    fn start(&mut self, ports: &Ports) -> Result<(), Failed> {
        self.wire.start(ports)
    }

    fn next(&mut self, until: u64, room: &mut [u8]) -> Result<Heard, Failed> {
        for _ in 0..TURNS {
            self.clients.take_turn(self.rt);
            let heard = self.wire.next(until.min(self.at.saturating_add(5)), room)?;
            self.at = heard.at;
            if heard.what != What::Tick || until <= heard.at {
                return Ok(heard);
            }
        }
        Ok(Heard {
            at: self.at,
            what: What::Over,
        })
    }

    fn send(&mut self, post: u8, bytes: &[u8]) -> Result<(), Failed> {
        self.wire.send(post, bytes)
    }

    fn answer(&mut self, post: u8, bytes: &[u8]) -> Result<(), Failed> {
        self.wire.answer(post, bytes)
    }

    fn drive(&mut self, post: u8, order: Order) -> Result<(), Failed> {
        self.wire.drive(post, order)
    }

    fn dial(&mut self, port: u16) -> Result<(), Failed> {
        self.wire.dial(port)
    }

    fn end(&mut self, post: u8, cause: u8) {
        self.wire.end(post, cause)
    }
}
