//! A wire that ticks for ever.

ghost use Rattle.std.specs.Prelude.{◌≡◌, ◌+◌, ◌-◌, ◌^◌, [], None, Some, Ok, min};
ghost use Rattle.charge_world.specs.Outside.{posts_of};

use charge_world::{Failed, Heard, Order, Ports, What, Wire};
use std::marker::Model;

/// A wire that hears a tick at each hearing, always at moment 0. It tells no past, and none of its calls fails.
///
/// Contracts see what it was started with, how many posts that were, and how many hearings it gave, at most 2^32 - 1.
#[derive(Drop)]
pub struct Ticking {
    started: Option<Ports>,
    posts: u8,
    hearings: u32,
}

impl Model for Ticking {
    ghost use Rattle.run_examples.specs.Ticks.{Ticks};

    ghost Value = { Ticks };

    ghost view = { λ w. record { started = w.started; posts = w.posts; hearings = w.hearings } };
}

impl Ticking {
    /// A wire that started no post and gave no hearing.
    pub fn new() -> Ticking
        ensures { result ≡ record { started = None; posts = 0; hearings = 0 } }
    {
        Ticking {
            started: None,
            posts: 0,
            hearings: 0,
        }
    }

    /// How many hearings it gave, at most 2^32 - 1.
    pub fn hearings(&self) -> u32
        ensures { result ≡ self.now.hearings }
    {
        self.hearings
    }
}

impl Wire for Ticking {
    ghost past = { λ _. None };

    ghost untils = { λ _. [] };

    ghost started = { λ w. w.started };

    ghost posts = { λ w. w.posts };

    ghost faults = { λ _. 0 };

    fn start(&mut self, ports: &Ports) -> Result<(), Failed>
        ensures done { result ≡ Ok tt }
        ensures started { self.new ≡ record self.old { started = Some ports.now; posts = posts_of ports.now } }
    {
        self.started = Some(ports.copied());
        self.posts = match ports {
            Ports::Posts { pairs, sessions: _ } => pairs.len() as u8,
            Ports::Car { .. } => 1,
        };
        Ok(())
    }

    fn next(&mut self, _until: u64, _room: &mut [u8]) -> Result<Heard, Failed>
        ensures tick { result ≡ Ok (record { at = 0; what = What.Tick }) }
        ensures counted { self.new ≡ record self.old { hearings = min (self.old.hearings + 1) (2 ^ 32 - 1) } }
        ensures room { _room.new ≡ _room.old }
    {
        self.hearings = self.hearings.saturating_add(1);
        Ok(Heard {
            at: 0,
            what: What::Tick,
        })
    }

    fn send(&mut self, _post: u8, _bytes: &[u8]) -> Result<(), Failed>
        ensures done { result ≡ Ok tt }
        ensures stays { self.new ≡ self.old }
    {
        Ok(())
    }

    fn answer(&mut self, _post: u8, _bytes: &[u8]) -> Result<(), Failed>
        ensures done { result ≡ Ok tt }
        ensures stays { self.new ≡ self.old }
    {
        Ok(())
    }

    fn drive(&mut self, _post: u8, _order: Order) -> Result<(), Failed>
        ensures done { result ≡ Ok tt }
        ensures stays { self.new ≡ self.old }
    {
        Ok(())
    }

    fn dial(&mut self, _port: u16) -> Result<(), Failed>
        ensures done { result ≡ Ok tt }
        ensures stays { self.new ≡ self.old }
    {
        Ok(())
    }

    fn end(&mut self, _post: u8, _cause: u8)
        ensures stays { self.new ≡ self.old }
    {}
}
