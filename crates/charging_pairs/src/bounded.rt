//! A wire that comes to an end.

ghost use Rattle.std.specs.Prelude.{None, []};

use charge_world::{Failed, Heard, Order, Ports, What, Wire};

/// From when on nothing more is heard, in milliseconds since the start of a wire.
const LAST: u64 = 40_000;

/// A wire that is over from the moment `LAST` on, so that an end whose partner is gone ends by itself. It tells no past.
#[derive(Drop)]
pub(crate) struct Bounded<W: Wire + Drop> {
    wire: W,
    cut: bool,
}

impl<W: Wire + Drop> Bounded<W> {
    pub(crate) fn new(wire: W) -> Bounded<W> {
        Bounded { wire, cut: false }
    }

    /// Whether it was over because its time was up.
    pub(crate) fn is_cut(&self) -> bool {
        self.cut
    }
}

impl<W: Wire + Drop> Wire for Bounded<W> {
    ghost past = { λ _. None };

    ghost untils = { λ _. [] };

    ghost started = { λ w. W.started w.wire };

    ghost posts = { λ w. W.posts w.wire };

    ghost faults = { λ w. W.faults w.wire };

    fn start(&mut self, ports: &Ports) -> Result<(), Failed> {
        self.wire.start(ports)
    }

    fn next(&mut self, until: u64, room: &mut [u8]) -> Result<Heard, Failed> {
        let heard = self.wire.next(until.min(LAST), room)?;
        if heard.at < LAST {
            return Ok(heard);
        }
        self.cut = true;
        Ok(Heard {
            at: heard.at,
            what: What::Over,
        })
    }

    fn send(&mut self, post: u8, bytes: &[u8]) -> Result<(), Failed> {
        self.wire.send(post, bytes)
    }

    fn answer(&mut self, post: u8, bytes: &[u8]) -> Result<(), Failed> {
        self.wire.answer(post, bytes)
    }

    fn drive(&mut self, post: u8, order: Order) -> Result<(), Failed> {
        self.wire.drive(post, order)
    }

    fn dial(&mut self, port: u16) -> Result<(), Failed> {
        self.wire.dial(port)
    }

    fn end(&mut self, post: u8, cause: u8) {
        self.wire.end(post, cause)
    }
}
