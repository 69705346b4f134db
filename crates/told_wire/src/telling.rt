//! What is said at which call.

use charge_notices::{
    Begun, Cause, Connected, Cycle, Dialing, Ended, Found, Journal, Listening, Over, Progress,
    Seeking, Serving, Speaking, Unconnected,
};
use charge_world::{Heard, Order, Ports, What};
use net_wire::Sockets;
use std::io;

/// Says what happens, by the journal that it keeps. Nobody has to hear it: what can't be written is left out.
#[derive(Drop)]
pub(crate) struct Telling<'r, R: Eprint> {
    rt: &'r R,
    journal: Journal,
    is_car: bool,
}

impl<'r, R: Eprint> Telling<'r, R> {
    pub(crate) fn new(rt: &'r R) -> Telling<'r, R> {
        Telling {
            rt,
            journal: Journal::new(0),
            is_car: false,
        }
    }

    /// The wire was started.
    pub(crate) fn started<S: Sockets>(&mut self, ports: &Ports, wire: &S) {
        match ports {
            Ports::Posts { pairs, sessions } => {
                self.is_car = false;
                self.journal = Journal::new(pairs.len());
                let _ = self.say_posts(ports);
                let _ = self.rt.eprintln(Serving {
                    sessions: *sessions,
                    stoppable: wire.is_stoppable(),
                });
            }
            Ports::Car { .. } => {
                self.is_car = true;
                self.journal = Journal::new(1);
            }
        }
    }

    fn say_posts(&self, ports: &Ports) -> io::Result<()> {
        if let Ports::Posts { pairs, .. } = ports {
            for (place, pair) in pairs.as_slice().iter().enumerate() {
                self.rt.eprintln(Listening {
                    post: u8::try_from(place + 1).unwrap_or(u8::MAX),
                    pair: *pair,
                })?;
            }
        }
        Ok(())
    }

    /// The wire is to be started. A car says where it looks for its post.
    pub(crate) fn starts(&self, ports: &Ports) {
        if let Ports::Car { tcp, sdp } = ports {
            let _ = match *sdp {
                0 => self.rt.eprintln(Dialing { tcp: *tcp }),
                sdp => self.rt.eprintln(Seeking { sdp }),
            };
        }
    }

    /// Something was heard.
    pub(crate) fn heard<S: Sockets>(&mut self, heard: &Heard, wire: &S) {
        if heard.what == What::Over && !self.is_car {
            let _ = self.rt.eprintln(Over {
                stopped: wire.is_stopped(),
            });
        }
        let Some(post) = self.journal.heard(heard) else {
            return;
        };
        let peer = wire.peer(post);
        let _ = if self.is_car {
            self.rt.eprintln(Connected { peer })
        } else {
            self.rt.eprintln(Begun { post, peer })
        };
    }

    /// Bytes were sent.
    pub(crate) fn sent(&mut self, bytes: &[u8]) {
        if !self.is_car {
            return;
        }
        let _ = match self.journal.sent(bytes) {
            Some(Progress::Negotiated(dialect)) => self.rt.eprintln(Speaking { dialect }),
            Some(Progress::Cycle(count)) => {
                let since = self.journal.tally_of(1).since;
                self.rt.eprintln(Cycle {
                    count,
                    after: self.journal.at().saturating_sub(since),
                })
            }
            None => Ok(()),
        };
    }

    /// An order was given.
    pub(crate) fn drove(&mut self, post: u8, order: Order, taken: bool) {
        self.journal.drove(post, order, taken);
    }

    /// A car dialed.
    pub(crate) fn dialed(&self, port: u16, taken: bool) {
        let _ = if taken {
            self.rt.eprintln(Found { tcp: port })
        } else {
            self.rt.eprintln(Unconnected { tcp: port })
        };
    }

    /// A session ended.
    pub(crate) fn ended(&self, post: u8, cause: u8) {
        let _ = self.rt.eprintln(Ended {
            post: if self.is_car { 0 } else { post },
            at: self.journal.at(),
            cause: Cause(cause),
            tally: self.journal.tally_of(post),
        });
    }
}
