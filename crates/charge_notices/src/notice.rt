//! The lines.

use crate::cause::Cause;
use crate::journal::Tally;
use charge_world::{Dialect, PortPair};
use std::fmt;
use std::net::SocketAddr;

/// So many milliseconds, in seconds with one decimal.
#[derive(Clone, Copy)]
pub struct Seconds(pub u64);

impl fmt::Display for Seconds {
    fn fmt<W: fmt::Write>(&self, f: &mut fmt::Formatter<W>) -> fmt::Result {
        write!(f, "{}.{} s", self.0 / 1000, self.0 % 1000 / 100)
    }
}

/// A station's post listens.
#[derive(Clone, Copy)]
pub struct Listening {
    pub post: u8,
    pub pair: PortPair,
}

impl fmt::Display for Listening {
    fn fmt<W: fmt::Write>(&self, f: &mut fmt::Formatter<W>) -> fmt::Result {
        write!(
            f,
            "post {} listens at TCP port {} of 127.0.0.1",
            self.post, self.pair.tcp
        )?;
        match self.pair.sdp {
            0 => f.write_str(", without discovery"),
            sdp => write!(f, ", discovery at UDP port {sdp}"),
        }
    }
}

/// A station serves so many connections, and may be asked to stop.
#[derive(Clone, Copy)]
pub struct Serving {
    pub sessions: u32,
    pub stoppable: bool,
}

impl fmt::Display for Serving {
    fn fmt<W: fmt::Write>(&self, f: &mut fmt::Formatter<W>) -> fmt::Result {
        write!(
            f,
            "the station ends when the number of ended connections, whoever makes them, is {} (`sessions` of the plan), behind its `turns`, and where v2g.trace can't be written",
            self.sessions
        )?;
        if self.stoppable {
            f.write_str("; the line `stop` ends it in order, Ctrl-C cuts it off")
        } else {
            f.write_str("; Ctrl-C cuts it off")
        }
    }
}

/// A station hears nothing more, because it was asked to stop or because of its plan.
#[derive(Clone, Copy)]
pub struct Over {
    pub stopped: bool,
}

impl fmt::Display for Over {
    fn fmt<W: fmt::Write>(&self, f: &mut fmt::Formatter<W>) -> fmt::Result {
        f.write_str(if self.stopped {
            "the station was asked to stop, and ends the sessions that there are"
        } else {
            "the station ends: as many connections have ended as `sessions` of its plan says"
        })
    }
}

/// A connection came to a post.
#[derive(Clone, Copy)]
pub struct Begun {
    pub post: u8,
    pub peer: Option<SocketAddr>,
}

impl fmt::Display for Begun {
    fn fmt<W: fmt::Write>(&self, f: &mut fmt::Formatter<W>) -> fmt::Result {
        match self.peer {
            Some(peer) => write!(f, "post {}: a session begins, with {peer}", self.post),
            None => write!(
                f,
                "post {}: a session begins, whose peer is gone already",
                self.post
            ),
        }
    }
}

/// A session ended by a cause at a moment (milliseconds).
#[derive(Clone, Copy)]
pub struct Ended {
    /// The number of its post; 0 for a car.
    pub post: u8,
    pub at: u64,
    pub cause: Cause,
    pub tally: Tally,
}

impl fmt::Display for Ended {
    fn fmt<W: fmt::Write>(&self, f: &mut fmt::Formatter<W>) -> fmt::Result {
        let span = Seconds(self.at.saturating_sub(self.tally.since));
        match self.post {
            0 => write!(f, "car: the session ends after {span}, {}", self.cause)?,
            post => write!(
                f,
                "post {post}: the session ends after {span}, {}",
                self.cause
            )?,
        }
        write!(f, "; {}", self.tally)
    }
}

impl fmt::Display for Tally {
    fn fmt<W: fmt::Write>(&self, f: &mut fmt::Formatter<W>) -> fmt::Result {
        write!(
            f,
            "orders: {} close, {} limits, {} open",
            self.closes, self.limits, self.opens
        )?;
        match self.failed {
            0 => Ok(()),
            failed => write!(f, ", {failed} failed"),
        }
    }
}

/// A car looks for its post by discovery.
#[derive(Clone, Copy)]
pub struct Seeking {
    pub sdp: u16,
}

impl fmt::Display for Seeking {
    fn fmt<W: fmt::Write>(&self, f: &mut fmt::Formatter<W>) -> fmt::Result {
        write!(
            f,
            "car: looks for a post at UDP port {} of 127.0.0.1, every 250 ms, 50 times at most",
            self.sdp
        )
    }
}

/// A car dials a port that its plan gives.
#[derive(Clone, Copy)]
pub struct Dialing {
    pub tcp: u16,
}

impl fmt::Display for Dialing {
    fn fmt<W: fmt::Write>(&self, f: &mut fmt::Formatter<W>) -> fmt::Result {
        write!(f, "car: dials TCP port {} of 127.0.0.1", self.tcp)
    }
}

/// A car dials a port that a post answered, or that its plan gives.
#[derive(Clone, Copy)]
pub struct Found {
    pub tcp: u16,
}

impl fmt::Display for Found {
    fn fmt<W: fmt::Write>(&self, f: &mut fmt::Formatter<W>) -> fmt::Result {
        write!(f, "car: a post answers; dials its TCP port {}", self.tcp)
    }
}

/// A car can't connect.
#[derive(Clone, Copy)]
pub struct Unconnected {
    pub tcp: u16,
}

impl fmt::Display for Unconnected {
    fn fmt<W: fmt::Write>(&self, f: &mut fmt::Formatter<W>) -> fmt::Result {
        write!(
            f,
            "car: no connection to TCP port {} of 127.0.0.1",
            self.tcp
        )
    }
}

/// A car is connected.
#[derive(Clone, Copy)]
pub struct Connected {
    pub peer: Option<SocketAddr>,
}

impl fmt::Display for Connected {
    fn fmt<W: fmt::Write>(&self, f: &mut fmt::Formatter<W>) -> fmt::Result {
        match self.peer {
            Some(peer) => write!(f, "car: connected to {peer}"),
            None => f.write_str("car: connected, and the post is gone already"),
        }
    }
}

/// A car and its post agreed on a dialect.
#[derive(Clone, Copy)]
pub struct Speaking {
    pub dialect: Dialect,
}

impl fmt::Display for Speaking {
    fn fmt<W: fmt::Write>(&self, f: &mut fmt::Formatter<W>) -> fmt::Result {
        f.write_str(match self.dialect {
            Dialect::Iso => "car: negotiated ISO 15118-2",
            Dialect::Din => "car: negotiated DIN SPEC 70121",
        })
    }
}

/// A car sends its so manieth charging request, at a moment (milliseconds since the connection).
#[derive(Clone, Copy)]
pub struct Cycle {
    pub count: u32,
    pub after: u64,
}

impl fmt::Display for Cycle {
    fn fmt<W: fmt::Write>(&self, f: &mut fmt::Formatter<W>) -> fmt::Result {
        write!(f, "car: cycle {} after {}", self.count, Seconds(self.after))
    }
}
