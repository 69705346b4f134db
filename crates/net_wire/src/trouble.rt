//! Why a call on sockets failed.

use std::{fmt, io};

/// What was tried.
#[derive(Clone, Copy)]
pub enum Attempt {
    /// To listen for the connections of a post.
    Listen { post: u8, port: u16 },
    /// To listen for the datagrams of a post, at port 0 for the answers to a car.
    Discover { post: u8, port: u16 },
    /// To connect to a post.
    Connect { port: u16 },
    /// To wait for what comes, and to take it.
    Wait,
}

impl fmt::Display for Attempt {
    fn fmt<W: fmt::Write>(&self, f: &mut fmt::Formatter<W>) -> fmt::Result {
        match self {
            Attempt::Listen { post, port } => {
                write!(
                    f,
                    "post {post} can't listen at TCP port {port} of 127.0.0.1"
                )
            }
            Attempt::Discover { post: _, port: 0 } => {
                f.write_str("there is no UDP port of 127.0.0.1 for the discovery")
            }
            Attempt::Discover { post, port } => write!(
                f,
                "post {post} can't listen at UDP port {port} of 127.0.0.1, for its discovery"
            ),
            Attempt::Connect { port } => {
                write!(f, "no connection to TCP port {port} of 127.0.0.1")
            }
            Attempt::Wait => f.write_str("what the sockets tell can't be waited for or taken"),
        }
    }
}

/// What was tried, and the system's reason why it failed.
#[derive(Drop)]
pub struct Trouble {
    pub attempt: Attempt,
    pub reason: io::Error,
}

impl Trouble {
    /// A wait failed.
    pub(crate) fn waiting(reason: io::Error) -> Trouble {
        Trouble {
            attempt: Attempt::Wait,
            reason,
        }
    }
}

impl fmt::Display for Trouble {
    fn fmt<W: fmt::Write>(&self, f: &mut fmt::Formatter<W>) -> fmt::Result {
        write!(f, "{}: {}", self.attempt, self.reason)
    }
}
