//! Standard input, which may ask a wire to stop.

use libc::STDIN_FILENO;
use mio::unix::SourceFd;
use mio::{Interest, Registry, Token};
use std::os::fd::RawFd;
use wire_events::StopLine;

/// The number under which it is watched, which no socket of a post has.
pub(crate) const EARS: usize = usize::MAX;

/// How many bytes are read at once.
const ROOM: usize = 256;

/// Standard input, where it can be waited for beside sockets: a terminal or a pipe.
///
/// The line `stop` asks to stop, and so does the end of a terminal's input (Ctrl-D). The end of a pipe doesn't, since services are started
/// with one that has ended.
pub(crate) struct Ears {
    fd: RawFd,
    is_terminal: bool,
    line: StopLine,
}

impl Ears {
    /// Standard input, if it can be waited for. A terminal is opened anew, so that a read of it never waits, and nobody else's does so
    /// less: other programs may read from it too.
    pub(crate) fn open(registry: &Registry) -> Option<Ears> {
        let is_terminal = libc::isatty(STDIN_FILENO) == 1;
        let fd = if is_terminal {
            os::open_read(b"/dev/tty")
        } else {
            STDIN_FILENO
        };
        if fd < 0 {
            return None;
        }
        if is_terminal {
            os::set_nonblocking(fd, true);
        }
        registry
            .register(&mut SourceFd(&fd), Token(EARS), Interest::READABLE)
            .ok()?;
        Some(Ears {
            fd,
            is_terminal,
            line: StopLine::new(),
        })
    }

    /// Reads what there is, and answers whether it asks to stop.
    pub(crate) fn hear(&mut self, registry: &Registry) -> bool {
        // the system stops a process that reads from a terminal behind another one's back
        if self.is_terminal && libc::tcgetpgrp(self.fd) != libc::getpgrp() {
            return false;
        }
        let mut room = [0u8; ROOM];
        let count = libc::read(self.fd, &mut room);
        if count < 0 {
            return false;
        }
        if count == 0 {
            let _ = registry.deregister(&mut SourceFd(&self.fd));
            return self.is_terminal;
        }
        // what is left is told again
        let _ = registry.reregister(&mut SourceFd(&self.fd), Token(EARS), Interest::READABLE);
        self.hear_bytes(&room[..count as usize])
    }

    fn hear_bytes(&mut self, bytes: &[u8]) -> bool {
        for byte in bytes {
            if self.line.hear(*byte) {
                return true;
            }
        }
        false
    }
}

impl Drop for Ears {
    fn drop(self) {
        let Ears {
            fd,
            is_terminal,
            line: _,
        } = self;
        if is_terminal {
            libc::close(fd);
        }
    }
}
