//! What is said of a check that fails in a trace.

use crate::trace::{heard_at, numbered_line};
use charge_world::Source;
use std::{fmt, io};

/// What each check found, by its number from 1.
const FINDINGS: [&str; 10] = [
    "the contactor was ordered closed that had to stay open: the session had not come so far, or the pilot, the isolation or the voltage was not as it must be then",
    "a FAILED reply went out while the contactor was live: the car was told of the failure before the power was taken away",
    "something that ends the session had come while the contactor was live, and it was not ordered open before the next reply or the next thing that was heard",
    "the last order to the contactor had failed, and the next block did not begin with an order to open it",
    "the contactor was left closed, although the session no longer allowed it",
    "the watts of all posts passed the limit of the site",
    "the reply told the car other watts than the post had then",
    "the trace ends with the contactor live: nothing opened it",
    "what was sent is not the reply to the request that waited for one",
    "a message of the car was left without an answer",
];

/// A check that fails at a line of a trace, by its number.
#[derive(Clone, Copy)]
pub struct FailedCheck {
    pub line: u64,
    pub check: usize,
}

/// The check in the line `audit no line N check C`.
pub fn failed_check_in(line: &[u8]) -> Option<FailedCheck> {
    let text = str::from_utf8(line).ok()?;
    let (number, check) = text.strip_prefix("audit no line ")?.split_once(" check ")?;
    Some(FailedCheck {
        line: number.parse().ok()?,
        check: check.trim_end().parse().ok()?,
    })
}

impl FailedCheck {
    /// Whether it is about one post, and not the limit of the site.
    fn is_of_a_post(self) -> bool {
        self.check != 6
    }

    fn finding(self) -> &'static str {
        match self.check {
            1..=10 => FINDINGS[self.check - 1],
            _ => "a check that has no name",
        }
    }
}

/// Where a check fails: at which post, if that is told, and when, in milliseconds.
#[derive(Clone, Copy)]
struct Place {
    post: Option<u8>,
    moment: Option<u64>,
}

impl fmt::Display for Place {
    fn fmt<W: fmt::Write>(&self, f: &mut fmt::Formatter<W>) -> fmt::Result {
        match (self.post, self.moment) {
            (Some(post), Some(moment)) => write!(f, "post {post}, {moment} ms"),
            (Some(post), None) => write!(f, "post {post}, before anything was heard"),
            (None, Some(moment)) => write!(f, "{moment} ms"),
            (None, None) => f.write_str("before anything was heard"),
        }
    }
}

/// When the line with this number, from 1, came to be in the trace of the file of that name.
fn moment_of<F: Source>(files: &mut F, name: &str, number: u64) -> Option<u64> {
    let (line, heard) = numbered_line(files, name, number)?;
    heard_at(line.as_slice()).or(heard)
}

/// Says what a check found that fails in the trace of the file of that name: when, and at which post, the first for which it does, where that is known.
pub fn say_failed_check<E: Eprint, F: Source>(
    rt: &E,
    files: &mut F,
    name: &str,
    failed: FailedCheck,
    post: Option<u8>,
) -> io::Result<()> {
    let place = Place {
        post: if failed.is_of_a_post() { post } else { None },
        moment: moment_of(files, name, failed.line),
    };
    eprintln!(rt;
        "Line {} of {name} ({place}) fails check {}: {}.",
        failed.line,
        failed.check,
        failed.finding()
    )
}
