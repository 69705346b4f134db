use crate::cases::{Case, all_hold};
use session_timers::Deadlines;
use session_words::Timeout;
use std::alloc::Global;

/// What happens to the deadlines of a session, or what they answer.
enum Step {
    Came(u64),
    SetUp,
    Replied(u64),
    Closing(u64),
    Stop,
    /// At this moment this deadline is hit, or none.
    Hit(u64, Option<Timeout>),
    /// The next deadline is due at this moment.
    Due(u64),
}

/// Steps from the start.
struct Run(&'static [Step]);

/// Takes a step, and says whether its answer is right.
fn takes(deadlines: &mut Deadlines, step: &Step) -> bool {
    match step {
        Step::Came(now) => deadlines.came(*now),
        Step::SetUp => deadlines.set_up(),
        Step::Replied(now) => deadlines.replied(*now),
        Step::Closing(now) => deadlines.closing(*now),
        Step::Stop => deadlines.stop(),
        Step::Hit(now, timeout) => return deadlines.hit(*now) == *timeout,
        Step::Due(moment) => return deadlines.next_due() == *moment,
    }
    true
}

impl Case for Run {
    fn holds(&self, _: Global) -> bool {
        let mut deadlines = Deadlines::new();
        for step in self.0 {
            if !takes(&mut deadlines, step) {
                return false;
            }
        }
        true
    }
}

const RUNS: [Run; 4] = [
    // The next request is awaited for a minute from the last reply.
    Run(&[
        Step::Came(0),
        Step::SetUp,
        Step::Replied(10_000),
        Step::Hit(69_999, None),
        Step::Hit(70_000, Some(Timeout::Sequence)),
        Step::Due(70_000),
    ]),
    // SessionSetup is awaited for 18 seconds from the connection.
    Run(&[
        Step::Came(0),
        Step::Hit(17_999, None),
        Step::Hit(18_000, Some(Timeout::Setup)),
    ]),
    // The feedback of a close is awaited for 3 seconds.
    Run(&[
        Step::Came(0),
        Step::SetUp,
        Step::Replied(10_000),
        Step::Closing(12_000),
        Step::Hit(14_999, None),
        Step::Hit(15_000, Some(Timeout::Feedback)),
    ]),
    // Nothing is due at the greatest moment, nor without a session.
    Run(&[
        Step::Came(18446744073709551615),
        Step::Hit(18446744073709551615, None),
        Step::Stop,
        Step::Due(18446744073709551615),
    ]),
];

#[test]
fn deadlines_are_hit_in_time(rt: HostRuntime) {
    all_hold(&rt, rt.alloc(), &RUNS);
}
