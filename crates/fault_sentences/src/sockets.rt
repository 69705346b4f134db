//! Why sockets failed.

use charge_world::Source;
use net_wire::{Attempt, Trouble};
use plan_files::text_in;
use plan_keys::LONGEST;
use session_words::SitePlan;
use site_plan::site_plan_of;
use std::alloc::Global;
use std::io;
use std::io::ErrorKind;

/// Says what failed, the system's reason, and what to do about it. The plan is that in the file of this name.
pub fn say_trouble<E: Eprint, F: Source>(
    rt: &E,
    alloc: Global,
    files: &mut F,
    name: &str,
    trouble: &Trouble,
) -> io::Result<()> {
    eprintln!(rt; "The network failed: {trouble}.")?;
    match (trouble.attempt, trouble.reason.kind()) {
        (Attempt::Listen { .. } | Attempt::Discover { .. }, ErrorKind::AddrInUse) => {
            say_taken(rt, alloc, files, name, trouble.attempt)
        }
        (Attempt::Listen { .. } | Attempt::Discover { .. }, ErrorKind::PermissionDenied) => {
            eprintln!(rt;
                "Ports below 1024 are the system's own: give the post another one in {name}."
            )
        }
        (Attempt::Connect { .. }, ErrorKind::ConnectionRefused) => eprintln!(rt;
            "No station listens there. Start it first, or mend `tcp` in {name}: it is the port of a station's post."
        ),
        (Attempt::Connect { .. }, _) => eprintln!(rt;
            "Is a station up, and is `tcp` in {name} the port of one of its posts?"
        ),
        _ => Ok(()),
    }
}

/// Says who has the port that a post was to listen at.
fn say_taken<E: Eprint, F: Source>(
    rt: &E,
    alloc: Global,
    files: &mut F,
    name: &str,
    attempt: Attempt,
) -> io::Result<()> {
    let Ok(text) = text_in(alloc, files, name, LONGEST) else {
        return say_holder(rt, name, None);
    };
    let earlier = earlier_in(alloc, text.as_slice(), attempt);
    say_holder(rt, name, earlier)
}

/// Says that an earlier post has the port, or else another program.
fn say_holder<E: Eprint>(rt: &E, name: &str, earlier: Option<usize>) -> io::Result<()> {
    match earlier {
        Some(number) => eprintln!(rt;
            "The plan {name} gives that port to post {number} too: each post has its own."
        ),
        None => eprintln!(rt;
            "Another program has it, maybe a station that still runs. End that one, or give the post another port in {name}."
        ),
    }
}

/// The number of the first post of the plan of this text that has the port of this attempt, but for the post that it was made for.
fn earlier_in(alloc: Global, text: &[u8], attempt: Attempt) -> Option<usize> {
    let plan = site_plan_of(alloc, text).ok();
    match plan {
        Some(plan) => earlier_with(&plan, attempt),
        None => None,
    }
}

/// The number of the first post that has the port of this attempt, but for the post that it was made for.
fn earlier_with(plan: &SitePlan, attempt: Attempt) -> Option<usize> {
    for (place, post_plan) in plan.post.as_slice().iter().enumerate() {
        let number = place + 1;
        let has_it = match attempt {
            Attempt::Listen { post, port } => post_plan.tcp == port && number != usize::from(post),
            Attempt::Discover { post, port } => post_plan.sdp == port
                && number != usize::from(post),
            Attempt::Connect { .. } | Attempt::Wait => false,
        };
        if has_it {
            return Some(number);
        }
    }
    None
}
