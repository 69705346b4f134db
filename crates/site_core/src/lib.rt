//! A site: one to eight charging posts that talk to their cars, each by its own plan, and share the site's watts (ISO 15118-2:2014,
//! sections 8.7 and 8.8; DIN SPEC 70121:2014).
//!
//! Proved: `Site::make` makes a site of a plan, with all memory of serving; `Site::hear`: for any codecs and any wire, one hearing with all
//! that is done about it carries a run of the plan so far to a run (`IsSoFar`), which `Site::close` closes; `serve`: for any codecs and any wire, where the past is told it
//! is a run of the plan, cut where a line of the trace could not be written, closed by the orders to open; the trace is its text, each
//! `until` the least due moment (`AreUntils`), and `report` counts it; it ends within the plan's turns and takes no memory.
#![tactic(auto)]

mod hearing;
mod serving;
mod site;
mod turning;

pub use end_turns::Ended;
pub use serving::serve;
pub use site::Site;
pub use site_posts::{CauseSet, PostReport};
pub use trace_lines::{NoMemory, TraceFailed};
