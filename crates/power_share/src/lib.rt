//! How the posts of a charging site share its power: the shares that were told last never add up to more than the site's limit.
//!
//! Proved: `Shares`: the level is the greatest bearable number; `one_level`; `within_limit`: the told watts never add up to more than the
//! limit, over every list of calls.
#![tactic(auto)]

pub mod laws;
mod level;
pub mod sharing;

pub use laws::{one_level, within_limit};
pub use sharing::Shares;
