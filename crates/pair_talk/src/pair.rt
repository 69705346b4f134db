//! Both ends with what is under way between them.

use pair_ends::{CarEnd, PostEnd, Way};
use pipe_spec::Numbers;

/// A station's end and a car's end, and what is under way between them.
#[derive(Drop)]
pub struct Pair {
    pub(crate) post: PostEnd,
    pub(crate) car: CarEnd,
    pub(crate) to_station: Way,
    pub(crate) to_car: Way,
    /// The clock of both ends (milliseconds).
    pub(crate) moment: u64,
    pub(crate) numbers: Numbers,
    /// The most hearings of the station in a session.
    pub(crate) turns: u64,
}
