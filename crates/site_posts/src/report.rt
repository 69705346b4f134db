//! What a site tells of a post.

use crate::causes::CauseSet;

/// Counts over the past of a post.
#[derive(Clone, Copy)]
pub struct PostReport {
    /// The connections that began.
    pub sessions: u64,
    /// The orders to close that its charger took.
    pub closed: u64,
    /// The causes by which its sessions ended.
    pub causes: CauseSet,
}
