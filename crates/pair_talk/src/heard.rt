//! What the station heard last.

use arrayvec::ArrayVec;
use charge_world::Heard;

/// What the station heard last, with its bytes: a piece has 64 at most.
#[derive(Drop)]
pub struct LastHeard {
    pub(crate) heard: Option<Heard>,
    pub(crate) bytes: ArrayVec<u8, 64>,
}
