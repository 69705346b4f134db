//! Both ends in memory.

ghost use Rattle.std.specs.Prelude.{◌≡◌, vec_len};

use crate::tallies::{CarTally, PostTally};
use car_acts::Driver;
use plant_sim::Sim;
use site_posts::Place;

/// A post that is alone at its site, with its simulated charger and the room in which its frames are made.
#[derive(Drop)]
pub struct PostEnd {
    pub places: Vec<Place>,
    /// The watts of the site.
    pub limit: u32,
    pub charger: Sim,
    pub tally: PostTally,
    pub room: Vec<u8>,
    ghost alone: { vec_len places ≡ 1 },
    ghost wide: { vec_len room ≡ 1032 },
}

/// A car with the room in which its frames are made.
#[derive(Drop)]
pub struct CarEnd {
    pub driver: Driver,
    pub tally: CarTally,
    pub room: Vec<u8>,
    ghost wide: { vec_len room ≡ 1032 },
}
