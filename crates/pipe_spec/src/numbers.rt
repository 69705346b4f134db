//! The numbers that are drawn.

ghost use Rattle.std.specs.Prelude.{◌≡◌, ◌<◌};
ghost use Rattle.pipe_spec.specs.Numbers.{next, drawn};

use std::marker::Model;

/// The multiplier of MMIX (Knuth, The Art of Computer Programming, 3.3.4).
const MULTIPLIER: u64 = 6_364_136_223_846_793_005;

/// Its increment.
const INCREMENT: u64 = 1_442_695_040_888_963_407;

/// Numbers drawn one behind the other: the same for the same seed. Contracts see the number behind which the next is drawn.
#[derive(Drop)]
pub struct Numbers {
    last: u64,
}

impl Model for Numbers {
    ghost use Rattle.std.specs.Prelude.{ℕ};

    ghost Value = { ℕ };

    ghost view = { λ numbers. numbers.last };
}

impl Numbers {
    /// The numbers behind a seed.
    pub fn of(seed: u64) -> Numbers
        ensures { result ≡ seed }
    {
        Numbers { last: seed }
    }

    /// Draws the next number below `n`.
    pub fn draw(&mut self, n: u32) -> u32
        requires { 0 < n }
        ensures number { result ≡ drawn n self.old }
        ensures behind { self.new ≡ next self.old }
    {
        self.last = self.last.wrapping_mul(MULTIPLIER).wrapping_add(INCREMENT);
        (self.last >> 33) as u32 % n
    }
}
