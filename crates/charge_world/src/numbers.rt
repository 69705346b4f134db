//! Physical amounts as the charger tells and takes them.

ghost use Rattle.std.specs.Prelude.{◌≡◌, ◌≤◌};
ghost use Rattle.std.specs.Option.{SomeIff};

use std::marker::Model;

/// A number of tenths of a volt or of an ampere, from 0 to 30,000 (own bound: 3,000.0 V or A).
///
/// Contracts see the number itself.
#[derive(Clone, Copy, Debug, PartialEq, Eq)]
pub struct Tenths {
    tenths: u16,
}

impl Model for Tenths {
    ghost use Rattle.std.specs.Prelude.{ℕ, ◌≤◌};

    ghost Value = { ℕ };

    ghost view = { λ t. t.tenths };

    ghost invariant = { λ t. t.tenths ≤ 30000 };

    ghost inverse = { λ n. record { tenths = n } };
}

impl Tenths {
    /// So many tenths; `None` exactly above 30,000.
    pub fn of(n: u16) -> Option<Tenths>
        ensures { SomeIff result (n ≤ 30000) n }
    {
        if n <= 30000 {
            Some(Tenths { tenths: n })
        } else {
            None
        }
    }

    /// So many tenths, at most 30,000.
    pub fn exactly(n: u16) -> Tenths
        requires { n ≤ 30000 }
        ensures { result ≡ n }
    {
        Tenths { tenths: n }
    }

    /// The number of tenths.
    pub fn get(&self) -> u16
        ensures value { result ≡ self.now }
        ensures bound { result ≤ 30000 }
    {
        self.tenths
    }
}

impl Default for Tenths {
    ghost is_default = { λ tenths. tenths ≡ 0 };

    /// No tenths.
    fn default() -> Tenths {
        Tenths { tenths: 0 }
    }
}
