//! The current that the pilot's duty offers (IEC 61851-1, annex A).

ghost use Rattle.std.specs.Prelude.{◌≡◌, ◌≤◌};
ghost use Rattle.pilot_basic.specs.Duty.{offered, IsDuty};

/// What a duty offers.
#[derive(Clone, Copy, PartialEq, Eq)]
pub enum Offered {
    /// So many tenths of an ampere.
    Amps(u16),
    /// The car is to talk by digital communication.
    Digital,
    /// No energy.
    Nothing,
}

/// What a duty of so many tenths of a percent offers (IEC 61851-1, annex A).
pub fn current_of(d: u16) -> Offered
    ensures { result ≡ offered d }
{
    match d {
        30..=70 => Offered::Digital,
        80..=99 => Offered::Amps(60),
        100..=850 => Offered::Amps(6 * d / 10),
        851..=960 => Offered::Amps(5 * (d - 640) / 2),
        961..=970 => Offered::Amps(800),
        _ => Offered::Nothing,
    }
}

/// The greatest duty from 10 to 96 percent that offers at most `a` tenths of an ampere (IEC 61851-1, annex A).
pub fn duty_of(a: u16) -> u16
    requires least { 60 ≤ a }
    requires most { a ≤ 800 }
    ensures { IsDuty a result }
{
    if 2 * a >= 5 * (851 - 640) {
        640 + 2 * a / 5
    } else {
        (10 * a / 6).min(850)
    }
}
