//! How amounts of voltage, current and power count.
//!
//! Voltages and currents count in tenths of a volt and of an ampere, power in watts. What is left over is dropped,
//! and an amount below 0 counts as 0.

ghost use Rattle.std.specs.Prelude.{◌≡◌, ◌*◌, ◌+◌, ◌^◌, ◌<◌, ◌≤◌, ◌+ℤ◌, pos};
ghost use Rattle.session_words.specs.Amounts.{above_zero, IsMultiplier, thousandths_of, tenths_of, IsTenths, units_of, IsUnits, dc_watts_of, IsDcWatts, ac_watts_of, IsAcWatts, ac_current_of, IsAcCurrent, IsWrittenWatts};

use charge_world::Tenths;

/// An amount of a message, in tenths of a volt or of an ampere or in watts.
#[derive(Clone, Copy, Default, PartialEq, Eq)]
pub struct Amount {
    pub size: u32,
    /// Whether the message gave it in the unit that its place wants.
    pub right: bool,
}

/// Ten to the multiplier, in thousandths.
fn thousandths_of_one(multiplier: i8) -> u64
    requires { IsMultiplier multiplier }
    ensures value { result ≡ 10 ^ above_zero (multiplier +ℤ pos 3) }
    ensures bound { result ≤ 1000000 }
{
    match multiplier {
        -3 => 1,
        -2 => 10,
        -1 => 100,
        0 => 1_000,
        1 => 10_000,
        2 => 100_000,
        _ => 1_000_000,
    }
}

/// A physical value in thousandths.
fn thousandths(multiplier: i8, value: i16) -> u64
    requires { IsMultiplier multiplier }
    ensures value { result ≡ thousandths_of multiplier value }
    ensures bound { result ≤ 32767000000 }
{
    if value < 0 {
        0
    } else {
        value as u64 * thousandths_of_one(multiplier)
    }
}

impl Amount {
    /// The physical value of that multiplier and value in whole tenths; `right` says that its unit is right.
    pub fn in_tenths(multiplier: i8, value: i16, right: bool) -> Amount
        requires { IsMultiplier multiplier }
        ensures size { IsTenths multiplier value result.size }
        ensures quotient { result ≡ record { size = tenths_of multiplier value; right = right } }
    {
        Amount {
            size: (thousandths(multiplier, value) / 100) as u32,
            right,
        }
    }

    /// The physical value of that multiplier and value in whole units, as watts; `right` says that its unit is right.
    pub fn in_units(multiplier: i8, value: i16, right: bool) -> Amount
        requires { IsMultiplier multiplier }
        ensures size { IsUnits multiplier value result.size }
        ensures quotient { result ≡ record { size = units_of multiplier value; right = right } }
    {
        Amount {
            size: (thousandths(multiplier, value) / 1000) as u32,
            right,
        }
    }
}

/// The whole watts of a voltage and a current, both in tenths.
pub fn dc_watts(voltage: u32, current: u32) -> u64
    ensures size { IsDcWatts voltage current result }
    ensures quotient { result ≡ dc_watts_of voltage current }
{
    voltage as u64 * current as u64 / 100
}

/// The whole watts of a current in tenths at a nominal voltage in volts over so many phases, rounded down once.
pub fn ac_watts(current: u32, nominal: u16, phases: u8) -> u64
    ensures size { IsAcWatts current nominal phases result }
    ensures quotient { result ≡ ac_watts_of current nominal phases }
{
    current as u64 * nominal as u64 * phases as u64 / 10
}

/// The greatest current, in tenths and at most 30,000, whose watts are within these at a nominal voltage in volts over
/// so many phases.
pub fn ac_current(watts: u32, nominal: u16, phases: u8) -> Tenths
    requires nominal { 0 < nominal }
    requires phases { 0 < phases }
    ensures size { IsAcCurrent watts nominal phases result }
    ensures quotient { result ≡ ac_current_of watts nominal phases }
{
    let most = 10 * watts as u64 / (nominal as u64 * phases as u64);
    Tenths::exactly(most.min(30000) as u16)
}

/// A number of watts as a message writes it: the Value and its Multiplier.
#[derive(Clone, Copy)]
pub struct WrittenWatts {
    /// 0 to 3.
    pub multiplier: u8,
    /// 0 to 32,767.
    pub value: u16,
}

/// These watts as a message writes them: by the least Multiplier from 0 whose Value, rounded down, fits 16 bits with
/// a sign.
#[tactic(auto, using(crate::proofs::AmountLemmas::too_many_below))]
pub fn written_watts(watts: u32) -> WrittenWatts
    requires { watts < 32768000 }
    ensures written { IsWrittenWatts watts result.multiplier result.value }
    ensures bound { result.multiplier ≤ 3 }
{
    if watts < 32768 {
        return WrittenWatts {
            multiplier: 0,
            value: watts as u16,
        };
    }
    if watts < 327_680 {
        return WrittenWatts {
            multiplier: 1,
            value: (watts / 10) as u16,
        };
    }
    if watts < 3_276_800 {
        return WrittenWatts {
            multiplier: 2,
            value: (watts / 100) as u16,
        };
    }
    WrittenWatts {
        multiplier: 3,
        value: (watts / 1000) as u16,
    }
}
