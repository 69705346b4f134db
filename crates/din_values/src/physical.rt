//! Physical values as amounts, and amounts as physical values (DIN SPEC 70121:2014, PhysicalValueType).

ghost use Rattle.std.specs.Prelude.{◌≡◌, ◌<◌, ◌≤◌, IfSome, IsTrue};
ghost use Rattle.word_values.specs.Amounts.{can_write_tenths};
ghost use Rattle.din_values.specs.Physical as rule;

use din_parts::{PhysicalValue, UnitSymbol};
use session_words::Amount;
use word_values::{Written, in_tenths, in_watts, written_tenths, written_watts};

/// Whether a unit is the volt, or absent.
fn is_volt(unit: Option<UnitSymbol>) -> bool
    ensures { result ≡ rule.is_volt unit }
{
    matches!(unit, None | Some(UnitSymbol::V))
}

/// Whether a unit is the ampere, or absent.
fn is_ampere(unit: Option<UnitSymbol>) -> bool
    ensures { result ≡ rule.is_ampere unit }
{
    matches!(unit, None | Some(UnitSymbol::A))
}

/// Whether a unit is the watt, or absent.
fn is_watt(unit: Option<UnitSymbol>) -> bool
    ensures { result ≡ rule.is_watt unit }
{
    matches!(unit, None | Some(UnitSymbol::W))
}

/// A voltage in tenths of a volt.
pub fn voltage_in(value: PhysicalValue) -> Amount
    ensures { result ≡ rule.voltage_in value }
{
    in_tenths(value.multiplier, value.value, is_volt(value.unit))
}

/// A current in tenths of an ampere.
pub fn current_in(value: PhysicalValue) -> Amount
    ensures { result ≡ rule.current_in value }
{
    in_tenths(value.multiplier, value.value, is_ampere(value.unit))
}

/// A power in watts.
pub fn power_in(value: PhysicalValue) -> Amount
    ensures { result ≡ rule.power_in value }
{
    in_watts(value.multiplier, value.value, is_watt(value.unit))
}

/// The power of a schedule or a profile: whole watts without a unit. One below 0 counts as 0.
pub fn watts_in(value: i16) -> Amount
    ensures { result ≡ rule.watts_in value }
{
    Amount {
        size: if value < 0 { 0 } else { value as u32 },
        right: true,
    }
}

/// No unit where it is right, else the hour.
fn unit_if(right: bool) -> Option<UnitSymbol>
    ensures { result ≡ rule.unit_if right }
{
    if right { None } else { Some(UnitSymbol::H) }
}

/// A number in the unit of its place, or in another one.
fn physical(written: Written, right: bool) -> PhysicalValue
    ensures { result ≡ rule.physical written right }
{
    PhysicalValue {
        multiplier: written.multiplier,
        unit: unit_if(right),
        value: written.value,
    }
}

/// A voltage or a current as it is written, by the least Multiplier from -1 that gives its tenths exactly.
pub fn tenths_of(amount: Amount) -> PhysicalValue
    requires { IsTrue (can_write_tenths amount.size) }
    ensures { result ≡ rule.tenths_of amount }
{
    physical(written_tenths(amount.size), amount.right)
}

/// A power as it is written, by the least Multiplier from 0 whose Value, rounded down, is at most 32,767.
pub fn power_of(amount: Amount) -> PhysicalValue
    requires { amount.size < 32768000 }
    ensures { result ≡ rule.power_of amount }
{
    physical(written_watts(amount.size), amount.right)
}

/// The power of a schedule or a profile as it is written: whole watts without a unit.
pub fn watts_of(amount: Amount) -> i16
    requires { amount.size ≤ 32767 }
    ensures { result ≡ rule.watts_of amount }
{
    amount.size as i16
}

/// A voltage or a current as it is written, where there is one.
pub fn tenths_if(amount: Option<Amount>) -> Option<PhysicalValue>
    requires { IfSome amount (λ a. IsTrue (can_write_tenths a.size)) }
    ensures { result ≡ rule.tenths_if amount }
{
    match amount {
        Some(amount) => Some(tenths_of(amount)),
        None => None,
    }
}

/// A power as it is written, where there is one.
pub fn power_if(amount: Option<Amount>) -> Option<PhysicalValue>
    requires { IfSome amount (λ a. a.size < 32768000) }
    ensures { result ≡ rule.power_if amount }
{
    match amount {
        Some(amount) => Some(power_of(amount)),
        None => None,
    }
}
