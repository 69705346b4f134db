//! Physical values as amounts, and amounts as physical values (ISO 15118-2:2014, PhysicalValueType).

ghost use Rattle.std.specs.Prelude.{◌≡◌, ◌<◌, IfSome, IsTrue};
ghost use Rattle.word_values.specs.Amounts.{can_write_tenths};
ghost use Rattle.iso_values.specs.Physical as rule;

use iso_parts::{PhysicalValue, UnitSymbol};
use session_words::Amount;
use word_values::{Written, in_tenths, in_watts, written_tenths, written_volts, written_watts};

/// Whether a unit is the volt.
fn is_volt(unit: UnitSymbol) -> bool
    ensures { result ≡ rule.is_volt unit }
{
    matches!(unit, UnitSymbol::V)
}

/// Whether a unit is the ampere.
fn is_ampere(unit: UnitSymbol) -> bool
    ensures { result ≡ rule.is_ampere unit }
{
    matches!(unit, UnitSymbol::A)
}

/// Whether a unit is the watt.
fn is_watt(unit: UnitSymbol) -> bool
    ensures { result ≡ rule.is_watt unit }
{
    matches!(unit, UnitSymbol::W)
}

/// A voltage in tenths of a volt.
pub fn voltage_in(value: PhysicalValue) -> Amount
    ensures { result ≡ rule.voltage_in value }
{
    in_tenths(value.multiplier, value.value, is_volt(value.unit))
}

/// A current in tenths of an ampere.
pub fn current_in(value: PhysicalValue) -> Amount
    ensures { result ≡ rule.current_in value }
{
    in_tenths(value.multiplier, value.value, is_ampere(value.unit))
}

/// A power in watts.
pub fn power_in(value: PhysicalValue) -> Amount
    ensures { result ≡ rule.power_in value }
{
    in_watts(value.multiplier, value.value, is_watt(value.unit))
}

/// The unit of a place where it is right, else the hour.
fn unit_if(right: bool, wanted: UnitSymbol) -> UnitSymbol
    ensures { result ≡ rule.unit_if right wanted }
{
    if right { wanted } else { UnitSymbol::H }
}

/// A number in a unit.
fn physical(written: Written, unit: UnitSymbol) -> PhysicalValue
    ensures { result ≡ rule.physical written unit }
{
    PhysicalValue {
        multiplier: written.multiplier,
        unit,
        value: written.value,
    }
}

/// A voltage as it is written, by the least Multiplier from -1 that gives its tenths exactly.
pub fn voltage_of(amount: Amount) -> PhysicalValue
    requires { IsTrue (can_write_tenths amount.size) }
    ensures { result ≡ rule.voltage_of amount }
{
    physical(
        written_tenths(amount.size),
        unit_if(amount.right, UnitSymbol::V),
    )
}

/// A nominal voltage as it is written, in whole volts where it is whole volts.
pub fn nominal_of(amount: Amount) -> PhysicalValue
    requires { IsTrue (can_write_tenths amount.size) }
    ensures { result ≡ rule.nominal_of amount }
{
    physical(
        written_volts(amount.size),
        unit_if(amount.right, UnitSymbol::V),
    )
}

/// A current as it is written, by the least Multiplier from -1 that gives its tenths exactly.
pub fn current_of(amount: Amount) -> PhysicalValue
    requires { IsTrue (can_write_tenths amount.size) }
    ensures { result ≡ rule.current_of amount }
{
    physical(
        written_tenths(amount.size),
        unit_if(amount.right, UnitSymbol::A),
    )
}

/// A power as it is written, by the least Multiplier from 0 whose Value, rounded down, is at most 32,767.
pub fn power_of(amount: Amount) -> PhysicalValue
    requires { amount.size < 32768000 }
    ensures { result ≡ rule.power_of amount }
{
    physical(
        written_watts(amount.size),
        unit_if(amount.right, UnitSymbol::W),
    )
}

/// A voltage as it is written, where there is one.
pub fn voltage_if(amount: Option<Amount>) -> Option<PhysicalValue>
    requires { IfSome amount (λ a. IsTrue (can_write_tenths a.size)) }
    ensures { result ≡ rule.voltage_if amount }
{
    match amount {
        Some(amount) => Some(voltage_of(amount)),
        None => None,
    }
}

/// A current as it is written, where there is one.
pub fn current_if(amount: Option<Amount>) -> Option<PhysicalValue>
    requires { IfSome amount (λ a. IsTrue (can_write_tenths a.size)) }
    ensures { result ≡ rule.current_if amount }
{
    match amount {
        Some(amount) => Some(current_of(amount)),
        None => None,
    }
}

/// A power as it is written, where there is one.
pub fn power_if(amount: Option<Amount>) -> Option<PhysicalValue>
    requires { IfSome amount (λ a. a.size < 32768000) }
    ensures { result ≡ rule.power_if amount }
{
    match amount {
        Some(amount) => Some(power_of(amount)),
        None => None,
    }
}
