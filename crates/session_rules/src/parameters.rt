//! Whether the parameters of ChargeParameterDiscovery suit the post.

ghost use Rattle.std.specs.Prelude.{◌≡◌, None};
ghost use Rattle.session_rules.specs.Lines.{first_line};
ghost use Rattle.session_rules.specs.Finishing.{is_ac as is_ac_mode};
ghost use Rattle.session_rules.specs.Parameters as rule;

use crate::asking::ask_of;
use crate::finishing::is_ac;
use charge_world::Dialect;
use session_words::{Amount, CarLimits, Code, Mode, PostPlan, ac_watts};

/// Whether both are the same mode.
fn is_mode(asked: Mode, given: Mode) -> bool
    ensures { result ≡ rule.is_mode asked given }
{
    match asked {
        Mode::AcSinglePhaseCore => matches!(given, Mode::AcSinglePhaseCore),
        Mode::AcThreePhaseCore => matches!(given, Mode::AcThreePhaseCore),
        Mode::DcCore => matches!(given, Mode::DcCore),
        Mode::DcExtended => matches!(given, Mode::DcExtended),
        Mode::DcComboCore => matches!(given, Mode::DcComboCore),
        Mode::DcUnique => matches!(given, Mode::DcUnique),
    }
}

/// The code for a mode that isn't the post's.
fn wrong_mode(dialect: Dialect) -> Code
    ensures { result ≡ rule.wrong_mode dialect }
{
    match dialect {
        Dialect::Iso => Code::FailedWrongEnergyTransferMode,
        Dialect::Din => Code::FailedWrongEnergyTransferType,
    }
}

/// Whether the amount's unit is right, if there is one.
fn is_right_if_there(amount: Option<Amount>) -> bool
    ensures { result ≡ rule.is_right_if_there amount }
{
    match amount {
        Some(amount) => amount.right,
        None => true,
    }
}

/// Whether the units that are judged are right.
fn has_right_units(car: &CarLimits) -> bool
    ensures { result ≡ rule.has_right_units car.now }
{
    match car {
        CarLimits::Ac {
            most_current,
            least_current,
            ..
        } => most_current.right && least_current.right,
        CarLimits::Dc {
            current,
            watts,
            voltage,
            ..
        } => voltage.right && current.right && is_right_if_there(*watts),
    }
}

/// Whether the parameters are of the post's kind, and the post can go as low as the car needs.
fn is_within_post(plan: &PostPlan, car: &CarLimits) -> bool
    ensures { result ≡ rule.is_within_post plan.now (is_ac_mode plan.now.mode) car.now }
{
    let ac = is_ac(plan.mode);
    match car {
        CarLimits::Ac { least_current, .. } => {
            ac && ac_watts(least_current.size, plan.nominal, plan.mode.phases())
                <= u64::from(plan.max_watts)
        }
        CarLimits::Dc {
            current,
            voltage,
            ..
        } => {
            !ac && u32::from(plan.min_voltage.get()) <= voltage.size
                && u32::from(plan.min_current.get()) <= current.size
        }
    }
}

/// Whether the parameters suit the post.
fn suits(plan: &PostPlan, car: &CarLimits) -> bool
    ensures { result ≡ rule.suits plan.now car.now }
{
    is_within_post(plan, car) && has_right_units(car) && 0 < ask_of(plan, car)
}

/// The code of the first line that refuses the parameters.
pub(crate) fn parameter_fault(
    dialect: Dialect,
    plan: &PostPlan,
    mode: Mode,
    car: &CarLimits,
) -> Option<Code>
    ensures { result ≡ first_line (rule.parameter_lines dialect plan.now mode car.now) None }
{
    if !is_mode(mode, plan.mode) {
        return Some(wrong_mode(dialect));
    }
    if !suits(plan, car) {
        return Some(Code::FailedWrongChargeParameter);
    }
    None
}
