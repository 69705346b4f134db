//! The lines that give a FAILED code to a request that its row takes. The first that applies decides.

ghost use Rattle.std.specs.Prelude.{◌≡◌, ◌+◌, ◌-◌, None};
ghost use Rattle.session_rules.specs.Lines.{first_line};
ghost use Rattle.session_rules.specs.Delivery.{delivery_lines};
ghost use Rattle.session_rules.specs.Delivery as delivery;
ghost use Rattle.session_rules.specs.Parameters.{parameter_lines};
ghost use Rattle.session_rules.specs.Parameters as parameters;
ghost use Rattle.session_rules.specs.Verdict.{selection_lines, cable_lines, pre_charge_lines};
ghost use Rattle.session_rules.specs.Verdict as rule;
ghost use Rattle.session_words.specs.declared.code.Progress.TheVariants as progress;
ghost use Rattle.audit_rows.specs.Values.{stage_of};

use crate::judging::PostValues;
use charge_world::{Dialect, IsolationLevel};
use contactor::is_ready;
use session_rules::{ask_of, is_ac};
use session_words::{
    Amount, CarLimits, Code, Facts, Mode, Phase, PostPlan, Progress, Standing, ac_watts,
};

/// PaymentServiceSelection.
pub(crate) fn selection_code(external: bool, services: &[u16]) -> Option<Code>
    ensures { result ≡ first_line (selection_lines external services.now) None }
{
    if !external {
        Some(Code::FailedPaymentSelectionInvalid)
    } else if has_other_service(services) {
        Some(Code::FailedServiceSelectionInvalid)
    } else {
        None
    }
}

/// Whether a service other than 1, the only one that is offered, is among these.
fn has_other_service(services: &[u16]) -> bool
    ensures { result ≡ rule.has_other_service services.now }
{
    services.iter().any(|service| *service != 1)
}

/// CableCheck.
pub(crate) fn cable_code(facts: &Facts) -> Option<Code>
    ensures { result ≡ first_line (cable_lines facts.now) None }
{
    if !is_ready(facts.pilot) {
        return Some(Code::Failed);
    }
    match facts.isolation {
        Some(IsolationLevel::Warning) | Some(IsolationLevel::Fault) | Some(IsolationLevel::NoImd) =>
            { Some(Code::Failed) }
        Some(IsolationLevel::Invalid) | Some(IsolationLevel::Valid) | None => None,
    }
}

/// PreCharge: voltage and current with wrong units, or a voltage above what the post gives.
pub(crate) fn pre_charge_code(plan: &PostPlan, voltage: Amount, current: Amount) -> Option<Code>
    ensures { result ≡ first_line (pre_charge_lines plan.now voltage current) None }
{
    if !voltage.right || !current.right || u32::from(plan.max_voltage.get()) < voltage.size {
        Some(Code::Failed)
    } else {
        None
    }
}

/// Whether both are the same mode.
fn is_same_mode(asked: Mode, given: Mode) -> bool
    ensures { result ≡ parameters.is_mode asked given }
{
    match given {
        Mode::AcSinglePhaseCore => matches!(asked, Mode::AcSinglePhaseCore),
        Mode::AcThreePhaseCore => matches!(asked, Mode::AcThreePhaseCore),
        Mode::DcCore => matches!(asked, Mode::DcCore),
        Mode::DcExtended => matches!(asked, Mode::DcExtended),
        Mode::DcComboCore => matches!(asked, Mode::DcComboCore),
        Mode::DcUnique => matches!(asked, Mode::DcUnique),
    }
}

/// Whether the parameters are of the post's kind, with right units, and the post can go as low as the car needs.
fn is_within(plan: &PostPlan, car: &CarLimits) -> bool
    ensures { result ≡ parameters.suits plan.now car.now }
{
    let suits = match car {
        CarLimits::Ac {
            most_current,
            least_current,
            ..
        } => {
            is_ac(plan.mode)
                && ac_watts(least_current.size, plan.nominal, plan.mode.phases())
                    <= u64::from(plan.max_watts)
                && most_current.right
                && least_current.right
        }
        CarLimits::Dc {
            current,
            watts,
            voltage,
            ..
        } => {
            !is_ac(plan.mode)
                && u32::from(plan.min_voltage.get()) <= voltage.size
                && u32::from(plan.min_current.get()) <= current.size
                && voltage.right
                && current.right
                && is_right(*watts)
        }
    };
    suits && ask_of(plan, car) > 0
}

/// Whether the unit of an amount is right, if it is there.
fn is_right(amount: Option<Amount>) -> bool
    ensures { result ≡ parameters.is_right_if_there amount }
{
    match amount {
        None => true,
        Some(amount) => amount.right,
    }
}

/// ChargeParameterDiscovery.
pub(crate) fn parameters_code(
    dialect: Dialect,
    plan: &PostPlan,
    mode: Mode,
    car: &CarLimits,
) -> Option<Code>
    ensures { result ≡ first_line (parameter_lines dialect plan.now mode car.now) None }
{
    if !is_same_mode(mode, plan.mode) {
        return Some(match dialect {
            Dialect::Iso => Code::FailedWrongEnergyTransferMode,
            Dialect::Din => Code::FailedWrongEnergyTransferType,
        });
    }
    if is_within(plan, car) {
        None
    } else {
        Some(Code::FailedWrongChargeParameter)
    }
}

/// Whether a profile is above the schedule, or has a wrong unit. DIN doesn't judge it.
fn is_above_schedule(dialect: Dialect, schedule: u32, profile: Option<Amount>) -> bool
    ensures { result ≡ delivery.is_profile_off dialect schedule profile }
{
    match dialect {
        Dialect::Din => false,
        Dialect::Iso => match profile {
            None => false,
            Some(power) => power.size > schedule || !power.right,
        },
    }
}

/// How far the voltage of the last PreCharge was from its target, in tenths of a volt.
fn off(target: u32, voltage: u32) -> u32
    ensures { result ≡ (target - voltage) + (voltage - target) }
{
    if voltage < target {
        target - voltage
    } else {
        voltage - target
    }
}

/// PowerDelivery.
pub(crate) fn delivery_code(
    values: &PostValues,
    row: Phase,
    progress: Progress,
    tuple: Option<i16>,
    profile: Option<Amount>,
) -> Option<Code>
    ensures { result ≡ first_line (delivery_lines (stage_of row values.now) values.now.facts progress tuple profile) None }
{
    match progress {
        Progress::Stop | Progress::Renegotiate => None,
        Progress::Start => start_code(values, row, tuple, profile),
    }
}

/// PowerDelivery Start.
fn start_code(
    values: &PostValues,
    row: Phase,
    tuple: Option<i16>,
    profile: Option<Amount>,
) -> Option<Code>
    ensures { result ≡ first_line (delivery_lines (stage_of row values.now) values.now.facts progress.Start tuple profile) None }
{
    if let Some(number) = tuple {
        if number != 1 {
            return Some(Code::FailedTariffSelectionInvalid);
        }
    }
    if is_above_schedule(values.dialect, values.schedule, profile) {
        return Some(Code::FailedChargingProfileInvalid);
    }
    if !is_ready(values.facts.pilot) {
        return Some(Code::FailedPowerDeliveryNotApplied);
    }
    if values.facts.contactor != Standing::Opened {
        return Some(match values.dialect {
            Dialect::Iso => Code::FailedContactorError,
            Dialect::Din => Code::Failed,
        });
    }
    if row == Phase::DcPreCharging && off(values.last_target, values.last_voltage) > 200 {
        return Some(Code::FailedPowerDeliveryNotApplied);
    }
    None
}
