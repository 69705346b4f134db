//! Whether PowerDelivery may start.

ghost use Rattle.std.specs.Prelude.{◌≡◌, None};
ghost use Rattle.session_rules.specs.Lines.{first_line};
ghost use Rattle.session_rules.specs.Delivery as rule;

use crate::stage::{PreCharged, Stage};
use charge_world::Dialect;
use contactor::is_ready;
use session_words::{Amount, Code, Facts, Phase, Progress, Standing};

/// Whether this is a tuple other than 1.
fn is_other_tuple(tuple: Option<i16>) -> bool
    ensures { result ≡ rule.is_other_tuple tuple }
{
    match tuple {
        Some(tuple) => tuple != 1,
        None => false,
    }
}

/// Whether the profile is above the schedule (in watts), or has a wrong unit.
fn is_profile_off(dialect: Dialect, schedule: u32, profile: Option<Amount>) -> bool
    ensures { result ≡ rule.is_profile_off dialect schedule profile }
{
    match (dialect, profile) {
        (Dialect::Iso, Some(power)) => schedule < power.size || !power.right,
        _ => false,
    }
}

/// The code where the contactor isn't open.
fn contactor_code(dialect: Dialect) -> Code
    ensures { result ≡ rule.contactor_code dialect }
{
    match dialect {
        Dialect::Iso => Code::FailedContactorError,
        Dialect::Din => Code::Failed,
    }
}

/// How far the outlet was from the target of the last pre-charge, in tenths of a volt.
pub fn off_of(last: PreCharged) -> u32
    ensures { result ≡ rule.off_of last }
{
    u32::from(last.voltage.get()).abs_diff(last.target)
}

/// Whether, in DC, the last pre-charge came within 20.0 V of its target.
fn is_pre_charged(row: Phase, last: Option<PreCharged>) -> bool
    ensures { result ≡ rule.is_pre_charged row last }
{
    match (row, last) {
        (Phase::DcPreCharging, Some(last)) => off_of(last) <= 200,
        (Phase::DcPreCharging, None) => false,
        _ => true,
    }
}

/// The code of the first line that refuses PowerDelivery.
pub(crate) fn delivery_fault(
    stage: &Stage,
    facts: &Facts,
    progress: Progress,
    tuple: Option<i16>,
    profile: Option<Amount>,
) -> Option<Code>
    ensures { result ≡ first_line (rule.delivery_lines stage.now facts.now progress tuple profile) None }
{
    if !matches!(progress, Progress::Start) {
        return None;
    }
    if is_other_tuple(tuple) {
        return Some(Code::FailedTariffSelectionInvalid);
    }
    if is_profile_off(stage.dialect, stage.schedule, profile) {
        return Some(Code::FailedChargingProfileInvalid);
    }
    if !is_ready(facts.pilot) {
        return Some(Code::FailedPowerDeliveryNotApplied);
    }
    if !matches!(facts.contactor, Standing::Opened) {
        return Some(contactor_code(stage.dialect));
    }
    if !is_pre_charged(stage.row, stage.pre_charge) {
        return Some(Code::FailedPowerDeliveryNotApplied);
    }
    None
}
