//! The rows of a session, and the requests that each takes.

ghost use Rattle.std.specs.Prelude.{◌≡◌, ℤ, Bool, Option, if◌then◌else◌};
ghost use Rattle.session_words.specs.declared.amount.Amount.{Amount};
ghost use Rattle.session_words.specs.declared.word.Ask.TheVariants as ask;
ghost use Rattle.session_rules.specs.Rows as rule;

use charge_world::Dialect;
use session_words::{Ask, Phase, Progress};

/// Whether the row takes SessionStop.
pub fn may_stop(row: Phase) -> bool
    ensures { result ≡ rule.may_stop row }
{
    !matches!(
        row,
        Phase::Connected | Phase::Negotiated | Phase::DcClosing | Phase::AcClosing
    )
}

/// Whether the dialect has the request.
pub fn is_spoken(dialect: Dialect, ask: &Ask) -> bool
    ensures { result ≡ rule.is_spoken dialect ask.now }
{
    match (dialect, ask) {
        (Dialect::Din, Ask::ServiceDetail { .. }) => false,
        (
            Dialect::Din,
            Ask::PowerDelivery {
                progress: Progress::Renegotiate,
                ..
            },
        ) => false,
        _ => true,
    }
}

/// The row to which an accepted request leads, none where the row doesn't take it. `finished` says that its reply says
/// Finished, `ac` that the post gives alternating current.
pub fn leads(row: Phase, ask: &Ask, finished: bool, ac: bool) -> Option<Phase>
    ensures { result ≡ rule.leads row ask.now finished ac }
{
    match ask {
        Ask::SessionStop { .. } => may_stop(row).then_some(row),
        Ask::SessionSetup { .. } => match row {
            Phase::Negotiated => Some(Phase::SetUp),
            _ => None,
        },
        Ask::ServiceDiscovery => match row {
            Phase::SetUp => Some(Phase::Discovered),
            _ => None,
        },
        Ask::ServiceDetail { .. } => match row {
            Phase::Discovered => Some(Phase::Discovered),
            _ => None,
        },
        Ask::PaymentSelection { .. } => match row {
            Phase::Discovered => Some(Phase::Selected),
            _ => None,
        },
        Ask::Authorization => match row {
            Phase::Selected => Some(behind(finished, Phase::Authorized, Phase::Selected)),
            _ => None,
        },
        Ask::ChargeParameters { .. } => match row {
            Phase::Authorized => Some(behind(finished, first_power_row(ac), Phase::Authorized)),
            _ => None,
        },
        Ask::CableCheck { .. } => match row {
            Phase::DcReady => Some(behind(finished, Phase::DcChecked, Phase::DcReady)),
            _ => None,
        },
        Ask::PreCharge { .. } => match row {
            Phase::DcChecked | Phase::DcPreCharging => Some(Phase::DcPreCharging),
            _ => None,
        },
        Ask::PowerDelivery { progress, .. } => delivered(row, *progress),
        Ask::CurrentDemand { .. } => match row {
            Phase::DcCharging => Some(Phase::DcCharging),
            _ => None,
        },
        Ask::ChargingStatus => match row {
            Phase::AcCharging => Some(Phase::AcCharging),
            _ => None,
        },
        Ask::WeldingDetection { .. } => match row {
            Phase::DcStopped => Some(Phase::DcStopped),
            _ => None,
        },
    }
}

/// The row behind a step: the one where it is finished, else the other.
fn behind(finished: bool, done: Phase, waiting: Phase) -> Phase
    ensures { result ≡ (if finished then done else waiting) }
{
    if finished { done } else { waiting }
}

/// The first row behind the charge parameters.
fn first_power_row(ac: bool) -> Phase
    ensures { result ≡ rule.first_power_row ac }
{
    if ac { Phase::AcReady } else { Phase::DcReady }
}

/// The row to which an accepted PowerDelivery leads.
fn delivered(row: Phase, progress: Progress) -> Option<Phase>
    ensures { (tuple : Option ℤ) (profile : Option Amount) (finished ac : Bool) →
        result ≡ rule.leads row (ask.PowerDelivery progress tuple profile) finished ac }
{
    match (row, progress) {
        (Phase::DcPreCharging, Progress::Start) => Some(Phase::DcClosing),
        (Phase::DcCharging, Progress::Stop) => Some(Phase::DcStopped),
        (Phase::AcReady, Progress::Start) => Some(Phase::AcClosing),
        (Phase::AcCharging, Progress::Stop) => Some(Phase::AcStopped),
        (Phase::DcCharging | Phase::AcCharging, Progress::Renegotiate) => Some(Phase::Authorized),
        _ => None,
    }
}

/// Whether the row takes the request, whatever it holds.
pub fn accepts(dialect: Dialect, row: Phase, ask: &Ask) -> bool
    ensures { result ≡ rule.accepts dialect row ask.now }
{
    is_spoken(dialect, ask) && leads(row, ask, true, true).is_some()
}
