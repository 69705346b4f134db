//! The status of a post.

ghost use Rattle.std.specs.Prelude.{◌≡◌};
ghost use Rattle.session_rules.specs.Status as rule;

use crate::finishing::is_valid;
use crate::verdict::is_accepted;
use charge_world::{Dialect, IsolationLevel};
use session_words::{Ask, Code, DcStatus, Facts, Notify, PostStatus, Progress, StatusCode};

/// Whether the dialect is ISO 15118-2.
fn is_iso(dialect: Dialect) -> bool
    ensures { result ≡ rule.is_iso dialect }
{
    matches!(dialect, Dialect::Iso)
}

/// Whether the request is PowerDelivery with Renegotiate.
fn is_renegotiation(ask: &Ask) -> bool
    ensures { result ≡ rule.is_renegotiation ask.now }
{
    match ask {
        Ask::PowerDelivery { progress, .. } => matches!(progress, Progress::Renegotiate),
        _ => false,
    }
}

/// What the reply with this code asks of the car.
pub(crate) fn notify_of(dialect: Dialect, facts: &Facts, code: Code, ask: &Ask) -> Notify
    ensures { result ≡ rule.notify_of dialect facts.now code ask.now }
{
    if facts.stop {
        return Notify::StopCharging;
    }
    if is_iso(dialect) && facts.renew && !(is_renegotiation(ask) && is_accepted(code)) {
        return Notify::ReNegotiation;
    }
    Notify::None
}

/// Whether the request stops charging, or comes behind that.
fn ends_power(ask: &Ask) -> bool
    ensures { result ≡ rule.ends_power ask.now }
{
    match ask {
        Ask::PowerDelivery { progress, .. } => {
            matches!(progress, Progress::Stop | Progress::Renegotiate)
        }
        Ask::WeldingDetection { .. } => true,
        _ => false,
    }
}

/// Whether the request is a CableCheck while the isolation is still monitored.
fn is_monitoring(facts: &Facts, ask: &Ask) -> bool
    ensures { result ≡ rule.is_monitoring facts.now ask.now }
{
    match ask {
        Ask::CableCheck { .. } => !is_valid(facts.isolation),
        _ => false,
    }
}

/// The EVSEStatusCode of the reply with this code.
fn status_code(facts: &Facts, code: Code, ask: &Ask) -> StatusCode
    ensures { result ≡ rule.status_code facts.now code ask.now }
{
    if !is_accepted(code) {
        return StatusCode::EvseMalfunction;
    }
    if ends_power(ask) {
        return StatusCode::EvseNotReady;
    }
    if facts.stop {
        return StatusCode::EvseShutdown;
    }
    if is_monitoring(facts, ask) {
        return StatusCode::EvseIsolationMonitoringActive;
    }
    StatusCode::EvseReady
}

/// The isolation that a reply tells.
fn isolation_told(dialect: Dialect, level: Option<IsolationLevel>) -> Option<IsolationLevel>
    ensures { result ≡ rule.isolation_told dialect level }
{
    match (dialect, level) {
        (Dialect::Din, Some(IsolationLevel::NoImd)) => Some(IsolationLevel::Invalid),
        _ => level,
    }
}

/// The status of a DC post in the reply with this code.
pub(crate) fn dc_status(dialect: Dialect, facts: &Facts, code: Code, ask: &Ask) -> DcStatus
    ensures { result ≡ rule.dc_status dialect facts.now code ask.now }
{
    DcStatus {
        notify: notify_of(dialect, facts, code, ask),
        isolation: isolation_told(dialect, facts.isolation),
        code: status_code(facts, code, ask),
    }
}

/// The status of a post of either kind in the reply with this code.
pub(crate) fn post_status(
    ac: bool,
    dialect: Dialect,
    facts: &Facts,
    code: Code,
    ask: &Ask,
) -> PostStatus
    ensures { result ≡ rule.post_status ac dialect facts.now code ask.now }
{
    if ac {
        PostStatus::Ac {
            notify: notify_of(dialect, facts, code, ask),
        }
    } else {
        PostStatus::Dc(dc_status(dialect, facts, code, ask))
    }
}
