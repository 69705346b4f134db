//! The rows, and the requests that each takes.

ghost use Rattle.std.specs.Prelude.{◌≡◌, ◌≤◌, Bool, true, Some, IfSome, is_some, unwrap_or};
ghost use Rattle.session_rules.specs.Rows.{leads};
ghost use Rattle.session_rules.specs.Rows as rule;
ghost use Rattle.audit_rows.specs.Rows.{number_of, number_behind, row_numbered, led};

use charge_world::Dialect;
use session_words::{Ask, Phase, Progress};

/// The number of the row behind an accepted request: where its reply says Finished, and where it doesn't. 0 stands for the end of the session.
#[derive(Clone, Copy, PartialEq, Eq)]
pub(crate) struct Lead {
    pub(crate) finished: u8,
    pub(crate) ongoing: u8,
}

impl Lead {
    /// The number of the row.
    pub(crate) fn behind(&self, finished: bool) -> u8
        ensures { result ≡ led finished self.now }
    {
        if finished {
            self.finished
        } else {
            self.ongoing
        }
    }
}

/// A step that takes one request.
fn to(row: u8) -> Option<Lead>
    ensures { result ≡ Some (record { finished = row; ongoing = row }) }
{
    Some(Lead {
        finished: row,
        ongoing: row,
    })
}

/// A step that may take several.
fn on(finished: u8, ongoing: u8) -> Option<Lead>
    ensures { result ≡ Some (record { finished = finished; ongoing = ongoing }) }
{
    Some(Lead { finished, ongoing })
}

/// The table: where the row takes the request, the row to which it leads.
pub(crate) fn lead_of(row: Phase, ask: &Ask, ac: bool) -> Option<Lead>
    ensures led { (finished : Bool) → IfSome result (λ lead. led finished lead ≡ number_behind ask.now (unwrap_or (leads row ask.now finished ac) row)) }
    ensures taken { is_some result ≡ is_some (leads row ask.now true true) }
{
    match row {
        Phase::Connected | Phase::DcClosing | Phase::AcClosing => None,
        Phase::Negotiated => match ask {
            Ask::SessionSetup { .. } => to(3),
            _ => None,
        },
        Phase::SetUp => match ask {
            Ask::ServiceDiscovery => to(4),
            Ask::SessionStop { .. } => to(0),
            _ => None,
        },
        Phase::Discovered => match ask {
            Ask::ServiceDetail { .. } => to(4),
            Ask::PaymentSelection { .. } => to(5),
            Ask::SessionStop { .. } => to(0),
            _ => None,
        },
        Phase::Selected => match ask {
            Ask::Authorization => on(6, 5),
            Ask::SessionStop { .. } => to(0),
            _ => None,
        },
        Phase::Authorized => match ask {
            Ask::ChargeParameters { .. } => on(if ac { 13 } else { 7 }, 6),
            Ask::SessionStop { .. } => to(0),
            _ => None,
        },
        Phase::DcReady => match ask {
            Ask::CableCheck { .. } => on(8, 7),
            Ask::SessionStop { .. } => to(0),
            _ => None,
        },
        Phase::DcChecked => match ask {
            Ask::PreCharge { .. } => to(9),
            Ask::SessionStop { .. } => to(0),
            _ => None,
        },
        Phase::DcPreCharging => match ask {
            Ask::PreCharge { .. } => to(9),
            Ask::PowerDelivery {
                progress: Progress::Start,
                ..
            } => to(10),
            Ask::SessionStop { .. } => to(0),
            _ => None,
        },
        Phase::DcCharging => match ask {
            Ask::CurrentDemand { .. } => to(11),
            Ask::PowerDelivery {
                progress: Progress::Stop,
                ..
            } => to(12),
            Ask::PowerDelivery {
                progress: Progress::Renegotiate,
                ..
            } => to(6),
            Ask::SessionStop { .. } => to(0),
            _ => None,
        },
        Phase::DcStopped => match ask {
            Ask::WeldingDetection { .. } => to(12),
            Ask::SessionStop { .. } => to(0),
            _ => None,
        },
        Phase::AcReady => match ask {
            Ask::PowerDelivery {
                progress: Progress::Start,
                ..
            } => to(14),
            Ask::SessionStop { .. } => to(0),
            _ => None,
        },
        Phase::AcCharging => match ask {
            Ask::ChargingStatus => to(15),
            Ask::PowerDelivery {
                progress: Progress::Stop,
                ..
            } => to(16),
            Ask::PowerDelivery {
                progress: Progress::Renegotiate,
                ..
            } => to(6),
            Ask::SessionStop { .. } => to(0),
            _ => None,
        },
        Phase::AcStopped => match ask {
            Ask::SessionStop { .. } => to(0),
            _ => None,
        },
    }
}

/// The same in a dialect, which has the request or hasn't.
pub(crate) fn lead_in(row: Phase, dialect: Dialect, ask: &Ask, ac: bool) -> Option<Lead>
    ensures led { (finished : Bool) → IfSome result (λ lead. led finished lead ≡ number_behind ask.now (unwrap_or (leads row ask.now finished ac) row)) }
    ensures taken { is_some result ≡ rule.accepts dialect row ask.now }
{
    if is_spoken(dialect, ask) {
        lead_of(row, ask, ac)
    } else {
        None
    }
}

/// Whether a dialect has the request: DIN has neither ServiceDetail nor Renegotiate.
pub(crate) fn is_spoken(dialect: Dialect, ask: &Ask) -> bool
    ensures { result ≡ rule.is_spoken dialect ask.now }
{
    match dialect {
        Dialect::Iso => true,
        Dialect::Din => !matches!(
            ask,
            Ask::ServiceDetail { .. }
                | Ask::PowerDelivery {
                    progress: Progress::Renegotiate,
                    ..
                }
        ),
    }
}

/// The row of a number. One that no row has counts as the last.
pub(crate) fn row_of(number: u8) -> Phase
    ensures value { result ≡ row_numbered number }
    ensures number { 1 ≤ number → number ≤ 16 → number_of result ≡ number }
{
    match number {
        1 => Phase::Connected,
        2 => Phase::Negotiated,
        3 => Phase::SetUp,
        4 => Phase::Discovered,
        5 => Phase::Selected,
        6 => Phase::Authorized,
        7 => Phase::DcReady,
        8 => Phase::DcChecked,
        9 => Phase::DcPreCharging,
        10 => Phase::DcClosing,
        11 => Phase::DcCharging,
        12 => Phase::DcStopped,
        13 => Phase::AcReady,
        14 => Phase::AcClosing,
        15 => Phase::AcCharging,
        _ => Phase::AcStopped,
    }
}
