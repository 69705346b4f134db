//! What a session keeps that the rules speak of.

ghost use Rattle.std.specs.Prelude.{◌≡◌, ◌↔◌, IsTrue};
ghost use Rattle.session_rules.specs.Stages as rule;

use charge_world::{Dialect, Tenths};
use session_words::{Phase, SessionId};

/// The last PreCharge of a session that was accepted.
#[derive(Clone, Copy)]
pub struct PreCharged {
    /// The voltage that the request asked for, in tenths of a volt.
    pub target: u32,
    /// The voltage that the reply told, in tenths of a volt.
    pub voltage: Tenths,
}

/// What a session keeps from one request to the next.
#[derive(Drop)]
pub struct Stage {
    pub row: Phase,
    /// The dialect that was negotiated. In row Connected it says nothing.
    pub dialect: Dialect,
    /// The identifier of the session. Before SessionSetup is accepted, the one that the connection's token gives.
    pub session: SessionId,
    /// The watts that its replies told last; 0 before.
    pub told: u32,
    /// The watts that the PMax of its last schedule spells; 0 without one.
    pub schedule: u32,
    pub pre_charge: Option<PreCharged>,
}

impl Stage {
    /// The stage of a connection that came with this token: no request is accepted before the negotiation.
    pub fn new(token: u64) -> Stage
        ensures { result ≡ rule.first_stage token }
    {
        Stage {
            row: Phase::Connected,
            dialect: Dialect::Iso,
            session: SessionId::of_token(token),
            told: 0,
            schedule: 0,
            pre_charge: None,
        }
    }

    /// The stage behind a negotiation that chose this dialect.
    pub fn negotiated(self, dialect: Dialect) -> Stage
        ensures { result ≡ rule.negotiated self dialect }
    {
        Stage {
            row: Phase::Negotiated,
            dialect,
            ..self
        }
    }

    /// The stage behind feedback that confirmed the closing of the contactor.
    pub fn confirmed(self) -> Stage
        ensures { result ≡ rule.confirmed self }
    {
        Stage {
            row: confirmed_row(self.row),
            ..self
        }
    }

    /// The identifier that stands in the header of replies: eight zero bytes until SessionSetup is accepted.
    pub fn identifier(&self) -> SessionId
        ensures { result ≡ rule.identifier self.now }
    {
        if is_set_up(self.row) {
            self.session.copied()
        } else {
            SessionId::zero()
        }
    }
}

/// Whether SessionSetup was accepted.
pub fn is_set_up(row: Phase) -> bool
    ensures { result ≡ rule.is_set_up row }
{
    !matches!(row, Phase::Connected | Phase::Negotiated)
}

/// Whether the reply to PowerDelivery waits for the contactor's feedback.
pub fn is_waiting(row: Phase) -> bool
    ensures { result ≡ rule.is_waiting row }
{
    matches!(row, Phase::DcClosing | Phase::AcClosing)
}

/// The row behind feedback that confirmed the closing of the contactor.
fn confirmed_row(row: Phase) -> Phase
    ensures { result ≡ rule.confirmed_row row }
{
    match row {
        Phase::DcClosing => Phase::DcCharging,
        Phase::AcClosing => Phase::AcCharging,
        _ => row,
    }
}

/// Whether both identifiers are the same bytes.
pub(crate) fn is_same(a: &SessionId, b: &SessionId) -> bool
    ensures value { result ≡ rule.is_same a.now b.now }
    ensures same { IsTrue result ↔ (a.now ≡ b.now) }
{
    a.bytes.as_slice() == b.bytes.as_slice()
}
