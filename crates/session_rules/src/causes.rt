//! Why a session of a post ends.

ghost use Rattle.std.specs.Prelude.{◌≡◌};
ghost use Rattle.contactor.specs.Standing.{is_against as against_order};
ghost use Rattle.session_rules.specs.Causes as rule;

use crate::finishing::is_valid;
use crate::verdict::is_accepted;
use charge_world::{PilotState, PlantEvent, Tenths};
use session_words::{Ask, Code, EndCause, Phase, Standing, Timeout};

/// What the rules of a session's end know beside an event of the charger.
#[derive(Clone, Copy)]
pub struct Watch {
    pub row: Phase,
    /// How the contactor stands before the event.
    pub standing: Standing,
    /// Whether it is live: Close was ordered, taken or failed, and no Open was taken since.
    pub live: bool,
    /// How many phases carry the current.
    pub phases: u8,
    /// The watts that are allowed now.
    pub allowed: u32,
}

/// What the next word of a session was found to be.
#[derive(Clone, Copy)]
pub enum Found {
    /// Its frame is refused.
    BadFrame,
    /// Its payload is refused.
    Refused,
    /// It is a reply, or a message without a body.
    WrongSide,
    /// It is a negotiation, and an entry of it matches or none does.
    Negotiation { matched: bool },
    /// It is a request that is answered with a FAILED code.
    Failed,
    /// It is an accepted SessionStop.
    Stopped { pause: bool },
    /// It is any other accepted request.
    Accepted,
}

/// What breaks a session from outside its words and its charger.
#[derive(Clone, Copy)]
pub enum Break {
    /// The connection ended, or another one came while it stood.
    Gone,
    /// A deadline was reached.
    Due(Timeout),
    /// A reply couldn't be sent.
    SendFailed,
    /// The charger didn't take an order.
    OrderFailed,
    /// Nothing more will be heard.
    Over,
}

/// Whether the pilot shows that no car is there to be charged.
fn is_pilot_lost(live: bool, pilot: PilotState) -> bool
    ensures { result ≡ rule.is_pilot_lost live pilot }
{
    match pilot {
        PilotState::A | PilotState::E | PilotState::F => true,
        PilotState::B => live,
        PilotState::C | PilotState::D => false,
    }
}

/// Whether the isolation has to be valid in the row.
pub fn needs_isolation(row: Phase) -> bool
    ensures { result ≡ rule.needs_isolation row }
{
    matches!(
        row,
        Phase::DcChecked | Phase::DcPreCharging | Phase::DcClosing | Phase::DcCharging
    )
}

/// Whether power is measured against what is allowed: the contactor closes or is closed.
fn is_closing(standing: Standing) -> bool
    ensures { result ≡ rule.is_closing standing }
{
    matches!(standing, Standing::Closing | Standing::Closed)
}

/// Whether the measured power is more than 105 % of the allowed watts.
fn is_over(phases: u8, allowed: u32, voltage: Tenths, current: Tenths) -> bool
    ensures { result ≡ rule.is_over phases allowed voltage current }
{
    let measured = u64::from(voltage.get()) * u64::from(current.get()) * u64::from(phases);
    105 * u64::from(allowed) < measured
}

/// Whether feedback is against the order by which the contactor stands.
fn is_against(standing: Standing, closed: bool) -> bool
    ensures { result ≡ against_order standing closed }
{
    match standing {
        Standing::Closed => !closed,
        Standing::Opened => closed,
        Standing::Closing | Standing::MustOpen | Standing::Opening => false,
    }
}

/// The cause that an event of the charger is in a session, if it is one.
pub fn plant_cause(watch: &Watch, event: &PlantEvent) -> Option<EndCause>
    ensures { result ≡ rule.plant_cause watch.now event.now }
{
    let (stands, cause) = match event {
        PlantEvent::Pilot(pilot) => (is_pilot_lost(watch.live, *pilot), EndCause::PilotLost),
        PlantEvent::Isolation(level) => (
            needs_isolation(watch.row) && !is_valid(Some(*level)),
            EndCause::IsolationLost,
        ),
        PlantEvent::Measured { voltage, current } => (
            is_closing(watch.standing) && is_over(watch.phases, watch.allowed, *voltage, *current),
            EndCause::OverPower,
        ),
        PlantEvent::Feedback { closed } => {
            (is_against(watch.standing, *closed), EndCause::FeedbackWrong)
        }
        PlantEvent::Emergency => (true, EndCause::Emergency),
        PlantEvent::Paid | PlantEvent::StopAsked | PlantEvent::RenewAsked => return None,
    };
    stands.then_some(cause)
}

/// What a request with this code is found to be.
pub fn found_by(code: Code, ask: &Ask) -> Found
    ensures { result ≡ rule.found_by code ask.now }
{
    if !is_accepted(code) {
        return Found::Failed;
    }
    match ask {
        Ask::SessionStop { pause } => Found::Stopped { pause: *pause },
        _ => Found::Accepted,
    }
}

/// The cause that the next word of a session is, if it is one. `waiting` says that a reply waits.
pub fn word_cause(waiting: bool, found: Found) -> Option<EndCause>
    ensures { result ≡ rule.word_cause waiting found }
{
    match found {
        Found::BadFrame => Some(EndCause::BadFrame),
        _ if waiting => Some(EndCause::Impatient),
        Found::Refused => Some(EndCause::Refused),
        Found::WrongSide => Some(EndCause::WrongSide),
        Found::Negotiation { matched: false } => Some(EndCause::NoNegotiation),
        Found::Failed => Some(EndCause::FailedReply),
        Found::Stopped { pause: true } => Some(EndCause::Paused),
        Found::Stopped { pause: false } => Some(EndCause::Stopped),
        Found::Negotiation { matched: true } | Found::Accepted => None,
    }
}

/// The cause that comes from outside the session's words and its charger.
pub fn break_cause(broken: Break) -> EndCause
    ensures { result ≡ rule.break_cause broken }
{
    match broken {
        Break::Gone => EndCause::Gone,
        Break::Due(timeout) => EndCause::from(timeout),
        Break::SendFailed => EndCause::SendFailed,
        Break::OrderFailed => EndCause::OrderFailed,
        Break::Over => EndCause::RunOver,
    }
}
