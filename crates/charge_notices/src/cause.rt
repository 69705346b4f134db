//! Causes in words.

ghost use Rattle.std.specs.Prelude.{◌≡◌, IfSome};
ghost use Rattle.session_words.specs.Causes.{number_of};

use session_words::EndCause;
use std::fmt;

/// The causes, in order of number.
const CAUSES: [EndCause; 27] = [
    EndCause::Stopped,
    EndCause::Refused,
    EndCause::BadFrame,
    EndCause::WrongSide,
    EndCause::NoNegotiation,
    EndCause::FailedReply,
    EndCause::SetupTimeout,
    EndCause::SequenceTimeout,
    EndCause::FeedbackTimeout,
    EndCause::PilotLost,
    EndCause::Emergency,
    EndCause::IsolationLost,
    EndCause::FeedbackWrong,
    EndCause::OverPower,
    EndCause::Gone,
    EndCause::SendFailed,
    EndCause::OrderFailed,
    EndCause::RunOver,
    EndCause::Impatient,
    EndCause::CodeFailed,
    EndCause::MessageTimeout,
    EndCause::CableCheckTimeout,
    EndCause::PreChargeTimeout,
    EndCause::OngoingTimeout,
    EndCause::WrongReply,
    EndCause::NoOffer,
    EndCause::Paused,
];

/// The cause with this number, if there is one.
pub fn cause_of(number: u8) -> Option<EndCause>
    ensures { IfSome result (λ cause. number_of cause ≡ number) }
{
    for cause in CAUSES {
        if cause.number() == number {
            return Some(cause);
        }
    }
    None
}

/// What happened, and where it can, what to look at.
fn sense_of(cause: EndCause) -> &'static str {
    match cause {
        EndCause::Stopped => "the car stopped with SessionStop",
        EndCause::Refused => "a payload was refused; `decode` says at which bit",
        EndCause::BadFrame => "a frame's header was refused, or its payload is too long",
        EndCause::WrongSide => "a message of this end's own side, or one without a body, came",
        EndCause::NoNegotiation =>
            "the two ends have no protocol in common; see `dialects` in the plans",
        EndCause::FailedReply => "a request was answered with a FAILED code",
        EndCause::SetupTimeout => "SessionSetup came too late",
        EndCause::SequenceTimeout => "the next request came too late",
        EndCause::FeedbackTimeout => "the contactor's feedback came too late",
        EndCause::PilotLost => "the control pilot left the states that a session needs",
        EndCause::Emergency => "the emergency stop was pressed",
        EndCause::IsolationLost => "the isolation isn't valid where it has to be",
        EndCause::FeedbackWrong => "the contactor's feedback is against its order",
        EndCause::OverPower => "the measured power is above the allowed one",
        EndCause::Gone => "the connection ended, or another one took its place",
        EndCause::SendFailed =>
            "a message could not be sent: the other end is gone, or does not read",
        EndCause::OrderFailed => "the charger did not take an order",
        EndCause::RunOver => "the program was to end: nothing more is heard",
        EndCause::Impatient => "a request came while another one was answered",
        EndCause::CodeFailed => "the post answered with a FAILED code",
        EndCause::MessageTimeout => "a reply of the post came too late",
        EndCause::CableCheckTimeout => "the cable check was not finished in time",
        EndCause::PreChargeTimeout => "pre-charging did not reach its voltage in time",
        EndCause::OngoingTimeout => "the authorization or the parameters were not finished in time",
        EndCause::WrongReply =>
            "a reply of another kind, of another session, or one not asked for, came",
        EndCause::NoOffer => "no post answered, or none gives energy in the car's `mode`",
        EndCause::Paused => "the car paused with SessionStop, and may come back",
    }
}

/// The number of a cause, which is printed with its name and what happened.
#[derive(Clone, Copy)]
pub struct Cause(pub u8);

impl fmt::Display for Cause {
    fn fmt<W: fmt::Write>(&self, f: &mut fmt::Formatter<W>) -> fmt::Result {
        match cause_of(self.0) {
            Some(cause) => write!(f, "cause {} {cause:?}: {}", self.0, sense_of(cause)),
            None => write!(f, "cause {}", self.0),
        }
    }
}
