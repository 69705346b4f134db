//! Why a session ends.

ghost use Rattle.std.specs.Prelude.{◌≡◌};
ghost use Rattle.session_words.specs.Causes.{number_of};

/// The causes by which a station's or a car's session ends.
#[derive(Clone, Copy, Debug, PartialEq, Eq)]
pub enum EndCause {
    /// SessionStop was accepted. For a car: its SessionStop with Terminate was answered OK.
    Stopped,
    /// A payload was refused.
    Refused,
    /// A frame was refused.
    BadFrame,
    /// A payload is a message of this end's own side, or a message without a body.
    WrongSide,
    /// The negotiation matched nothing.
    NoNegotiation,
    /// A request was answered with a FAILED code.
    FailedReply,
    /// SessionSetup came too late.
    SetupTimeout,
    /// The next request came too late.
    SequenceTimeout,
    /// The contactor's feedback came too late.
    FeedbackTimeout,
    /// The control pilot left the states that a session needs.
    PilotLost,
    /// The emergency stop.
    Emergency,
    /// The isolation isn't valid where it has to be.
    IsolationLost,
    /// The contactor's feedback is against its order.
    FeedbackWrong,
    /// The measured power is above the allowed one.
    OverPower,
    /// The connection ended, or another one came while it stood.
    Gone,
    /// A message couldn't be sent.
    SendFailed,
    /// The charger didn't take an order.
    OrderFailed,
    /// Nothing more will be heard.
    RunOver,
    /// A whole frame came while a reply waited.
    Impatient,
    /// Car: a FAILED code.
    CodeFailed,
    /// Car: a reply came too late.
    MessageTimeout,
    /// Car: no CableCheck was finished in time.
    CableCheckTimeout,
    /// Car: pre-charging didn't reach its voltage in time.
    PreChargeTimeout,
    /// Car: an authorization or the charge parameters weren't finished in time.
    OngoingTimeout,
    /// Car: a reply of another kind, with another session's identifier, or that was not asked for.
    WrongReply,
    /// Car: no post answered the discovery, or none offers the car's mode.
    NoOffer,
    /// SessionStop with Pause was accepted. For a car: its SessionStop with Pause was answered OK.
    Paused,
}

impl EndCause {
    /// The number under which traces and reports name the cause (own): 1 to 19 and 22 to 29.
    pub fn number(&self) -> u8
        ensures value { result ≡ number_of self.now }
        ensures own { (other : EndCause) → number_of other ≡ result → other ≡ self.now }
    {
        match self {
            EndCause::Stopped => 1,
            EndCause::Refused => 2,
            EndCause::BadFrame => 3,
            EndCause::WrongSide => 4,
            EndCause::NoNegotiation => 5,
            EndCause::FailedReply => 6,
            EndCause::SetupTimeout => 7,
            EndCause::SequenceTimeout => 8,
            EndCause::FeedbackTimeout => 9,
            EndCause::PilotLost => 10,
            EndCause::Emergency => 11,
            EndCause::IsolationLost => 12,
            EndCause::FeedbackWrong => 13,
            EndCause::OverPower => 14,
            EndCause::Gone => 15,
            EndCause::SendFailed => 16,
            EndCause::OrderFailed => 17,
            EndCause::RunOver => 18,
            EndCause::Impatient => 19,
            EndCause::CodeFailed => 22,
            EndCause::MessageTimeout => 23,
            EndCause::CableCheckTimeout => 24,
            EndCause::PreChargeTimeout => 25,
            EndCause::OngoingTimeout => 26,
            EndCause::WrongReply => 27,
            EndCause::NoOffer => 28,
            EndCause::Paused => 29,
        }
    }
}

/// A deadline of a post that was reached.
#[derive(Clone, Copy, PartialEq, Eq)]
pub enum Timeout {
    /// SessionSetup wasn't accepted in time.
    Setup,
    /// No request followed the last reply in time.
    Sequence,
    /// The contactor's feedback didn't come in time.
    Feedback,
}

impl From<Timeout> for EndCause {
    ghost use Rattle.session_words.specs.Causes.{cause_of};

    ghost from_gives = { λ timeout cause. cause ≡ cause_of timeout };

    fn from(timeout: Timeout) -> EndCause {
        match timeout {
            Timeout::Setup => EndCause::SetupTimeout,
            Timeout::Sequence => EndCause::SequenceTimeout,
            Timeout::Feedback => EndCause::FeedbackTimeout,
        }
    }
}
