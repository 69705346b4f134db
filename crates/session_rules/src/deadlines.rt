//! Which deadline runs.

ghost use Rattle.std.specs.Prelude.{◌≡◌};
ghost use Rattle.session_rules.specs.Deadlines as rule;

use session_words::{Phase, Timeout};

/// The deadline that runs in a row: until SessionSetup is accepted that for it, while a reply waits that for the feedback,
/// else that for the next request.
pub fn timeout_of(row: Phase) -> Timeout
    ensures { result ≡ rule.timeout_of row }
{
    match row {
        Phase::Connected | Phase::Negotiated => Timeout::Setup,
        Phase::DcClosing | Phase::AcClosing => Timeout::Feedback,
        _ => Timeout::Sequence,
    }
}
