//! When a step is finished (EVSEProcessing).

ghost use Rattle.std.specs.Prelude.{◌≡◌};
ghost use Rattle.session_rules.specs.Finishing as rule;

use charge_world::IsolationLevel;
use session_words::{Ask, Facts, Mode, PostPlan};

/// Whether the mode is one of alternating current.
pub fn is_ac(mode: Mode) -> bool
    ensures { result ≡ rule.is_ac mode }
{
    matches!(mode, Mode::AcSinglePhaseCore | Mode::AcThreePhaseCore)
}

/// Whether the isolation was found valid.
pub fn is_valid(level: Option<IsolationLevel>) -> bool
    ensures { result ≡ rule.is_valid level }
{
    matches!(level, Some(IsolationLevel::Valid))
}

/// Whether the reply to this request, where it is accepted, says Finished. `shown` is the watts that are shown.
pub fn is_finished(facts: &Facts, plan: &PostPlan, ask: &Ask, shown: u32) -> bool
    ensures { result ≡ rule.is_finished facts.now plan.now ask.now shown }
{
    match ask {
        Ask::Authorization => plan.free || facts.paid || facts.joined,
        Ask::ChargeParameters { .. } => 0 < shown,
        Ask::CableCheck { .. } => is_valid(facts.isolation),
        _ => true,
    }
}
