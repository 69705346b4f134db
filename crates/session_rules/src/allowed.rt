//! The watts that a session may take.

ghost use Rattle.std.specs.Prelude.{◌≡◌};
ghost use Rattle.session_rules.specs.Allowed as rule;

/// Watts that stay allowed for 5,000 ms behind a reply that lowered the told ones.
#[derive(Clone, Copy)]
pub struct Lowered {
    /// The watts that were allowed before that reply.
    pub watts: u32,
    /// The moment of that reply, in milliseconds.
    pub at: u64,
}

/// The watts that a session may take at this moment (in milliseconds).
pub fn allowed_watts(told: u32, lowered: Option<Lowered>, now: u64) -> u32
    ensures { result ≡ rule.allowed_watts told lowered now }
{
    told.max(kept_watts(lowered, now))
}

/// The watts that are still kept.
fn kept_watts(lowered: Option<Lowered>, now: u64) -> u32
    ensures { result ≡ rule.kept_watts lowered now }
{
    match lowered {
        Some(lowered) if now < lowered.at || now - lowered.at < 5_000 => lowered.watts,
        _ => 0,
    }
}

/// What is kept once a reply tells the shown watts in place of those told before.
pub fn lowered_by(told: u32, lowered: Option<Lowered>, now: u64, shown: u32) -> Option<Lowered>
    ensures { result ≡ rule.lowered_by told lowered now shown }
{
    if shown < told {
        Some(Lowered {
            watts: allowed_watts(told, lowered, now),
            at: now,
        })
    } else {
        lowered
    }
}
