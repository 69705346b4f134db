//! What is counted, and what it comes to.

ghost use Rattle.std.specs.Prelude.{◌≡◌, ◌+◌, ◌<◌, ◌^◌};

use std::process::ExitCode;

/// Counts one more. The greatest number stays.
pub fn count(number: &mut u64)
    ensures { number.old + 1 < 2 ^ 64 → number.new ≡ number.old + 1 }
{
    *number = number.saturating_add(1);
}

/// The status of a program that found so much wrong: 0 for nothing, and else 1.
pub fn code_of(wrong: u64) -> ExitCode {
    if wrong > 0 {
        ExitCode::from(1)
    } else {
        ExitCode::SUCCESS
    }
}
