//! Numbers as they are written.

ghost use Rattle.std.specs.Prelude.{◌≡◌};
ghost use Rattle.session_words.specs.Amounts.{IsMultiplier};
ghost use Rattle.word_values.specs.Amounts as amounts;

/// The nearest Multiplier from -3 to 3.
pub(crate) fn nearest(multiplier: i8) -> i8
    ensures value { result ≡ amounts.nearest multiplier }
    ensures bound { IsMultiplier result }
{
    multiplier.clamp(-3, 3)
}
