//! Numbers of 32 bits.

ghost use Rattle.std.specs.Prelude.{◌≡◌, ◌≢◌, ◌≤◌, ◌<◌, ◌^◌, ◌&&◌, nat_le, ℕ, ℤ, pos, neg_ℤ, List, ◌∷◌, length, SomeIff, MatchOption};
ghost use Rattle.std.specs.Char.{is_ascii_digit};
ghost use Rattle.std.specs.Int.{w32};
ghost use Rattle.std.specs.Int.RustNames.{FitsSigned};
ghost use Rattle.std.specs.List.{list_all};
ghost use Rattle.std.specs.Str.Parse.{IsNumeral, digits_value};
ghost use Rattle.service_spec.specs.Wants.{HasNumber};

/// Whether each character is a decimal digit.
fn are_digits(text: &str) -> bool
    ensures { result ≡ list_all is_ascii_digit text.now }
{
    text.as_bytes().iter().all(|byte| byte.is_ascii_digit())
}

/// Whether a text is 1 to 20 decimal digits.
fn is_numeral(text: &str) -> bool
    ensures { result ≡ (list_all is_ascii_digit text.now && (nat_le 1 (length text.now) && nat_le (length text.now) 20)) }
{
    are_digits(text) && 1 <= text.len() && text.len() <= 20
}

/// What stands behind a `-`; `None` exactly where the text begins with none.
fn behind_minus(text: &str) -> Option<&str>
    ensures { MatchOption result ((t : List ℕ) → text.now ≢ 45 ∷ t) (λ t. text.now ≡ 45 ∷ t.now) }
{
    text.strip_prefix('-')
}

/// The number that decimal digits spell, or a `-` and such digits, if it is one of 32 bits.
fn parsed(text: &str) -> Option<i32>
    ensures plain { IsNumeral 10 text.now → SomeIff result (digits_value 10 text.now < 2 ^ 31) (pos (digits_value 10 text.now)) }
    ensures minus { (digits : List ℕ) → text.now ≡ 45 ∷ digits → IsNumeral 10 digits
        → SomeIff result (digits_value 10 digits ≤ 2 ^ 31) (neg_ℤ (pos (digits_value 10 digits))) }
{
    text.parse::<i32>().ok()
}

/// The number that a text spells that has a `-` before these digits.
fn negative_of(text: &str, digits: &str) -> Option<i32>
    requires { text.now ≡ 45 ∷ digits.now }
    ensures { MatchOption result ((z : ℤ) → FitsSigned w32 z → HasNumber z text.now → ⊥) (λ z. FitsSigned w32 z × HasNumber z text.now) }
{
    if !is_numeral(digits) {
        return None;
    }
    let number = parsed(text)?;
    if number < 0 { Some(number) } else { None }
}

/// The number that a text spells that begins with no `-`.
fn positive_of(text: &str) -> Option<i32>
    requires { (t : List ℕ) → text.now ≢ 45 ∷ t }
    ensures { MatchOption result ((z : ℤ) → FitsSigned w32 z → HasNumber z text.now → ⊥) (λ z. FitsSigned w32 z × HasNumber z text.now) }
{
    if is_numeral(text) { parsed(text) } else { None }
}

/// The number that a text spells in 1 to 20 decimal digits, after a `-` exactly where it is negative.
pub(crate) fn number_of(text: &str) -> Option<i32>
    ensures { MatchOption result ((z : ℤ) → FitsSigned w32 z → HasNumber z text.now → ⊥) (λ z. FitsSigned w32 z × HasNumber z text.now) }
{
    match behind_minus(text) {
        Some(digits) => negative_of(text, digits),
        None => positive_of(text),
    }
}
