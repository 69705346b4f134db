//! The pairs that a word spells.

ghost use Rattle.std.specs.Prelude.{◌≡◌, ◌≢◌, ℕ, List, [], ◌∷◌, ◌++◌, IsTrue, IfSome, MatchOption, MatchResult, slice_index, EachIndex};
ghost use Rattle.service_spec.specs.declared.Value.{Value as AnyValue};
ghost use Rattle.service_spec.specs.declared.Parameter.{Parameter as AnyPair};
ghost use Rattle.service_spec.specs.Texts.{is_a_text};
ghost use Rattle.service_spec.specs.Wants.{Spells, SpellsPair, IsValue, IsPair, IsWant};
ghost use Rattle.service_spec.specs.Pieces.{pieces_of, pieces_left};

use crate::numbers::number_of;
use crate::values::{is_name, is_text};
use crate::{BadWant, PARAMETERS, Parameter, Value, Want};
use arrayvec::ArrayVec;

/// What stands between double quotes.
fn inside(text: &str) -> Option<&str>
    ensures { MatchOption result ((t : List ℕ) → text.now ≢ 34 ∷ t ++ 34 ∷ []) (λ t. text.now ≡ 34 ∷ t.now ++ 34 ∷ []) }
{
    match text.strip_prefix('"') {
        Some(rest) => rest.strip_suffix('"'),
        None => None,
    }
}

/// The text between double quotes, if it is one that a parameter may have.
fn quoted(text: &str) -> Option<&str>
    ensures { MatchOption result ((t : List ℕ) → IsTrue (is_a_text t) → text.now ≢ 34 ∷ t ++ 34 ∷ [])
        (λ t. IsTrue (is_a_text t.now) × (text.now ≡ 34 ∷ t.now ++ 34 ∷ [])) }
{
    let text = inside(text)?;
    if is_text(text) { Some(text) } else { None }
}

/// The value that a text spells.
fn value_of(text: &str) -> Option<Value<'_>>
    ensures { MatchOption result ((value : AnyValue) → IsValue value → Spells value text.now → ⊥)
        (λ value. IsValue value × Spells value text.now) }
{
    if text == "true" {
        return Some(Value::Truth(true));
    }
    if text == "false" {
        return Some(Value::Truth(false));
    }
    if let Some(inside) = quoted(text) {
        return Some(Value::Text(inside));
    }
    match number_of(text) {
        Some(number) => Some(Value::Number(number)),
        None => None,
    }
}

/// What stands before the first `=`, and what behind it; `None` exactly where there is none.
fn parts_of(text: &str) -> Option<(&str, &str)>
    ensures cut { IfSome result (λ parts. text.now ≡ parts.0.now ++ 61 ∷ parts.1.now) }
    ensures first { (front behind : List ℕ) → text.now ≡ front ++ 61 ∷ behind → EachIndex front (λ i. slice_index front i ≢ 61)
        → MatchOption result ⊥ (λ parts. (parts.0.now ≡ front) × (parts.1.now ≡ behind)) }
{
    text.split_once('=')
}

/// The pair that a text spells.
fn pair_of(text: &str) -> Option<Parameter<'_>>
    ensures { MatchOption result ((pair : AnyPair) → IsPair pair → SpellsPair pair text.now → ⊥)
        (λ pair. IsPair pair × SpellsPair pair text.now) }
{
    let (name, behind) = parts_of(text)?;
    if !is_name(name) {
        return None;
    }
    let value = value_of(behind)?;
    Some(Parameter { name, value })
}

/// What stands before the first `;`, and what behind it; `None` exactly where there is none.
fn halves_of(text: &str) -> Option<(&str, &str)>
    ensures { MatchOption result (pieces_of text.now ≡ text.now ∷ []) (λ parts. pieces_of text.now ≡ parts.0.now ∷ pieces_of parts.1.now) }
{
    text.split_once(';')
}

/// What stands before the first `;`, and what behind it, if there is one.
fn cut(text: &str) -> (&str, Option<&str>)
    ensures { pieces_of text.now ≡ result.0.now ∷ pieces_left result.1 }
{
    match halves_of(text) {
        Some((front, behind)) => (front, Some(behind)),
        None => (text, None),
    }
}

/// Reads what is wanted: 1 to 16 pairs `NAME=VALUE` with `;` between each two, with a VALUE `true`, `false`, a number of 32 bits in 1 to 20
/// decimal digits, after a `-` exactly where it is negative, or in double quotes a text that a parameter may have (own).
///
/// `BadWant` exactly where the word spells no such pairs.
pub fn want_of(word: &str) -> Result<Want<'_>, BadWant>
    ensures { MatchResult result (λ want. IsWant word.now want.pairs.items) (λ _. (pairs : List AnyPair) → IsWant word.now pairs → ⊥) }
{
    let mut pairs = ArrayVec::new();
    let mut rest = Some(word);
    while let Some(text) = rest {
        let (piece, behind) = cut(text);
        let Some(pair) = pair_of(piece) else {
            return Err(BadWant);
        };
        if pairs.len() == PARAMETERS {
            return Err(BadWant);
        }
        pairs.push(pair);
        rest = behind;
    }
    Ok(Want { pairs })
}
