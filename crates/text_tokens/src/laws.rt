//! Laws of words and lines.

ghost use Rattle.std.specs.Prelude.{◌≡◌, ◌==◌, ◌^◌, ◌<◌, ◌++◌, ℕ, List, length, decimal};
ghost use Rattle.std.specs.List.{slice_split};
ghost use Rattle.hex.specs.Hex.{encode_lower, IsBytes};
ghost use Rattle.text_tokens.specs.Words.{spaced, line_text, identifier_text, AreWords};

/// Each text spells one value (own): one number, one list of bytes, one identifier; and lines that stand one behind the
/// other are the lines of one list of words each.
pub fn texts_are_unambiguous()
    ensures numbers { (m n : ℕ) → m < 2 ^ 64 → n < 2 ^ 64 → decimal m ≡ decimal n → m ≡ n }
    ensures bytes { (a b : List ℕ) → IsBytes a → IsBytes b → encode_lower a ≡ encode_lower b → a ≡ b }
    ensures identifiers { (m n : ℕ) → m < 2 ^ 64 → n < 2 ^ 64 → identifier_text m ≡ identifier_text n → m ≡ n }
    ensures lines { (a b : List (List ℕ)) (more less : List ℕ) → AreWords a → AreWords b → 0 < length a → 0 < length b
        → line_text a ++ more ≡ line_text b ++ less → (a ≡ b) × (more ≡ less) }
{}

/// Cutting a text at its spaces is the inverse of writing words with one space between each two.
pub fn words_are_cut()
    ensures cut { (words : List (List ℕ)) → AreWords words → 0 < length words → slice_split (λ byte. byte == 32) (spaced words) ≡ words }
    ensures joined { (text : List ℕ) → spaced (slice_split (λ byte. byte == 32) text) ≡ text }
{}
