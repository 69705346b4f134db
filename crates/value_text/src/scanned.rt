//! Values that are scanned.

ghost use Rattle.std.specs.Prelude.{◌≡◌, ℕ, ◌<◌, List, length, MatchOption};
ghost use Rattle.exi_documents.specs.Trees.{Bytes};
ghost use Rattle.exi_values.specs.Meaning.{IsShaped, value_of};
ghost use Rattle.value_text.specs.Scanning.{meaning};

use exi_bits::BitSpan;
use exi_values::Value;

/// A value that a text tells.
#[derive(Debug, Drop)]
pub enum Scanned {
    /// A truth value.
    Bool(bool),
    /// The place of an enumeration's value in the list of its kind, from 0.
    Ordinal(u32),
    /// An integer of at most 20 digits.
    Number(i128),
    /// The bytes of a Binary.
    Bytes(Vec<u8>),
    /// A text.
    Text(String),
}

impl Scanned {
    /// The same, lent to a writer. A Binary of more than 65,536 bytes can't be lent.
    pub fn value(&self) -> Option<Value<'_>>
        ensures { MatchOption result ((bytes : List ℕ) × (meaning self.now ≡ Bytes bytes) × (65536 < length bytes)) (λ v. (value_of v ≡ meaning self.now) × IsShaped v) }
    {
        match self {
            Scanned::Bool(truth) => Some(Value::Bool(*truth)),
            Scanned::Ordinal(ordinal) => Some(Value::Ordinal(*ordinal)),
            Scanned::Number(number) => Some(Value::Number(*number)),
            Scanned::Bytes(bytes) => {
                if bytes.len() > 65536 {
                    return None;
                }
                Some(Value::Binary(BitSpan::of_bytes(bytes.as_slice())))
            }
            Scanned::Text(text) => Some(Value::Written(text.as_str())),
        }
    }
}
