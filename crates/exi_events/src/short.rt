//! Values of few bits, written into a word.

ghost use Rattle.std.specs.Prelude.{◌≡◌, ℕ, Bool, List, ◌++◌, None, IfSome, OnSome};
ghost use Rattle.exi_writing.specs.Short.{IsShort, tree_of};
ghost use Rattle.exi_writing.specs.Values.{Entries, SpellsCode, WritesValue};
ghost use Rattle.exi_writing.specs.Meaning.{value_of};
ghost use Rattle.exi_events.specs.Child.{WritesShort, IsFull};

use crate::word::BitWord;
use exi_schema::Datatype;
use exi_writing::exi_reading::{ShortValue, index_width};
use exi_writing::exi_values::Value;

/// A value as one of few bits. `None` exactly where it is a Binary, a text, or an integer beyond 64 bits.
#[inline(always)]
pub fn short_of(value: &Value) -> Option<ShortValue>
    ensures some { IfSome result (λ v. tree_of v ≡ value_of value.now) }
    ensures none { result ≡ None → ¬ IsShort (value_of value.now) }
{
    match value {
        Value::Bool(truth) => Some(ShortValue::Bool(*truth)),
        Value::Ordinal(ordinal) => Some(ShortValue::Ordinal(*ordinal)),
        Value::Number(number) => match i64::try_from(*number) {
            Ok(number) => Some(ShortValue::Number(number)),
            Err(_) => None,
        },
        _ => None,
    }
}

/// One of `count` codes (7.1.9, 7.2) behind the bits of a word. `None` where there are fewer.
#[inline(always)]
fn push_code(word: &mut BitWord, count: u32, code: u32) -> Option<()>
    ensures pushed { OnSome result ((bits : List Bool) × SpellsCode count code bits × (word.new ≡ word.old ++ bits)) }
    ensures none { result ≡ None → (bits : List Bool) → SpellsCode count code bits → IsFull word.old bits }
{
    if code >= count {
        return None;
    }
    word.push(code, index_width(count))
}

/// A value of a datatype behind the bits of a word, in its shortest spelling.
///
/// `None` where it is no value of the datatype, has more than three octets, or finds no room in the word.
#[inline(always)]
pub(crate) fn push_value(word: &mut BitWord, datatype: Datatype, value: ShortValue) -> Option<()>
    ensures pushed { OnSome result ((bits : List Bool) × (word.new ≡ word.old ++ bits)
        × ((entries : Entries) (name : ℕ) → WritesValue datatype entries name (tree_of value) bits entries)) }
    ensures none { result ≡ None → (bits : List Bool) → WritesShort datatype (tree_of value) bits → IsFull word.old bits }
{
    match (datatype, value) {
        (Datatype::Bool, ShortValue::Bool(truth)) => word.push(u32::from(truth), 1),
        (Datatype::Named { count }, ShortValue::Ordinal(ordinal)) => {
            push_code(word, count, ordinal)
        }
        (Datatype::Bounded { least, count }, ShortValue::Number(number)) => {
            let above = number.checked_sub(least)?;
            if above < 0 || above >= i64::from(count) {
                return None;
            }
            push_code(word, count, above as u32)
        }
        (Datatype::Unsigned { most }, ShortValue::Number(number)) => {
            if number < 0 || number as u64 > most {
                return None;
            }
            word.push_unsigned(number as u64)
        }
        (Datatype::Signed { least, most }, ShortValue::Number(number)) => {
            if number < least || number > most {
                return None;
            }
            word.push_integer(number)
        }
        _ => None,
    }
}
