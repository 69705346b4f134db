//! Values of few bits, taken from a window.

ghost use Rattle.std.specs.Prelude.{◌≡◌, ℕ, ◌≤◌, Bool, List, length, None, IfSome};
ghost use Rattle.exi_bits.specs.Reading.{HoldsOn, HoldsWhole, Takes};
ghost use Rattle.exi_values.specs.Trees.{Value as TreeValue};
ghost use Rattle.exi_values.specs.Values.{Entries, SpellsCode, SpellsValue};
ghost use Rattle.exi_reading.specs.Short.{SpellsShort, most_bits, tree_of};

use crate::items::index_width;
use exi_bits::BitWindow;
use exi_schema::Datatype;
use exi_values::Value;

/// A value of a datatype other than String and Binary that has few bits.
#[derive(Clone, Copy)]
pub enum ShortValue {
    /// 7.1.2 Boolean.
    Bool(bool),
    /// 7.2 Enumerations: the place of a value in the list of its datatype, from 0.
    Ordinal(u32),
    /// 7.1.5, 7.1.6, 7.1.9: an integer.
    Number(i64),
}

impl ShortValue {
    ghost use Rattle.exi_values.specs.Meaning.{value_of, IsLent};

    /// It as a value like any other.
    #[inline(always)]
    pub fn as_value<'a>(self) -> Value<'a>
        ensures value { value_of result ≡ tree_of self }
        ensures lent { (bits : List Bool) → IsLent bits result }
    {
        match self {
            ShortValue::Bool(truth) => Value::Bool(truth),
            ShortValue::Ordinal(ordinal) => Value::Ordinal(ordinal),
            ShortValue::Number(number) => Value::Number(i128::from(number)),
        }
    }
}

/// One of `count` codes (7.1.9, 7.2). `None` where none is held as a whole, and where there is one, which has no bits.
#[inline(always)]
fn short_code(window: &mut BitWindow, count: u32) -> Option<u32>
    ensures held { HoldsOn window.old window.new }
    ensures none { result ≡ None → (code most : ℕ) → ¬ HoldsWhole (λ bits. (1 ≤ length bits) × SpellsCode count code bits) most window.old }
    ensures taken { IfSome result (λ code. Takes (SpellsCode count code) window.old.cursor window.new.cursor) }
    ensures same { window.new.cursor.bits ≡ window.old.cursor.bits }
{
    let code = window.take_bits(index_width(count))?;
    if code < count { Some(code) } else { None }
}

/// A value of a datatype other than String and Binary, where the window holds it as a whole. No string table is asked.
///
/// `None` where it doesn't, for any other datatype, where its one value has a code of no bits, where an integer has more than three octets or
/// 64 bits, and where the value is refused: `take_value` tells why.
#[inline(always)]
pub fn short_value(window: &mut BitWindow, datatype: Datatype) -> Option<ShortValue>
    ensures held { HoldsOn window.old window.new }
    ensures none { result ≡ None → (value : TreeValue) → ¬ HoldsWhole (SpellsShort datatype value) most_bits window.old }
    ensures taken { (entries : Entries) (name : ℕ)
        → IfSome result (λ v. Takes (λ bits. SpellsValue datatype entries name (tree_of v) bits entries) window.old.cursor window.new.cursor) }
    ensures same { window.new.cursor.bits ≡ window.old.cursor.bits }
{
    match datatype {
        Datatype::Bool => {
            let truth = window.take_bit()?;
            Some(ShortValue::Bool(truth))
        }
        Datatype::Named { count } => {
            let code = short_code(window, count)?;
            Some(ShortValue::Ordinal(code))
        }
        Datatype::Bounded { least, count } => {
            let code = short_code(window, count)?;
            let value = least.checked_add(i64::from(code))?;
            Some(ShortValue::Number(value))
        }
        Datatype::Unsigned { most } => {
            let value = window.take_unsigned()?;
            if value > most {
                return None;
            }
            Some(ShortValue::Number(value as i64))
        }
        Datatype::Signed { least, most } => {
            let value = window.take_integer()?;
            if value < least || value > most {
                return None;
            }
            Some(ShortValue::Number(value))
        }
        Datatype::Binary { .. } | Datatype::Text { .. } => None,
    }
}
