//! The values of a sequence of which the second may be absent, and its end, taken at once where they have few bits.

ghost use Rattle.std.specs.Prelude.{◌≡◌, ℕ, ◌++◌, Bool, List, Some, None, IfSome, OnSome};
ghost use Rattle.exi_spec.specs.Bits.{number_bits};
ghost use Rattle.exi_bits.specs.Reading.{Cursor, Takes};
ghost use Rattle.exi_bits.specs.declared.span.SpanAt.{SpanAt};
ghost use Rattle.exi_schema.specs.declared.places.Place.{Place as SchemaPlace};
ghost use Rattle.exi_schema.specs.Schemas.{PlainSchema};
ghost use Rattle.exi_schema.specs.Sequences.{IsOptionalSequence};
ghost use Rattle.exi_schema.specs.Steps.{simple_at};
ghost use Rattle.exi_writing.specs.Documents.{SpellsStep, element};
ghost use Rattle.exi_writing.specs.Grammar.{Opened};
ghost use Rattle.exi_writing.specs.Short.{tree_of};
ghost use Rattle.exi_events.specs.Sequence.{HoldsFront, TakesChild, inside_at, behind_all};
ghost use Rattle.exi_events.specs.Optional.{GoesOn, HoldsTwoOrThree, SpellsRest, SpellsStarted, TakesRest, TakesOptional};

use crate::sequence::{short_child, short_only};
use exi_schema::{OptionalSequence, SequenceChild};
use exi_writing::exi_reading::{BitWindow, PayloadReader, ShortValue, short_value};

/// The values of a sequence of three children of which the second may be absent, each of few bits.
#[derive(Clone, Copy)]
pub struct OptionalValues {
    /// That of the first child.
    pub first: ShortValue,
    /// That of the second, where it is there.
    pub second: Option<ShortValue>,
    /// That of the third.
    pub third: ShortValue,
}

/// Those behind the first.
#[derive(Clone, Copy)]
pub(crate) struct RestOfValues {
    pub(crate) second: Option<ShortValue>,
    pub(crate) third: ShortValue,
}

/// Takes the value of a child that has started, and its end, where the window holds them and none is refused.
#[inline(always)]
fn short_inside(window: &mut BitWindow, child: SequenceChild) -> Option<ShortValue>
    ensures child { (s : PlainSchema) (name kind : ℕ) (here next : SchemaPlace) (above : List Opened) (entries : List (ℕ × SpanAt)) (begun : Cursor) → simple_at s.kinds kind ≡ Some child.datatype
        → Takes (SpellsStep s.kinds here (element child.name kind next)) begun window.old.cursor
        → IfSome result (λ v. TakesChild (inside_at s name here above window.old.cursor.bits entries begun) (inside_at s name next above window.old.cursor.bits entries window.new.cursor) child.name (tree_of v)) }
    ensures none { result ≡ None → (bits behind rest : List Bool) → SpellsStarted child bits → ¬ HoldsFront (bits ++ behind) rest window.old }
    ensures behind { OnSome result ((bits behind rest : List Bool) → SpellsStarted child bits → HoldsFront (bits ++ behind) rest window.old → HoldsFront behind rest window.new) }
    ensures same { window.new.cursor.bits ≡ window.old.cursor.bits }
{
    short_only(window)?;
    let value = short_value(window, child.datatype)?;
    short_only(window)?;
    Some(value)
}

/// Takes the second child, where it is there, the third and the end of their element, where the window holds them and none is refused.
#[inline(always)]
fn take_rest(window: &mut BitWindow, children: &OptionalSequence) -> Option<RestOfValues>
    ensures rest { (s : PlainSchema) (name : ℕ) (here : SchemaPlace) (above : List Opened) (entries : List (ℕ × SpanAt)) → GoesOn s.kinds here children.now
        → IfSome result (λ rest. TakesRest (inside_at s name here above window.old.cursor.bits entries window.old.cursor) (behind_all s above window.old.cursor.bits entries window.new.cursor)
        children.now.second.name rest.second (tree_of rest.third)) }
    ensures none { result ≡ None → (bits rest : List Bool) → SpellsRest children.now bits → ¬ HoldsFront (bits ++ number_bits 1 0) rest window.old }
    ensures same { window.new.cursor.bits ≡ window.old.cursor.bits }
{
    let code = window.take_bits(2)?;
    if code == 0 {
        let second = short_inside(window, children.second)?;
        let third = short_child(window, children.third)?;
        short_only(window)?;
        return Some(RestOfValues {
            second: Some(second),
            third,
        });
    }
    if code != 1 {
        return None;
    }
    let third = short_inside(window, children.third)?;
    short_only(window)?;
    Some(RestOfValues {
        second: None,
        third,
    })
}

/// Takes the children of such a sequence and the end of their element, where they have few bits and none is refused; else nothing. What begins
/// with such children is taken.
#[inline(always)]
pub(crate) fn take_optional(
    reader: &mut PayloadReader,
    children: &OptionalSequence,
) -> Option<OptionalValues>
    ensures values { (s : PlainSchema) (name : ℕ) (here : SchemaPlace) (above : List Opened) (entries : List (ℕ × SpanAt)) → IsOptionalSequence s.kinds here children.now
        → (children.now.third.name ≡ children.now.second.name → ⊥)
        → IfSome result (TakesOptional (inside_at s name here above reader.old.bits entries reader.old) (behind_all s above reader.old.bits entries reader.new) children.now.second.name) }
    ensures same { reader.new.bits ≡ reader.old.bits }
    ensures none { result ≡ None → reader.new ≡ reader.old }
    ensures whole { result ≡ None → ¬ HoldsTwoOrThree children.now reader.old }
{
    let mut window = reader.window()?;
    let first = short_child(&mut window, children.first)?;
    let rest = take_rest(&mut window, children)?;
    reader.pass(window);
    Some(OptionalValues {
        first,
        second: rest.second,
        third: rest.third,
    })
}
