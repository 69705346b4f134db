//! The values of a sequence, and its end, taken at once where they have few bits.

ghost use Rattle.std.specs.Prelude.{◌≡◌, ℕ, Bool, [], ◌∷◌, ◌++◌, List, None, IfSome, OnSome};
ghost use Rattle.exi_spec.specs.Bits.{number_bits};
ghost use Rattle.exi_bits.specs.Reading.{HoldsOn, Takes};
ghost use Rattle.exi_bits.specs.declared.span.SpanAt.{SpanAt};
ghost use Rattle.exi_schema.specs.declared.places.Place.{Place as SchemaPlace};
ghost use Rattle.exi_schema.specs.declared.places.Step.{Step as SchemaStep};
ghost use Rattle.exi_schema.specs.Offers.{offers};
ghost use Rattle.exi_schema.specs.Plain.{PlainKind};
ghost use Rattle.exi_schema.specs.Schemas.{PlainSchema};
ghost use Rattle.exi_schema.specs.Sequences.{TellsSequence};
ghost use Rattle.exi_writing.specs.Documents.{SpellsStep};
ghost use Rattle.exi_writing.specs.Grammar.{Opened};
ghost use Rattle.exi_writing.specs.Short.{tree_of};
ghost use Rattle.exi_events.specs.Sequence.{TakesChild, TakesSequence, OffersChild, HoldsFront, HoldsThree, SpellsChild, values_of, inside_at, behind_all};

use exi_schema::SequenceChild;
use exi_writing::exi_reading::{BitWindow, PayloadReader, ShortValue, short_value};

/// The values of a sequence of three children, each of few bits.
#[derive(Clone, Copy)]
pub struct ThreeValues {
    /// That of the first child.
    pub first: ShortValue,
    /// That of the second.
    pub second: ShortValue,
    /// That of the third.
    pub third: ShortValue,
}

/// Takes the one event code at a place where one thing alone is offered, where the window holds it.
#[inline(always)]
pub(crate) fn short_only(window: &mut BitWindow) -> Option<()>
    ensures taken { (kinds : List PlainKind) (here : SchemaPlace) (step : SchemaStep) → offers kinds here ≡ step ∷ [] → OnSome result (Takes (SpellsStep kinds here step) window.old.cursor window.new.cursor) }
    ensures none { result ≡ None → (behind rest : List Bool) → ¬ HoldsFront (number_bits 1 0 ++ behind) rest window.old }
    ensures behind { OnSome result ((behind rest : List Bool) → HoldsFront (number_bits 1 0 ++ behind) rest window.old → HoldsFront behind rest window.new) }
    ensures same { window.new.cursor.bits ≡ window.old.cursor.bits }
{
    let code = window.take_bits(1)?;
    if code == 0 { Some(()) } else { None }
}

/// Takes the next child, which is the one thing that is offered: its start, its value and its end, where the window holds them and none is
/// refused.
#[inline(always)]
pub(crate) fn short_child(window: &mut BitWindow, child: SequenceChild) -> Option<ShortValue>
    ensures child { (s : PlainSchema) (name : ℕ) (here next : SchemaPlace) (above : List Opened) (entries : List (ℕ × SpanAt)) → OffersChild s.kinds here next child
        → IfSome result (λ v. TakesChild (inside_at s name here above window.old.cursor.bits entries window.old.cursor) (inside_at s name next above window.old.cursor.bits entries window.new.cursor) child.name (tree_of v)) }
    ensures none { result ≡ None → (bits behind rest : List Bool) → SpellsChild child bits → ¬ HoldsFront (bits ++ behind) rest window.old }
    ensures behind { OnSome result ((bits behind rest : List Bool) → SpellsChild child bits → HoldsFront (bits ++ behind) rest window.old → HoldsFront behind rest window.new) }
    ensures same { window.new.cursor.bits ≡ window.old.cursor.bits }
{
    short_only(window)?;
    short_only(window)?;
    let value = short_value(window, child.datatype)?;
    short_only(window)?;
    Some(value)
}

/// Takes the children of a sequence and the end of their element, where there are three, they have few bits and none is refused; else
/// nothing. What begins with three such children is taken.
#[inline(always)]
pub(crate) fn take_three(
    reader: &mut PayloadReader,
    children: &[SequenceChild],
) -> Option<ThreeValues>
    ensures values { (s : PlainSchema) (name : ℕ) (here : SchemaPlace) (above : List Opened) (entries : List (ℕ × SpanAt)) → TellsSequence s.kinds here children.now
        → IfSome result (λ three. TakesSequence (inside_at s name here above reader.old.bits entries reader.old) (behind_all s above reader.old.bits entries reader.new) (values_of three)) }
    ensures same { reader.new.bits ≡ reader.old.bits }
    ensures none { result ≡ None → reader.new ≡ reader.old }
    ensures whole { result ≡ None → ¬ HoldsThree children.now reader.old }
{
    let [first, second, third] = children else {
        return None;
    };
    let mut window = reader.window()?;
    let first = short_child(&mut window, *first)?;
    let second = short_child(&mut window, *second)?;
    let third = short_child(&mut window, *third)?;
    short_only(&mut window)?;
    reader.pass(window);
    Some(ThreeValues {
        first,
        second,
        third,
    })
}
