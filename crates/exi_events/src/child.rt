//! The bits of a child with a value of few bits: of its start, its value and its end.

ghost use Rattle.std.specs.Prelude.{◌≡◌, ◌++◌, ◌^◌, ◌<◌, ◌≤◌, List, Bool, true, None, IfSome, OnSome};
ghost use Rattle.exi_spec.specs.Bits.{number_bits};
ghost use Rattle.exi_schema.specs.Offers.{IsPlace};
ghost use Rattle.exi_writing.specs.Short.{tree_of};
ghost use Rattle.exi_writing.specs.Values.{Entries};
ghost use Rattle.exi_events.specs.Writer.{OffersStart};
ghost use Rattle.exi_events.specs.Child.{StartsChild, MayWriteShort, IsFull, WritesInside, WritesThree, FitsThree, WritesOptional, FitsOptional, RestBits, IsNamed, IsNamedShort, child_bits, inside_bits};

use crate::short::push_value;
use crate::word::BitWord;
use exi_schema::{OptionalSequence, Place, Places, SequenceChild, Sought, Step};
use exi_writing::exi_reading::ShortValue;

/// A child that may stand at a place: the code that starts it, its kind, and the place behind it.
#[derive(Clone, Copy)]
pub(crate) struct ChildCode {
    pub(crate) code: u16,
    pub(crate) width: u32,
    pub(crate) kind: u16,
    pub(crate) next: Place,
}

/// The child of this name, if it may stand at a place. `None` exactly where it may not.
#[inline(always)]
pub(crate) fn child_at<P: Places>(places: &P, here: Place, name: u16) -> Option<ChildCode>
    requires { IsPlace (P.schema places.now).kinds here }
    ensures child { IfSome result (λ child. StartsChild (P.schema places.now) here name child) }
    ensures none { result ≡ None → ¬ OffersStart (P.schema places.now).kinds here name }
{
    let offer = places.find(here, Sought::Element(name))?;
    match offer.step {
        Step::Element { kind, next, .. } => Some(ChildCode {
            code: offer.code,
            width: offer.width,
            kind,
            next,
        }),
        _ => None,
    }
}

/// The bits of a child with a value. `None` only where it is of no simple kind, or no few bits write the value.
#[inline(always)]
pub(crate) fn child_word<P: Places>(
    places: &P,
    here: Place,
    name: u16,
    child: ChildCode,
    value: ShortValue,
) -> Option<BitWord>
    requires child { StartsChild (P.schema places.now) here name child }
    ensures word { IfSome result (λ word. (inside : List Bool) × (word ≡ number_bits child.width child.code ++ inside)
        × ((entries : Entries) → WritesInside (P.schema places.now).kinds child.kind entries name (tree_of value) inside)) }
    ensures none { result ≡ None → ¬ MayWriteShort (P.schema places.now).kinds child.kind (tree_of value) }
{
    let datatype = places.datatype(child.kind)?;
    let mut word = BitWord::new();
    word.push(u32::from(child.code), child.width)?;
    word.push(0, 1)?;
    push_value(&mut word, datatype, value)?;
    word.push(0, 1)?;
    Some(word)
}

/// A value of few bits, and the number of its element's name.
#[derive(Clone, Copy)]
pub struct NamedValue {
    /// The number of the name.
    pub name: u16,
    /// The value.
    pub value: ShortValue,
}

/// The children of an element of three values.
#[derive(Clone, Copy)]
pub struct ThreeChildren {
    /// The first child.
    pub first: NamedValue,
    /// The second.
    pub second: NamedValue,
    /// The third.
    pub third: NamedValue,
}

/// The children of an element of three values of which the second may be absent.
#[derive(Clone, Copy)]
pub struct OptionalChildren {
    /// The first child.
    pub first: NamedValue,
    /// The second, where it is there.
    pub second: Option<NamedValue>,
    /// The third.
    pub third: NamedValue,
}

/// The bits of a child that has started, behind those of a word. `None` only where it has another name, no few bits write its value, or they
/// find no room in the word.
#[inline(always)]
fn push_inside(word: &mut BitWord, child: SequenceChild, named: NamedValue) -> Option<()>
    ensures pushed { OnSome result ((bits : List Bool) × (word.new ≡ word.old ++ inside_bits bits) × IsNamed child named bits) }
    ensures none { result ≡ None → (bits : List Bool) → IsNamedShort child named bits → IsFull word.old (inside_bits bits) }
{
    if child.name != named.name {
        return None;
    }
    word.push(0, 1)?;
    push_value(word, child.datatype, named.value)?;
    word.push(0, 1)
}

/// The same of a child that is the one thing at its place, with its start.
#[inline(always)]
fn push_child(word: &mut BitWord, child: SequenceChild, named: NamedValue) -> Option<()>
    ensures pushed { OnSome result ((bits : List Bool) × (word.new ≡ word.old ++ child_bits bits) × IsNamed child named bits) }
    ensures none { result ≡ None → (bits : List Bool) → IsNamedShort child named bits → IsFull word.old (child_bits bits) }
{
    word.push(0, 1)?;
    push_inside(word, child, named)
}

/// The bits of an element of three values. `None` only where the places don't keep it as a sequence of such children, no few bits write one of
/// them, or they find no room in a word.
#[inline(always)]
pub(crate) fn three_word<P: Places>(
    places: &P,
    here: Place,
    name: u16,
    child: ChildCode,
    values: &ThreeChildren,
) -> Option<BitWord>
    requires child { StartsChild (P.schema places.now) here name child }
    ensures word { IfSome result (λ word. (inside : List Bool) × (word ≡ number_bits child.width child.code ++ inside)
        × WritesThree (P.schema places.now).kinds child.kind values.now inside) }
    ensures none { result ≡ None → P.keeps_sequences places.now ≡ true → ¬ FitsThree (P.schema places.now).kinds child.kind child.width values.now }
{
    let [first, second, third] = places.sequence(child.kind) else {
        return None;
    };
    let mut word = BitWord::new();
    word.push(u32::from(child.code), child.width)?;
    push_child(&mut word, *first, values.first)?;
    push_child(&mut word, *second, values.second)?;
    push_child(&mut word, *third, values.third)?;
    word.push(0, 1)?;
    Some(word)
}

/// The bits of the second child, where it is there, and of the third, behind those of a word. `None` only where one has another name, no few bits
/// write its value, or they find no room in the word.
#[inline(always)]
fn push_rest(
    word: &mut BitWord,
    children: &OptionalSequence,
    values: &OptionalChildren,
) -> Option<()>
    ensures pushed { OnSome result ((bits : List Bool) × (word.new ≡ word.old ++ bits) × RestBits IsNamed children.now values.now.second values.now.third bits) }
    ensures none { result ≡ None → (bits : List Bool) → RestBits IsNamedShort children.now values.now.second values.now.third bits → IsFull word.old bits }
{
    match values.second {
        Some(second) => {
            word.push(0, 2)?;
            push_inside(word, children.second, second)?;
            push_child(word, children.third, values.third)
        }
        None => {
            word.push(1, 2)?;
            push_inside(word, children.third, values.third)
        }
    }
}

/// The bits of an element of three values of which the second may be absent. `None` only where the places don't keep it as a sequence of such
/// children, no few bits write one of them, or they find no room in a word.
#[inline(always)]
pub(crate) fn optional_word<P: Places>(
    places: &P,
    here: Place,
    name: u16,
    child: ChildCode,
    values: &OptionalChildren,
) -> Option<BitWord>
    requires child { StartsChild (P.schema places.now) here name child }
    ensures word { IfSome result (λ word. (inside : List Bool) × (word ≡ number_bits child.width child.code ++ inside)
        × WritesOptional (P.schema places.now).kinds child.kind values.now inside) }
    ensures none { result ≡ None → P.keeps_sequences places.now ≡ true → ¬ FitsOptional (P.schema places.now).kinds child.kind child.width values.now }
{
    let children = places.optional_sequence(child.kind)?;
    let mut word = BitWord::new();
    word.push(u32::from(child.code), child.width)?;
    push_child(&mut word, children.first, values.first)?;
    push_rest(&mut word, children, values)?;
    word.push(0, 1)?;
    Some(word)
}

/// The bits of an event code, which a word always holds.
#[inline(always)]
pub(crate) fn code_word(code: u16, width: u32) -> Option<BitWord>
    requires few { width ≤ 32 }
    requires range { code < 2 ^ width }
    ensures bits { IfSome result (λ word. word ≡ number_bits width code) }
    ensures some { ¬ (result ≡ None) }
{
    let mut word = BitWord::new();
    word.push(u32::from(code), width)?;
    Some(word)
}
