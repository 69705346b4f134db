//! The children of an element, one after the other.

ghost use Rattle.std.specs.Prelude.{◌≡◌, ℕ, suc, ◌+◌, ◌≤◌, ◌<◌, [], ◌∷◌, ◌++◌, List, true, Some, None, IfOk, IfErr, slice_get, take, map, length};
ghost use Rattle.exi_events.specs.Trees.{Event as TreeEvent, Attribute};
ghost use Rattle.exi_schema.specs.declared.tables.AttributeOf.{AttributeOf};
ghost use Rattle.exi_schema.specs.declared.tables.Datatype.{Datatype};
ghost use Rattle.exi_schema.specs.Plain.{PlainKind, PlainParticle, containing};
ghost use Rattle.exi_schema.specs.Steps.{simple_at};
ghost use Rattle.message_parts.specs.Contents.{Of, holding_with, mapped, told_one, told_perhaps, told_each, told_inside, told_maybe, told_choice, told_given, told_parts};
ghost use Rattle.message_parts.specs.Particles.{name_at, kind_at, alternatives_at, is_once_at, is_optional_at, is_repeated_at, is_required, is_single, is_left_out, is_must, is_last_may, attribute_at, takes_at, takes_attribute, kind_among};
ghost use Rattle.message_parts.specs.Reading.{Frame, seen_of, IsOpen, Enters, Leaves, Reads, IsRefusal, IsChosen, StartsAt};
ghost use Rattle.message_parts.specs.Sequence.{HoldsValues, ReadsThree, told_three};
ghost use Rattle.message_parts.specs.Perhaps.{HoldsSecond, IsReadPerhaps, ReadsSecond, inside_perhaps, told_second};

use crate::descent::Descent;
use crate::part::{Choice, Contents, Group, LargeGroup, LargeRecord, ReadRecord, Record, Simple};
use arrayvec::ArrayVec;
use exi_events::OptionalValues;
use exi_events::exi_documents::Refusal;
use exi_schema::Places;

/// The rest of an element that has started and has a value.
#[inline(always)]
fn simple_inside<'a, T: Simple<'a>, P: Places>(
    descent: &mut Descent<'a, '_, P>,
) -> Result<T, Refusal>
    requires open { IsOpen P.schema descent.old }
    ensures open { IsOpen P.schema descent.new }
    ensures table { descent.new.reader.table.ghost_name ≡ descent.old.reader.table.ghost_name }
    ensures places { descent.new.reader.places.now ≡ descent.old.reader.places.now }
    ensures payload { descent.new.reader.reader.bits ≡ descent.old.reader.reader.bits }
    ensures refused { IfErr result (λ r. IsRefusal (seen_of P.schema descent.old) r) }
    ensures read { (ks : List PlainKind) (F : Frame) (kind : ℕ) (d : Datatype) (told : List TreeEvent) → Enters ks F kind told (seen_of P.schema descent.old)
        → simple_at ks kind ≡ Some d → T.takes d ≡ true
        → IfOk result (λ v. Leaves ks F (told_inside (Of (T.value v)) told) (seen_of P.schema descent.new)) }
{
    let value = descent.value()?;
    Ok(T::of(value))
}

/// The attributes and the elements of a record, up to where there is no more.
pub fn whole_record<'a, T: Record<'a>, P: Places>(
    descent: &mut Descent<'a, '_, P>,
) -> Result<T, Refusal>
    requires open { IsOpen P.schema descent.old }
    ensures open { IsOpen P.schema descent.new }
    ensures table { descent.new.reader.table.ghost_name ≡ descent.old.reader.table.ghost_name }
    ensures places { descent.new.reader.places.now ≡ descent.old.reader.places.now }
    ensures payload { descent.new.reader.reader.bits ≡ descent.old.reader.reader.bits }
    ensures refused { IfErr result (λ r. IsRefusal (seen_of P.schema descent.old) r) }
    ensures read { (F : Frame) (before : List TreeEvent) → StartsAt T.kinds F T.attributes T.particles 0 before (seen_of P.schema descent.old)
        → IfOk result (λ v. Reads T.kinds F T.attributes T.particles (length T.particles) (told_parts (T.parts v) (told_given (T.given v) before)) (seen_of P.schema descent.new)) }
{
    Ok(T::of(T::Made::read(descent)?))
}

/// The rest of an element that has started and has attributes and children.
fn record_inside<'a, T: ReadRecord<'a>, P: Places>(
    descent: &mut Descent<'a, '_, P>,
) -> Result<T, Refusal>
    requires open { IsOpen P.schema descent.old }
    ensures open { IsOpen P.schema descent.new }
    ensures table { descent.new.reader.table.ghost_name ≡ descent.old.reader.table.ghost_name }
    ensures places { descent.new.reader.places.now ≡ descent.old.reader.places.now }
    ensures payload { descent.new.reader.reader.bits ≡ descent.old.reader.reader.bits }
    ensures refused { IfErr result (λ r. IsRefusal (seen_of P.schema descent.old) r) }
    ensures read { (F : Frame) (kind : ℕ) (told : List TreeEvent) → Enters T.kinds F kind told (seen_of P.schema descent.old)
        → slice_get T.kinds kind ≡ Some (containing T.attributes T.particles)
        → IfOk result (λ v. Leaves T.kinds F (told_inside (holding_with (T.given v) (T.parts v)) told) (seen_of P.schema descent.new)) }
{
    T::read(descent)
}

// ---- attributes

/// An attribute that has to be there.
pub fn attribute<'a, T: Simple<'a>, P: Places>(
    descent: &mut Descent<'a, '_, P>,
) -> Result<T, Refusal>
    requires open { IsOpen P.schema descent.old }
    ensures open { IsOpen P.schema descent.new }
    ensures table { descent.new.reader.table.ghost_name ≡ descent.old.reader.table.ghost_name }
    ensures places { descent.new.reader.places.now ≡ descent.old.reader.places.now }
    ensures payload { descent.new.reader.reader.bits ≡ descent.old.reader.reader.bits }
    ensures refused { IfErr result (λ r. IsRefusal (seen_of P.schema descent.old) r) }
    ensures read { (ks : List PlainKind) (F : Frame) (attributes : List AttributeOf) (declared : List PlainParticle) (at : ℕ) (told : List TreeEvent) → StartsAt ks F attributes declared at told (seen_of P.schema descent.old)
        → is_must (slice_get attributes at) ≡ true → takes_attribute T.takes ks attributes at ≡ true
        → IfOk result (λ v. StartsAt ks F attributes declared (suc at) (Attribute (attribute_at attributes at) (T.value v) ∷ told) (seen_of P.schema descent.new)) }
{
    let value = descent.attribute()?;
    Ok(T::of(value))
}

/// The last attribute, which may be there; behind it the first child is looked at.
pub fn last_attribute<'a, T: Simple<'a>, P: Places>(
    descent: &mut Descent<'a, '_, P>,
) -> Result<Option<T>, Refusal>
    requires open { IsOpen P.schema descent.old }
    ensures open { IsOpen P.schema descent.new }
    ensures table { descent.new.reader.table.ghost_name ≡ descent.old.reader.table.ghost_name }
    ensures places { descent.new.reader.places.now ≡ descent.old.reader.places.now }
    ensures payload { descent.new.reader.reader.bits ≡ descent.old.reader.reader.bits }
    ensures refused { IfErr result (λ r. IsRefusal (seen_of P.schema descent.old) r) }
    ensures read { (ks : List PlainKind) (F : Frame) (attributes : List AttributeOf) (declared : List PlainParticle) (at : ℕ) (told : List TreeEvent) → StartsAt ks F attributes declared at told (seen_of P.schema descent.old)
        → is_last_may attributes at ≡ true → takes_attribute T.takes ks attributes at ≡ true
        → IfOk result (λ v. Reads ks F attributes declared 0 (told_maybe (attribute_at attributes at) (mapped T.value v) told) (seen_of P.schema descent.new)) }
{
    let Some(value) = descent.last_attribute()? else {
        return Ok(None);
    };
    let value = T::of(value);
    descent.next_child()?;
    Ok(Some(value))
}

/// The first child, behind the last attribute that has to be there.
pub fn first_child<'a, P: Places>(descent: &mut Descent<'a, '_, P>) -> Result<(), Refusal>
    requires open { IsOpen P.schema descent.old }
    ensures open { IsOpen P.schema descent.new }
    ensures table { descent.new.reader.table.ghost_name ≡ descent.old.reader.table.ghost_name }
    ensures places { descent.new.reader.places.now ≡ descent.old.reader.places.now }
    ensures payload { descent.new.reader.reader.bits ≡ descent.old.reader.reader.bits }
    ensures refused { IfErr result (λ r. IsRefusal (seen_of P.schema descent.old) r) }
    ensures read { (ks : List PlainKind) (F : Frame) (attributes : List AttributeOf) (declared : List PlainParticle) (told : List TreeEvent)
        → StartsAt ks F attributes declared (length attributes) told (seen_of P.schema descent.old)
        → IfOk result (λ _. Reads ks F attributes declared 0 told (seen_of P.schema descent.new)) }
{
    descent.next_child()
}

// ---- values

/// A value that has to be there.
#[inline(never)]
pub fn value<'a, T: Simple<'a>, P: Places>(descent: &mut Descent<'a, '_, P>) -> Result<T, Refusal>
    requires open { IsOpen P.schema descent.old }
    ensures open { IsOpen P.schema descent.new }
    ensures table { descent.new.reader.table.ghost_name ≡ descent.old.reader.table.ghost_name }
    ensures places { descent.new.reader.places.now ≡ descent.old.reader.places.now }
    ensures payload { descent.new.reader.reader.bits ≡ descent.old.reader.reader.bits }
    ensures refused { IfErr result (λ r. IsRefusal (seen_of P.schema descent.old) r) }
    ensures read { (ks : List PlainKind) (F : Frame) (attributes : List AttributeOf) (declared : List PlainParticle) (at : ℕ) (told : List TreeEvent) → Reads ks F attributes declared at told (seen_of P.schema descent.old)
        → is_once_at declared at ≡ true → takes_at T.takes ks declared at ≡ true
        → IfOk result (λ v. Reads ks F attributes declared (suc at) (told_one (name_at declared at) (Of (T.value v)) told) (seen_of P.schema descent.new)) }
{
    let value = simple_inside(descent)?;
    descent.next_child()?;
    Ok(value)
}

/// A value that may be there.
pub fn optional_value<'a, T: Simple<'a>, P: Places>(
    descent: &mut Descent<'a, '_, P>,
    name: u16,
) -> Result<Option<T>, Refusal>
    requires open { IsOpen P.schema descent.old }
    ensures open { IsOpen P.schema descent.new }
    ensures table { descent.new.reader.table.ghost_name ≡ descent.old.reader.table.ghost_name }
    ensures places { descent.new.reader.places.now ≡ descent.old.reader.places.now }
    ensures payload { descent.new.reader.reader.bits ≡ descent.old.reader.reader.bits }
    ensures refused { IfErr result (λ r. IsRefusal (seen_of P.schema descent.old) r) }
    ensures read { (ks : List PlainKind) (F : Frame) (attributes : List AttributeOf) (declared : List PlainParticle) (at : ℕ) (told : List TreeEvent) → Reads ks F attributes declared at told (seen_of P.schema descent.old)
        → is_optional_at declared at ≡ true → name ≡ name_at declared at → takes_at T.takes ks declared at ≡ true
        → IfOk result (λ v. Reads ks F attributes declared (suc at) (told_perhaps name (mapped (λ x. Of (T.value x)) v) told) (seen_of P.schema descent.new)) }
{
    if !descent.is_at(name) {
        return Ok(None);
    }
    let value = simple_inside(descent)?;
    descent.next_child()?;
    Ok(Some(value))
}

/// Values of one name, of which N are accepted.
pub fn values<'a, T: Simple<'a> + Default, P: Places, const N: usize>(
    descent: &mut Descent<'a, '_, P>,
    name: u16,
) -> Result<ArrayVec<T, N>, Refusal>
    requires open { IsOpen P.schema descent.old }
    ensures open { IsOpen P.schema descent.new }
    ensures table { descent.new.reader.table.ghost_name ≡ descent.old.reader.table.ghost_name }
    ensures places { descent.new.reader.places.now ≡ descent.old.reader.places.now }
    ensures payload { descent.new.reader.reader.bits ≡ descent.old.reader.reader.bits }
    ensures refused { IfErr result (λ r. IsRefusal (seen_of P.schema descent.old) r) }
    ensures read { (ks : List PlainKind) (F : Frame) (attributes : List AttributeOf) (declared : List PlainParticle) (at : ℕ) (told : List TreeEvent) → Reads ks F attributes declared at told (seen_of P.schema descent.old)
        → is_repeated_at declared at N ≡ true → name ≡ name_at declared at → takes_at T.takes ks declared at ≡ true
        → IfOk result (λ v. Reads ks F attributes declared (suc at) (told_each name (map (λ x. Of (T.value x)) v.items) told) (seen_of P.schema descent.new)) }
{
    let mut items = ArrayVec::new();
    for _ in 0..N {
        if !descent.is_at(name) {
            break;
        }
        items.push(simple_inside(descent)?);
        descent.next_child()?;
    }
    Ok(items)
}

/// Three values, one behind the other.
#[derive(Drop)]
pub struct Three<A, B, C> {
    /// The first.
    pub first: A,
    /// The second.
    pub second: B,
    /// The third.
    pub third: C,
}

impl<'a, A: Simple<'a>, B: Simple<'a>, C: Simple<'a>> Contents<'a> for Three<A, B, C> {
    ghost stand = { λ ks attributes declared. (attributes ≡ []) × HoldsValues A.takes B.takes C.takes ks declared };

    ghost told = { λ attributes declared v before. told_three declared (A.value v.first) (B.value v.second) (C.value v.third) before };

    #[inline(always)]
    fn read<P: Places>(descent: &mut Descent<'a, '_, P>) -> Result<Three<A, B, C>, Refusal> {
        three_values(descent)
    }
}

/// Three values that each have to be there, of an element that holds nothing else: up to where there is no more.
fn three_values<'a, A: Simple<'a>, B: Simple<'a>, C: Simple<'a>, P: Places>(
    descent: &mut Descent<'a, '_, P>,
) -> Result<Three<A, B, C>, Refusal>
    requires open { IsOpen P.schema descent.old }
    ensures open { IsOpen P.schema descent.new }
    ensures table { descent.new.reader.table.ghost_name ≡ descent.old.reader.table.ghost_name }
    ensures places { descent.new.reader.places.now ≡ descent.old.reader.places.now }
    ensures payload { descent.new.reader.reader.bits ≡ descent.old.reader.reader.bits }
    ensures refused { IfErr result (λ r. IsRefusal (seen_of P.schema descent.old) r) }
    ensures read { ReadsThree A.takes B.takes C.takes (λ v. A.value v.first) (λ v. B.value v.second) (λ v. C.value v.third)
        (seen_of P.schema descent.old) (seen_of P.schema descent.new) result }
{
    match descent.three_values() {
        Some(values) => Ok(Three {
            first: A::of(values.first.as_value()),
            second: B::of(values.second.as_value()),
            third: C::of(values.third.as_value()),
        }),
        None => each_of_three(descent),
    }
}

/// The same, one by one.
#[inline(never)]
fn each_of_three<'a, A: Simple<'a>, B: Simple<'a>, C: Simple<'a>, P: Places>(
    descent: &mut Descent<'a, '_, P>,
) -> Result<Three<A, B, C>, Refusal>
    requires open { IsOpen P.schema descent.old }
    ensures open { IsOpen P.schema descent.new }
    ensures table { descent.new.reader.table.ghost_name ≡ descent.old.reader.table.ghost_name }
    ensures places { descent.new.reader.places.now ≡ descent.old.reader.places.now }
    ensures payload { descent.new.reader.reader.bits ≡ descent.old.reader.reader.bits }
    ensures refused { IfErr result (λ r. IsRefusal (seen_of P.schema descent.old) r) }
    ensures read { ReadsThree A.takes B.takes C.takes (λ v. A.value v.first) (λ v. B.value v.second) (λ v. C.value v.third)
        (seen_of P.schema descent.old) (seen_of P.schema descent.new) result }
{
    first_child(descent)?;
    let first = value(descent)?;
    let second = value(descent)?;
    let third = value(descent)?;
    Ok(Three {
        first,
        second,
        third,
    })
}

/// Three values, one behind the other, of which the second, of this name, may be absent.
#[derive(Drop)]
pub struct OptionalSecond<A, B, C, const NAME: u16> {
    /// The first.
    pub first: A,
    /// The second, where it is there.
    pub second: Option<B>,
    /// The third.
    pub third: C,
}

impl<'a, A: Simple<'a>, B: Simple<'a>, C: Simple<'a>, const NAME: u16> Contents<'a>
    for OptionalSecond<A, B, C, NAME> {
    ghost stand = { λ ks attributes declared. (attributes ≡ []) × HoldsSecond A.takes B.takes C.takes NAME ks declared };

    ghost told = { λ attributes declared v before. told_second declared NAME (A.value v.first) (mapped (λ x. Of (B.value x)) v.second) (C.value v.third) before };

    #[inline(always)]
    fn read<P: Places>(
        descent: &mut Descent<'a, '_, P>,
    ) -> Result<OptionalSecond<A, B, C, NAME>, Refusal> {
        optional_second(descent)
    }
}

/// What is read as the second, if it is there.
#[inline(always)]
fn second_of<'a, T: Simple<'a>>(values: OptionalValues) -> Option<T>
    ensures { (d : Datatype) → T.takes d ≡ true → IsReadPerhaps d values.second → inside_perhaps values.second ≡ mapped (λ x. Of (T.value x)) result }
{
    match values.second {
        Some(second) => Some(T::of(second.as_value())),
        None => None,
    }
}

/// Three values of which the second may be absent, of an element that holds nothing else: up to where there is no more.
fn optional_second<'a, A: Simple<'a>, B: Simple<'a>, C: Simple<'a>, P: Places, const NAME: u16>(
    descent: &mut Descent<'a, '_, P>,
) -> Result<OptionalSecond<A, B, C, NAME>, Refusal>
    requires open { IsOpen P.schema descent.old }
    ensures open { IsOpen P.schema descent.new }
    ensures table { descent.new.reader.table.ghost_name ≡ descent.old.reader.table.ghost_name }
    ensures places { descent.new.reader.places.now ≡ descent.old.reader.places.now }
    ensures payload { descent.new.reader.reader.bits ≡ descent.old.reader.reader.bits }
    ensures refused { IfErr result (λ r. IsRefusal (seen_of P.schema descent.old) r) }
    ensures read { ReadsSecond A.takes B.takes C.takes NAME (λ v. A.value v.first) (λ v. mapped (λ x. Of (B.value x)) v.second) (λ v. C.value v.third)
        (seen_of P.schema descent.old) (seen_of P.schema descent.new) result }
{
    match descent.optional_values(NAME) {
        Some(values) => Ok(OptionalSecond {
            first: A::of(values.first.as_value()),
            second: second_of(values),
            third: C::of(values.third.as_value()),
        }),
        None => each_of_optional(descent),
    }
}

/// The same, one by one.
#[inline(never)]
fn each_of_optional<'a, A: Simple<'a>, B: Simple<'a>, C: Simple<'a>, P: Places, const NAME: u16>(
    descent: &mut Descent<'a, '_, P>,
) -> Result<OptionalSecond<A, B, C, NAME>, Refusal>
    requires open { IsOpen P.schema descent.old }
    ensures open { IsOpen P.schema descent.new }
    ensures table { descent.new.reader.table.ghost_name ≡ descent.old.reader.table.ghost_name }
    ensures places { descent.new.reader.places.now ≡ descent.old.reader.places.now }
    ensures payload { descent.new.reader.reader.bits ≡ descent.old.reader.reader.bits }
    ensures refused { IfErr result (λ r. IsRefusal (seen_of P.schema descent.old) r) }
    ensures read { ReadsSecond A.takes B.takes C.takes NAME (λ v. A.value v.first) (λ v. mapped (λ x. Of (B.value x)) v.second) (λ v. C.value v.third)
        (seen_of P.schema descent.old) (seen_of P.schema descent.new) result }
{
    first_child(descent)?;
    let first = value(descent)?;
    let second = optional_value(descent, NAME)?;
    let third = value(descent)?;
    Ok(OptionalSecond {
        first,
        second,
        third,
    })
}

// ---- elements with attributes and children

/// An element with attributes and children that has to be there.
pub fn required<'a, T: ReadRecord<'a>, P: Places>(
    descent: &mut Descent<'a, '_, P>,
) -> Result<T, Refusal>
    requires open { IsOpen P.schema descent.old }
    ensures open { IsOpen P.schema descent.new }
    ensures table { descent.new.reader.table.ghost_name ≡ descent.old.reader.table.ghost_name }
    ensures places { descent.new.reader.places.now ≡ descent.old.reader.places.now }
    ensures payload { descent.new.reader.reader.bits ≡ descent.old.reader.reader.bits }
    ensures refused { IfErr result (λ r. IsRefusal (seen_of P.schema descent.old) r) }
    ensures read { (F : Frame) (attributes : List AttributeOf) (declared : List PlainParticle) (at : ℕ) (told : List TreeEvent) → Reads T.kinds F attributes declared at told (seen_of P.schema descent.old)
        → is_once_at declared at ≡ true → slice_get T.kinds (kind_at declared at) ≡ Some (containing T.attributes T.particles)
        → IfOk result (λ v. Reads T.kinds F attributes declared (suc at) (told_one (name_at declared at) (holding_with (T.given v) (T.parts v)) told) (seen_of P.schema descent.new)) }
{
    let value = record_inside(descent)?;
    descent.next_child()?;
    Ok(value)
}

/// One that may be there.
pub fn optional<'a, T: ReadRecord<'a>, P: Places>(
    descent: &mut Descent<'a, '_, P>,
    name: u16,
) -> Result<Option<T>, Refusal>
    requires open { IsOpen P.schema descent.old }
    ensures open { IsOpen P.schema descent.new }
    ensures table { descent.new.reader.table.ghost_name ≡ descent.old.reader.table.ghost_name }
    ensures places { descent.new.reader.places.now ≡ descent.old.reader.places.now }
    ensures payload { descent.new.reader.reader.bits ≡ descent.old.reader.reader.bits }
    ensures refused { IfErr result (λ r. IsRefusal (seen_of P.schema descent.old) r) }
    ensures read { (F : Frame) (attributes : List AttributeOf) (declared : List PlainParticle) (at : ℕ) (told : List TreeEvent) → Reads T.kinds F attributes declared at told (seen_of P.schema descent.old)
        → is_optional_at declared at ≡ true → name ≡ name_at declared at → slice_get T.kinds (kind_at declared at) ≡ Some (containing T.attributes T.particles)
        → IfOk result (λ v. Reads T.kinds F attributes declared (suc at) (told_perhaps name (mapped (λ x. holding_with (T.given x) (T.parts x)) v) told) (seen_of P.schema descent.new)) }
{
    if !descent.is_at(name) {
        return Ok(None);
    }
    let value = record_inside(descent)?;
    descent.next_child()?;
    Ok(Some(value))
}

/// Those of one name, of which N are accepted.
pub fn records<'a, T: ReadRecord<'a> + Default, P: Places, const N: usize>(
    descent: &mut Descent<'a, '_, P>,
    name: u16,
) -> Result<ArrayVec<T, N>, Refusal>
    requires open { IsOpen P.schema descent.old }
    ensures open { IsOpen P.schema descent.new }
    ensures table { descent.new.reader.table.ghost_name ≡ descent.old.reader.table.ghost_name }
    ensures places { descent.new.reader.places.now ≡ descent.old.reader.places.now }
    ensures payload { descent.new.reader.reader.bits ≡ descent.old.reader.reader.bits }
    ensures refused { IfErr result (λ r. IsRefusal (seen_of P.schema descent.old) r) }
    ensures read { (F : Frame) (attributes : List AttributeOf) (declared : List PlainParticle) (at : ℕ) (told : List TreeEvent) → Reads T.kinds F attributes declared at told (seen_of P.schema descent.old)
        → is_repeated_at declared at N ≡ true → name ≡ name_at declared at → slice_get T.kinds (kind_at declared at) ≡ Some (containing T.attributes T.particles)
        → IfOk result (λ v. Reads T.kinds F attributes declared (suc at) (told_each name (map (λ x. holding_with (T.given x) (T.parts x)) v.items) told) (seen_of P.schema descent.new)) }
{
    let mut items = ArrayVec::new();
    for _ in 0..N {
        if !descent.is_at(name) {
            break;
        }
        items.push(record_inside(descent)?);
        descent.next_child()?;
    }
    Ok(items)
}

// ---- one of several elements

/// One of several elements that has to be there.
pub fn choice<'a, T: Choice<'a>, P: Places>(descent: &mut Descent<'a, '_, P>) -> Result<T, Refusal>
    requires open { IsOpen P.schema descent.old }
    ensures open { IsOpen P.schema descent.new }
    ensures table { descent.new.reader.table.ghost_name ≡ descent.old.reader.table.ghost_name }
    ensures places { descent.new.reader.places.now ≡ descent.old.reader.places.now }
    ensures payload { descent.new.reader.reader.bits ≡ descent.old.reader.reader.bits }
    ensures refused { IfErr result (λ r. IsRefusal (seen_of P.schema descent.old) r) }
    ensures read { (F : Frame) (attributes : List AttributeOf) (declared : List PlainParticle) (at : ℕ) (told : List TreeEvent) → Reads T.kinds F attributes declared at told (seen_of P.schema descent.old)
        → is_required (slice_get declared at) ≡ true → alternatives_at declared at ≡ T.members
        → IfOk result (λ v. Reads T.kinds F attributes declared (suc at) (told_one (T.name v) (T.inside v) told) (seen_of P.schema descent.new)) }
{
    let value = T::read_member(descent)?;
    descent.next_child()?;
    Ok(value)
}

/// One of several elements that may be there.
pub fn optional_choice<'a, T: Group<'a>, P: Places>(
    descent: &mut Descent<'a, '_, P>,
) -> Result<Option<T>, Refusal>
    requires open { IsOpen P.schema descent.old }
    ensures open { IsOpen P.schema descent.new }
    ensures table { descent.new.reader.table.ghost_name ≡ descent.old.reader.table.ghost_name }
    ensures places { descent.new.reader.places.now ≡ descent.old.reader.places.now }
    ensures payload { descent.new.reader.reader.bits ≡ descent.old.reader.reader.bits }
    ensures refused { IfErr result (λ r. IsRefusal (seen_of P.schema descent.old) r) }
    ensures read { (F : Frame) (attributes : List AttributeOf) (declared : List PlainParticle) (at : ℕ) (told : List TreeEvent) → Reads T.kinds F attributes declared at told (seen_of P.schema descent.old)
        → is_single (slice_get declared at) ≡ true → alternatives_at declared at ≡ T.members
        → IfOk result (λ o. Reads T.kinds F attributes declared (suc at) (told_choice (mapped (λ v. (T.name v, T.inside v)) o) told) (seen_of P.schema descent.new)) }
{
    if !descent.is_among(T::names()) {
        return Ok(None);
    }
    let value = T::read_member(descent)?;
    descent.next_child()?;
    Ok(Some(value))
}

/// What a member with a value contains, where the child that has started is this member.
pub fn member_value<'a, T: Simple<'a>, P: Places>(
    descent: &mut Descent<'a, '_, P>,
) -> Result<T, Refusal>
    requires open { IsOpen P.schema descent.old }
    ensures open { IsOpen P.schema descent.new }
    ensures table { descent.new.reader.table.ghost_name ≡ descent.old.reader.table.ghost_name }
    ensures places { descent.new.reader.places.now ≡ descent.old.reader.places.now }
    ensures payload { descent.new.reader.reader.bits ≡ descent.old.reader.reader.bits }
    ensures refused { IfErr result (λ r. IsRefusal (seen_of P.schema descent.old) r) }
    ensures read { (ks : List PlainKind) (F : Frame) (members : List (ℕ × ℕ)) (name kind : ℕ) (d : Datatype) (told : List TreeEvent) → IsChosen ks F members told (seen_of P.schema descent.old)
        → descent.old.child ≡ Some name → kind_among members name ≡ Some kind → simple_at ks kind ≡ Some d → T.takes d ≡ true
        → IfOk result (λ v. (name ≡ F.name) × Leaves ks F (told_inside (Of (T.value v)) told) (seen_of P.schema descent.new)) }
{
    simple_inside(descent)
}

/// What a member with attributes and children contains, where the child that has started is this member. Each has a function of its own,
/// so that a group of many members doesn't fill the room that one of them wants.
#[inline(never)]
pub fn member<'a, T: ReadRecord<'a>, P: Places>(
    descent: &mut Descent<'a, '_, P>,
) -> Result<T, Refusal>
    requires open { IsOpen P.schema descent.old }
    ensures open { IsOpen P.schema descent.new }
    ensures table { descent.new.reader.table.ghost_name ≡ descent.old.reader.table.ghost_name }
    ensures places { descent.new.reader.places.now ≡ descent.old.reader.places.now }
    ensures payload { descent.new.reader.reader.bits ≡ descent.old.reader.reader.bits }
    ensures refused { IfErr result (λ r. IsRefusal (seen_of P.schema descent.old) r) }
    ensures read { (F : Frame) (members : List (ℕ × ℕ)) (name kind : ℕ) (told : List TreeEvent) → IsChosen T.kinds F members told (seen_of P.schema descent.old)
        → descent.old.child ≡ Some name → kind_among members name ≡ Some kind → slice_get T.kinds kind ≡ Some (containing T.attributes T.particles)
        → IfOk result (λ v. (name ≡ F.name) × Leaves T.kinds F (told_inside (holding_with (T.given v) (T.parts v)) told) (seen_of P.schema descent.new)) }
{
    record_inside(descent)
}

/// What is left out of the profile: nothing of it stands there.
pub fn left_out<P: Places>(descent: &Descent<'_, '_, P>)
    ensures read { (ks : List PlainKind) (F : Frame) (attributes : List AttributeOf) (declared : List PlainParticle) (at : ℕ) (told : List TreeEvent)
        → Reads ks F attributes declared at told (seen_of P.schema descent.now) → is_left_out (slice_get declared at) ≡ true
        → Reads ks F attributes declared (suc at) told (seen_of P.schema descent.now) }
{}

// ---- elements that are read into a place that the caller lends

/// The rest of an element that has started and has attributes and children.
fn record_here<'a, T: LargeRecord<'a>, P: Places>(
    place: &mut T,
    descent: &mut Descent<'a, '_, P>,
) -> Result<(), Refusal>
    requires open { IsOpen P.schema descent.old }
    ensures open { IsOpen P.schema descent.new }
    ensures table { descent.new.reader.table.ghost_name ≡ descent.old.reader.table.ghost_name }
    ensures places { descent.new.reader.places.now ≡ descent.old.reader.places.now }
    ensures payload { descent.new.reader.reader.bits ≡ descent.old.reader.reader.bits }
    ensures refused { IfErr result (λ r. IsRefusal (seen_of P.schema descent.old) r) }
    ensures read { (F : Frame) (kind : ℕ) (told : List TreeEvent) → Enters T.kinds F kind told (seen_of P.schema descent.old)
        → slice_get T.kinds kind ≡ Some (containing T.attributes T.particles)
        → IfOk result (λ _. Leaves T.kinds F (told_inside (holding_with (T.given place.new) (T.parts place.new)) told) (seen_of P.schema descent.new)) }
{
    place.read_here(descent)
}

/// The same over what stands in a place that may be empty, or anew where nothing stands there.
fn record_into<'a, T: LargeRecord<'a> + Default, P: Places>(
    place: &mut Option<T>,
    descent: &mut Descent<'a, '_, P>,
) -> Result<(), Refusal>
    requires open { IsOpen P.schema descent.old }
    ensures open { IsOpen P.schema descent.new }
    ensures table { descent.new.reader.table.ghost_name ≡ descent.old.reader.table.ghost_name }
    ensures places { descent.new.reader.places.now ≡ descent.old.reader.places.now }
    ensures payload { descent.new.reader.reader.bits ≡ descent.old.reader.reader.bits }
    ensures refused { IfErr result (λ r. IsRefusal (seen_of P.schema descent.old) r) }
    ensures read { (F : Frame) (kind : ℕ) (told : List TreeEvent) → Enters T.kinds F kind told (seen_of P.schema descent.old)
        → slice_get T.kinds kind ≡ Some (containing T.attributes T.particles)
        → IfOk result (λ _. (v : T) × (place.new ≡ Some v) × Leaves T.kinds F (told_inside (holding_with (T.given v) (T.parts v)) told) (seen_of P.schema descent.new)) }
{
    match place {
        Some(record) => record_here(record, descent),
        None => record_anew(place, descent),
    }
}

/// The same where nothing stands in the place: this fills its room.
#[inline(never)]
fn record_anew<'a, T: LargeRecord<'a> + Default, P: Places>(
    place: &mut Option<T>,
    descent: &mut Descent<'a, '_, P>,
) -> Result<(), Refusal>
    requires open { IsOpen P.schema descent.old }
    ensures open { IsOpen P.schema descent.new }
    ensures table { descent.new.reader.table.ghost_name ≡ descent.old.reader.table.ghost_name }
    ensures places { descent.new.reader.places.now ≡ descent.old.reader.places.now }
    ensures payload { descent.new.reader.reader.bits ≡ descent.old.reader.reader.bits }
    ensures refused { IfErr result (λ r. IsRefusal (seen_of P.schema descent.old) r) }
    ensures read { (F : Frame) (kind : ℕ) (told : List TreeEvent) → Enters T.kinds F kind told (seen_of P.schema descent.old)
        → slice_get T.kinds kind ≡ Some (containing T.attributes T.particles)
        → IfOk result (λ _. (v : T) × (place.new ≡ Some v) × Leaves T.kinds F (told_inside (holding_with (T.given v) (T.parts v)) told) (seen_of P.schema descent.new)) }
{
    let mut record = T::default();
    record_here(&mut record, descent)?;
    *place = Some(record);
    Ok(())
}

/// The same at the nth place of a list that has so many: over what stands there, or in a place more.
fn record_at<'a, T: LargeRecord<'a> + Default, P: Places, const N: usize>(
    list: &mut ArrayVec<T, N>,
    n: usize,
    descent: &mut Descent<'a, '_, P>,
) -> Result<(), Refusal>
    requires open { IsOpen P.schema descent.old }
    requires within { n ≤ length list.old.items }
    requires room { n < N }
    ensures open { IsOpen P.schema descent.new }
    ensures table { descent.new.reader.table.ghost_name ≡ descent.old.reader.table.ghost_name }
    ensures places { descent.new.reader.places.now ≡ descent.old.reader.places.now }
    ensures payload { descent.new.reader.reader.bits ≡ descent.old.reader.reader.bits }
    ensures refused { IfErr result (λ r. IsRefusal (seen_of P.schema descent.old) r) }
    ensures within { n + 1 ≤ length list.new.items }
    ensures read { (F : Frame) (kind : ℕ) (told : List TreeEvent) → Enters T.kinds F kind told (seen_of P.schema descent.old)
        → slice_get T.kinds kind ≡ Some (containing T.attributes T.particles)
        → IfOk result (λ _. (v : T) × (take (n + 1) list.new.items ≡ take n list.old.items ++ v ∷ [])
        × Leaves T.kinds F (told_inside (holding_with (T.given v) (T.parts v)) told) (seen_of P.schema descent.new)) }
{
    if n == list.len() {
        list.push(T::default());
    }
    match list.get_mut(n) {
        Some(record) => record_here(record, descent),
        None => unreachable!(),
    }
}

/// An element with attributes and children that has to be there.
pub fn required_here<'a, T: LargeRecord<'a>, P: Places>(
    place: &mut T,
    descent: &mut Descent<'a, '_, P>,
) -> Result<(), Refusal>
    requires open { IsOpen P.schema descent.old }
    ensures open { IsOpen P.schema descent.new }
    ensures table { descent.new.reader.table.ghost_name ≡ descent.old.reader.table.ghost_name }
    ensures places { descent.new.reader.places.now ≡ descent.old.reader.places.now }
    ensures payload { descent.new.reader.reader.bits ≡ descent.old.reader.reader.bits }
    ensures refused { IfErr result (λ r. IsRefusal (seen_of P.schema descent.old) r) }
    ensures read { (F : Frame) (attributes : List AttributeOf) (declared : List PlainParticle) (at : ℕ) (told : List TreeEvent) → Reads T.kinds F attributes declared at told (seen_of P.schema descent.old)
        → is_once_at declared at ≡ true → slice_get T.kinds (kind_at declared at) ≡ Some (containing T.attributes T.particles)
        → IfOk result (λ _. Reads T.kinds F attributes declared (suc at) (told_one (name_at declared at) (holding_with (T.given place.new) (T.parts place.new)) told) (seen_of P.schema descent.new)) }
{
    record_here(place, descent)?;
    descent.next_child()
}

/// Nothing stands in a place any more. A function of its own, so that others don't fill the room of what they clear.
#[inline(never)]
fn clear<T: Drop>(place: &mut Option<T>)
    ensures { place.new ≡ None }
{
    if place.is_some() {
        *place = None;
    }
}

/// One that may be there.
pub fn optional_here<'a, T: LargeRecord<'a> + Default, P: Places>(
    place: &mut Option<T>,
    descent: &mut Descent<'a, '_, P>,
    name: u16,
) -> Result<(), Refusal>
    requires open { IsOpen P.schema descent.old }
    ensures open { IsOpen P.schema descent.new }
    ensures table { descent.new.reader.table.ghost_name ≡ descent.old.reader.table.ghost_name }
    ensures places { descent.new.reader.places.now ≡ descent.old.reader.places.now }
    ensures payload { descent.new.reader.reader.bits ≡ descent.old.reader.reader.bits }
    ensures refused { IfErr result (λ r. IsRefusal (seen_of P.schema descent.old) r) }
    ensures read { (F : Frame) (attributes : List AttributeOf) (declared : List PlainParticle) (at : ℕ) (told : List TreeEvent) → Reads T.kinds F attributes declared at told (seen_of P.schema descent.old)
        → is_optional_at declared at ≡ true → name ≡ name_at declared at → slice_get T.kinds (kind_at declared at) ≡ Some (containing T.attributes T.particles)
        → IfOk result (λ _. Reads T.kinds F attributes declared (suc at) (told_perhaps name (mapped (λ x. holding_with (T.given x) (T.parts x)) place.new) told) (seen_of P.schema descent.new)) }
{
    if !descent.is_at(name) {
        clear(place);
        return Ok(());
    }
    record_into(place, descent)?;
    descent.next_child()
}

/// Those of one name, of which N are accepted: each over the one that stands at its place, and the list as long as they are many.
pub fn records_here<'a, T: LargeRecord<'a> + Default, P: Places, const N: usize>(
    list: &mut ArrayVec<T, N>,
    descent: &mut Descent<'a, '_, P>,
    name: u16,
) -> Result<(), Refusal>
    requires open { IsOpen P.schema descent.old }
    ensures open { IsOpen P.schema descent.new }
    ensures table { descent.new.reader.table.ghost_name ≡ descent.old.reader.table.ghost_name }
    ensures places { descent.new.reader.places.now ≡ descent.old.reader.places.now }
    ensures payload { descent.new.reader.reader.bits ≡ descent.old.reader.reader.bits }
    ensures refused { IfErr result (λ r. IsRefusal (seen_of P.schema descent.old) r) }
    ensures read { (F : Frame) (attributes : List AttributeOf) (declared : List PlainParticle) (at : ℕ) (told : List TreeEvent) → Reads T.kinds F attributes declared at told (seen_of P.schema descent.old)
        → is_repeated_at declared at N ≡ true → name ≡ name_at declared at → slice_get T.kinds (kind_at declared at) ≡ Some (containing T.attributes T.particles)
        → IfOk result (λ _. Reads T.kinds F attributes declared (suc at) (told_each name (map (λ x. holding_with (T.given x) (T.parts x)) list.new.items) told) (seen_of P.schema descent.new)) }
{
    let mut count = 0;
    for _ in 0..N {
        if !descent.is_at(name) {
            break;
        }
        record_at(list, count, descent)?;
        descent.next_child()?;
        count += 1;
    }
    list.truncate(count);
    Ok(())
}

/// One of several elements that may be there.
pub fn optional_choice_here<'a, T: LargeGroup<'a>, P: Places>(
    place: &mut Option<T>,
    descent: &mut Descent<'a, '_, P>,
) -> Result<(), Refusal>
    requires open { IsOpen P.schema descent.old }
    ensures open { IsOpen P.schema descent.new }
    ensures table { descent.new.reader.table.ghost_name ≡ descent.old.reader.table.ghost_name }
    ensures places { descent.new.reader.places.now ≡ descent.old.reader.places.now }
    ensures payload { descent.new.reader.reader.bits ≡ descent.old.reader.reader.bits }
    ensures refused { IfErr result (λ r. IsRefusal (seen_of P.schema descent.old) r) }
    ensures read { (F : Frame) (attributes : List AttributeOf) (declared : List PlainParticle) (at : ℕ) (told : List TreeEvent) → Reads T.kinds F attributes declared at told (seen_of P.schema descent.old)
        → is_single (slice_get declared at) ≡ true → alternatives_at declared at ≡ T.members
        → IfOk result (λ _. Reads T.kinds F attributes declared (suc at) (told_choice (mapped (λ v. (T.name v, T.inside v)) place.new) told) (seen_of P.schema descent.new)) }
{
    if !descent.is_among(T::names()) {
        clear(place);
        return Ok(());
    }
    T::read_member_into(place, descent)?;
    descent.next_child()
}

/// What a member with attributes and children contains, where the child that has started is this member.
pub fn member_here<'a, T: LargeRecord<'a>, P: Places>(
    place: &mut T,
    descent: &mut Descent<'a, '_, P>,
) -> Result<(), Refusal>
    requires open { IsOpen P.schema descent.old }
    ensures open { IsOpen P.schema descent.new }
    ensures table { descent.new.reader.table.ghost_name ≡ descent.old.reader.table.ghost_name }
    ensures places { descent.new.reader.places.now ≡ descent.old.reader.places.now }
    ensures payload { descent.new.reader.reader.bits ≡ descent.old.reader.reader.bits }
    ensures refused { IfErr result (λ r. IsRefusal (seen_of P.schema descent.old) r) }
    ensures read { (F : Frame) (members : List (ℕ × ℕ)) (name kind : ℕ) (told : List TreeEvent) → IsChosen T.kinds F members told (seen_of P.schema descent.old)
        → descent.old.child ≡ Some name → kind_among members name ≡ Some kind → slice_get T.kinds kind ≡ Some (containing T.attributes T.particles)
        → IfOk result (λ _. (name ≡ F.name) × Leaves T.kinds F (told_inside (holding_with (T.given place.new) (T.parts place.new)) told) (seen_of P.schema descent.new)) }
{
    record_here(place, descent)
}
