//! What an element contains.

ghost use Rattle.std.specs.Prelude.{◌≡◌, ℕ, List, Bool, true, Some, IfOk, IfErr, IfSome, length, [], ◌∷◌};
ghost use Rattle.exi_events.specs.Trees.{Event as TreeEvent, Value as TreeValue};
ghost use Rattle.message_parts.specs.Values.{IsRead};
ghost use Rattle.exi_schema.specs.declared.tables.Datatype.{Datatype};
ghost use Rattle.exi_schema.specs.Schemas.{are_distinct};
ghost use Rattle.exi_events.specs.Meaning.{value_of, IsShaped, IsLent};
ghost use Rattle.exi_schema.specs.Plain.{PlainKind, PlainParticle};
ghost use Rattle.message_parts.specs.Contents.{Inside, Given, Part, told_parts, told_given, told_inside, given_onto, parts_onto, one_onto, one, perhaps, Of, IsThree, IsTwoOrThree, IsNamedOf, IsSecond, mapped};
ghost use Rattle.message_parts.specs.Particles.{names_among};
ghost use Rattle.message_parts.specs.Reading.{Frame, seen_of, IsOpen, Leaves, Reads, IsRefusal, IsChosen, StartsAt, names_in};
ghost use Rattle.message_parts.specs.Writing.{Target, Writes, put_of};
ghost use Rattle.exi_events.specs.Writer.{IsReadyToPut, KeepsLent};
ghost use Rattle.exi_schema.specs.declared.tables.AttributeOf.{AttributeOf};

use crate::descent::Descent;
use exi_events::exi_documents::Refusal;
use exi_events::{EventWriter, NamedValue, OptionalChildren, ThreeChildren, Value, short_of};
use exi_schema::Places;

/// A value of a simple kind, how it is put and how it is read.
pub trait Simple<'a>: Drop {
    /// The datatypes whose values it takes.
    ghost takes: { Datatype → Bool };

    /// What it is.
    ghost value: { Self → TreeValue };

    /// As it is written.
    fn as_value(&self) -> Value<'_>
        ensures shaped { IsShaped result }
        ensures value { value_of result ≡ value self.now };

    /// What is read as a value of one of these datatypes.
    fn of(read: Value<'a>) -> Self
        requires lent { (bits : List Bool) × IsLent bits read }
        ensures { (d : Datatype) → takes d ≡ true → IsRead d (value_of read.entry) → value result ≡ value_of read.entry };
}

/// What an element of a complex kind contains, attributes and then elements, how it is declared, and how it is put.
pub trait PutRecord: Drop {
    /// The declarations of its schema.
    ghost kinds: { List PlainKind };

    /// Those of its attributes.
    ghost attributes: { List AttributeOf };

    /// Those of its elements.
    ghost particles: { List PlainParticle };

    /// No two elements have one name.
    ghost apart: { are_distinct (names_in particles) ≡ true };

    /// What stands at its attributes.
    ghost given: { Self → List Given };

    /// What stands at its particles.
    ghost parts: { Self → List Part };

    /// Its children, for a type that is three values of few bits and nothing else, so that they are put at once; else `None`.
    #[inline(always)]
    fn three_values(&self) -> Option<ThreeChildren>
        ensures { IfSome result (λ three. IsThree three (given self.now) (parts self.now)) }
    {
        None
    }

    /// Its children, for a type that is three values of few bits of which the second may be absent, and nothing else, so that they are put at
    /// once; else `None`.
    #[inline(always)]
    fn optional_values(&self) -> Option<OptionalChildren>
        ensures { IfSome result (λ values. IsTwoOrThree values (given self.now) (parts self.now)) }
    {
        None
    }

    /// Puts the attributes and the elements.
    fn write<P: Places>(&self, writer: &mut EventWriter<'_, '_, P>)
        requires ready { IsReadyToPut writer.old }
        ensures ready { IsReadyToPut writer.new }
        ensures lent { KeepsLent writer.old writer.new }
        ensures write { (F : Target) (rest : List TreeEvent) → Writes F (given_onto (given self.now) (parts_onto (parts self.now) rest)) (put_of writer.old)
            → Writes F rest (put_of writer.new) };
}

/// Attributes and elements of which a record is made.
pub trait Contents<'a>: Drop {
    /// Whether they are what these attributes and particles declare.
    ghost stand: { List PlainKind → List AttributeOf → List PlainParticle → Type 0 };

    /// What is told with them, the newest first.
    ghost told: { List AttributeOf → List PlainParticle → Self → List TreeEvent → List TreeEvent };

    /// Reads them, up to where there is no more.
    fn read<P: Places>(descent: &mut Descent<'a, '_, P>) -> Result<Self, Refusal>
        requires open { IsOpen P.schema descent.old }
        ensures open { IsOpen P.schema descent.new }
        ensures table { descent.new.reader.table.ghost_name ≡ descent.old.reader.table.ghost_name }
        ensures places { descent.new.reader.places.now ≡ descent.old.reader.places.now }
        ensures payload { descent.new.reader.reader.bits ≡ descent.old.reader.reader.bits }
        ensures refused { IfErr result (λ r. IsRefusal (seen_of P.schema descent.old) r) }
        ensures read { (ks : List PlainKind) (F : Frame) (attributes : List AttributeOf) (declared : List PlainParticle) (before : List TreeEvent)
            → StartsAt ks F attributes declared 0 before (seen_of P.schema descent.old) → stand ks attributes declared
            → IfOk result (λ v. Reads ks F attributes declared (length declared) (told attributes declared v before) (seen_of P.schema descent.new)) };
}

/// What an element of a complex kind contains, and of what it is made.
pub trait Record<'a>: PutRecord {
    /// Of what it is made.
    type Made: Contents<'a>;

    /// It, made of that.
    fn of(made: Self::Made) -> Self
        ensures { (before : List TreeEvent) → Self.Made.told Self.attributes Self.particles made before ≡ told_parts (Self.parts result) (told_given (Self.given result) before) };

    /// That is what is declared.
    ghost declared: { Self.Made.stand Self.kinds Self.attributes Self.particles };
}

/// What an element of a complex kind contains, as it is read.
pub trait ReadRecord<'a>: PutRecord {
    /// Reads the attributes and the elements, up to where there is no more.
    fn read<P: Places>(descent: &mut Descent<'a, '_, P>) -> Result<Self, Refusal>
        requires open { IsOpen P.schema descent.old }
        ensures open { IsOpen P.schema descent.new }
        ensures table { descent.new.reader.table.ghost_name ≡ descent.old.reader.table.ghost_name }
        ensures places { descent.new.reader.places.now ≡ descent.old.reader.places.now }
        ensures payload { descent.new.reader.reader.bits ≡ descent.old.reader.reader.bits }
        ensures refused { IfErr result (λ r. IsRefusal (seen_of P.schema descent.old) r) }
        ensures read { (F : Frame) (before : List TreeEvent) → StartsAt Self.kinds F Self.attributes Self.particles 0 before (seen_of P.schema descent.old)
            → IfOk result (λ v. Reads Self.kinds F Self.attributes Self.particles (length Self.particles) (told_parts (Self.parts v) (told_given (Self.given v) before)) (seen_of P.schema descent.new)) };
}

/// What an element of a complex kind contains, as it is read into a place that the caller lends: for types that are too large to move.
pub trait LargeRecord<'a>: PutRecord {
    /// Reads the attributes and the elements, up to where there is no more. What it is after a refusal is not told.
    fn read_here<P: Places>(&mut self, descent: &mut Descent<'a, '_, P>) -> Result<(), Refusal>
        requires open { IsOpen P.schema descent.old }
        ensures open { IsOpen P.schema descent.new }
        ensures table { descent.new.reader.table.ghost_name ≡ descent.old.reader.table.ghost_name }
        ensures places { descent.new.reader.places.now ≡ descent.old.reader.places.now }
        ensures payload { descent.new.reader.reader.bits ≡ descent.old.reader.reader.bits }
        ensures refused { IfErr result (λ r. IsRefusal (seen_of P.schema descent.old) r) }
        ensures read { (F : Frame) (told : List TreeEvent) → StartsAt Self.kinds F Self.attributes Self.particles 0 told (seen_of P.schema descent.old)
            → IfOk result (λ _. Reads Self.kinds F Self.attributes Self.particles (length Self.particles) (told_parts (Self.parts self.new) (told_given (Self.given self.new) told)) (seen_of P.schema descent.new)) };
}

/// One of several elements, of a choice or of a substitution group, which may stand there, and how it is put.
pub trait PutChoice: Drop {
    /// The declarations of its schema.
    ghost kinds: { List PlainKind };

    /// The names and kinds of the elements that may stand there.
    ghost members: { List (ℕ × ℕ) };

    /// Which it is.
    ghost name: { Self → ℕ };

    /// What it contains.
    ghost inside: { Self → Inside };

    /// Puts it.
    fn write_member<P: Places>(&self, writer: &mut EventWriter<'_, '_, P>)
        requires ready { IsReadyToPut writer.old }
        ensures ready { IsReadyToPut writer.new }
        ensures lent { KeepsLent writer.old writer.new }
        ensures write { (F : Target) (rest : List TreeEvent) → Writes F (one_onto (name self.now) (inside self.now) rest) (put_of writer.old)
            → Writes F rest (put_of writer.new) };
}

/// One of several elements, as it is read.
pub trait Choice<'a>: PutChoice {
    /// Reads the rest of the element, which has started.
    fn read_member<P: Places>(descent: &mut Descent<'a, '_, P>) -> Result<Self, Refusal>
        requires open { IsOpen P.schema descent.old }
        ensures open { IsOpen P.schema descent.new }
        ensures table { descent.new.reader.table.ghost_name ≡ descent.old.reader.table.ghost_name }
        ensures places { descent.new.reader.places.now ≡ descent.old.reader.places.now }
        ensures payload { descent.new.reader.reader.bits ≡ descent.old.reader.reader.bits }
        ensures refused { IfErr result (λ r. IsRefusal (seen_of P.schema descent.old) r) }
        ensures read { (F : Frame) (told : List TreeEvent) → IsChosen Self.kinds F Self.members told (seen_of P.schema descent.old)
            → IfOk result (λ v. (Self.name v ≡ F.name) × Leaves Self.kinds F (told_inside (Self.inside v) told) (seen_of P.schema descent.new)) };
}

/// One of several elements where none may stand either.
pub trait Group<'a>: Choice<'a> {
    /// The names of the elements that may stand there.
    fn names() -> &'static [u16]
        ensures { result.now ≡ names_among Self.members };
}

/// One of several elements where none may stand either, as it is read into a place that the caller lends.
pub trait LargeGroup<'a>: PutChoice {
    /// The names of the elements that may stand there.
    fn names() -> &'static [u16]
        ensures { result.now ≡ names_among Self.members };

    /// Reads the rest of the element, which has started. What stands in the place after a refusal is not told.
    fn read_member_into<P: Places>(
        place: &mut Option<Self>,
        descent: &mut Descent<'a, '_, P>,
    ) -> Result<(), Refusal>
        requires open { IsOpen P.schema descent.old }
        ensures open { IsOpen P.schema descent.new }
        ensures table { descent.new.reader.table.ghost_name ≡ descent.old.reader.table.ghost_name }
        ensures places { descent.new.reader.places.now ≡ descent.old.reader.places.now }
        ensures payload { descent.new.reader.reader.bits ≡ descent.old.reader.reader.bits }
        ensures refused { IfErr result (λ r. IsRefusal (seen_of P.schema descent.old) r) }
        ensures read { (F : Frame) (told : List TreeEvent) → IsChosen Self.kinds F Self.members told (seen_of P.schema descent.old)
            → IfOk result (λ _. (v : Self) × (place.new ≡ Some v) × (Self.name v ≡ F.name) × Leaves Self.kinds F (told_inside (Self.inside v) told) (seen_of P.schema descent.new)) };
}

/// One of several elements, or what stands at the root of a document, as it is read into a place that the caller lends.
pub trait LargeChoice<'a>: PutChoice {
    /// Reads the rest of the element, which has started. What it is after a refusal is not told.
    fn read_member_here<P: Places>(
        &mut self,
        descent: &mut Descent<'a, '_, P>,
    ) -> Result<(), Refusal>
        requires open { IsOpen P.schema descent.old }
        ensures open { IsOpen P.schema descent.new }
        ensures table { descent.new.reader.table.ghost_name ≡ descent.old.reader.table.ghost_name }
        ensures places { descent.new.reader.places.now ≡ descent.old.reader.places.now }
        ensures payload { descent.new.reader.reader.bits ≡ descent.old.reader.reader.bits }
        ensures refused { IfErr result (λ r. IsRefusal (seen_of P.schema descent.old) r) }
        ensures read { (F : Frame) (told : List TreeEvent) → IsChosen Self.kinds F Self.members told (seen_of P.schema descent.old)
            → IfOk result (λ _. (Self.name self.new ≡ F.name) × Leaves Self.kinds F (told_inside (Self.inside self.new) told) (seen_of P.schema descent.new)) };
}

/// The root of a document.
pub trait Root: PutChoice {
    /// Its document number.
    ghost number: { Self → ℕ };

    /// Its document number.
    fn number(&self) -> u32
        ensures { result ≡ number self.now };
}

/// A value with the number of its element's name, where it has few bits.
#[inline(always)]
fn named<'a, T: Simple<'a>>(name: u16, value: &T) -> Option<NamedValue>
    ensures { IfSome result (λ it. IsNamedOf it name (T.value value.now)) }
{
    let value = short_of(&value.as_value())?;
    Some(NamedValue { name, value })
}

/// The children of an element of three values, each with the number of its name, where they have few bits.
#[inline(always)]
pub fn three_children<'a, A: Simple<'a>, B: Simple<'a>, C: Simple<'a>>(
    first_name: u16,
    first: &A,
    second_name: u16,
    second: &B,
    third_name: u16,
    third: &C,
) -> Option<ThreeChildren>
    ensures { IfSome result (λ three. IsThree three [] (one first_name (Of (A.value first.now)) ∷ one second_name (Of (B.value second.now)) ∷ one third_name (Of (C.value third.now)) ∷ [])) }
{
    let first = named(first_name, first)?;
    let second = named(second_name, second)?;
    let third = named(third_name, third)?;
    Some(ThreeChildren {
        first,
        second,
        third,
    })
}

/// A value that may be absent as `named` makes it. `None` where it is there and doesn't have few bits.
#[inline(always)]
fn second_named<'a, T: Simple<'a>>(name: u16, value: &Option<T>) -> Option<Option<NamedValue>>
    ensures { IfSome result (λ it. IsSecond it name (mapped (λ x. Of (T.value x)) value.now)) }
{
    match value {
        Some(value) => Some(Some(named(name, value)?)),
        None => Some(None),
    }
}

/// The children of an element of three values of which the second may be absent, each with the number of its name, where they have few bits.
#[inline(always)]
pub fn optional_children<'a, A: Simple<'a>, B: Simple<'a>, C: Simple<'a>>(
    first_name: u16,
    first: &A,
    second_name: u16,
    second: &Option<B>,
    third_name: u16,
    third: &C,
) -> Option<OptionalChildren>
    ensures { IfSome result (λ values. IsTwoOrThree values [] (one first_name (Of (A.value first.now)) ∷ perhaps second_name (mapped (λ x. Of (B.value x)) second.now) ∷ one third_name (Of (C.value third.now)) ∷ [])) }
{
    let first = named(first_name, first)?;
    let second = second_named(second_name, second)?;
    let third = named(third_name, third)?;
    Some(OptionalChildren {
        first,
        second,
        third,
    })
}
