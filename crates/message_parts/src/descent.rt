//! How far a message is read.

ghost use Rattle.std.specs.Prelude.{◌≡◌, ◌==◌, IfSome};
ghost use Rattle.std.specs.List.{list_any};
ghost use Rattle.message_parts.specs.Contents.{started, attribute_value};
ghost use Rattle.exi_events.specs.Meaning.{IsLentEvent, IsLent};
ghost use Rattle.exi_events.specs.Event.TheVariants as event_is;

use exi_events::exi_documents::Refusal;
use exi_events::{Event, EventReader, OptionalValues, Table, ThreeValues, Value};
use exi_schema::Places;

/// Reads the children of one element after the other.
#[derive(Drop)]
pub struct Descent<'a, 'p, P: Places> {
    reader: EventReader<'a, 'p, P>,
    child: Option<u16>,
}

/// The name of an element that starts.
fn child_of(event: &Event<'_>) -> Option<u16>
    ensures { result ≡ started event.now }
{
    match event {
        Event::Start(name) => Some(*name),
        _ => None,
    }
}

/// Whether a name is one of these.
fn is_one_of(name: u16, names: &[u16]) -> bool
    ensures { result ≡ list_any (λ n. n == name) names.now }
{
    names.iter().any(|n| *n == name)
}

/// The value of an attribute.
fn attribute_in<'a>(event: Event<'a>) -> Value<'a>
    ensures value { (name : _) (v : _) → event.entry ≡ event_is.Attribute name v → result ≡ v }
    ensures lent { (bits : _) → IsLentEvent bits event.entry → IsLent bits result }
{
    match event {
        Event::Attribute(_, value) => value,
        _ => Value::Bool(false),
    }
}

/// The value of an event that is an attribute.
fn attribute_if<'a>(event: Event<'a>) -> Option<Value<'a>>
    ensures value { result ≡ attribute_value event.entry }
    ensures lent { (bits : _) → IsLentEvent bits event.entry → IfSome result (λ v. IsLent bits v) }
{
    match event {
        Event::Attribute(_, value) => Some(value),
        _ => None,
    }
}

impl<'a, 'p, P: Places> Descent<'a, 'p, P> {
    ghost use Rattle.std.specs.Prelude.{◌≡◌, ℕ, ◌∷◌, [], List, true, false, length, Some, None, slice_get, IfOk, IfErr, IfSome, MatchOption, suc};
    ghost use Rattle.exi_events.specs.Trees.{Event as TreeEvent, Content, Attribute, EndElement};
    ghost use Rattle.message_parts.specs.Values.{IsRead};
    ghost use Rattle.exi_schema.specs.declared.tables.Datatype.{Datatype};
    ghost use Rattle.exi_events.specs.Meaning.{value_of, IsLent};
    ghost use Rattle.exi_schema.specs.declared.tables.AttributeOf.{AttributeOf};
    ghost use Rattle.exi_schema.specs.Plain.{PlainKind, PlainParticle};
    ghost use Rattle.exi_schema.specs.Steps.{simple_at};
    ghost use Rattle.message_parts.specs.Particles.{is_must, is_last_may, attribute_kind, attribute_at, is_child_among};
    ghost use Rattle.message_parts.specs.Reading.{Frame, seen_of, IsOpen, Enters, Leaves, Reads, IsRefusal, IsBetween, ReadsFrom, StartsAt, Begins, IsNumbered, IsAtRoot};
    ghost use Rattle.std.specs.Prelude.{◌≤◌, Bool};
    ghost use Rattle.exi_spec.specs.Bits.{bits_of};
    ghost use Rattle.exi_schema.specs.Schemas.{PlainSchema};
    ghost use Rattle.exi_events.specs.Values.{most_entries};
    ghost use Rattle.exi_events.specs.Reader.{IsTold};
    ghost use Rattle.exi_events.specs.Short.{tree_of};
    ghost use Rattle.message_parts.specs.Sequence.{HoldsThree, AreRead, told_values};
    ghost use Rattle.message_parts.specs.Perhaps.{HoldsPerhaps, AreReadPerhaps, told_second, inside_perhaps};

    /// A descent at the start of a payload of at most 65,536 bytes. The table is emptied; it has room for 8,192 entries.
    pub fn new(payload: &'a [u8], places: &'p P, table: &'p mut Table) -> Descent<'a, 'p, P>
        requires payload { length payload.now ≤ 65536 }
        requires cap { table.old.cap ≡ most_entries }
        ensures open { IsOpen P.schema result }
        ensures table { result.reader.table.ghost_name ≡ table.entry.ghost_name }
        ensures places { result.reader.places.now ≡ places.now }
        ensures payload { result.reader.reader.bits ≡ bits_of payload.now }
        ensures begins { Begins (P.schema places.now) (bits_of payload.now) (seen_of P.schema result) }
    {
        Descent {
            reader: EventReader::new(payload, places, table),
            child: None,
        }
    }

    /// The document number, which names the root.
    #[inline(never)]
    pub fn number(&mut self) -> Result<(), Refusal>
        requires open { IsOpen P.schema self.old }
        ensures open { IsOpen P.schema self.new }
        ensures table { self.new.reader.table.ghost_name ≡ self.old.reader.table.ghost_name }
        ensures places { self.new.reader.places.now ≡ self.old.reader.places.now }
        ensures payload { self.new.reader.reader.bits ≡ self.old.reader.reader.bits }
        ensures refused { IfErr result (λ r. IsRefusal (seen_of P.schema self.old) r) }
        ensures number { (s : PlainSchema) (bits : List Bool) → Begins s bits (seen_of P.schema self.old) → IfOk result (λ _. IsNumbered s bits (seen_of P.schema self.new)) }
    {
        let _number = self.reader.next()?;
        Ok(())
    }

    /// The root, which starts.
    #[inline(never)]
    pub fn root(&mut self) -> Result<(), Refusal>
        requires open { IsOpen P.schema self.old }
        ensures open { IsOpen P.schema self.new }
        ensures table { self.new.reader.table.ghost_name ≡ self.old.reader.table.ghost_name }
        ensures places { self.new.reader.places.now ≡ self.old.reader.places.now }
        ensures payload { self.new.reader.reader.bits ≡ self.old.reader.reader.bits }
        ensures refused { IfErr result (λ r. IsRefusal (seen_of P.schema self.old) r) }
        ensures root { (s : PlainSchema) (bits : List Bool) → IsNumbered s bits (seen_of P.schema self.old) → IfOk result (λ _. IsAtRoot s bits (seen_of P.schema self.new)) }
    {
        let event = self.reader.next()?;
        self.child = child_of(&event);
        Ok(())
    }

    /// That the document ends behind its root.
    #[inline(never)]
    pub fn finish(&mut self) -> Result<(), Refusal>
        requires open { IsOpen P.schema self.old }
        ensures open { IsOpen P.schema self.new }
        ensures table { self.new.reader.table.ghost_name ≡ self.old.reader.table.ghost_name }
        ensures places { self.new.reader.places.now ≡ self.old.reader.places.now }
        ensures payload { self.new.reader.reader.bits ≡ self.old.reader.reader.bits }
        ensures refused { IfErr result (λ r. IsRefusal (seen_of P.schema self.old) r) }
        ensures document { (ks : List PlainKind) (F : Frame) (told : List TreeEvent) (payload : List ℕ) → F.above ≡ [] → Leaves ks F told (seen_of P.schema self.old)
            → bits_of payload ≡ F.bits → IfOk result (λ _. IsTold F.schema (EndElement ∷ told) payload) }
    {
        let _finished = self.reader.next()?;
        Ok(())
    }

    /// Ends the reading, wherever it stands, and gives the table back.
    pub fn end(self) -> &'p mut Table
        ensures same_reference { result.ghost_name ≡ self.entry.reader.table.ghost_name }
        ensures table { result.now ≡ self.entry.reader.table.now }
    {
        self.reader.end()
    }

    /// The next child, or that there is none.
    #[inline(never)]
    pub fn next_child(&mut self) -> Result<(), Refusal>
        requires open { IsOpen P.schema self.old }
        ensures open { IsOpen P.schema self.new }
        ensures table { self.new.reader.table.ghost_name ≡ self.old.reader.table.ghost_name }
        ensures places { self.new.reader.places.now ≡ self.old.reader.places.now }
        ensures payload { self.new.reader.reader.bits ≡ self.old.reader.reader.bits }
        ensures refused { IfErr result (λ r. IsRefusal (seen_of P.schema self.old) r) }
        ensures child { (ks : List PlainKind) (F : Frame) (attributes : List AttributeOf) (declared : List PlainParticle) (at copies : ℕ) (told : List TreeEvent)
            → IsBetween ks F attributes declared at copies told (seen_of P.schema self.old)
            → IfOk result (λ _. ReadsFrom ks F attributes declared at copies told (seen_of P.schema self.new)) }
    {
        let event = self.reader.next()?;
        self.child = child_of(&event);
        Ok(())
    }

    /// Whether the child that has started has this name.
    pub fn is_at(&self, name: u16) -> bool
        ensures here { result ≡ true → self.now.child ≡ Some name }
        ensures absent { result ≡ false → self.now.child ≡ Some name → ⊥ }
    {
        self.child == Some(name)
    }

    /// Whether the child that has started has one of these names.
    pub fn is_among(&self, names: &[u16]) -> bool
        ensures { result ≡ is_child_among names.now self.now.child }
    {
        match self.child {
            Some(name) => is_one_of(name, names),
            None => false,
        }
    }

    /// The value of the element that has started, and its end.
    #[inline(always)]
    pub fn value(&mut self) -> Result<Value<'a>, Refusal>
        requires open { IsOpen P.schema self.old }
        ensures open { IsOpen P.schema self.new }
        ensures table { self.new.reader.table.ghost_name ≡ self.old.reader.table.ghost_name }
        ensures places { self.new.reader.places.now ≡ self.old.reader.places.now }
        ensures payload { self.new.reader.reader.bits ≡ self.old.reader.reader.bits }
        ensures refused { IfErr result (λ r. IsRefusal (seen_of P.schema self.old) r) }
        ensures lent { IfOk result (λ v. IsLent self.old.reader.reader.bits v) }
        ensures value { (ks : List PlainKind) (F : Frame) (kind : ℕ) (d : Datatype) (told : List TreeEvent) → simple_at ks kind ≡ Some d
            → Enters ks F kind told (seen_of P.schema self.old)
            → IfOk result (λ v. IsRead d (value_of v) × Leaves ks F (Content (value_of v) ∷ told) (seen_of P.schema self.new)) }
    {
        let value = self.reader.value()?;
        Ok(value)
    }

    /// The values of the element that has started, and its end, where it is a sequence of three values of few bits and nothing else.
    /// Anywhere else nothing is taken, and `None` is answered.
    #[inline(always)]
    pub fn three_values(&mut self) -> Option<ThreeValues>
        requires open { IsOpen P.schema self.old }
        ensures open { IsOpen P.schema self.new }
        ensures table { self.new.reader.table.ghost_name ≡ self.old.reader.table.ghost_name }
        ensures places { self.new.reader.places.now ≡ self.old.reader.places.now }
        ensures payload { self.new.reader.reader.bits ≡ self.old.reader.reader.bits }
        ensures none { result ≡ None → self.new ≡ self.old }
        ensures values { (ks : List PlainKind) (F : Frame) (declared : List PlainParticle) (told : List TreeEvent) (first second third : Datatype)
            → StartsAt ks F [] declared 0 told (seen_of P.schema self.old) → HoldsThree ks declared first second third
            → IfSome result (λ three. AreRead first second third three
            × Reads ks F [] declared 3 (told_values declared three told) (seen_of P.schema self.new)) }
    {
        let values = self.reader.three_values()?;
        self.child = None;
        Some(values)
    }

    /// The values of the element that has started, and its end, where it is a sequence of three values of few bits of which the second, of this
    /// name, may be absent, and nothing else. Anywhere else nothing is taken, and `None` is answered.
    #[inline(always)]
    pub fn optional_values(&mut self, name: u16) -> Option<OptionalValues>
        requires open { IsOpen P.schema self.old }
        ensures open { IsOpen P.schema self.new }
        ensures table { self.new.reader.table.ghost_name ≡ self.old.reader.table.ghost_name }
        ensures places { self.new.reader.places.now ≡ self.old.reader.places.now }
        ensures payload { self.new.reader.reader.bits ≡ self.old.reader.reader.bits }
        ensures none { result ≡ None → self.new ≡ self.old }
        ensures values { (ks : List PlainKind) (F : Frame) (declared : List PlainParticle) (told : List TreeEvent) (first second third : Datatype)
            → StartsAt ks F [] declared 0 told (seen_of P.schema self.old) → HoldsPerhaps ks declared name first second third
            → IfSome result (λ values. AreReadPerhaps first second third values
            × Reads ks F [] declared 3 (told_second declared name (tree_of values.first) (inside_perhaps values.second) (tree_of values.third) told) (seen_of P.schema self.new)) }
    {
        let values = self.reader.optional_values(name)?;
        self.child = None;
        Some(values)
    }

    /// An attribute of the element that has started, one that has to be there.
    #[inline(never)]
    pub fn attribute(&mut self) -> Result<Value<'a>, Refusal>
        requires open { IsOpen P.schema self.old }
        ensures open { IsOpen P.schema self.new }
        ensures table { self.new.reader.table.ghost_name ≡ self.old.reader.table.ghost_name }
        ensures places { self.new.reader.places.now ≡ self.old.reader.places.now }
        ensures payload { self.new.reader.reader.bits ≡ self.old.reader.reader.bits }
        ensures refused { IfErr result (λ r. IsRefusal (seen_of P.schema self.old) r) }
        ensures lent { IfOk result (λ v. IsLent self.old.reader.reader.bits v) }
        ensures attribute { (ks : List PlainKind) (F : Frame) (attributes : List AttributeOf) (declared : List PlainParticle) (at : ℕ) (d : Datatype) (told : List TreeEvent)
            → StartsAt ks F attributes declared at told (seen_of P.schema self.old) → is_must (slice_get attributes at) ≡ true
            → simple_at ks (attribute_kind (slice_get attributes at)) ≡ Some d
            → IfOk result (λ v. IsRead d (value_of v) × StartsAt ks F attributes declared (suc at) (Attribute (attribute_at attributes at) (value_of v) ∷ told) (seen_of P.schema self.new)) }
    {
        let event = self.reader.next()?;
        Ok(attribute_in(event))
    }

    /// The last attribute of the element that has started, where it is there; else the first child is looked at.
    #[inline(never)]
    pub fn last_attribute(&mut self) -> Result<Option<Value<'a>>, Refusal>
        requires open { IsOpen P.schema self.old }
        ensures open { IsOpen P.schema self.new }
        ensures table { self.new.reader.table.ghost_name ≡ self.old.reader.table.ghost_name }
        ensures places { self.new.reader.places.now ≡ self.old.reader.places.now }
        ensures payload { self.new.reader.reader.bits ≡ self.old.reader.reader.bits }
        ensures refused { IfErr result (λ r. IsRefusal (seen_of P.schema self.old) r) }
        ensures lent { IfOk result (λ o. IfSome o (λ v. IsLent self.old.reader.reader.bits v)) }
        ensures attribute { (ks : List PlainKind) (F : Frame) (attributes : List AttributeOf) (declared : List PlainParticle) (at : ℕ) (d : Datatype) (told : List TreeEvent)
            → StartsAt ks F attributes declared at told (seen_of P.schema self.old) → is_last_may attributes at ≡ true
            → simple_at ks (attribute_kind (slice_get attributes at)) ≡ Some d
            → IfOk result (λ o. MatchOption o (Reads ks F attributes declared 0 told (seen_of P.schema self.new))
            (λ v. IsRead d (value_of v) × StartsAt ks F attributes declared (suc at) (Attribute (attribute_at attributes at) (value_of v) ∷ told) (seen_of P.schema self.new))) }
    {
        let event = self.reader.next()?;
        self.child = child_of(&event);
        Ok(attribute_if(event))
    }
}
