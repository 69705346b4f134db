//! Events read from a payload.

ghost use Rattle.std.specs.Prelude.{◌≡◌, ◌+◌, ◌%◌, ◌≤◌, ◌<◌, Bool, true, false, List, length, Some, IfOk, IfErr};
ghost use Rattle.exi_writing.specs.Meaning.{IsLent, IsLentEvent};
ghost use Rattle.exi_bits.specs.Reading.{ahead};
ghost use Rattle.exi_writing.specs.RefusalCause.TheVariants as cause;
ghost use Rattle.exi_writing.specs.Event.TheVariants as event;

use crate::inside::{take_inside, take_whole};
use crate::open::{OpenElement, OpenElements};
use crate::optional::{OptionalValues, take_optional};
use crate::sequence::{ThreeValues, take_three};
use crate::step::take_front;
use exi_schema::{Datatype, OptionalSequence, Place, Places, SequenceChild};
use exi_writing::exi_documents::{Refusal, RefusalCause};
use exi_writing::exi_reading::PayloadReader;
use exi_writing::exi_values::{Event, Table, Value};

/// How far a document is.
#[derive(Clone, Copy)]
pub(crate) enum Phase {
    /// Nothing is taken.
    Before,
    /// The document number is taken, and names this root.
    AtRoot { name: u16, kind: u16 },
    /// The root has started.
    Inside,
}

/// The innermost element, which is of a simple kind and of which nothing is taken.
#[derive(Clone, Copy)]
struct SimpleElement {
    top: OpenElement,
    datatype: Datatype,
}

/// Reads the events of a payload, one after the other.
///
/// The events up to `Finished` are those of the one tree that the payload spells, in document order; a text or a Binary is lent
/// from the payload. Where the payload spells no tree, the first item that can't be taken is refused, and from then on the same refusal
/// is answered.
#[derive(Drop)]
pub struct EventReader<'a, 'p, P: Places> {
    reader: PayloadReader<'a>,
    places: &'p P,
    table: &'p mut Table,
    phase: Phase,
    elements: OpenElements,
    refused: Option<Refusal>,
}

impl<'a, 'p, P: Places> EventReader<'a, 'p, P> {
    ghost use Rattle.std.specs.Prelude.{◌≡◌, ℕ, ◌≤◌, ◌<◌, ◌∷◌, [], true, List, length, Some, None, IfSome, IfOk, IfErr, Err};
    ghost use Rattle.exi_spec.specs.Bits.{bits_of};
    ghost use Rattle.exi_schema.specs.Offers.{IsPlace};
    ghost use Rattle.exi_writing.specs.Documents.{first};
    ghost use Rattle.exi_writing.specs.Grammar.{Opened, opened, Inside};
    ghost use Rattle.exi_writing.specs.Refusals.{IsRefused};
    ghost use Rattle.exi_schema.specs.declared.tables.Datatype.{Datatype};
    ghost use Rattle.exi_schema.specs.Steps.{simple_at};
    ghost use Rattle.exi_events.specs.Inside.{HasTop};
    ghost use Rattle.exi_schema.specs.declared.places.OptionalSequence.{OptionalSequence as OptionalChildren};
    ghost use Rattle.exi_schema.specs.declared.places.SequenceChild.{SequenceChild as ChildOfSequence};
    ghost use Rattle.exi_events.specs.Sequence.{AtSequence, HoldsSequence, HoldsThree, TakesSequence, values_of};
    ghost use Rattle.exi_events.specs.Optional.{AtOptional, HoldsOptional, HoldsTwoOrThree, TakesOptional};
    ghost use Rattle.exi_events.specs.declared.reader.Phase.TheVariants as phase;
    ghost use Rattle.exi_writing.specs.Trees.{Event as TreeEvent};
    ghost use Rattle.exi_writing.specs.Values.{most_entries};
    ghost use Rattle.exi_writing.specs.Meaning.{IsLent, IsLentEvent, event_of, value_of};
    ghost use Rattle.exi_writing.specs.Event.TheVariants as event;
    ghost use Rattle.exi_events.specs.Reader.{innermost_place, standing_of, reading_of, events_left, IsReady, IsNext, IsRefusedAt, HasTold, IsTold, TakesValue};

    /// A reader at the start of a payload of at most 65,536 bytes. The table is emptied; it has room for 8,192 entries.
    pub fn new(payload: &'a [u8], places: &'p P, table: &'p mut Table) -> EventReader<'a, 'p, P>
        requires payload { length payload.now ≤ 65536 }
        requires cap { table.old.cap ≡ most_entries }
        ensures same_reference { result.table.ghost_name ≡ table.entry.ghost_name }
        ensures places { result.places.now ≡ places.now }
        ensures payload { result.reader ≡ record { bits = bits_of payload.now; place = 0 } }
        ensures open_still { result.refused ≡ None }
        ensures ready { IsReady P.schema result }
        ensures told { HasTold (reading_of P.schema result) [] }
    {
        table.clear();
        EventReader {
            reader: PayloadReader::new(payload),
            places,
            table,
            phase: Phase::Before,
            elements: OpenElements::new(),
            refused: None,
        }
    }

    /// The place reached in the innermost element that has started and not ended, a place of the schema; `None` where there is no such element.
    pub fn place(&self) -> Option<Place>
        requires ready { IsReady P.schema self.now }
        ensures place { result ≡ innermost_place (reading_of P.schema self.now).state.standing }
        ensures of_schema { IfSome result (λ place. IsPlace (P.schema self.now.places.now).kinds place) }
    {
        self.elements.innermost().map(|top| top.place)
    }

    #[tactic(auto, using(crate::proofs::Told::told_all, crate::proofs::Told::told_refused, crate::proofs::Told::fewer_left))]
    /// The next event: `Finished` behind the end of the root, where less than a byte is left, and from then on.
    #[inline(always)]
    pub fn next(&mut self) -> Result<Event<'a>, Refusal>
        requires ready { IsReady P.schema self.old }
        ensures ready { IsReady P.schema self.new }
        ensures same_reference { self.new.table.ghost_name ≡ self.old.table.ghost_name }
        ensures places { self.new.places.now ≡ self.old.places.now }
        ensures payload { self.new.reader.bits ≡ self.old.reader.bits }
        ensures lent { IfOk result (λ e. IsLentEvent self.old.reader.bits e) }
        ensures again { (r : _) → self.old.refused ≡ Some r → (result ≡ Err r) × (self.new.refused ≡ Some r) }
        ensures next { IfOk result (λ e. IsNext (reading_of P.schema self.old) (reading_of P.schema self.new) (event_of e)) }
        // A loop up to the end of the document ends.
        ensures fewer { IfOk result (λ e. (e ≡ event.Finished → ⊥) → events_left (reading_of P.schema self.new) < events_left (reading_of P.schema self.old)) }
        ensures open_still { IfOk result (λ e. (self.old.refused ≡ None) × (self.new.refused ≡ None)) }
        ensures refused { self.old.refused ≡ None → IfErr result (λ r. IsRefusedAt (reading_of P.schema self.old) r × (self.new.refused ≡ Some r)) }
        // Of a whole payload: the events are those of its tree, or this is its refusal.
        ensures told { (events : List TreeEvent)
            → HasTold (reading_of P.schema self.old) events
            → IfOk result (λ e. (told : TreeEvent) → event_of e ≡ Some told
            → HasTold (reading_of P.schema self.new) (told ∷ events)) }
        ensures document { (payload : List ℕ) (events : List TreeEvent) → bits_of payload ≡ self.old.reader.bits
            → HasTold (reading_of P.schema self.old) events
            → IfOk result (λ e. event_of e ≡ None → IsTold (P.schema self.old.places.now) events payload) }
        ensures refusal { (payload : List ℕ) (events : List TreeEvent) → bits_of payload ≡ self.old.reader.bits → self.old.refused ≡ None
            → HasTold (reading_of P.schema self.old) events
            → IfErr result (λ r. IsRefused (P.schema self.old.places.now) payload r.cause r.bit) }
    {
        if let Some(refusal) = self.refused {
            return Err(refusal);
        }
        match self.step() {
            Ok(event) => Ok(event),
            Err(refusal) => Err(kept(&mut self.refused, refusal)),
        }
    }

    /// The value of the innermost element and its end, where that is of a simple kind and nothing of it is taken: what two calls of
    /// `next` tell. Anywhere else it is one call of `next`, of which the value is answered.
    #[inline(always)]
    pub fn value(&mut self) -> Result<Value<'a>, Refusal>
        requires ready { IsReady P.schema self.old }
        ensures ready { IsReady P.schema self.new }
        ensures same_reference { self.new.table.ghost_name ≡ self.old.table.ghost_name }
        ensures places { self.new.places.now ≡ self.old.places.now }
        ensures payload { self.new.reader.bits ≡ self.old.reader.bits }
        ensures lent { IfOk result (λ v. IsLent self.old.reader.bits v) }
        ensures again { (r : _) → self.old.refused ≡ Some r → (result ≡ Err r) × (self.new.refused ≡ Some r) }
        ensures open_still { IfOk result (λ _. (self.old.refused ≡ None) × (self.new.refused ≡ None)) }
        ensures kept { self.old.refused ≡ None → IfErr result (λ r. self.new.refused ≡ Some r) }
        ensures value { (name kind : ℕ) (above : List Opened) (d : Datatype) → standing_of self.old.phase self.old.elements ≡ Inside (opened name (first kind)) above
            → simple_at (P.schema self.old.places.now).kinds kind ≡ Some d
            → IfOk result (λ v. TakesValue (reading_of P.schema self.old) (reading_of P.schema self.new) (value_of v)) }
        ensures told { (events : List TreeEvent) → HasTold (reading_of P.schema self.old) events
            → IfOk result (λ _. (more : List TreeEvent) × HasTold (reading_of P.schema self.new) more) }
        ensures refusal { (payload : List ℕ) (events : List TreeEvent) → bits_of payload ≡ self.old.reader.bits → self.old.refused ≡ None
            → HasTold (reading_of P.schema self.old) events
            → IfErr result (λ r. IsRefused (P.schema self.old.places.now) payload r.cause r.bit) }
    {
        if let Some(refusal) = self.refused {
            return Err(refusal);
        }
        match self.whole_value() {
            Ok(value) => Ok(value),
            Err(refusal) => Err(kept(&mut self.refused, refusal)),
        }
    }

    /// The values of the innermost element and its end, where that is a sequence of three values of few bits and nothing of it is
    /// taken: what ten calls of `next` tell. `None`, and nothing is taken, anywhere else, and where one of them is refused; at such an element
    /// only where the places don't keep it as a sequence, or its bits don't stand in a window.
    #[inline(always)]
    pub fn three_values(&mut self) -> Option<ThreeValues>
        requires ready { IsReady P.schema self.old }
        ensures ready { IsReady P.schema self.new }
        ensures same_reference { self.new.table.ghost_name ≡ self.old.table.ghost_name }
        ensures places { self.new.places.now ≡ self.old.places.now }
        ensures payload { self.new.reader.bits ≡ self.old.reader.bits }
        ensures refusals { self.new.refused ≡ self.old.refused }
        ensures open_still { IfSome result (λ _. self.old.refused ≡ None) }
        ensures none { result ≡ None → self.new ≡ self.old }
        ensures values { IfSome result (λ three. TakesSequence (reading_of P.schema self.old) (reading_of P.schema self.new) (values_of three)) }
        ensures whole { result ≡ None → P.keeps_sequences self.old.places.now ≡ true → self.old.refused ≡ None → (children : List ChildOfSequence)
            → AtSequence (reading_of P.schema self.old) children → ¬ HoldsThree children self.old.reader }
        ensures told { (events : List TreeEvent) → HasTold (reading_of P.schema self.old) events
            → (more : List TreeEvent) × HasTold (reading_of P.schema self.new) more }
    {
        if self.refused.is_some() {
            return None;
        }
        let children = self.sequence()?;
        self.take_sequence(children)
    }

    /// The values of the innermost element and its end, where that is a sequence of three values of few bits, of which the second, of this name,
    /// may be absent, and nothing of it is taken: what ten calls of `next` tell, or seven. `None`, and nothing is taken, anywhere else, and where
    /// one of them is refused; at such an element only where the places don't keep it as a sequence, or its bits don't stand in a window.
    #[inline(always)]
    pub fn optional_values(&mut self, second: u16) -> Option<OptionalValues>
        requires ready { IsReady P.schema self.old }
        ensures ready { IsReady P.schema self.new }
        ensures same_reference { self.new.table.ghost_name ≡ self.old.table.ghost_name }
        ensures places { self.new.places.now ≡ self.old.places.now }
        ensures payload { self.new.reader.bits ≡ self.old.reader.bits }
        ensures refusals { self.new.refused ≡ self.old.refused }
        ensures open_still { IfSome result (λ _. self.old.refused ≡ None) }
        ensures none { result ≡ None → self.new ≡ self.old }
        ensures values { IfSome result (TakesOptional (reading_of P.schema self.old) (reading_of P.schema self.new) second) }
        ensures whole { result ≡ None → P.keeps_sequences self.old.places.now ≡ true → self.old.refused ≡ None → (children : OptionalChildren)
            → AtOptional (reading_of P.schema self.old) second children → ¬ HoldsTwoOrThree children self.old.reader }
        ensures told { (events : List TreeEvent) → HasTold (reading_of P.schema self.old) events
            → (more : List TreeEvent) × HasTold (reading_of P.schema self.new) more }
    {
        if self.refused.is_some() {
            return None;
        }
        let children = self.optional_sequence(second)?;
        self.take_optional_sequence(children, second)
    }

    /// Ends the reading, wherever it stands, and gives the table back.
    pub fn end(self) -> &'p mut Table
        ensures same_reference { result.ghost_name ≡ self.entry.table.ghost_name }
        ensures table { result.now ≡ self.entry.table.now }
    {
        self.table
    }

    /// The innermost element, where it is of a simple kind and nothing of it is taken.
    #[inline(always)]
    fn simple_element(&self) -> Option<SimpleElement>
        requires ready { IsReady P.schema self.now }
        ensures inside { IfSome result (λ _. self.now.phase ≡ phase.Inside) }
        ensures top { IfSome result (λ it. HasTop self.now.elements it.top) }
        ensures first { IfSome result (λ it. it.top.place.particle ≡ 0) }
        ensures simple { IfSome result (λ it. simple_at (P.schema self.now.places.now).kinds it.top.place.kind ≡ Some it.datatype) }
        ensures none { result ≡ None → (name kind : ℕ) (above : List Opened) (d : Datatype) → standing_of self.now.phase self.now.elements ≡ Inside (opened name (first kind)) above
            → simple_at (P.schema self.now.places.now).kinds kind ≡ Some d → ⊥ }
    {
        let Phase::Inside = self.phase else {
            return None;
        };
        let top = self.elements.innermost()?;
        if top.place.particle != 0 {
            return None;
        }
        let datatype = self.places.datatype(top.place.kind)?;
        Some(SimpleElement { top, datatype })
    }

    /// The value of the innermost element and its end, where none was refused.
    #[inline(always)]
    fn whole_value(&mut self) -> Result<Value<'a>, Refusal>
        requires ready { IsReady P.schema self.old }
        ensures ready { IsReady P.schema self.new }
        ensures same_reference { self.new.table.ghost_name ≡ self.old.table.ghost_name }
        ensures places { self.new.places.now ≡ self.old.places.now }
        ensures payload { self.new.reader.bits ≡ self.old.reader.bits }
        ensures refusals { self.new.refused ≡ self.old.refused }
        ensures lent { IfOk result (λ v. IsLent self.old.reader.bits v) }
        ensures value { (name kind : ℕ) (above : List Opened) (d : Datatype) → standing_of self.old.phase self.old.elements ≡ Inside (opened name (first kind)) above
            → simple_at (P.schema self.old.places.now).kinds kind ≡ Some d
            → IfOk result (λ v. TakesValue (reading_of P.schema self.old) (reading_of P.schema self.new) (value_of v)) }
        ensures told { (events : List TreeEvent) → HasTold (reading_of P.schema self.old) events
            → IfOk result (λ _. (more : List TreeEvent) × HasTold (reading_of P.schema self.new) more) }
        ensures refusal { (payload : List ℕ) (events : List TreeEvent) → bits_of payload ≡ self.old.reader.bits
            → HasTold (reading_of P.schema self.old) events
            → IfErr result (λ r. IsRefused (P.schema self.old.places.now) payload r.cause r.bit) }
    {
        match self.simple_element() {
            Some(SimpleElement { top, datatype }) => {
                take_whole(
                    &mut self.reader,
                    self.table,
                    &mut self.elements,
                    top,
                    datatype,
                )
            }
            None => self.other_value(),
        }
    }

    /// The kind of the innermost element, if nothing of it is taken.
    #[inline(always)]
    fn begun_kind(&self) -> Option<u16>
        requires ready { IsReady P.schema self.now }
        ensures inside { IfSome result (λ _. self.now.phase ≡ phase.Inside) }
        ensures of_schema { IfSome result (λ kind. kind < length (P.schema self.now.places.now).kinds) }
        ensures begun { IfSome result (λ kind. (name : ℕ) × (above : List Opened) × (self.now.elements ≡ opened name (first kind) ∷ above)) }
        ensures none { result ≡ None → (name kind : ℕ) (above : List Opened) → standing_of self.now.phase self.now.elements ≡ Inside (opened name (first kind)) above → ⊥ }
    {
        let Phase::Inside = self.phase else {
            return None;
        };
        let top = self.elements.innermost()?;
        if top.place != Place::first(top.place.kind) {
            return None;
        }
        Some(top.place.kind)
    }

    /// The children of the innermost element, if that is a sequence of values and nothing of it is taken.
    #[inline(always)]
    fn sequence(&self) -> Option<&'p [SequenceChild]>
        requires ready { IsReady P.schema self.now }
        ensures inside { IfSome result (λ _. self.now.phase ≡ phase.Inside) }
        ensures sequence { IfSome result (λ children. HoldsSequence (P.schema self.now.places.now) self.now.elements children.now) }
        ensures none { result ≡ None → (all : List ChildOfSequence) → ¬ AtSequence (reading_of P.schema self.now) all }
        ensures whole { P.keeps_sequences self.now.places.now ≡ true
            → IfSome result (λ children. (all : List ChildOfSequence) → AtSequence (reading_of P.schema self.now) all → length all ≤ 8 → children.now ≡ all) }
    {
        let kind = self.begun_kind()?;
        Some(self.places.sequence(kind))
    }

    /// The values of the innermost element, which is a sequence of these children, and its end. `None` only where what is left doesn't begin with
    /// three values of few bits and the end.
    #[inline(always)]
    fn take_sequence(&mut self, children: &[SequenceChild]) -> Option<ThreeValues>
        requires ready { IsReady P.schema self.old }
        requires inside { self.old.phase ≡ phase.Inside }
        requires sequence { HoldsSequence (P.schema self.old.places.now) self.old.elements children.now }
        ensures ready { IsReady P.schema self.new }
        ensures same_reference { self.new.table.ghost_name ≡ self.old.table.ghost_name }
        ensures places { self.new.places.now ≡ self.old.places.now }
        ensures payload { self.new.reader.bits ≡ self.old.reader.bits }
        ensures refusals { self.new.refused ≡ self.old.refused }
        ensures none { result ≡ None → self.new ≡ self.old }
        ensures whole { result ≡ None → ¬ HoldsThree children.now self.old.reader }
        ensures values { IfSome result (λ three. TakesSequence (reading_of P.schema self.old) (reading_of P.schema self.new) (values_of three)) }
        ensures told { (events : List TreeEvent) → HasTold (reading_of P.schema self.old) events
            → (more : List TreeEvent) × HasTold (reading_of P.schema self.new) more }
    {
        let values = take_three(&mut self.reader, children)?;
        self.elements.pop();
        Some(values)
    }

    /// The children of the innermost element, if that is a sequence of three values of which the second, of this name, may be absent, and
    /// nothing of it is taken.
    #[inline(always)]
    fn optional_sequence(&self, second: u16) -> Option<&'p OptionalSequence>
        requires ready { IsReady P.schema self.now }
        ensures inside { IfSome result (λ _. self.now.phase ≡ phase.Inside) }
        ensures sequence { IfSome result (λ children. HoldsOptional (P.schema self.now.places.now) self.now.elements second children.now) }
        ensures none { result ≡ None → P.keeps_sequences self.now.places.now ≡ true → (all : OptionalChildren) → ¬ AtOptional (reading_of P.schema self.now) second all }
        ensures whole { P.keeps_sequences self.now.places.now ≡ true
            → IfSome result (λ children. (all : OptionalChildren) → AtOptional (reading_of P.schema self.now) second all → children.now ≡ all) }
    {
        let kind = self.begun_kind()?;
        let children = self.places.optional_sequence(kind)?;
        if !has_second(children, second) {
            return None;
        }
        Some(children)
    }

    /// The values of the innermost element, which is a sequence of these children, and its end. `None` only where what is left doesn't begin with
    /// such values of few bits and the end.
    #[inline(always)]
    fn take_optional_sequence(
        &mut self,
        children: &OptionalSequence,
        second: u16,
    ) -> Option<OptionalValues>
        requires ready { IsReady P.schema self.old }
        requires inside { self.old.phase ≡ phase.Inside }
        requires sequence { HoldsOptional (P.schema self.old.places.now) self.old.elements second children.now }
        ensures ready { IsReady P.schema self.new }
        ensures same_reference { self.new.table.ghost_name ≡ self.old.table.ghost_name }
        ensures places { self.new.places.now ≡ self.old.places.now }
        ensures payload { self.new.reader.bits ≡ self.old.reader.bits }
        ensures refusals { self.new.refused ≡ self.old.refused }
        ensures none { result ≡ None → self.new ≡ self.old }
        ensures whole { result ≡ None → ¬ HoldsTwoOrThree children.now self.old.reader }
        ensures values { IfSome result (TakesOptional (reading_of P.schema self.old) (reading_of P.schema self.new) second) }
        ensures told { (events : List TreeEvent) → HasTold (reading_of P.schema self.old) events
            → (more : List TreeEvent) × HasTold (reading_of P.schema self.new) more }
    {
        let values = take_optional(&mut self.reader, children)?;
        self.elements.pop();
        Some(values)
    }

    /// The value of the next event, where none was refused.
    #[inline(never)]
    fn other_value(&mut self) -> Result<Value<'a>, Refusal>
        requires ready { IsReady P.schema self.old }
        ensures ready { IsReady P.schema self.new }
        ensures same_reference { self.new.table.ghost_name ≡ self.old.table.ghost_name }
        ensures places { self.new.places.now ≡ self.old.places.now }
        ensures payload { self.new.reader.bits ≡ self.old.reader.bits }
        ensures refusals { self.new.refused ≡ self.old.refused }
        ensures lent { IfOk result (λ v. IsLent self.old.reader.bits v) }
        ensures told { (events : List TreeEvent) → HasTold (reading_of P.schema self.old) events
            → IfOk result (λ _. (more : List TreeEvent) × HasTold (reading_of P.schema self.new) more) }
        ensures refusal { (payload : List ℕ) (events : List TreeEvent) → bits_of payload ≡ self.old.reader.bits
            → HasTold (reading_of P.schema self.old) events
            → IfErr result (λ r. IsRefused (P.schema self.old.places.now) payload r.cause r.bit) }
    {
        let event = self.step()?;
        Ok(value_in(event))
    }

    /// The next event, where none was refused.
    #[inline(always)]
    fn step(&mut self) -> Result<Event<'a>, Refusal>
        requires ready { IsReady P.schema self.old }
        ensures ready { IsReady P.schema self.new }
        ensures same_reference { self.new.table.ghost_name ≡ self.old.table.ghost_name }
        ensures places { self.new.places.now ≡ self.old.places.now }
        ensures payload { self.new.reader.bits ≡ self.old.reader.bits }
        ensures refusals { self.new.refused ≡ self.old.refused }
        ensures lent { IfOk result (λ e. IsLentEvent self.old.reader.bits e) }
        ensures next { IfOk result (λ e. IsNext (reading_of P.schema self.old) (reading_of P.schema self.new) (event_of e)) }
        ensures refused { IfErr result (λ r. IsRefusedAt (reading_of P.schema self.old) r) }
    {
        match self.phase {
            Phase::Before => {
                let root = take_front(&mut self.reader, self.places)?;
                self.phase = Phase::AtRoot {
                    name: root.name,
                    kind: root.kind,
                };
                Ok(Event::Document(root.number))
            }
            Phase::AtRoot { name, kind } => {
                self.elements.push(name, Place::first(kind));
                self.phase = Phase::Inside;
                Ok(Event::Start(name))
            }
            Phase::Inside => match self.elements.innermost() {
                Some(top) => take_inside(
                    &mut self.reader,
                    self.places,
                    self.table,
                    &mut self.elements,
                    top,
                ),
                None => take_end(&self.reader),
            },
        }
    }
}

/// Whether the second of these children alone has this name.
#[inline(always)]
fn has_second(children: &OptionalSequence, second: u16) -> bool
    ensures alone { result ≡ true → (children.now.second.name ≡ second) × (children.now.third.name ≡ second → ⊥) }
    ensures other { result ≡ false → children.now.second.name ≡ second → (children.now.third.name ≡ second → ⊥) → ⊥ }
{
    children.second.name == second && children.third.name != second
}

/// A refusal, which is kept.
#[inline(always)]
fn kept(refused: &mut Option<Refusal>, refusal: Refusal) -> Refusal
    ensures kept { refused.new ≡ Some refusal }
    ensures same { result ≡ refusal }
{
    *refused = Some(refusal);
    refusal
}

/// The value of an event, where it is one.
fn value_in<'a>(event: Event<'a>) -> Value<'a>
    ensures { (bits : List Bool) → IsLentEvent bits event.entry → IsLent bits result }
{
    match event {
        Event::Value(value) => value,
        _ => Value::Bool(false),
    }
}

/// The end of a document behind its root: less than a byte is left.
fn take_end<'a>(reader: &PayloadReader<'_>) -> Result<Event<'a>, Refusal>
    ensures ok { IfOk result (λ e. (e ≡ event.Finished) × (length (ahead reader.now) < 8)) }
    ensures refused { IfErr result (λ r. (8 ≤ length (ahead reader.now)) × (r.cause ≡ cause.Trailing) × (r.bit ≡ reader.now.place + length (ahead reader.now) % 8)) }
{
    let left = reader.left();
    if left < 8 {
        return Ok(Event::Finished);
    }
    Err(Refusal {
        cause: RefusalCause::Trailing,
        bit: reader.place() + left % 8,
    })
}
