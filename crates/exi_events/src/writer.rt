//! Events written into a room.

ghost use Rattle.std.specs.Prelude.{◌≡◌, ◌≤◌, ◌*◌, length};
ghost use Rattle.exi_bits.specs.Written.{PadsZero};

use crate::child::{
    OptionalChildren, ThreeChildren, child_at, child_word, code_word, optional_word, three_word,
};
use crate::offer::{Found, inside, names_root, offer_inside, outside};
use crate::open::{OpenElement, OpenElements};
use crate::putting::put_event;
use crate::reader::Phase;
use crate::short::short_of;
use crate::word::{BitWord, WORD_BITS};
use exi_bits::{BitPen, Full, begun_bytes};
use exi_schema::{Place, Places, Sought};
use exi_writing::exi_values::{Event, Table, Value};

/// Why an event is not put.
#[derive(Clone, Copy, Debug, PartialEq, Eq)]
pub enum NotPut {
    /// It may not come next.
    NotOffered,
    /// The room is too small for it, or was for one before.
    Full(Full),
}

/// Writes the events of a document into a room, one after the other.
///
/// Behind the end of the root the room begins with the one encoding of the tree that the events tell. Where the room is too small
/// for an event, it is not put, and from then on the same `Full` is answered.
#[derive(Drop)]
pub struct EventWriter<'b, 'p, P: Places> {
    room: &'b mut [u8],
    table: &'p mut Table,
    places: &'p P,
    bits: u32,
    phase: Phase,
    elements: OpenElements,
    full: Option<Full>,
    ghost small: { length room.now ≤ 65536 },
    ghost within: { bits ≤ 8 * length room.now },
    ghost clean: { PadsZero room.now bits },
}

impl<'b, 'p, P: Places> EventWriter<'b, 'p, P> {
    ghost use Rattle.std.specs.Prelude.{◌<◌, ◌∷◌, [], ◌↔◌, true, IsTrue, IsSome, List, take, Some, None, IfSome, IfErr, OnOk, OnErr, IsErr, Err, OnSome, ◌++◌, ◌+◌};
    ghost use Rattle.exi_bits.specs.Written.{HoldsBits};
    ghost use Rattle.exi_writing.specs.Trees.{Event as TreeEvent};
    ghost use Rattle.exi_writing.specs.Values.{most_entries};
    ghost use Rattle.exi_writing.specs.Grammar.{Opened, Behind};
    ghost use Rattle.exi_writing.specs.Meaning.{event_of};
    ghost use Rattle.exi_schema.specs.Offers.{IsPlace};
    ghost use Rattle.exi_events.specs.Child.{OffersShort, PutsChild, PutsThree, OffersThree, PutsOptional, OffersOptional};
    ghost use Rattle.exi_writing.specs.Trees.{Start, EndElement};
    ghost use Rattle.exi_events.specs.Inside.{HasTop, GoesTo};
    ghost use Rattle.exi_events.specs.declared.reader.Phase.TheVariants as phase;
    ghost use Rattle.exi_writing.specs.Meaning.{value_of};
    ghost use Rattle.exi_events.specs.Reader.{innermost_place};
    ghost use Rattle.exi_events.specs.Writer.{draft_of, IsReadyToPut, KeepsLent, AddsSome, HasPut, IsOffered, IsFoundAt, IsShapedEvent, IsPut, HasNoRoom, IsNeeded, IsWritten, HasWordRoom, OffersStart, OffersEnd};
    ghost use Rattle.exi_events.specs.declared.writer.NotPut.TheVariants as not_put;

    /// A writer at the start of a room of at most 65,536 bytes. The table is emptied; it has room for 8,192 entries.
    pub fn new(room: &'b mut [u8], places: &'p P, table: &'p mut Table) -> EventWriter<'b, 'p, P>
        requires room { length room.old ≤ 65536 }
        requires cap { table.old.cap ≡ most_entries }
        ensures same_room { result.room.ghost_name ≡ room.entry.ghost_name }
        ensures same_table { result.table.ghost_name ≡ table.entry.ghost_name }
        ensures places { result.places.now ≡ places.now }
        ensures room { result.room.now ≡ room.old }
        ensures nothing { (draft_of result).bits ≡ [] }
        ensures open_still { result.full ≡ None }
        ensures ready { IsReadyToPut result }
        ensures put { HasPut (P.schema places.now) [] (draft_of result) }
    {
        table.clear();
        EventWriter {
            room,
            table,
            places,
            bits: 0,
            phase: Phase::Before,
            elements: OpenElements::new(),
            full: None,
        }
    }

    /// The place reached in the innermost element that has started and not ended, a place of the schema; `None` where there is no such element.
    pub fn place(&self) -> Option<Place>
        requires ready { IsReadyToPut self.now }
        ensures place { result ≡ innermost_place (draft_of self.now).state.standing }
        ensures of_schema { IfSome result (λ place. IsPlace (P.schema self.now.places.now).kinds place) }
    {
        self.elements.innermost().map(|top| top.place)
    }

    /// Whether an event may be put next: the place offers it, an element only as one that may stand there and does not pass its
    /// particle's limit, its value is in its datatype, and the table has room where its text would enter it. `Finished` may be put
    /// behind the end of the root.
    pub fn offers(&self, event: &Event) -> bool
        requires ready { IsReadyToPut self.now }
        requires shaped { IsShapedEvent event.now }
        ensures { IsTrue result ↔ IsOffered (P.schema self.now.places.now) (draft_of self.now).state event.now }
    {
        self.found(event).is_some()
    }

    /// How an event is put, if it may be put next.
    #[inline(always)]
    fn found(&self, event: &Event) -> Option<Found>
        requires ready { IsReadyToPut self.now }
        requires shaped { IsShapedEvent event.now }
        ensures offered { IsSome result ↔ IsOffered (P.schema self.now.places.now) (draft_of self.now).state event.now }
        ensures found { IfSome result (λ f. IsFoundAt (P.schema self.now.places.now) (draft_of self.now).state.standing f event.now) }
    {
        match self.phase {
            Phase::Before => match event {
                Event::Document(number) => outside(names_root(self.places, *number)),
                _ => None,
            },
            Phase::AtRoot { name, .. } => match event {
                Event::Start(child) => outside(*child == name),
                _ => None,
            },
            Phase::Inside => match self.elements.innermost() {
                Some(top) => inside(offer_inside(
                    self.written(),
                    self.places,
                    self.table,
                    top,
                    event,
                )),
                None => outside(matches!(event, Event::Finished)),
            },
        }
    }

    /// Puts an event behind those put before, if it is offered.
    ///
    /// `NotOffered` exactly where it is not, and changes nothing. `Full` exactly where the event is offered and the room is too small for
    /// it, with the bits of all that was put and of this event: the document and the table stay as they were, and this `Full` is answered
    /// from then on.
    #[inline(always)]
    pub fn try_put(&mut self, event: &Event) -> Result<(), NotPut>
        requires ready { IsReadyToPut self.old }
        requires shaped { IsShapedEvent event.now }
        ensures ready { IsReadyToPut self.new }
        ensures lent { KeepsLent self.old self.new }
        // What was written stays.
        ensures more { AddsSome (draft_of self.old) (draft_of self.new) }
        ensures again { (f : _) → self.old.full ≡ Some f → (result ≡ Err (not_put.Full f)) × (self.new ≡ self.old) }
        ensures not_offered { self.old.full ≡ None → (result ≡ Err not_put.NotOffered ↔ (IsOffered (P.schema self.old.places.now) (draft_of self.old).state event.now → ⊥)) }
        ensures unchanged { result ≡ Err not_put.NotOffered → self.new ≡ self.old }
        ensures put { OnOk result (IsPut (P.schema self.old.places.now) (draft_of self.old) (draft_of self.new) (event_of event.now)) }
        ensures open_still { OnOk result ((self.old.full ≡ None) × (self.new.full ≡ None)) }
        ensures full { self.old.full ≡ None → (((f : _) × (result ≡ Err (not_put.Full f))) ↔ HasNoRoom (P.schema self.old.places.now) (draft_of self.old) (event_of event.now)) }
        ensures needed { self.old.full ≡ None → (f : _) → result ≡ Err (not_put.Full f) → IsNeeded (P.schema self.old.places.now) (draft_of self.old) (event_of event.now) f }
        ensures bits { self.old.full ≡ None → (f : _) → result ≡ Err (not_put.Full f) → (8 * length self.old.room.now < f.bits) × (self.new.full ≡ Some f) }
        ensures stays { OnErr result ((self.new.phase ≡ self.old.phase) × (self.new.elements ≡ self.old.elements) × (self.new.table.now ≡ self.old.table.now)) }
        // Of the whole document: these bits write the events up to here.
        ensures told { (events : List TreeEvent) → HasPut (P.schema self.old.places.now) events (draft_of self.old)
            → OnOk result ((told : TreeEvent) → event_of event.now ≡ Some told → HasPut (P.schema self.old.places.now) (told ∷ events) (draft_of self.new)) }
    {
        if let Some(full) = self.full {
            return Err(NotPut::Full(full));
        }
        match self.found(event) {
            Some(found) => match self.put_found(found, event) {
                Ok(()) => Ok(()),
                Err(full) => Err(NotPut::Full(full)),
            },
            None => Err(NotPut::NotOffered),
        }
    }

    /// Puts an element with a value, its start, its value and its end, where its bits are few and all three may be put: what three calls
    /// of `try_put` put. `None`, and nothing is put, only where fewer than 8 bytes are left, no such element is offered, or its value is none
    /// that few bits write.
    #[inline(always)]
    pub fn put_child(&mut self, name: u16, value: &Value) -> Option<()>
        requires ready { IsReadyToPut self.old }
        ensures ready { IsReadyToPut self.new }
        ensures lent { KeepsLent self.old self.new }
        ensures none { result ≡ None → self.new ≡ self.old }
        ensures open_still { OnSome result ((self.old.full ≡ None) × (self.new.full ≡ None)) }
        ensures put { OnSome result (PutsChild (P.schema self.old.places.now) (draft_of self.old) (draft_of self.new) name (value_of value.now)) }
        ensures whole { result ≡ None → (top : Opened) → HasWordRoom self.old top → ¬ OffersShort (P.schema self.old.places.now).kinds top.place name (value_of value.now) }
    {
        let value = short_of(value)?;
        let top = self.open_with_room()?;
        let child = child_at(self.places, top.place, name)?;
        let word = child_word(self.places, top.place, name, child, value)?;
        self.put_word(&word, child.next);
        Some(())
    }

    /// Puts an element of three values, its start, its children and its end, where it is a sequence of such children, their bits are few,
    /// and all may be put: what eleven calls of `try_put` put. `None`, and nothing is put, only where fewer than 8 bytes are left, no such
    /// element is offered, the places don't keep it as a sequence, or its bits are more than 64.
    #[inline(always)]
    pub fn put_three(&mut self, name: u16, values: &ThreeChildren) -> Option<()>
        requires ready { IsReadyToPut self.old }
        ensures ready { IsReadyToPut self.new }
        ensures lent { KeepsLent self.old self.new }
        ensures none { result ≡ None → self.new ≡ self.old }
        ensures open_still { OnSome result ((self.old.full ≡ None) × (self.new.full ≡ None)) }
        ensures put { OnSome result (PutsThree (P.schema self.old.places.now) (draft_of self.old) (draft_of self.new) name values.now) }
        ensures whole { result ≡ None → P.keeps_sequences self.old.places.now ≡ true → (top : Opened) → HasWordRoom self.old top → ¬ OffersThree (P.schema self.old.places.now).kinds top.place name values.now }
    {
        let top = self.open_with_room()?;
        let child = child_at(self.places, top.place, name)?;
        let word = three_word(self.places, top.place, name, child, values)?;
        self.put_word(&word, child.next);
        Some(())
    }

    /// Puts an element of three values of which the second may be absent, its start, its children and its end, as `put_three` does: what eleven
    /// calls of `try_put` put, or eight. `None`, and nothing is put, only where fewer than 8 bytes are left, no such element is offered, the
    /// places don't keep it as such a sequence, or its bits are more than 64.
    #[inline(always)]
    pub fn put_optional(&mut self, name: u16, values: &OptionalChildren) -> Option<()>
        requires ready { IsReadyToPut self.old }
        ensures ready { IsReadyToPut self.new }
        ensures lent { KeepsLent self.old self.new }
        ensures none { result ≡ None → self.new ≡ self.old }
        ensures open_still { OnSome result ((self.old.full ≡ None) × (self.new.full ≡ None)) }
        ensures put { OnSome result (PutsOptional (P.schema self.old.places.now) (draft_of self.old) (draft_of self.new) name values.now) }
        ensures whole { result ≡ None → P.keeps_sequences self.old.places.now ≡ true → (top : Opened) → HasWordRoom self.old top → ¬ OffersOptional (P.schema self.old.places.now).kinds top.place name values.now }
    {
        let top = self.open_with_room()?;
        let child = child_at(self.places, top.place, name)?;
        let word = optional_word(self.places, top.place, name, child, values)?;
        self.put_word(&word, child.next);
        Some(())
    }

    /// Puts the start of an element inside another one: what `try_put` puts. `None`, and nothing is put, anywhere else, where it is not offered,
    /// and where fewer than 8 bytes are left.
    #[inline(always)]
    pub fn put_start(&mut self, name: u16) -> Option<()>
        requires ready { IsReadyToPut self.old }
        ensures ready { IsReadyToPut self.new }
        ensures lent { KeepsLent self.old self.new }
        ensures none { result ≡ None → self.new ≡ self.old }
        ensures open_still { OnSome result ((self.old.full ≡ None) × (self.new.full ≡ None)) }
        ensures put { OnSome result (IsPut (P.schema self.old.places.now) (draft_of self.old) (draft_of self.new) (Some (Start name))) }
        ensures whole { result ≡ None → (top : Opened) → HasWordRoom self.old top → ¬ OffersStart (P.schema self.old.places.now).kinds top.place name }
    {
        let top = self.open_with_room()?;
        let child = child_at(self.places, top.place, name)?;
        let word = code_word(child.code, child.width)?;
        self.put_word(&word, child.next);
        self.elements.push(name, Place::first(child.kind));
        Some(())
    }

    /// Puts the end of an element: what `try_put` puts. `None`, and nothing is put, where it is not offered, and where fewer than 8 bytes are
    /// left.
    #[inline(always)]
    pub fn put_end(&mut self) -> Option<()>
        requires ready { IsReadyToPut self.old }
        ensures ready { IsReadyToPut self.new }
        ensures lent { KeepsLent self.old self.new }
        ensures none { result ≡ None → self.new ≡ self.old }
        ensures open_still { OnSome result ((self.old.full ≡ None) × (self.new.full ≡ None)) }
        ensures put { OnSome result (IsPut (P.schema self.old.places.now) (draft_of self.old) (draft_of self.new) (Some EndElement)) }
        ensures whole { result ≡ None → (top : Opened) → HasWordRoom self.old top → ¬ OffersEnd (P.schema self.old.places.now).kinds top.place }
    {
        let top = self.open_with_room()?;
        let offer = self.places.find(top.place, Sought::End)?;
        let word = code_word(offer.code, offer.width)?;
        self.put_word(&word, top.place);
        self.elements.pop();
        Some(())
    }

    /// The innermost element, where nothing lacked room and the bits of a word have room.
    #[inline(always)]
    fn open_with_room(&self) -> Option<OpenElement>
        ensures open_still { IfSome result (λ _. self.now.full ≡ None) }
        ensures inside { IfSome result (λ _. self.now.phase ≡ phase.Inside) }
        ensures top { IfSome result (λ top. HasTop self.now.elements top) }
        ensures room { IfSome result (λ _. self.now.bits + 64 ≤ 8 * length self.now.room.now) }
        ensures none { result ≡ None → (top : Opened) → ¬ HasWordRoom self.now top }
    {
        let Phase::Inside = self.phase else {
            return None;
        };
        if self.full.is_some() || self.bits as usize + WORD_BITS as usize > 8 * self.room.len() {
            return None;
        }
        self.elements.innermost()
    }

    /// Writes these bits, with which the innermost element reaches a place.
    #[inline(always)]
    fn put_word(&mut self, word: &BitWord, next: Place)
        requires room { self.old.bits + 64 ≤ 8 * length self.old.room.now }
        ensures lent { KeepsLent self.old self.new }
        ensures written { (draft_of self.new).bits ≡ (draft_of self.old).bits ++ word.now }
        ensures room { length self.new.room.now ≡ length self.old.room.now }
        ensures table { self.new.table.now ≡ self.old.table.now }
        ensures goes { GoesTo self.old.elements next self.new.elements }
        ensures phase { self.new.phase ≡ self.old.phase }
        ensures full { self.new.full ≡ self.old.full }
    {
        let room = &mut *self.room;
        let mut pen = BitPen::behind(room, self.bits);
        word.put(&mut pen);
        self.bits = pen.into_place();
        self.elements.goes_to(next);
    }

    /// Puts an event that is offered, behind those put before.
    ///
    /// `Full` exactly where the room is too small for it, with the bits of all that was put and of this event: the document and the
    /// table stay as they were, and this `Full` is answered from then on.
    pub fn put(&mut self, event: &Event) -> Result<(), Full>
        requires ready { IsReadyToPut self.old }
        requires shaped { IsShapedEvent event.now }
        requires offered { self.old.full ≡ None → IsOffered (P.schema self.old.places.now) (draft_of self.old).state event.now }
        ensures ready { IsReadyToPut self.new }
        ensures lent { KeepsLent self.old self.new }
        // What was written stays.
        ensures more { AddsSome (draft_of self.old) (draft_of self.new) }
        ensures again { (f : _) → self.old.full ≡ Some f → (result ≡ Err f) × (self.new ≡ self.old) }
        ensures put { OnOk result (IsPut (P.schema self.old.places.now) (draft_of self.old) (draft_of self.new) (event_of event.now)) }
        ensures open_still { OnOk result ((self.old.full ≡ None) × (self.new.full ≡ None)) }
        ensures full { self.old.full ≡ None → (IsErr result ↔ HasNoRoom (P.schema self.old.places.now) (draft_of self.old) (event_of event.now)) }
        ensures needed { self.old.full ≡ None → IfErr result (IsNeeded (P.schema self.old.places.now) (draft_of self.old) (event_of event.now)) }
        ensures bits { self.old.full ≡ None → IfErr result (λ f. (8 * length self.old.room.now < f.bits) × (self.new.full ≡ Some f)) }
        ensures stays { OnErr result ((self.new.phase ≡ self.old.phase) × (self.new.elements ≡ self.old.elements) × (self.new.table.now ≡ self.old.table.now)) }
        // Of the whole document: these bits write the events up to here.
        ensures told { (events : List TreeEvent) → HasPut (P.schema self.old.places.now) events (draft_of self.old)
            → OnOk result ((told : TreeEvent) → event_of event.now ≡ Some told → HasPut (P.schema self.old.places.now) (told ∷ events) (draft_of self.new)) }
    {
        if let Some(full) = self.full {
            return Err(full);
        }
        let Some(found) = self.found(event) else {
            unreachable!()
        };
        self.put_found(found, event)
    }

    /// Puts an event that is offered as it is found, where nothing lacked room before.
    #[inline(always)]
    fn put_found(&mut self, found: Found, event: &Event) -> Result<(), Full>
        requires ready { IsReadyToPut self.old }
        requires shaped { IsShapedEvent event.now }
        requires open_still { self.old.full ≡ None }
        requires offered { IsOffered (P.schema self.old.places.now) (draft_of self.old).state event.now }
        requires found { IsFoundAt (P.schema self.old.places.now) (draft_of self.old).state.standing found event.now }
        ensures ready { IsReadyToPut self.new }
        ensures lent { KeepsLent self.old self.new }
        ensures more { AddsSome (draft_of self.old) (draft_of self.new) }
        ensures put { OnOk result (IsPut (P.schema self.old.places.now) (draft_of self.old) (draft_of self.new) (event_of event.now)) }
        ensures open_still { OnOk result (self.new.full ≡ None) }
        ensures full { IsErr result ↔ HasNoRoom (P.schema self.old.places.now) (draft_of self.old) (event_of event.now) }
        ensures needed { IfErr result (IsNeeded (P.schema self.old.places.now) (draft_of self.old) (event_of event.now)) }
        ensures bits { IfErr result (λ f. (8 * length self.old.room.now < f.bits) × (self.new.full ≡ Some f)) }
        ensures stays { OnErr result ((self.new.phase ≡ self.old.phase) × (self.new.elements ≡ self.old.elements) × (self.new.table.now ≡ self.old.table.now)) }
        ensures told { (events : List TreeEvent) → HasPut (P.schema self.old.places.now) events (draft_of self.old)
            → OnOk result ((told : TreeEvent) → event_of event.now ≡ Some told → HasPut (P.schema self.old.places.now) (told ∷ events) (draft_of self.new)) }
    {
        let room = &mut *self.room;
        let mut pen = BitPen::behind(room, self.bits);
        let put = put_event(
            &mut pen,
            self.places,
            self.table,
            &mut self.phase,
            &mut self.elements,
            found,
            event,
        );
        self.bits = pen.into_place();
        self.full = put.err();
        put
    }

    /// The bytes begun so far, the last one filled with 0.
    pub fn written(&self) -> &[u8]
        ensures holds { HoldsBits result.now (draft_of self.now).bits }
        ensures front { result.now ≡ take (length result.now) self.now.room.now }
        // Behind the end of the root: they are the encoding of the tree that the events tell.
        ensures document { (events : List TreeEvent) → HasPut (P.schema self.now.places.now) events (draft_of self.now)
            → (draft_of self.now).state.standing ≡ Behind → IsWritten (P.schema self.now.places.now) events result.now }
    {
        begun_bytes(self.room, self.bits)
    }

    /// How many bits are put.
    pub fn bit_count(&self) -> u32
        ensures { result ≡ length (draft_of self.now).bits }
    {
        self.bits
    }

    /// Ends the writing, wherever it stands, and tells how many bytes of the room are written, the last one filled with 0. The room and
    /// the table stay as they are.
    pub fn finish(self) -> u32
        ensures holds { HoldsBits (take result self.entry.room.now) (draft_of self.entry).bits }
        ensures within { result ≤ length self.entry.room.now }
        // Behind the end of the root: they are the encoding of the tree that the events tell.
        ensures document { (events : List TreeEvent) → HasPut (P.schema self.entry.places.now) events (draft_of self.entry)
            → (draft_of self.entry).state.standing ≡ Behind → IsWritten (P.schema self.entry.places.now) events (take result self.entry.room.now) }
        ensures room { self.exit.0.now ≡ self.entry.room.now }
        ensures table { self.exit.1.0.now ≡ self.entry.table.now }
    {
        self.written().len() as u32
    }
}
