//! Events scanned from a text.

ghost use Rattle.std.specs.Prelude.{◌≡◌, ◌<◌, ◌∷◌, [], List, Some, None, IfSome, IfNone, IfOk, IfErr, Err};
ghost use Rattle.exi_schema.specs.Told.{schema_of};
ghost use Rattle.exi_documents.specs.Trees.{Event};
ghost use Rattle.value_text.specs.declared.fault.ScanFault.TheVariants as fault;
ghost use Rattle.dialect_text.specs.declared.phase.Phase.TheVariants as phase;
ghost use Rattle.dialect_text.specs.Dialect.{Within, IsDialectText};
ghost use Rattle.dialect_text.specs.Languages.{Completes};
ghost use Rattle.dialect_text.specs.Scanning.{event_of, standing_of, IsReady, HasSaid, IsFaultOf, events_left};
ghost use Rattle.dialect_text.specs.Following.{IsNext, StallsAt};

use crate::elements::OpenElements;
use crate::phase::Phase;
use crate::said::Said;
use crate::step::{take_inside, take_root};
use exi_schema::Schema;
use std::alloc::Global;
use value_text::{ScanFault, TextCursor};

/// Scans the events of a text of a schema's dialect, one after the other.
///
/// The events up to the end of the text are those that the text says, in document order. Where the text is none of the dialect, the
/// scanner answers the place of its fault, and from then on the same again.
#[derive(Drop)]
pub struct DialectScanner<'t, 's> {
    alloc: Global,
    schema: &'s Schema<'s>,
    text: &'t str,
    cursor: TextCursor<'t>,
    phase: Phase,
    elements: OpenElements,
    fault: Option<u64>,
}

impl<'t, 's> DialectScanner<'t, 's> {
    /// A scanner at the start of a text. Values are made in memory of this allocator.
    pub fn new(alloc: Global, text: &'t str, schema: &'s Schema<'s>) -> DialectScanner<'t, 's>
        ensures text { result.text.now ≡ text.now }
        ensures schema { result.schema.now ≡ schema.now }
        ensures open_still { result.fault ≡ None }
        ensures ready { IsReady (schema_of schema.now) text.now (standing_of result.phase result.elements) result.cursor result.fault }
        ensures said { HasSaid (schema_of schema.now) text.now [] (standing_of result.phase result.elements) result.cursor }
    {
        DialectScanner {
            alloc,
            schema,
            text,
            cursor: TextCursor::new(text),
            phase: Phase::Before,
            elements: OpenElements::new(),
            fault: None,
        }
    }

    /// The next event; `None` exactly behind the root where the text ends, and from then on.
    ///
    /// `Place` where the whole text is none of the dialect: how many characters its longest front has that begins a text of the dialect.
    /// `Memory` leaves the scanner as it was.
    pub fn next(&mut self) -> Result<Option<Said>, ScanFault>
        requires ready { IsReady (schema_of self.old.schema.now) self.old.text.now (standing_of self.old.phase self.old.elements) self.old.cursor self.old.fault }
        ensures ready { IsReady (schema_of self.old.schema.now) self.old.text.now (standing_of self.new.phase self.new.elements) self.new.cursor self.new.fault }
        ensures same_text { self.new.text.now ≡ self.old.text.now }
        ensures same_schema { self.new.schema.now ≡ self.old.schema.now }
        ensures again { (place : _) → self.old.fault ≡ Some place → (result ≡ Err (fault.Place place)) × (self.new.fault ≡ Some place) }
        ensures open_still { IfOk result (λ _. (self.old.fault ≡ None) × (self.new.fault ≡ None)) }
        // Of the whole text: the events are those that it says, or this is its fault.
        ensures said { (events : List Event)
            → HasSaid (schema_of self.old.schema.now) self.old.text.now events (standing_of self.old.phase self.old.elements) self.old.cursor
            → IfOk result (λ o. IfSome o (λ said. HasSaid (schema_of self.old.schema.now) self.old.text.now (event_of said ∷ events) (standing_of self.new.phase self.new.elements) self.new.cursor)) }
        ensures ended { (events : List Event)
            → HasSaid (schema_of self.old.schema.now) self.old.text.now events (standing_of self.old.phase self.old.elements) self.old.cursor
            → IfOk result (λ o. IfNone o (IsDialectText (schema_of self.old.schema.now) events self.old.text.now)) }
        ensures fault { IfErr result (IsFaultOf (schema_of self.old.schema.now) self.old.text.now) }
        ensures place_kept { (place : _) → result ≡ Err (fault.Place place) → self.new.fault ≡ Some place }
        ensures memory { result ≡ Err fault.Memory → self.new ≡ self.old }
        ensures fewer { IfOk result (λ o. IfSome o (λ _. events_left (standing_of self.new.phase self.new.elements) self.new.cursor < events_left (standing_of self.old.phase self.old.elements) self.old.cursor)) }
    {
        if let Some(place) = self.fault {
            return Err(ScanFault::Place(place));
        }
        match self.step() {
            Ok(said) => Ok(said),
            Err(fault) => {
                self.fault = fault.place();
                Err(fault)
            }
        }
    }

    /// The next event, where there was no fault.
    fn step(&mut self) -> Result<Option<Said>, ScanFault>
        requires ready { IsReady (schema_of self.old.schema.now) self.old.text.now (standing_of self.old.phase self.old.elements) self.old.cursor self.old.fault }
        ensures same_text { self.new.text.now ≡ self.old.text.now }
        ensures same_schema { self.new.schema.now ≡ self.old.schema.now }
        ensures same_fault { self.new.fault ≡ self.old.fault }
        ensures ok { IfOk result (IsNext (schema_of self.old.schema.now) (standing_of self.old.phase self.old.elements) self.old.cursor (standing_of self.new.phase self.new.elements) self.new.cursor) }
        ensures fault { IfErr result (StallsAt (Completes (schema_of self.old.schema.now) (standing_of self.old.phase self.old.elements)) self.old.cursor) }
        ensures kept { IfErr result (λ _. self.new ≡ self.old) }
    {
        match self.phase {
            Phase::Before => {
                let mut cursor = self.cursor;
                let root = take_root(self.alloc, self.schema, &mut cursor)?;
                self.cursor = cursor;
                self.phase = Phase::AtRoot {
                    name: root.name,
                    kind: root.kind,
                };
                Ok(Some(Said::Document(root.number)))
            }
            Phase::AtRoot { name, kind } => {
                self.elements = OpenElements::alone(kind);
                self.phase = Phase::Inside;
                Ok(Some(Said::Start(name)))
            }
            Phase::Inside => self.step_inside(),
        }
    }

    /// The next event inside the elements, or the end of the text behind the root.
    fn step_inside(&mut self) -> Result<Option<Said>, ScanFault>
        requires ready { IsReady (schema_of self.old.schema.now) self.old.text.now (Within self.old.elements) self.old.cursor self.old.fault }
        requires phase { self.old.phase ≡ phase.Inside }
        ensures same_text { self.new.text.now ≡ self.old.text.now }
        ensures same_schema { self.new.schema.now ≡ self.old.schema.now }
        ensures same_fault { self.new.fault ≡ self.old.fault }
        ensures same_phase { self.new.phase ≡ self.old.phase }
        ensures ok { IfOk result (IsNext (schema_of self.old.schema.now) (Within self.old.elements) self.old.cursor (Within self.new.elements) self.new.cursor) }
        ensures fault { IfErr result (StallsAt (Completes (schema_of self.old.schema.now) (Within self.old.elements)) self.old.cursor) }
        ensures kept { IfErr result (λ _. self.new ≡ self.old) }
    {
        let mut cursor = self.cursor;
        match self.elements.innermost() {
            Some(top) => {
                let said = take_inside(
                    self.alloc,
                    self.schema,
                    &mut cursor,
                    &mut self.elements,
                    top,
                )?;
                self.cursor = cursor;
                Ok(Some(said))
            }
            None if cursor.rest.is_empty() => Ok(None),
            None => Err(ScanFault::Place(cursor.place)),
        }
    }
}
