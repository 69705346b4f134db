//! A value, and a name that is awaited.

ghost use Rattle.std.specs.Prelude.{◌≡◌, ℕ, ◌<◌, List, Some, length, slice_get, IfOk, IfErr, All};
ghost use Rattle.std.specs.Str.{encode_utf8_all};
ghost use Rattle.exi_schema.specs.Plain.{valued};
ghost use Rattle.exi_schema.specs.Told.{schema_of};
ghost use Rattle.value_text.specs.ValueText.{truth_text, IsFormed};
ghost use Rattle.value_text.specs.Forms.{IsTruthText};
ghost use Rattle.value_text.specs.Scanning.{Takes, MissesAt, GoesWrong, meaning, IsAnyFormed, IsAnyAwaited, IsAwaitedText};

use crate::awaited::Awaited;
use crate::cursor::TextCursor;
use crate::fault::ScanFault;
use crate::scanned::Scanned;
use crate::words::{Best, agreed_awaited};
use exi_schema::{Datatype, Schema};
use std::alloc::Global;

impl<'t> TextCursor<'t> {
    /// The truth value that stands there, and the cursor behind it.
    fn truth(&self) -> Result<(bool, TextCursor<'t>), u64>
        ensures taken { IfOk result (λ x. (front : List ℕ) × Takes IsTruthText self.now front x.1 × (encode_utf8_all front ≡ truth_text x.0)) }
        ensures fault { IfErr result (λ place. GoesWrong IsTruthText self.now place) }
    {
        let words = ["true", "false"];
        match self.word(&words) {
            Ok((i, behind)) => Ok((i == 0, behind)),
            Err(place) => Err(place),
        }
    }

    /// The value of a simple kind that stands there, and the cursor behind it.
    fn value(
        &self,
        alloc: Global,
        schema: &Schema,
        kind: u16,
        datatype: Datatype,
    ) -> Result<(Scanned, TextCursor<'t>), ScanFault>
        requires { slice_get (schema_of schema.now).kinds kind ≡ Some (valued datatype) }
        ensures taken { IfOk result (λ x. (front : List ℕ)
            × Takes (IsAnyFormed (schema_of schema.now) kind datatype) self.now front x.1
            × IsFormed (schema_of schema.now) kind datatype (meaning x.0) (encode_utf8_all front)) }
        ensures fault { IfErr result (MissesAt (IsAnyFormed (schema_of schema.now) kind datatype) self.now) }
    {
        match datatype {
            Datatype::Bool => match self.truth() {
                Ok((truth, behind)) => Ok((Scanned::Bool(truth), behind)),
                Err(place) => Err(ScanFault::Place(place)),
            },
            Datatype::Named { .. } => {
                let words = schema.values[kind as usize];
                match self.word(words) {
                    Ok((ordinal, behind)) => Ok((Scanned::Ordinal(ordinal as u32), behind)),
                    Err(place) => Err(ScanFault::Place(place)),
                }
            }
            Datatype::Bounded { .. } | Datatype::Unsigned { .. } | Datatype::Signed { .. } => {
                match self.number() {
                    Ok((number, behind)) => Ok((Scanned::Number(number), behind)),
                    Err(place) => Err(ScanFault::Place(place)),
                }
            }
            Datatype::Binary { .. } => match self.bytes(alloc) {
                Ok((bytes, behind)) => Ok((Scanned::Bytes(bytes), behind)),
                Err(fault) => Err(fault),
            },
            Datatype::Text { .. } => match self.quoted(alloc) {
                Ok((text, behind)) => Ok((Scanned::Text(text), behind)),
                Err(fault) => Err(fault),
            },
        }
    }

    /// Takes a value of a simple kind: the longest front of what is left that begins the text of one, where it is one. Otherwise the
    /// fault's place is behind that front, and nothing is passed.
    pub fn take_value(
        &mut self,
        alloc: Global,
        schema: &Schema,
        kind: u16,
        datatype: Datatype,
    ) -> Result<Scanned, ScanFault>
        requires { slice_get (schema_of schema.now).kinds kind ≡ Some (valued datatype) }
        ensures taken { IfOk result (λ scanned. (front : List ℕ)
            × Takes (IsAnyFormed (schema_of schema.now) kind datatype) self.old front self.new
            × IsFormed (schema_of schema.now) kind datatype (meaning scanned) (encode_utf8_all front)) }
        ensures fault { IfErr result (λ fault. MissesAt (IsAnyFormed (schema_of schema.now) kind datatype) self.old fault × (self.new ≡ self.old)) }
    {
        let (scanned, behind) = self.value(alloc, schema, kind, datatype)?;
        *self = behind;
        Ok(scanned)
    }

    /// Takes one of the names that are awaited, with the character behind it: the longest front of what is left that begins one such
    /// text, where it is one. It gives the place among those awaited, from 0; of two with one text it is any. Otherwise it gives the
    /// number of characters of the whole text passed up to the end of that front, and nothing is passed.
    pub fn take_name(&mut self, schema: &Schema, awaited: &[Awaited]) -> Result<usize, u64>
        requires names { All (λ one. one.name < length (schema_of schema.now).names) awaited.now }
        requires ends { All (λ one. one.end < 128) awaited.now }
        requires any { 0 < length awaited.now }
        ensures taken { IfOk result (λ i. (front : List ℕ) × (one : Awaited)
            × Takes (IsAnyAwaited (schema_of schema.now) awaited.now) self.old front self.new
            × (slice_get awaited.now i ≡ Some one) × IsAwaitedText (schema_of schema.now) one (encode_utf8_all front)) }
        ensures fault { IfErr result (λ place. GoesWrong (IsAnyAwaited (schema_of schema.now) awaited.now) self.old place × (self.new ≡ self.old)) }
    {
        let mut best = Best {
            count: 0,
            whole: None,
        };
        for i in 0..awaited.len() {
            let one = awaited[i];
            let (count, is_whole) = agreed_awaited(self.rest, schema.name(one.name), one.end);
            best = best.with(i, count, is_whole);
        }
        match self.take_best(best) {
            Ok((i, behind)) => {
                *self = behind;
                Ok(i)
            }
            Err(place) => Err(place),
        }
    }
}
