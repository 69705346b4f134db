//! A payload, and the next bit of it.

ghost use Rattle.std.specs.Prelude.{◌≡◌, ℕ, ◌+◌, ◌≤◌, ◌<◌, true, length, None, IfOk, IfErr, IfSome, OnErr, ◌⊎◌};
ghost use Rattle.exi_spec.specs.Bits.{bits_of};
ghost use Rattle.exi_spec.specs.Items.{SpellsNumber, RefusesBits};
ghost use Rattle.exi_schema.specs.Schemas.{is_datatype};
ghost use Rattle.exi_values.specs.Values.{most_entries, SpellsValue, RefusesItem, RefusesValue};
ghost use Rattle.exi_values.specs.Meaning.{AreTexts, IsLent, texts_in, value_of};

use crate::{items, texts};
use exi_bits::{BitCursor, BitWindow};
use exi_schema::Datatype;
use exi_values::exi_documents::{Refusal, RefusalCause};
use exi_values::{Table, Value};
use std::marker::Model;

/// A payload that is read item by item. Contracts see all its bits, and the place of the next one.
#[derive(Drop)]
pub struct PayloadReader<'a> {
    payload: &'a [u8],
    cursor: BitCursor<'a>,
}

impl<'a> Model for PayloadReader<'a> {
    ghost use Rattle.std.specs.Prelude.{◌≡◌, ◌≤◌, length};
    ghost use Rattle.exi_spec.specs.Bits.{bits_of};
    ghost use Rattle.exi_bits.specs.Reading.{Cursor};

    ghost Value = { Cursor };

    ghost view = { λ r. r.cursor };

    ghost invariant = { λ r. (length r.payload.now ≤ 65536) × (r.cursor.bits ≡ bits_of r.payload.now) };
}

impl<'a> PayloadReader<'a> {
    ghost use Rattle.exi_bits.specs.Reading.{Cursor, HoldsNext, Takes, ahead};

    /// The first bit of a payload of at most 65,536 bytes.
    pub fn new(payload: &'a [u8]) -> PayloadReader<'a>
        requires { length payload.now ≤ 65536 }
        ensures { result ≡ record { bits = bits_of payload.now; place = 0 } }
    {
        PayloadReader {
            payload,
            cursor: BitCursor::new(payload),
        }
    }

    /// The number of the next bit.
    pub fn place(&self) -> u32
        ensures place { result ≡ self.now.place }
        ensures within { result ≤ length self.now.bits }
        ensures room { length self.now.bits ≤ 524288 }
    {
        self.cursor.place()
    }

    /// How many bits are left.
    pub fn left(&self) -> u32
        ensures { result ≡ length (ahead self.now) }
    {
        8 * self.payload.len() as u32 - self.cursor.place()
    }

    /// The next bits, to take values of few bits from; `None` where the payload has less than eight bytes, or at its end.
    #[inline(always)]
    pub fn window(&self) -> Option<BitWindow<'a>>
        ensures cursor { IfSome result (λ window. window.cursor ≡ self.now) }
        ensures held { IfSome result HoldsNext }
        ensures none { result ≡ None → (length self.now.bits < 64) ⊎ (self.now.place ≡ length self.now.bits) }
    {
        self.cursor.window()
    }

    /// Goes on behind what was taken from a window of the same bits.
    #[inline(always)]
    pub fn pass(&mut self, window: BitWindow<'a>)
        requires { window.cursor.bits ≡ self.old.bits }
        ensures { self.new ≡ window.entry.cursor }
    {
        self.cursor.pass(window);
    }

    /// Takes an n-bit Unsigned Integer (7.1.9), of at most 32 bits.
    ///
    /// `ShortInput` where fewer bits are left.
    #[inline(always)]
    pub fn take_number(&mut self, n: u32) -> Result<u32, Refusal>
        requires { n ≤ 32 }
        ensures ok { IfOk result (λ v. Takes (SpellsNumber n v) self.old self.new) }
        ensures refused { IfErr result (λ r. RefusesItem (RefusesBits n) (ahead self.old) r.cause) }
        ensures at { IfErr result (λ r. r.bit ≡ self.old.place) }
        ensures stays { OnErr result (self.new ≡ self.old) }
    {
        items::take_number(&mut self.cursor, n)
    }

    /// Takes a value of a datatype, of the element or attribute with this name.
    ///
    /// A text that is spelled out enters the table unless it is empty; a Binary and a text are lent from the payload.
    /// The first item that can't be taken decides, at its first bit, and leaves the table as it was: `ShortInput`,
    /// `WiderInteger`, `BadChar` and `NoSuchIndex` as in the bits, `NoSuchValue`, `OutOfRange` and `TooLong` after the
    /// datatype, and `TableFull` where the text would be one more than 8,192.
    #[inline(always)]
    pub fn take_value(
        &mut self,
        datatype: Datatype,
        name: u16,
        table: &mut Table,
    ) -> Result<Value<'a>, Refusal>
        requires datatype { is_datatype datatype ≡ true }
        requires cap { table.old.cap ≡ most_entries }
        requires texts { AreTexts self.old.bits table.old.entries }
        ensures ok { IfOk result (λ v. Takes (λ bits.
            SpellsValue datatype (texts_in self.old.bits table.old.entries) name (value_of v) bits (texts_in self.old.bits table.new.entries))
            self.old self.new) }
        ensures lent { IfOk result (λ v. IsLent self.old.bits v) }
        ensures same { self.new.bits ≡ self.old.bits }
        ensures texts { AreTexts self.old.bits table.new.entries }
        ensures cap { table.new.cap ≡ most_entries }
        ensures refused { IfErr result (λ r. (at : ℕ)
            × RefusesValue datatype (texts_in self.old.bits table.old.entries) name (ahead self.old) r.cause at
            × (r.bit ≡ self.old.place + at)) }
        ensures stays { OnErr result (table.new ≡ table.old) }
    {
        let cursor = &mut self.cursor;
        match datatype {
            Datatype::Bool => Ok(Value::Bool(items::take_truth(cursor)?)),
            Datatype::Named { count } => Ok(Value::Ordinal(items::take_code(cursor, count)?)),
            Datatype::Bounded { least, count } => {
                Ok(Value::Number(items::take_bounded(cursor, least, count)?))
            }
            Datatype::Unsigned { most } => {
                let value = items::take_at_most(cursor, most, RefusalCause::OutOfRange)?;
                Ok(Value::Number(i128::from(value)))
            }
            Datatype::Signed { least, most } => {
                Ok(Value::Number(items::take_signed(cursor, least, most)?))
            }
            Datatype::Binary { most } => Ok(Value::Binary(items::take_binary(cursor, most)?)),
            Datatype::Text { most } => {
                let text = texts::take_text(self.payload, cursor, most, name, table)?;
                Ok(Value::Text(text))
            }
        }
    }
}
