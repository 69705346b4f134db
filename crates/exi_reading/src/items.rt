//! Values of the datatypes other than String, taken from a cursor.

ghost use Rattle.std.specs.Prelude.{◌≡◌, ℕ, ◌+◌, ◌*◌, ◌≤◌, ◌⊎◌, false, length, [], ◌≤ℤ◌, ◌↔◌, IsTrue, IfOk, IfErr, OnErr};
ghost use Rattle.exi_spec.specs.Items.{SpellsBool, SpellsNumber, SpellsUnsigned, SpellsInteger, SpellsBytes, RefusesBits, RefusesUnsigned, RefusesInteger};
ghost use Rattle.exi_spec.specs.declared.BitCause.{BitCause};
ghost use Rattle.exi_bits.specs.Reading.{Takes, ahead};
ghost use Rattle.exi_bits.specs.Lent.{items_of};
ghost use Rattle.exi_schema.specs.declared.tables.Datatype.{Datatype};
ghost use Rattle.exi_values.specs.Texts.{IsIndexWidth, Announces};
ghost use Rattle.exi_values.specs.Values.{cause_of, SpellsCode, SpellsBounded, RefusesItem, RefusesCode, RefusesValue, Exceeds};
ghost use Rattle.exi_reading.specs.Refusing.{Refused};

use exi_bits::{BitCursor, BitFault, BitSpan};
use exi_values::exi_documents::{Refusal, RefusalCause};

/// An item that can't be taken, as the refusal of the payload.
pub(crate) fn refusal(fault: BitFault) -> Refusal
    ensures { result ≡ record { cause = cause_of fault.cause; bit = fault.bit } }
{
    Refusal {
        cause: RefusalCause::from(fault.cause),
        bit: fault.bit,
    }
}

/// The least number of bits in which so many values differ.
#[inline(always)]
pub fn index_width(count: u32) -> u32
    ensures least { IsIndexWidth count result }
    ensures bound { result ≤ 32 }
{
    32 - count.saturating_sub(1).leading_zeros()
}

/// An n-bit Unsigned Integer (7.1.9).
#[inline(always)]
pub(crate) fn take_number(cursor: &mut BitCursor, n: u32) -> Result<u32, Refusal>
    requires { n ≤ 32 }
    ensures ok { IfOk result (λ v. Takes (SpellsNumber n v) cursor.old cursor.new) }
    ensures refused { IfErr result (λ r. RefusesItem (RefusesBits n) (ahead cursor.old) r.cause) }
    ensures at { IfErr result (λ r. r.bit ≡ cursor.old.place) }
    ensures stays { OnErr result (cursor.new ≡ cursor.old) }
{
    cursor.take_bits(n).map_err(refusal)
}

/// A Boolean (7.1.2).
#[inline(always)]
pub(crate) fn take_truth(cursor: &mut BitCursor) -> Result<bool, Refusal>
    ensures ok { IfOk result (λ truth. Takes (SpellsBool truth) cursor.old cursor.new) }
    ensures refused { IfErr result (λ r. RefusesItem (RefusesBits 1) (ahead cursor.old) r.cause) }
    ensures at { IfErr result (λ r. r.bit ≡ cursor.old.place) }
    ensures stays { OnErr result (cursor.new ≡ cursor.old) }
{
    cursor.take_bit().map_err(refusal)
}

/// One of `count` codes (7.1.9, 7.2).
///
/// `NoSuchValue` for a code that isn't below `count`.
#[inline(always)]
pub(crate) fn take_code(cursor: &mut BitCursor, count: u32) -> Result<u32, Refusal>
    ensures ok { IfOk result (λ code. Takes (SpellsCode count code) cursor.old cursor.new) }
    ensures refused { IfErr result (λ r. RefusesCode count (ahead cursor.old) r.cause) }
    ensures at { IfErr result (λ r. r.bit ≡ cursor.old.place) }
    ensures same { cursor.new.bits ≡ cursor.old.bits }
{
    let bit = cursor.place();
    let code = take_number(cursor, index_width(count))?;
    if code >= count {
        return Err(Refusal {
            cause: RefusalCause::NoSuchValue,
            bit,
        });
    }
    Ok(code)
}

/// One of `count` integers from `least` on (7.1.9).
#[inline(always)]
pub(crate) fn take_bounded(cursor: &mut BitCursor, least: i64, count: u32) -> Result<i128, Refusal>
    ensures ok { IfOk result (λ v. Takes (SpellsBounded least count v) cursor.old cursor.new) }
    ensures refused { IfErr result (λ r. RefusesCode count (ahead cursor.old) r.cause) }
    ensures at { IfErr result (λ r. r.bit ≡ cursor.old.place) }
    ensures same { cursor.new.bits ≡ cursor.old.bits }
{
    let code = take_code(cursor, count)?;
    Ok(i128::from(least) + i128::from(code))
}

/// An Unsigned Integer (7.1.6), at most `most`; the refusal of a greater one has the cause `beyond`.
#[inline(always)]
pub(crate) fn take_at_most(
    cursor: &mut BitCursor,
    most: u64,
    beyond: RefusalCause,
) -> Result<u64, Refusal>
    ensures range { IfOk result (λ n. n ≤ most) }
    ensures ok { IfOk result (λ n. Takes (SpellsUnsigned n) cursor.old cursor.new) }
    ensures refused { IfErr result (λ r. RefusesItem RefusesUnsigned (ahead cursor.old) r.cause
        ⊎ (Exceeds most (ahead cursor.old) × (r.cause ≡ beyond))) }
    ensures at { IfErr result (λ r. r.bit ≡ cursor.old.place) }
    ensures same { cursor.new.bits ≡ cursor.old.bits }
{
    let bit = cursor.place();
    let value = cursor.take_unsigned().map_err(refusal)?;
    if value > most {
        return Err(Refusal { cause: beyond, bit });
    }
    Ok(value)
}

/// An Integer (7.1.5) from `least` to `most`.
///
/// `OutOfRange` at its sign bit.
#[inline(always)]
pub(crate) fn take_signed(cursor: &mut BitCursor, least: i64, most: i64) -> Result<i128, Refusal>
    ensures low { IfOk result (λ v. least ≤ℤ v) }
    ensures high { IfOk result (λ v. v ≤ℤ most) }
    ensures ok { IfOk result (λ v. Takes (SpellsInteger v) cursor.old cursor.new) }
    ensures refused { IfErr result (Refused (RefusesValue (Datatype.Signed least most) [] 0) cursor.old) }
    ensures same { cursor.new.bits ≡ cursor.old.bits }
{
    let bit = cursor.place();
    let value = take_integer(cursor)?;
    if !is_within(value, least, most) {
        return Err(Refusal {
            cause: RefusalCause::OutOfRange,
            bit,
        });
    }
    Ok(value)
}

/// An Integer (7.1.5).
#[inline(always)]
fn take_integer(cursor: &mut BitCursor) -> Result<i128, Refusal>
    ensures ok { IfOk result (λ v. Takes (SpellsInteger v) cursor.old cursor.new) }
    ensures refused { IfErr result (λ r. (at : ℕ) × ((why : BitCause) × RefusesInteger (ahead cursor.old) why at
        × (r.cause ≡ cause_of why)) × (r.bit ≡ cursor.old.place + at)) }
    ensures stays { OnErr result (cursor.new ≡ cursor.old) }
{
    cursor.take_integer().map_err(refusal)
}

/// Whether an integer is from `least` to `most`.
#[inline(always)]
fn is_within(value: i128, least: i64, most: i64) -> bool
    ensures { IsTrue result ↔ ((least ≤ℤ value) × (value ≤ℤ most)) }
{
    i128::from(least) <= value && value <= i128::from(most)
}

/// A Binary (7.1.1) of at most `most` bytes.
///
/// `TooLong` at its length, and `ShortInput` at its first byte where the payload ends within them.
pub(crate) fn take_binary<'a>(cursor: &mut BitCursor<'a>, most: u32) -> Result<BitSpan<'a>, Refusal>
    ensures range { IfOk result (λ span. length (items_of span) ≤ most) }
    ensures ok { IfOk result (λ span. Takes
        (Announces (length (items_of span)) (SpellsBytes (items_of span))) cursor.old cursor.new) }
    ensures bits { IfOk result (λ span. span.bits ≡ cursor.old.bits) }
    ensures kind { IfOk result (λ span. span.is_text ≡ false) }
    ensures refused { IfErr result (Refused (RefusesValue (Datatype.Binary most) [] 0) cursor.old) }
    ensures same { cursor.new.bits ≡ cursor.old.bits }
{
    let n = take_at_most(cursor, u64::from(most), RefusalCause::TooLong)?;
    take_bytes(cursor, n as u32)
}

/// The n bytes of a Binary behind its length.
fn take_bytes<'a>(cursor: &mut BitCursor<'a>, n: u32) -> Result<BitSpan<'a>, Refusal>
    ensures count { IfOk result (λ span. length (items_of span) ≡ n) }
    ensures ok { IfOk result (λ span. Takes (SpellsBytes (items_of span)) cursor.old cursor.new) }
    ensures bits { IfOk result (λ span. span.bits ≡ cursor.old.bits) }
    ensures kind { IfOk result (λ span. span.is_text ≡ false) }
    ensures refused { IfErr result (λ r. RefusesItem (RefusesBits (8 * n)) (ahead cursor.old) r.cause) }
    ensures at { IfErr result (λ r. r.bit ≡ cursor.old.place) }
    ensures stays { OnErr result (cursor.new ≡ cursor.old) }
{
    cursor.take_bytes(n).map_err(refusal)
}
