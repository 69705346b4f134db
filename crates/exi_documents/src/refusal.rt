//! Refusals of a payload.

use exi_strings::exi_spec::BitCause;

/// Why a payload spells no document (own): what is wrong with the first item that can't be taken.
#[derive(Clone, Copy, Debug, PartialEq, Eq)]
pub enum RefusalCause {
    /// The payload ends before the item does.
    ShortInput,
    /// The tenth octet of an Unsigned Integer says that more follow, or its value is 2^64 or more.
    WiderInteger,
    /// A code point is no Unicode scalar value.
    BadChar,
    /// An index into a value partition isn't below the number of its entries.
    NoSuchIndex,
    /// The first byte isn't the header of a document without cookie and options.
    BadHeader,
    /// The event code is the escape to what isn't declared.
    Deviation,
    /// The event code is above the escape, or the document number is no code at all.
    NoSuchCode,
    /// The ordinal of an enumeration, or the code of a bounded integer, isn't below the number of values.
    NoSuchValue,
    /// A text or a Binary is longer than its datatype allows, or one more copy passes the profile limit.
    TooLong,
    /// An integer is outside the range of its datatype.
    OutOfRange,
    /// The document number names no element of the schema.
    UnknownElement,
    /// The event code names an element that is left out of the profile; `name` is the number of its name.
    OutOfProfile { name: u16 },
    /// The event code names the abstract head of a substitution group.
    Abstract,
    /// A whole byte follows the byte in which the document ends.
    Trailing,
    /// A text would be one more than the string table holds.
    TableFull,
}

/// The refusal of a payload.
#[derive(Clone, Copy, Debug, PartialEq, Eq)]
pub struct Refusal {
    /// What is wrong.
    pub cause: RefusalCause,
    /// The first bit of the item that can't be taken, counted from 0 at the highest bit of the first byte.
    pub bit: u32,
}

impl From<BitCause> for RefusalCause {
    ghost use Rattle.std.specs.Prelude.{◌≡◌};
    ghost use Rattle.exi_documents.specs.Values.{cause_of};

    fn from(cause: BitCause) -> RefusalCause
        ensures { result ≡ cause_of cause }
    {
        match cause {
            BitCause::ShortInput => RefusalCause::ShortInput,
            BitCause::WiderInteger => RefusalCause::WiderInteger,
            BitCause::BadChar => RefusalCause::BadChar,
        }
    }
}
