//! Texts and Binaries as values, lent from the payload or from what the message is made of.

ghost use Rattle.std.specs.Prelude.{◌≡◌, ◌↔◌, ◌≤◌, IsTrue, true, false, length};
ghost use Rattle.std.specs.Str.{chars};
ghost use Rattle.exi_bits.specs.Lent.{items_of};
ghost use Rattle.exi_events.specs.Trees.{Bytes as TreeBytes, Text as TreeText};
ghost use Rattle.exi_events.specs.Meaning.{value_of, IsShaped};
ghost use Rattle.message_parts.specs.Values.{is_text, is_binary};
ghost use Rattle.message_parts.specs.Texts.{text_value};

use crate::lent_text::LentText;
use crate::part::Simple;
use exi_bits::BitSpan;
use exi_events::Value;

/// A text (W3C EXI 1.0, Second Edition, 7.1.10 String).
#[derive(Drop)]
pub enum Text<'a> {
    /// Lent from the payload in which it was read.
    Lent(LentText<'a>),
    /// To be written.
    Written(&'a str),
}

impl Text<'_> {
    ghost use Rattle.message_parts.specs.Texts.{chars_of};

    /// Whether it has the code points of this text.
    pub fn is(&self, text: &str) -> bool
        ensures { IsTrue result ↔ (chars_of self.now ≡ chars text.now) }
    {
        match self {
            Text::Lent(lent) => lent.span.same_str(text),
            Text::Written(written) => is_same(written, text),
        }
    }
}

/// A Binary (W3C EXI 1.0, Second Edition, 7.1.1), lent from the payload in which it was read, or from bytes.
#[derive(Drop)]
pub struct Binary<'a> {
    span: BitSpan<'a>,
    ghost binary: { span.is_text ≡ false },
}

/// Whether two texts have the same bytes.
fn has_same_bytes(one: &str, other: &str) -> bool
    ensures { IsTrue result ↔ (one.now ≡ other.now) }
{
    one == other
}

/// Whether two texts have the same code points.
fn is_same(one: &str, other: &str) -> bool
    ensures { IsTrue result ↔ (chars one.now ≡ chars other.now) }
{
    has_same_bytes(one, other)
}

impl<'a> Binary<'a> {
    /// The Binary of these bytes, at most 65,536.
    pub fn of_bytes(bytes: &'a [u8]) -> Binary<'a>
        requires { length bytes.now ≤ 65536 }
        ensures { items_of result.span ≡ bytes.now }
    {
        Binary {
            span: BitSpan::of_bytes(bytes),
        }
    }

    /// The bytes as they stand in the payload.
    pub fn span(&self) -> &BitSpan<'a>
        ensures { result.now ≡ self.now.span }
    {
        &self.span
    }
}

impl<'a> Simple<'a> for Text<'a> {
    ghost takes = { is_text };

    ghost value = { text_value };

    fn as_value(&self) -> Value<'_> {
        match self {
            Text::Lent(lent) => Value::Text(lent.span.again()),
            Text::Written(text) => Value::Written(text),
        }
    }

    fn of(read: Value<'a>) -> Text<'a> {
        match read {
            Value::Text(span) => Text::Lent(LentText { span }),
            _ => Text::Written(""),
        }
    }
}

impl<'a> Default for Text<'a> {
    fn default() -> Text<'a> {
        Text::Written("")
    }
}

impl<'a> Simple<'a> for Binary<'a> {
    ghost takes = { is_binary };

    ghost value = { λ x. TreeBytes (items_of x.span) };

    fn as_value(&self) -> Value<'_> {
        Value::Binary(self.span.again())
    }

    fn of(read: Value<'a>) -> Binary<'a> {
        match read {
            Value::Binary(span) => Binary { span },
            _ => Binary::of_bytes(&[]),
        }
    }
}

impl<'a> Default for Binary<'a> {
    fn default() -> Binary<'a> {
        Binary::of_bytes(&[])
    }
}
