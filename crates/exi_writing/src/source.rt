//! Texts that are written.

ghost use Rattle.std.specs.Prelude.{◌≡◌, ◌*◌, ◌≤◌, ◌<◌, ◌^◌, ◌↔◌, IsTrue, true, length, OnOk, OnErr, IfErr};
ghost use Rattle.exi_spec.specs.Items.{shortest_chars};
ghost use Rattle.exi_bits.specs.Lent.{items_of};
ghost use Rattle.exi_bits.specs.Pens.{Writes, Needs};
ghost use Rattle.exi_writing.specs.Writing.{WritesMore, PassesRoom};

use exi_bits::{BitPen, BitSpan, Full, chars_bits};

/// A text that is written, wherever it lies.
#[derive(Clone, Copy)]
pub(crate) enum TextSource<'t, 'a> {
    /// Lent from a payload.
    Lent(&'t BitSpan<'a>),
    /// A text of the program.
    Written(&'t str),
}

impl<'t, 'a> TextSource<'t, 'a> {
    ghost use Rattle.exi_writing.specs.Source.{chars_of, IsText};

    /// How many code points it has.
    pub(crate) fn len(&self) -> u32
        requires { length (chars_of self.now) < 2 ^ 32 }
        ensures { result ≡ length (chars_of self.now) }
    {
        match self {
            TextSource::Lent(span) => span.len(),
            TextSource::Written(text) => text.chars().count() as u32,
        }
    }

    /// Whether it is the other text.
    pub(crate) fn is_same(&self, other: &BitSpan) -> bool
        requires mine { IsText self.now }
        requires theirs { other.now.is_text ≡ true }
        ensures { IsTrue result ↔ (items_of other.now ≡ chars_of self.now) }
    {
        match self {
            TextSource::Lent(span) => other.same(span),
            TextSource::Written(text) => other.same_str(text),
        }
    }

    /// How many bits its code points have, each in its shortest spelling.
    pub(crate) fn chars_bits(&self) -> u64
        requires { length (chars_of self.now) < 2 ^ 32 }
        ensures bits { result ≡ length (shortest_chars (chars_of self.now)) }
        ensures few { result ≤ 320 * 2 ^ 32 }
    {
        match self {
            TextSource::Lent(span) => span.chars_bits(),
            TextSource::Written(text) => chars_bits(text),
        }
    }

    /// Writes its code points, each in its shortest spelling.
    pub(crate) fn put_chars(&self, pen: &mut BitPen) -> Result<(), Full>
        requires { length (chars_of self.now) < 2 ^ 32 }
        ensures ok { OnOk result (Writes pen.old pen.new (shortest_chars (chars_of self.now))) }
        ensures full { OnErr result (Needs pen.old (length (shortest_chars (chars_of self.now)))) }
        ensures bits { IfErr result (PassesRoom pen.old) }
        ensures more { WritesMore pen.old pen.new }
    {
        match self {
            TextSource::Lent(span) => put_items(pen, span),
            TextSource::Written(text) => pen.put_chars(text),
        }
    }
}

/// The code points of a text that is lent.
#[inline(always)]
fn put_items(pen: &mut BitPen, span: &BitSpan) -> Result<(), Full>
    ensures ok { OnOk result (Writes pen.old pen.new (shortest_chars (items_of span.now))) }
    ensures full { OnErr result (Needs pen.old (length (shortest_chars (items_of span.now)))) }
    ensures bits { IfErr result (PassesRoom pen.old) }
    ensures more { WritesMore pen.old pen.new }
{
    pen.put_lent_chars(span)
}
