//! Texts and Binaries as the texts and bytes of words.

ghost use Rattle.std.specs.Prelude.{◌≡◌, ◌≤◌, true, length};
ghost use Rattle.std.specs.Char.{IsScalar};
ghost use Rattle.std.specs.Str.{chars};
ghost use Rattle.exi_bits.specs.Lent.{items_of};
ghost use Rattle.word_values.specs.Items as items;

use arrayvec::{ArrayString, ArrayVec};
use exi_bits::BitSpan;
use message_parts::{Binary, Text};
use session_words::EvseText;

/// The bytes of a Binary of at most N, and none of a longer one.
pub fn bytes_of<const N: usize>(binary: &Binary<'_>) -> ArrayVec<u8, N>
    ensures { result.items ≡ items.bytes_of N binary.now }
{
    let span = binary.span();
    let mut bytes = ArrayVec::new();
    if span.len() as usize > N {
        return bytes;
    }
    let mut contents = span.contents();
    for _at in 0..N {
        if let Some(byte) = contents.next() {
            bytes.push(byte as u8);
        }
    }
    bytes
}

/// The character of a code point.
fn char_of(point: u32) -> char
    requires { IsScalar point }
    ensures { result ≡ point }
{
    match char::from_u32(point) {
        Some(c) => c,
        None => unreachable!(),
    }
}

/// A text of at most 37 code points.
fn evse_text(text: &str) -> EvseText
    requires { length (chars text.now) ≤ 37 }
    ensures { result ≡ text.now }
{
    match EvseText::of(text) {
        Some(text) => text,
        None => unreachable!(),
    }
}

/// A lent text of at most 37 code points, and the empty text in place of a longer one.
fn lent_text(span: &BitSpan<'_>) -> EvseText
    requires { span.now.is_text ≡ true }
    ensures { result ≡ items.evse_bytes (items_of span.now) }
{
    if span.len() > 37 {
        return EvseText::default();
    }
    let mut text = ArrayString::<148>::new();
    let mut contents = span.contents();
    for _at in 0..37u32 {
        match contents.next() {
            Some(point) => text.push(char_of(point)),
            None => {}
        }
    }
    evse_text(text.as_str())
}

/// A text of at most 37 code points, and the empty text in place of a longer one.
fn written_text(text: &str) -> EvseText
    ensures { result ≡ items.evse_bytes (chars text.now) }
{
    match EvseText::of(text) {
        Some(text) => text,
        None => EvseText::default(),
    }
}

/// An EVSEID as a word keeps it: a text of at most 37 code points, and the empty text in place of a longer one.
pub fn evse_text_of(text: &Text<'_>) -> EvseText
    ensures { result ≡ items.evse_text_of text.now }
{
    match text {
        Text::Lent(lent) => lent_text(lent.span()),
        Text::Written(written) => written_text(written),
    }
}
