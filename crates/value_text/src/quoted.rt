//! Texts in quotes.

ghost use Rattle.std.specs.Prelude.{◌≡◌, IfOk, IfErr, ℕ, List};
ghost use Rattle.std.specs.List.{AllByRecursion};
ghost use Rattle.std.specs.Char.{IsScalar};
ghost use Rattle.std.specs.Str.{encode_utf8_all, chars};
ghost use Rattle.std.specs.String.{string_bytes};
ghost use Rattle.value_text.specs.Forms.{IsNumbered, IsNumberedText, IsBraced, IsBracedText, IsEscaped, IsEscapedText, IsPieceText, IsPiece, IsQuotedText};
ghost use Rattle.value_text.specs.Scanning.{Takes, GoesWrong, MissesAt};
ghost use Rattle.value_text.specs.ValueText.{quoted};

use crate::cursor::TextCursor;
use crate::fault::ScanFault;
use std::alloc::Global;

impl<'t> TextCursor<'t> {
    /// The character below U+0020 whose number in hexadecimal ends in a brace there, and the cursor behind it.
    fn numbered(&self) -> Result<(char, TextCursor<'t>), u64>
        ensures taken { IfOk result (λ x. (front : List ℕ) × Takes IsNumberedText self.now front x.1 × IsNumbered x.0 (encode_utf8_all front)) }
        ensures fault { IfErr result (λ place. GoesWrong IsNumberedText self.now place) }
    {
        let mut ahead = *self;
        let Some(digit) = ahead.hex_digit() else {
            return Err(ahead.place);
        };
        if ahead.take_char('}') {
            return Ok((char::from(digit), ahead));
        }
        if digit != 1 {
            return Err(ahead.place);
        }
        let Some(low) = ahead.hex_digit() else {
            return Err(ahead.place);
        };
        if ahead.take_char('}') {
            return Ok((char::from(16 + low), ahead));
        }
        Err(ahead.place)
    }

    /// The character below U+0020 whose number in hexadecimal stands in braces there, and the cursor behind it.
    fn braced(&self) -> Result<(char, TextCursor<'t>), u64>
        ensures taken { IfOk result (λ x. (front : List ℕ) × Takes IsBracedText self.now front x.1 × IsBraced x.0 (encode_utf8_all front)) }
        ensures fault { IfErr result (λ place. GoesWrong IsBracedText self.now place) }
    {
        let mut ahead = *self;
        if ahead.take_char('{') {
            return ahead.numbered();
        }
        Err(ahead.place)
    }

    /// The character that is spelled behind a backslash, and the cursor behind it.
    fn escaped(&self) -> Result<(char, TextCursor<'t>), u64>
        ensures taken { IfOk result (λ x. (front : List ℕ) × Takes IsEscapedText self.now front x.1 × IsEscaped x.0 (encode_utf8_all front)) }
        ensures fault { IfErr result (λ place. GoesWrong IsEscapedText self.now place) }
    {
        let mut ahead = *self;
        if ahead.take_char('"') {
            return Ok(('"', ahead));
        }
        if ahead.take_char('\\') {
            return Ok(('\\', ahead));
        }
        if ahead.take_char('u') {
            return ahead.braced();
        }
        Err(ahead.place)
    }

    /// The next character between quotes, or the closing quote, which is no character; and the cursor behind it.
    fn piece(&self) -> Result<(Option<char>, TextCursor<'t>), u64>
        ensures taken { IfOk result (λ x. (front : List ℕ) × Takes IsPieceText self.now front x.1 × IsPiece x.0 (encode_utf8_all front)) }
        ensures fault { IfErr result (λ place. GoesWrong IsPieceText self.now place) }
    {
        let mut ahead = *self;
        let Some(c) = ahead.next() else {
            return Err(self.place);
        };
        if c == '"' {
            return Ok((None, ahead));
        }
        if c == '\\' {
            return match ahead.escaped() {
                Ok((c, behind)) => Ok((Some(c), behind)),
                Err(place) => Err(place),
            };
        }
        if c < ' ' {
            return Err(self.place);
        }
        Ok((Some(c), ahead))
    }

    /// The text that stands there in quotes, and the cursor behind it.
    pub(crate) fn quoted(&self, alloc: Global) -> Result<(String, TextCursor<'t>), ScanFault>
        ensures taken { IfOk result (λ x. (front : List ℕ) × Takes IsQuotedText self.now front x.1 × AllByRecursion (λ char. IsScalar char) (chars (string_bytes x.0)) × (encode_utf8_all front ≡ quoted (chars (string_bytes x.0)))) }
        ensures fault { IfErr result (MissesAt IsQuotedText self.now) }
    {
        let mut ahead = *self;
        if !ahead.take_char('"') {
            return Err(ScanFault::Place(ahead.place));
        }
        let mut text = String::new(alloc);
        loop {
            match ahead.piece() {
                Ok((Some(c), behind)) => {
                    text.push(c)?;
                    ahead = behind;
                }
                Ok((None, behind)) => return Ok((text, behind)),
                Err(place) => return Err(ScanFault::Place(place)),
            }
        }
    }
}
