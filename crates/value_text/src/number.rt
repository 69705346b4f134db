//! Numbers.

ghost use Rattle.std.specs.Prelude.{◌≡◌, ◌+◌, ◌<◌, ◌^◌, [], ◌∷◌, MatchOption, IfOk, IfErr, ℕ, List};
ghost use Rattle.std.specs.Char.{is_ascii_digit};
ghost use Rattle.std.specs.Fmt.{decimal, signed_decimal};
ghost use Rattle.std.specs.Int.{is_in_range};
ghost use Rattle.std.specs.Str.{encode_utf8_all};
ghost use Rattle.value_text.specs.Forms.{IsNumberText, NoneNext, EndsDigits};
ghost use Rattle.value_text.specs.Scanning.{Passes, Takes, GoesWrong};
ghost use Rattle.value_text.specs.ValueText.{IsShort};

use crate::cursor::TextCursor;

impl<'t> TextCursor<'t> {
    /// Passes a decimal digit, if one is next, and gives its value.
    fn digit(&mut self) -> Option<u8>
        ensures { MatchOption result ((self.new ≡ self.old) × NoneNext is_ascii_digit self.old.rest.now) (λ d. (d < 10) × Passes self.old ((48 + d) ∷ []) self.new) }
    {
        let mut ahead = *self;
        let c = ahead.next()?;
        if !c.is_ascii_digit() {
            return None;
        }
        *self = ahead;
        Some((c as u32 - 48) as u8)
    }

    /// The number above 0 whose digits stand there, at most 20 of them, and the cursor behind them.
    fn positive(&self) -> Option<(u128, TextCursor<'t>)>
        ensures { MatchOption result (NoneNext (is_in_range 49 57) self.now.rest.now) (λ x. (0 < x.0) × (x.0 < 10 ^ 20) × Passes self.now (decimal x.0) x.1 × EndsDigits x.0 x.1.rest.now) }
    {
        let mut ahead = *self;
        let first = ahead.digit()?;
        if first == 0 {
            return None;
        }
        let mut number = u128::from(first);
        for _count in 1..20u32 {
            let Some(digit) = ahead.digit() else {
                return Some((number, ahead));
            };
            number = number * 10 + u128::from(digit);
        }
        Some((number, ahead))
    }

    /// The number of at most 20 digits that stands there, and the cursor behind it, or the place where it goes wrong.
    pub(crate) fn number(&self) -> Result<(i128, TextCursor<'t>), u64>
        ensures taken { IfOk result (λ x. (front : List ℕ) × Takes IsNumberText self.now front x.1 × IsShort x.0 × (encode_utf8_all front ≡ signed_decimal x.0)) }
        ensures fault { IfErr result (λ place. GoesWrong IsNumberText self.now place) }
    {
        let mut ahead = *self;
        if ahead.take_char('-') {
            return match ahead.positive() {
                Some((magnitude, behind)) => Ok((-(magnitude as i128), behind)),
                None => Err(ahead.place),
            };
        }
        if let Some((number, behind)) = ahead.positive() {
            return Ok((number as i128, behind));
        }
        if ahead.take_char('0') {
            return Ok((0, ahead));
        }
        Err(ahead.place)
    }
}
