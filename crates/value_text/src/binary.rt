//! Binaries.

ghost use Rattle.std.specs.Prelude.{◌≡◌, ◌++◌, ◌<◌, [], ◌∷◌, MatchOption, IfOk, IfErr, OnOk, false, ℕ, List, slice_index};
ghost use Rattle.std.specs.List.{AllByRecursion};
ghost use Rattle.std.specs.Str.{encode_utf8_all};
ghost use Rattle.hex.specs.Hex.{encode_lower, lower_digits};
ghost use Rattle.value_text.specs.Forms.{IsBytesText, NoneNext, is_lower_digit};
ghost use Rattle.value_text.specs.Scanning.{Passes, Takes, MissesAt};

use crate::cursor::TextCursor;
use crate::fault::ScanFault;
use charge_world::NoMemory;
use std::alloc::Global;

/// The value of a digit of lower-case hexadecimal.
fn hex_value(c: char) -> Option<u8>
    ensures { MatchOption result (is_lower_digit c ≡ false) (λ d. (d < 16) × (c ≡ slice_index lower_digits d)) }
{
    match c {
        '0'..='9' => Some((c as u32 - 48) as u8),
        'a'..='f' => Some((c as u32 - 87) as u8),
        _ => None,
    }
}

/// Puts a byte behind others.
fn put(bytes: &mut Vec<u8>, byte: u8) -> Result<(), NoMemory>
    ensures { OnOk result (bytes.new.items ≡ bytes.old.items ++ byte ∷ []) }
{
    bytes.push(byte)?;
    Ok(())
}

impl<'t> TextCursor<'t> {
    /// Passes a digit of lower-case hexadecimal, if one is next, and gives its value.
    pub(crate) fn hex_digit(&mut self) -> Option<u8>
        ensures { MatchOption result ((self.new ≡ self.old) × NoneNext is_lower_digit self.old.rest.now) (λ d. (d < 16) × Passes self.old (slice_index lower_digits d ∷ []) self.new) }
    {
        let mut ahead = *self;
        let c = ahead.next()?;
        let Some(digit) = hex_value(c) else {
            return None;
        };
        *self = ahead;
        Some(digit)
    }

    /// The bytes of which the digits stand there, and the cursor behind them.
    pub(crate) fn bytes(&self, alloc: Global) -> Result<(Vec<u8>, TextCursor<'t>), ScanFault>
        ensures taken { IfOk result (λ x. (front : List ℕ) × Takes IsBytesText self.now front x.1 × AllByRecursion (λ byte. byte < 256) x.0.items × (encode_utf8_all front ≡ encode_lower x.0.items)) }
        ensures fault { IfErr result (MissesAt IsBytesText self.now) }
    {
        let mut ahead = *self;
        let mut bytes = Vec::new(alloc);
        while let Some(high) = ahead.hex_digit() {
            let Some(low) = ahead.hex_digit() else {
                return Err(ScanFault::Place(ahead.place));
            };
            put(&mut bytes, high * 16 + low)?;
        }
        Ok((bytes, ahead))
    }
}
