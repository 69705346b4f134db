//! Physical values as amounts, and amounts as physical values.

ghost use Rattle.std.specs.Prelude.{◌≡◌, ◌<◌, IsTrue};
ghost use Rattle.session_words.specs.Amounts.{IsMultiplier};
ghost use Rattle.word_values.specs.Amounts as amounts;

use session_words::Amount;

/// The number of a physical value: Value times ten to the Multiplier.
#[derive(Clone, Copy)]
pub struct Written {
    /// -3 to 3.
    pub multiplier: i8,
    pub value: i16,
}

/// The nearest Multiplier from -3 to 3.
fn nearest(multiplier: i8) -> i8
    ensures value { result ≡ amounts.nearest multiplier }
    ensures bound { IsMultiplier result }
{
    if multiplier < -3 {
        return -3;
    }
    if 3 < multiplier {
        return 3;
    }
    multiplier
}

/// A physical value as an amount of tenths; `right` says that its unit is right. A Multiplier that no message has counts as the
/// nearest from -3 to 3.
pub fn in_tenths(multiplier: i8, value: i16, right: bool) -> Amount
    ensures { result ≡ amounts.in_tenths multiplier value right }
{
    Amount::in_tenths(nearest(multiplier), value, right)
}

/// A physical value as an amount of watts; `right` says that its unit is right. A Multiplier that no message has counts as the
/// nearest from -3 to 3.
pub fn in_watts(multiplier: i8, value: i16, right: bool) -> Amount
    ensures { result ≡ amounts.in_watts multiplier value right }
{
    Amount::in_units(nearest(multiplier), value, right)
}

/// Whether so many are a whole number of parts of this size, and no more of them than a Value can say.
fn is_whole(size: u32, part: u32) -> bool
    requires { 0 < part }
    ensures { result ≡ amounts.is_whole size part }
{
    size % part == 0 && size / part <= 32767
}

/// Tenths as a message writes them: by the least Multiplier from -1 that gives them exactly.
pub fn written_tenths(size: u32) -> Written
    requires { IsTrue (amounts.can_write_tenths size) }
    ensures value { result ≡ amounts.written_tenths size }
    ensures multiplier { IsMultiplier result.multiplier }
    ensures written { amounts.IsWrittenTenths size result }
{
    if is_whole(size, 1) {
        return Written {
            multiplier: -1,
            value: size as i16,
        };
    }
    if is_whole(size, 10) {
        return Written {
            multiplier: 0,
            value: (size / 10) as i16,
        };
    }
    if is_whole(size, 100) {
        return Written {
            multiplier: 1,
            value: (size / 100) as i16,
        };
    }
    if is_whole(size, 1000) {
        return Written {
            multiplier: 2,
            value: (size / 1000) as i16,
        };
    }
    Written {
        multiplier: 3,
        value: (size / 10000) as i16,
    }
}

/// Tenths as a message writes a nominal voltage: by Multiplier 0 where that gives them exactly, else as other tenths.
pub fn written_volts(size: u32) -> Written
    requires { IsTrue (amounts.can_write_tenths size) }
    ensures value { result ≡ amounts.written_volts size }
    ensures multiplier { IsMultiplier result.multiplier }
{
    if is_whole(size, 10) {
        return Written {
            multiplier: 0,
            value: (size / 10) as i16,
        };
    }
    written_tenths(size)
}

/// Watts as a message writes them: by the least Multiplier from 0 whose Value, rounded down, is at most 32,767.
pub fn written_watts(watts: u32) -> Written
    requires { watts < 32768000 }
    ensures value { result ≡ amounts.written_watts watts }
    ensures multiplier { IsMultiplier result.multiplier }
    ensures written { amounts.IsWritten watts result }
{
    let written = session_words::written_watts(watts);
    Written {
        multiplier: written.multiplier as i8,
        value: written.value as i16,
    }
}
