//! Laws of the spellings. Each of these functions does nothing: its contract is the law.

ghost use Rattle.std.specs.Prelude.{ℕ, ◌*◌, ◌<◌, ◌^◌};
ghost use Rattle.exi_spec.specs.Items.{SpellsBool, SpellsNumber, SpellsUnsigned, SpellsInteger, SpellsChar, RefusesBits, RefusesUnsigned, RefusesInteger, RefusesChar, RefusesChars};
ghost use Rattle.exi_spec.specs.Laws.{IsExact, AtBit, SpellsNBytes, SpellsNChars, IsShortest};

/// Each list of bits begins with one Boolean, or has one refusal.
pub fn booleans()
    ensures { IsExact SpellsBool (RefusesBits 1) }
{}

/// Each list of bits begins with one n-bit Unsigned Integer, or has one refusal.
pub fn numbers()
    ensures { (n : ℕ) → IsExact (SpellsNumber n) (RefusesBits n) }
{}

/// Each list of bits begins with one spelling of one Unsigned Integer, or has one refusal.
pub fn unsigned_integers()
    ensures { IsExact SpellsUnsigned RefusesUnsigned }
{}

/// Each list of bits begins with one spelling of one Integer, or has one refusal, at one of its bits.
pub fn integers()
    ensures { IsExact SpellsInteger (AtBit RefusesInteger) }
{}

/// Each list of bits begins with the bytes of one Binary of n bytes, or has one refusal.
pub fn binaries()
    ensures { (n : ℕ) → IsExact (SpellsNBytes n) (RefusesBits (8 * n)) }
{}

/// Each list of bits begins with one spelling of one code point, or has one refusal.
pub fn characters()
    ensures { IsExact SpellsChar RefusesChar }
{}

/// Each list of bits begins with one spelling of n code points, or has one refusal, at one of its bits.
pub fn strings()
    ensures { (n : ℕ) → IsExact (SpellsNChars n) (AtBit (RefusesChars n)) }
{}

/// The shortest spelling of an Unsigned Integer spells it, and no other is shorter.
pub fn shortest_spellings()
    ensures { (value : ℕ) → value < 2 ^ 64 → IsShortest value }
{}
