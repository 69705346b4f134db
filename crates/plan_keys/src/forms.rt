//! What a value says by its form, or what is wrong with it.

ghost use Rattle.std.specs.Prelude.{◌≡◌, ◌≤◌, ◌<◌, true, nat_lt, All, IsTrue, IfOk, map, length};
ghost use Rattle.std.specs.List.{list_all};
ghost use Rattle.hex.specs.Hex.{is_hex_digit};
ghost use Rattle.toml.specs.View.{view, items_view};
ghost use Rattle.plan_keys.specs.Keys.{seen, within as within_limits, IsAscii, number_says, place_of as place_said, word_says, ascii_says, is_digits, hex_says, all_tables, table_of, tables_says};

use arrayvec::ArrayVec;
use toml::Value;

/// What is wrong with a key.
#[derive(Clone, Copy, Debug)]
pub enum Wrong {
    /// It isn't there.
    Missing,
    /// Its value is of the wrong kind or form.
    BadValue,
    /// Its number or length is outside its bounds.
    OverLimit,
}

/// Up to 32 bytes.
pub type Short = ArrayVec<u8, 32>;

/// A list of these.
pub fn list_of<T: Copy + Default, const N: usize>(items: &[T]) -> ArrayVec<T, N>
    requires { length items.now ≤ N }
    ensures { result.items ≡ items.now }
{
    let mut list = ArrayVec::new();
    list.try_extend_from_slice(items).unwrap();
    list
}

/// What is said, where it is within its bounds.
fn within<T: Drop>(fits: bool, said: T) -> Result<T, Wrong>
    ensures { result ≡ within_limits fits said }
{
    if fits {
        Ok(said)
    } else {
        Err(Wrong::OverLimit)
    }
}

/// A whole number from the least to the greatest.
pub(crate) fn number_of(least: u64, most: u64, value: &Value) -> Result<u64, Wrong>
    ensures value { result ≡ number_says least most (view value.now) }
    ensures bounds { IfOk result (λ n. (least ≤ n) × (n ≤ most)) }
{
    match value.as_integer() {
        None => Err(Wrong::BadValue),
        Some(n) if n < 0 => Err(Wrong::OverLimit),
        Some(n) => {
            let n = n as u64;
            within(least <= n && n <= most, n)
        }
    }
}

/// The place of the word that a value says.
fn place_of(words: &[&str], value: &Value) -> Option<usize>
    ensures { result ≡ place_said (map (λ w. w.now) words.now) (view value.now) }
{
    let text = value.as_str()?;
    for (i, word) in words.iter().enumerate() {
        if *word == text {
            return Some(i);
        }
    }
    None
}

/// The meaning of the word that a value says.
pub(crate) fn word_of<T: Copy>(words: &[&str], meanings: &[T], value: &Value) -> Result<T, Wrong>
    ensures { result ≡ word_says (map (λ w. w.now) words.now) meanings.now (view value.now) }
{
    let place = place_of(words, value).ok_or(Wrong::BadValue)?;
    meanings.get(place).copied().ok_or(Wrong::BadValue)
}

/// Whether all bytes of a text are ASCII characters.
fn is_ascii(text: &str) -> bool
    ensures value { result ≡ list_all (λ c. nat_lt c 128) text.now }
    ensures each { IsTrue result → All (λ c. c < 128) text.now }
{
    text.as_bytes().iter().all(|byte| *byte < 128)
}

/// The text of so many ASCII characters, where every byte is one.
pub(crate) fn ascii_of(least: usize, most: usize, value: &Value) -> Result<&str, Wrong>
    ensures value { seen (λ s. s.now) result ≡ ascii_says least most (view value.now) }
    ensures fits { IfOk result (λ s. IsAscii least most s.now) }
{
    let text = value.as_str().ok_or(Wrong::BadValue)?;
    if !is_ascii(text) {
        return Err(Wrong::BadValue);
    }
    within(least <= text.len() && text.len() <= most, text)
}

/// Whether a text is whole bytes in hexadecimal of either case.
fn is_hex(text: &str) -> bool
    ensures { result ≡ is_digits text.now }
{
    text.len() % 2 == 0 && all_digits(text)
}

/// Whether all characters of a text are hexadecimal digits.
fn all_digits(text: &str) -> bool
    ensures { result ≡ list_all is_hex_digit text.now }
{
    text.as_bytes().iter().all(|byte| matches!(*byte, b'A'..=b'F' | b'a'..=b'f' | b'0'..=b'9'))
}

/// So many bytes in hexadecimal of either case.
pub(crate) fn hex_of(least: usize, most: usize, value: &Value) -> Result<Short, Wrong>
    requires { most ≤ 32 }
    ensures value { seen (λ v. v.items) result ≡ hex_says least most (view value.now) }
    ensures bounds { IfOk result (λ v. (least ≤ length v.items) × (length v.items ≤ most)) }
{
    let text = value.as_str().ok_or(Wrong::BadValue)?;
    if !is_hex(text) {
        return Err(Wrong::BadValue);
    }
    let count = text.len() / 2;
    if count < least || most < count {
        return Err(Wrong::OverLimit);
    }
    let mut room = [0u8; 32];
    let bytes = &mut room[..count];
    match hex::decode_to_slice(text.as_bytes(), bytes) {
        Ok(()) => Ok(list_of(bytes)),
        Err(_) => Err(Wrong::BadValue),
    }
}

/// Whether each item is a table.
fn are_tables(items: &[Value]) -> bool
    ensures { result ≡ all_tables (items_view items.now) }
{
    for item in items {
        if item.as_table().is_none() {
            return false;
        }
    }
    true
}

/// A list of so many tables.
#[tactic(auto, using(std::proofs::lemmas::Grind::common_steps, crate::proofs::Documents::tables_view))]
pub(crate) fn tables_of(least: usize, most: usize, value: &Value) -> Result<&[Value], Wrong>
    ensures value { seen (λ v. map table_of v.now) result ≡ tables_says least most (view value.now) }
    ensures bounds { IfOk result (λ v. (least ≤ length v.now) × (length v.now ≤ most)) }
    ensures tables { IfOk result (λ v. all_tables (items_view v.now) ≡ true) }
{
    let items = value.as_array().ok_or(Wrong::BadValue)?.as_slice();
    if !are_tables(items) {
        return Err(Wrong::BadValue);
    }
    within(least <= items.len() && items.len() <= most, items)
}
