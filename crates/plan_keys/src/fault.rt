//! Why a plan is refused.

ghost use Rattle.std.specs.Prelude.{◌≡◌, ◌++◌, OnOk, IfOk, map, string_bytes};
ghost use Rattle.plan_keys.specs.Keys.{listed, wanted_text};

use itoa::Buffer;
use std::alloc::{AllocError, Global};
use std::fmt;
use std::marker::Model;

/// What a key has to say.
#[derive(Clone, Copy, Debug)]
pub enum Wanted {
    /// A number from the least to the greatest, and its unit behind a space, or nothing.
    Between(u64, u64, &'static str),
    /// What the first text says, these words with commas between them, and what the last says.
    Words(&'static str, &'static [&'static str], &'static str),
    /// What this text says.
    Said(&'static str),
}

/// Writes words with commas between them.
fn push_words(text: &mut String, words: &[&str]) -> Result<(), AllocError>
    ensures { OnOk result (string_bytes text.new ≡ string_bytes text.old ++ listed (map (λ w. w.now) words.now)) }
{
    let Some((first, rest)) = words.split_first() else {
        return Ok(());
    };
    text.push_str(first)?;
    for word in rest {
        text.push_str(", ")?;
        text.push_str(word)?;
    }
    Ok(())
}

/// What is wanted, in words.
fn text_of(alloc: Global, wanted: Wanted) -> Result<String, AllocError>
    ensures { IfOk result (λ text. string_bytes text ≡ wanted_text wanted) }
{
    match wanted {
        Wanted::Between(least, most, unit) => {
            let mut text = String::from_str(alloc, Buffer::new().format(least))?;
            text.push_str(" to ")?;
            text.push_str(Buffer::new().format(most))?;
            text.push_str(unit)?;
            Ok(text)
        }
        Wanted::Words(front, words, behind) => {
            let mut text = String::from_str(alloc, front)?;
            push_words(&mut text, words)?;
            text.push_str(behind)?;
            Ok(text)
        }
        Wanted::Said(text) => String::from_str(alloc, text),
    }
}

/// A key's place in a plan, as `post.2.max_watts` for the key `max_watts` of the second post, and what it has to say.
/// Contracts see both texts.
#[derive(Debug, Drop)]
pub struct Key {
    place: String,
    wanted: String,
}

impl Model for Key {
    ghost use Rattle.std.specs.Prelude.{ℕ, List, string_bytes};

    ghost Value = { List ℕ × List ℕ };

    ghost view = { λ k. (string_bytes k.place, string_bytes k.wanted) };
}

impl Key {
    /// The key of this name at a place, which has to say that.
    pub fn at(alloc: Global, prefix: &str, name: &str, wanted: Wanted) -> Result<Key, AllocError>
        ensures { IfOk result (λ key. key ≡ (prefix.now ++ name.now, wanted_text wanted)) }
    {
        Ok(Key {
            place: format!(in alloc; "{prefix}{name}")?,
            wanted: text_of(alloc, wanted)?,
        })
    }

    /// Its place.
    pub fn as_str(&self) -> &str
        ensures { result.now ≡ self.now.0 }
    {
        self.place.as_str()
    }

    /// What it has to say.
    pub fn wanted(&self) -> &str
        ensures { result.now ≡ self.now.1 }
    {
        self.wanted.as_str()
    }
}

impl fmt::Display for Key {
    ghost use Rattle.std.specs.Prelude.{Some};

    ghost output = { λ key. Some key.0 };

    fn fmt<W: fmt::Write>(&self, f: &mut fmt::Formatter<W>) -> fmt::Result {
        f.write_str(self.as_str())
    }
}

/// Why a text is no plan: the first of these that applies. The text's length is judged first, then whether it is TOML,
/// then each key in order, and then the keys that a plan doesn't have.
#[derive(Debug, Drop)]
pub enum PlanFault {
    /// The text is no TOML document, or no UTF-8.
    NotToml,
    /// A key that is wanted isn't there.
    Missing(Key),
    /// A key has a value of the wrong kind or an unknown word, a text isn't of its form, or a plan has no such key.
    BadValue(Key),
    /// A number or a length is outside its bounds. The text's own length goes by the key `bytes`.
    OverLimit(Key),
    /// Memory ran out.
    Memory,
}

impl fmt::Display for PlanFault {
    ghost use Rattle.std.specs.Prelude.{Some};
    ghost use Rattle.plan_keys.specs.Faults.{fault_text};

    ghost output = { λ fault. Some (fault_text fault) };

    fn fmt<W: fmt::Write>(&self, f: &mut fmt::Formatter<W>) -> fmt::Result {
        match self {
            PlanFault::NotToml => f.write_str("not a TOML document"),
            PlanFault::Missing(key) => write!(f, "{key} is missing, and must be {}", key.wanted()),
            PlanFault::BadValue(key) | PlanFault::OverLimit(key) => {
                write!(f, "{key} must be {}", key.wanted())
            }
            PlanFault::Memory => f.write_str("no memory"),
        }
    }
}

impl From<AllocError> for PlanFault {
    ghost use Rattle.std.specs.Prelude.{◌≡◌};
    ghost use Rattle.plan_keys.specs.declared.fault.PlanFault.TheVariants.{Memory};

    ghost from_gives = { λ _ fault. fault ≡ Memory };

    fn from(_e: AllocError) -> PlanFault {
        PlanFault::Memory
    }
}
