//! The words of a command line.

ghost use Rattle.std.specs.Prelude.{◌≡◌, ◌↔◌, length, map, string_bytes, IsTrue, slice_get};
ghost use Rattle.std.specs.Option.{option_copied};
ghost use Rattle.std.specs.List.{list_all};
ghost use Rattle.command_words.specs.Command.{is_plain};

use std::marker::Model;

/// The words behind the program's name. Contracts see the list of their texts.
#[derive(Drop)]
pub struct WordList {
    words: Vec<String>,
}

impl Model for WordList {
    ghost use Rattle.std.specs.Prelude.{ℕ, List, map, string_bytes};

    ghost Value = { List (List ℕ) };

    ghost view = { λ w. map string_bytes w.words.items };
}

impl WordList {
    /// These words.
    pub fn of(words: Vec<String>) -> WordList
        ensures { result ≡ map string_bytes words.items }
    {
        WordList { words }
    }

    /// How many words there are.
    pub fn len(&self) -> usize
        ensures { result ≡ length self.now }
    {
        self.words.len()
    }

    /// Whether there is none.
    pub fn is_empty(&self) -> bool
        ensures { IsTrue result ↔ (length self.now ≡ 0) }
    {
        self.words.is_empty()
    }

    /// The word at a place from 0; `None` exactly behind the last.
    pub fn get(&self, i: usize) -> Option<&str>
        ensures { option_copied result ≡ slice_get self.now i }
    {
        if i < self.words.len() {
            Some(self.words[i].as_str())
        } else {
            None
        }
    }

    /// Whether no word begins with `-`.
    pub(crate) fn are_plain(&self) -> bool
        ensures { result ≡ list_all is_plain self.now }
    {
        self.words.iter().all(|word| is_plain(word.as_str()))
    }

    /// The words, in their order.
    pub(crate) fn as_slice(&self) -> &[String]
        ensures { map string_bytes result.now ≡ self.now }
    {
        self.words.as_slice()
    }
}

/// Whether a word begins with no `-`.
fn is_plain(word: &str) -> bool
    ensures { result ≡ is_plain word.now }
{
    !word.starts_with('-')
}
