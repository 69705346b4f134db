//! What words that are no command ask for.

ghost use Rattle.std.specs.Prelude.{◌≡◌};
ghost use Rattle.command_words.specs.Asked.{asked_by, asked_of};

use crate::word_list::WordList;

/// What words that are no command ask for.
#[derive(Clone, Copy)]
pub enum Asked {
    Help,
    Version,
    /// Nothing that there is.
    Mistaken,
}

impl Asked {
    /// What these words ask for, which are no command.
    pub fn by(words: &WordList) -> Asked
        ensures { result ≡ asked_by words.now }
    {
        match words.get(0) {
            Some(word) => asked_of(word),
            None => Asked::Mistaken,
        }
    }
}

/// What a first word asks for.
fn asked_of(word: &str) -> Asked
    ensures { result ≡ asked_of word.now }
{
    match word {
        "--help" => Asked::Help,
        "-h" => Asked::Help,
        "help" => Asked::Help,
        "--version" => Asked::Version,
        "-V" => Asked::Version,
        "version" => Asked::Version,
        _ => Asked::Mistaken,
    }
}
