//! The words of a line, taken one after another.

ghost use Rattle.std.specs.Prelude.{◌≡◌, ◌==◌, ◌≢◌, ◌≤◌, length, ℕ, List, [], ◌∷◌, ◌++◌, MatchResult};
ghost use Rattle.std.specs.List.{slice_split, position_or_len};

use std::marker::Model;

/// Why words aren't read.
#[derive(Clone, Copy, Debug, PartialEq, Eq)]
pub enum Refused {
    /// No value is spelled so.
    Bad,
    /// Memory ran out.
    Memory,
}

/// The words of a text that are left. Words have one space between each two, so two spaces have an empty word
/// between them.
///
/// Contracts see the list of the words.
#[derive(Drop)]
pub struct Words<'a> {
    rest: Option<&'a [u8]>,
}

impl<'a> Model for Words<'a> {
    ghost use Rattle.std.specs.Prelude.{ℕ, List};
    ghost use Rattle.text_tokens.specs.Words.{words_left};

    ghost Value = { List (List ℕ) };

    ghost view = { λ w. words_left w.rest };
}

/// How many bytes stand before the first space.
fn word_len(text: &[u8]) -> usize
    ensures len { result ≡ position_or_len (λ byte. byte == 32) text.now }
    ensures within { result ≤ length text.now }
{
    text.iter().take_while(|byte| **byte != b' ').count()
}

impl<'a> Words<'a> {
    /// The words of a text.
    pub fn of(text: &'a [u8]) -> Words<'a>
        ensures { result ≡ slice_split (λ byte. byte == 32) text.now }
    {
        Words { rest: Some(text) }
    }

    /// Takes the next word; an error exactly where none is left.
    pub fn next(&mut self) -> Result<&'a [u8], Refused>
        ensures { MatchResult result (λ word. self.old ≡ word.now ∷ self.new) (λ refused. (refused ≡ Refused.Bad) × (self.old ≡ []) × (self.new ≡ [])) }
    {
        let text = self.rest.take().ok_or(Refused::Bad)?;
        let len = word_len(text);
        if len == text.len() {
            return Ok(text);
        }
        self.rest = Some(text.split_at(len + 1).1);
        Ok(&text[..len])
    }

    /// The text of the words that are left; an error exactly where there are none.
    pub fn rest(self) -> Result<&'a [u8], Refused>
        ensures { MatchResult result (λ rest. self.entry ≡ slice_split (λ byte. byte == 32) rest.now) (λ refused. (refused ≡ Refused.Bad) × (self.entry ≡ [])) }
    {
        self.rest.ok_or(Refused::Bad)
    }

    /// A value, where no word is left.
    pub fn end<T: Drop>(mut self, value: T) -> Result<T, Refused>
        ensures { MatchResult result (λ v. (self.entry ≡ []) × (v ≡ value)) (λ refused. (refused ≡ Refused.Bad) × (self.entry ≢ [])) }
    {
        self.next().is_err().then_some(value).ok_or(Refused::Bad)
    }

    /// The one word that is left; an error exactly where there is none or there are more.
    pub fn only(mut self) -> Result<&'a [u8], Refused>
        ensures { MatchResult result (λ word. self.entry ≡ word.now ∷ []) (λ refused. (refused ≡ Refused.Bad) × ((word : List ℕ) → self.entry ≢ word ∷ [])) }
    {
        let word = self.next()?;
        self.end(word)
    }
}

/// The text before the line feed at the end of a line; an error exactly where it ends in none.
pub fn before_line_feed(line: &[u8]) -> Result<&[u8], Refused>
    ensures { MatchResult result (λ text. line.now ≡ text.now ++ 10 ∷ []) (λ refused. (refused ≡ Refused.Bad) × ((text : List ℕ) → line.now ≢ text ++ 10 ∷ [])) }
{
    match line.split_last() {
        Some((b'\n', text)) => Ok(text),
        _ => Err(Refused::Bad),
    }
}
