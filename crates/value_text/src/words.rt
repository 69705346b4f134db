//! Words.

ghost use Rattle.std.specs.Prelude.{◌≡◌, ◌+◌, ◌<◌, ◌≤◌, ◌==◌, ℕ, List, Some, None, length, take, map, slice_get, IfOk, IfErr};
ghost use Rattle.std.specs.Str.{encode_utf8_all, IsAscii};
ghost use Rattle.value_text.specs.Forms.{awaited_text, AgreesMost, IsBest, IsOneOf, AreAscii};
ghost use Rattle.value_text.specs.Scanning.{Passes, Takes, GoesWrong};

use crate::cursor::TextCursor;

/// How many bytes two texts begin with alike.
pub(crate) fn agreed(text: &str, word: &str) -> usize
    ensures { AgreesMost text.now word.now result }
{
    let bytes = text.as_bytes();
    let others = word.as_bytes();
    let most = bytes.len().min(others.len());
    for count in 0..most {
        if bytes[count] != others[count] {
            return count;
        }
    }
    most
}

/// How many bytes a text begins with like a name and the character of ASCII behind it, and whether like both.
pub(crate) fn agreed_awaited(text: &str, name: &str, end: char) -> (usize, bool)
    requires { end < 128 }
    ensures agreed { AgreesMost text.now (awaited_text name.now end) result.0 }
    ensures whole { result.1 ≡ (length (awaited_text name.now end) == result.0) }
{
    let count = agreed(text, name);
    if count < name.len() {
        return (count, false);
    }
    let bytes = text.as_bytes();
    if count == bytes.len() {
        return (count, false);
    }
    if bytes[count] != end as u8 {
        return (count, false);
    }
    (count + 1, true)
}

/// How many bytes of a text begin one of some words, and which of them they are, if one is.
#[derive(Clone, Copy)]
pub(crate) struct Best {
    /// How many bytes.
    pub(crate) count: usize,
    /// The place of the word among those.
    pub(crate) whole: Option<usize>,
}

impl Best {
    /// Where the word at the place `i` comes to the others, of which the text begins with so many bytes, maybe all.
    pub(crate) fn with(self, i: usize, count: usize, is_whole: bool) -> Best
        ensures { (words : List (List ℕ)) (text word : List ℕ) → slice_get words i ≡ Some word → AgreesMost text word count → is_whole ≡ (length word == count)
            → IsBest words i text self.count self.whole → IsBest words (i + 1) text result.count result.whole }
    {
        if count > self.count {
            if is_whole {
                let whole = Some(i);
                return Best { count, whole };
            }
            let whole = None;
            return Best { count, whole };
        }
        if count < self.count || !is_whole {
            return self;
        }
        match self.whole {
            Some(_) => self,
            None => {
                let whole = Some(i);
                Best { count, whole }
            }
        }
    }
}

impl<'t> TextCursor<'t> {
    /// Behind so many characters of ASCII.
    fn behind(&self, count: usize) -> TextCursor<'t>
        requires within { count ≤ length self.now.rest.now }
        requires ascii { IsAscii (take count self.now.rest.now) }
        ensures { Passes self.now (take count self.now.rest.now) result }
    {
        let (_, rest) = self.rest.split_at(count);
        TextCursor {
            rest,
            place: self.place + count as u64,
        }
    }

    /// What is taken of some words, given the best of them.
    pub(crate) fn take_best(&self, best: Best) -> Result<(usize, TextCursor<'t>), u64>
        requires within { best.count ≤ length self.now.rest.now }
        requires ascii { IsAscii (take best.count self.now.rest.now) }
        ensures taken { IfOk result (λ x. (best.whole ≡ Some x.0) × Passes self.now (take best.count self.now.rest.now) x.1) }
        ensures fault { IfErr result (λ place. (best.whole ≡ None) × (place ≡ self.now.place + best.count)) }
    {
        match best.whole {
            Some(i) => Ok((i, self.behind(best.count))),
            None => Err(self.place + best.count as u64),
        }
    }

    /// The place of the word that stands there among some words, and the cursor behind it.
    pub(crate) fn word(&self, words: &[&str]) -> Result<(usize, TextCursor<'t>), u64>
        requires ascii { AreAscii (map (λ t. t.now) words.now) }
        requires any { 0 < length words.now }
        ensures taken { IfOk result (λ x. (front : List ℕ) × Takes (IsOneOf (map (λ t. t.now) words.now)) self.now front x.1 × (slice_get (map (λ t. t.now) words.now) x.0 ≡ Some (encode_utf8_all front))) }
        ensures fault { IfErr result (λ place. GoesWrong (IsOneOf (map (λ t. t.now) words.now)) self.now place) }
    {
        let mut best = Best {
            count: 0,
            whole: None,
        };
        for i in 0..words.len() {
            let count = agreed(self.rest, words[i]);
            best = best.with(i, count, words[i].len() == count);
        }
        self.take_best(best)
    }
}
