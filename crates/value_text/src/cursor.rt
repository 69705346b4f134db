//! A text that is passed character by character.

ghost use Rattle.std.specs.Prelude.{◌+◌, ◌^◌, ◌<◌, length};

/// What is left of a text, and how much is passed.
#[derive(Clone, Copy)]
pub struct TextCursor<'t> {
    /// The text that is left.
    pub rest: &'t str,
    /// How many characters are passed.
    pub place: u64,
    /// As many places as the text has.
    pub ghost within: { place + length rest.now < 2 ^ 64 },
}

impl<'t> TextCursor<'t> {
    ghost use Rattle.std.specs.Prelude.{◌≡◌, ◌==◌, ℕ, List, [], ◌∷◌, ◌++◌, MatchBool, MatchOption, IfSome, encode_utf8};
    ghost use Rattle.std.specs.Char.{IsScalar};
    ghost use Rattle.value_text.specs.Forms.{NoneNext};
    ghost use Rattle.value_text.specs.Scanning.{Passes};

    /// At the start of a text.
    pub fn new(text: &'t str) -> TextCursor<'t>
        ensures whole { result.rest.now ≡ text.now }
        ensures start { result.place ≡ 0 }
    {
        TextCursor {
            rest: text,
            place: 0,
        }
    }

    /// The next character, if there is one.
    pub fn peek(&self) -> Option<char>
        ensures { MatchOption result (self.now.rest.now ≡ []) (λ c. (rest : List ℕ) × (self.now.rest.now ≡ encode_utf8 c ++ rest)) }
    {
        self.rest.chars().next()
    }

    /// Passes the next character, if there is one.
    pub fn next(&mut self) -> Option<char>
        ensures passes { MatchOption result ((self.old.rest.now ≡ []) × (self.new ≡ self.old)) (λ c. Passes self.old (c ∷ []) self.new) }
        ensures scalar { IfSome result (λ c. IsScalar c) }
    {
        let mut chars = self.rest.chars();
        let next = chars.next()?;
        *self = TextCursor {
            rest: chars.as_str(),
            place: self.place + 1,
        };
        Some(next)
    }

    /// Passes this character, if it is next.
    pub fn take_char(&mut self, c: char) -> bool
        ensures { MatchBool result (Passes self.old (c ∷ []) self.new) ((self.new ≡ self.old) × NoneNext (λ d. d == c) self.old.rest.now) }
    {
        let mut ahead = *self;
        let Some(next) = ahead.next() else {
            return false;
        };
        if next != c {
            return false;
        }
        *self = ahead;
        true
    }
}
