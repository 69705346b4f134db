//! The lines of a script.

ghost use Rattle.std.specs.Prelude.{◌≡◌, ◌==◌, ◌≢◌, ◌↔◌, false, List, ℕ, ◌++◌, IsTrue, MatchOption, MatchResult};
ghost use Rattle.std.specs.List.{All};
ghost use Rattle.text_tokens.specs.Words.{Reads};
ghost use Rattle.pilot_basic.specs.Machine.{IsInRange};
ghost use Rattle.file_commands.specs.declared.lines.ScriptLine.{ScriptLine as OfLine};
ghost use Rattle.file_commands.specs.Scripts.{event_words, line_words, line_of, IsLine, IsCut};

use charge_world::PilotState;
use pilot_basic::BasicEvent;
use text_tokens::{Refused, Words, number};

/// A line of a script: what is heard at a moment.
#[derive(Clone, Copy)]
pub struct ScriptLine {
    /// Milliseconds.
    pub at: u64,
    pub event: BasicEvent,
}

/// Whether a word is this one.
fn is(word: &[u8], text: &[u8]) -> bool
    ensures { IsTrue result ↔ (word.now ≡ text.now) }
{
    word == text
}

/// Reads an event, which is all the words.
fn event(mut words: Words) -> Result<BasicEvent, Refused>
    ensures { Reads event_words IsInRange words.entry result }
{
    match words.next()? {
        kind if is(kind, b"pilot") => match words.only()? {
            word if is(word, b"A") => Ok(BasicEvent::Pilot(PilotState::A)),
            word if is(word, b"B") => Ok(BasicEvent::Pilot(PilotState::B)),
            word if is(word, b"C") => Ok(BasicEvent::Pilot(PilotState::C)),
            word if is(word, b"D") => Ok(BasicEvent::Pilot(PilotState::D)),
            word if is(word, b"E") => Ok(BasicEvent::Pilot(PilotState::E)),
            word if is(word, b"F") => Ok(BasicEvent::Pilot(PilotState::F)),
            _ => Err(Refused::Bad),
        },
        kind if is(kind, b"offer") => {
            Ok(BasicEvent::Offer(number(words.only()?, 60, 800)? as u16))
        }
        kind if is(kind, b"digital") => words.end(BasicEvent::GoDigital),
        kind if is(kind, b"ended") => words.end(BasicEvent::DigitalEnded),
        kind if is(kind, b"feedback") => match words.only()? {
            word if is(word, b"closed") => Ok(BasicEvent::Feedback { closed: true }),
            word if is(word, b"open") => Ok(BasicEvent::Feedback { closed: false }),
            _ => Err(Refused::Bad),
        },
        kind if is(kind, b"tick") => words.end(BasicEvent::Tick),
        _ => Err(Refused::Bad),
    }
}

/// Reads a line, which is all the words.
fn line(mut words: Words) -> Result<ScriptLine, Refused>
    ensures { Reads line_words IsLine words.entry result }
{
    let at = number(words.next()?, 0, u64::MAX)?;
    let event = event(words)?;
    Ok(ScriptLine { at, event })
}

/// What stands before the first line feed, and what behind it; `None` exactly where there is none.
fn cut(text: &[u8]) -> Option<(&[u8], &[u8])>
    ensures { MatchOption result (All (λ byte. (byte == 10) ≡ false) text.now) (λ parts. IsCut text.now parts.0.now parts.1.now) }
{
    let end = text.iter().position(|byte| *byte == b'\n')?;
    Some((&text[..end], &text[end + 1..]))
}

/// Reads the first line of a text, with its line feed, and gives what is behind it.
///
/// An error exactly where the text begins with no line of a script.
pub(crate) fn first_line(text: &[u8]) -> Result<(ScriptLine, &[u8]), Refused>
    ensures { MatchResult result (λ read. IsLine read.0 × (text.now ≡ line_of read.0 ++ read.1.now))
        (λ refused. (refused ≡ Refused.Bad) × ((line : OfLine) (more : List ℕ) → IsLine line → text.now ≢ line_of line ++ more)) }
{
    let (front, rest) = cut(text).ok_or(Refused::Bad)?;
    let line = line(Words::of(front))?;
    Ok((line, rest))
}
