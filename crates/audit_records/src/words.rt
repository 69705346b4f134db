//! Words.

ghost use Rattle.std.specs.Prelude.{◌≡◌, ℕ, List};
ghost use Rattle.std.specs.Option.{option_map};
ghost use Rattle.post_spec.specs.Codecs.{codecs};
ghost use Rattle.post_spec.specs.Steps.{Send};
ghost use Rattle.told_pasts.specs.Steps.{ToldStep, seen_in};
ghost use Rattle.faultless_pasts.specs.Faultless.{told_codecs};
ghost use Rattle.audit_course.specs.Values.{IsNextWord};
ghost use Rattle.audit_mandates.specs.Values as mandates;
ghost use Rattle.audit_streams.specs.Streams as streams;
ghost use Rattle.audit_records.specs.Records.{word_told, JudgesWord};

use audit_course::NextWord;
use audit_mandates::MandateValues;
use audit_readings::judged_by;
use audit_streams::{ToldReader, ToldStream, ToldWord};
use session_words::PostPlan;

/// A word as it is kept.
pub(crate) fn word_told(word: &ToldWord) -> NextWord
    ensures { result ≡ word_told word.now }
{
    match word {
        ToldWord::Negotiated(chosen) => NextWord::Negotiation { chosen: *chosen },
        ToldWord::Asked(request) => NextWord::Asked {
            request: request.copied(),
        },
        ToldWord::WrongSide => NextWord::WrongSide,
        ToldWord::Refused => NextWord::Refused,
        ToldWord::BadFrame(_) => NextWord::BadFrame,
    }
}

/// The word that comes next, if one does.
pub fn next_word<R: ToldReader>(
    stream: &ToldStream,
    reader: &mut R,
    plan: &PostPlan,
) -> Option<NextWord>
    ensures { (steps : List ToldStep) → streams.AreOf (codecs R.negotiates R.reads R.encodes) plan.now.dialects.items (seen_in steps) stream.now
        → IsNextWord (told_codecs R.negotiates R.reads R.encodes R.responds R.watts) plan.now steps result }
{
    match stream.next_word(reader, plan) {
        None => None,
        Some(word) => Some(word_told(&word)),
    }
}

/// The word that was judged for bytes that are sent, if one was: not before, by an order.
pub fn judged_at_reply<R: ToldReader>(
    stream: &ToldStream,
    mandate: &MandateValues,
) -> Option<NextWord>
    ensures { (plan : PostPlan) (steps : List ToldStep) (bytes : List ℕ) → streams.AreOf (codecs R.negotiates R.reads R.encodes) plan.dialects.items (seen_in steps) stream.now
        → mandates.AreOf steps mandate.now
        → JudgesWord (told_codecs R.negotiates R.reads R.encodes R.responds R.watts) plan steps (Send bytes) result }
{
    match judged_by::<R>(stream, mandate.judged, true) {
        None => None,
        Some(word) => Some(word_told(word)),
    }
}
