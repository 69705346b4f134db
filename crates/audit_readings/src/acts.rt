//! Which word an act answers.

ghost use Rattle.std.specs.Prelude.{◌≡◌, ◌↔◌, not, ◌&&◌, List, ◌∷◌, IsTrue};
ghost use Rattle.std.specs.Option.{option_map};
ghost use Rattle.charge_world.specs.declared.entry.Entry.{Entry};
ghost use Rattle.charge_world.specs.declared.offer.Dialect.{Dialect};
ghost use Rattle.session_words.specs.declared.phase.Standing.TheVariants.{MustOpen};
ghost use Rattle.session_words.specs.declared.plan.PostPlan.{PostPlan};
ghost use Rattle.post_spec.specs.Codecs.{codecs};
ghost use Rattle.post_spec.specs.Contactors.{standing};
ghost use Rattle.post_spec.specs.Kinds as kinds;
ghost use Rattle.post_spec.specs.Steps.{Act, Seen};
ghost use Rattle.told_pasts.specs.Checks.{EndsBlock};
ghost use Rattle.told_pasts.specs.Reading.{IsReached, OrderJudges, ActJudges};
ghost use Rattle.told_pasts.specs.Steps.{ToldStep, seen_in};
ghost use Rattle.told_pasts.specs.Talk as talk;
ghost use Rattle.faultless_pasts.specs.Faultless.{told_codecs};
ghost use Rattle.audit_mandates.specs.Values.{Starts};
ghost use Rattle.audit_streams.specs.Streams as streams;
ghost use Rattle.audit_readings.specs.Readings as readings;

use audit_streams::{NextWord, ToldReader, ToldStream, ToldWord};
use charge_world::Order;
use session_words::{Ask, Progress};

/// Whether an order is about the next word: one to open isn't, where it `repeats` a failed one or a deadline is `reached`.
pub fn order_judges(order: &Order, repeats: bool, reached: bool) -> bool
    ensures { (plan : PostPlan) (steps : List ToldStep) → (IsTrue repeats ↔ (standing (seen_in steps) ≡ MustOpen)) → (IsTrue reached ↔ IsReached plan steps)
        → (IsTrue result ↔ OrderJudges plan steps order.now) }
{
    match order {
        Order::Open => !(repeats || reached),
        Order::Close | Order::Limits { .. } => true,
    }
}

/// A word that is a payload.
fn payload_in(word: Option<&ToldWord>) -> Option<&ToldWord>
    ensures { option_map (λ word. word.now) result ≡ readings.payload_in (option_map (λ word. word.now) word.entry) }
{
    match word {
        Some(ToldWord::BadFrame(_)) | None => None,
        Some(_) => word,
    }
}

/// Whether the next word is the first that has no reply.
fn is_kept(next: NextWord) -> bool
    ensures { result ≡ readings.is_kept next }
{
    matches!(next, NextWord::Kept)
}

/// Whether there is a next word.
fn is_there(next: NextWord) -> bool
    ensures { result ≡ readings.is_there next }
{
    !matches!(next, NextWord::Nothing)
}

/// The next word, where no reply waits.
fn free_word<R: ToldReader>(stream: &ToldStream) -> Option<&ToldWord>
    ensures { (offers : List Dialect) (past : List Seen) → streams.AreOf (codecs R.negotiates R.reads R.encodes) offers past stream.now
        → readings.IsFree (codecs R.negotiates R.reads R.encodes) offers past (option_map (λ word. word.now) result) }
{
    if is_kept(stream.next::<R>()) {
        stream.unanswered::<R>()
    } else {
        None
    }
}

/// Whether an act answers a word, so far as that isn't the word's matter.
fn may_judge(judged: bool, judges: bool) -> bool
    ensures { result ≡ (not judged && judges) }
{
    !judged && judges
}

/// The word that an act answers: the next one, where it wasn't `judged` yet and no reply waits, and the act `judges`.
pub fn judged_by<R: ToldReader>(
    stream: &ToldStream,
    judged: bool,
    judges: bool,
) -> Option<&ToldWord>
    ensures { (plan : PostPlan) (steps : List ToldStep) (act : Act) → streams.AreOf (codecs R.negotiates R.reads R.encodes) plan.dialects.items (seen_in steps) stream.now
        → judged ≡ talk.is_judged steps → (IsTrue judges ↔ ActJudges plan steps act)
        → readings.JudgesSo (told_codecs R.negotiates R.reads R.encodes R.responds R.watts) plan steps act (option_map (λ word. word.now) result) }
{
    if may_judge(judged, judges) {
        payload_in(free_word::<R>(stream))
    } else {
        None
    }
}

/// Whether a word is PowerDelivery Start.
fn is_start(word: Option<&ToldWord>) -> bool
    ensures { result ≡ readings.is_start (option_map (λ word. word.now) word.entry) }
{
    match word {
        Some(ToldWord::Asked(request)) => matches!(
            request.ask,
            Ask::PowerDelivery {
                progress: Progress::Start,
                ..
            }
        ),
        _ => false,
    }
}

/// Whether PowerDelivery Start is the first word without a reply.
pub fn starts<R: ToldReader>(stream: &ToldStream) -> bool
    ensures { (plan : PostPlan) (steps : List ToldStep) → streams.AreOf (codecs R.negotiates R.reads R.encodes) plan.dialects.items (seen_in steps) stream.now
        → (IsTrue result ↔ Starts (told_codecs R.negotiates R.reads R.encodes R.responds R.watts) plan steps) }
{
    is_start(stream.unanswered::<R>())
}

/// Whether a word is next.
fn has_next<R: ToldReader>(stream: &ToldStream) -> bool
    ensures { (offers : List Dialect) (past : List Seen) → streams.AreOf (codecs R.negotiates R.reads R.encodes) offers past stream.now
        → (IsTrue result ↔ readings.HasNext (codecs R.negotiates R.reads R.encodes) offers past) }
{
    is_there(stream.next::<R>())
}

/// Whether both hold.
fn both(a: bool, b: bool) -> bool
    ensures { result ≡ (a && b) }
{
    a && b
}

/// Whether the tenth check fails at an entry for a post: its block `ends` with it, and a word is left.
pub fn is_left<R: ToldReader>(stream: &ToldStream, ends: bool) -> bool
    ensures { (plan : PostPlan) (steps : List ToldStep) (e : Entry) (behind earlier : List Entry) → streams.AreOf (codecs R.negotiates R.reads R.encodes) plan.dialects.items (seen_in steps) stream.now
        → (IsTrue ends ↔ EndsBlock behind (e ∷ earlier))
        → (IsTrue result ↔ readings.IsLeft (told_codecs R.negotiates R.reads R.encodes R.responds R.watts) plan steps e behind earlier) }
{
    both(ends, has_next::<R>(stream))
}
