//! What bytes say that were sent.

ghost use Rattle.std.specs.Prelude.{◌≡◌, ◌<◌, true, List};
ghost use Rattle.std.specs.Option.{option_map};
ghost use Rattle.session_words.specs.declared.plan.PostPlan.{PostPlan};
ghost use Rattle.post_spec.specs.Codecs.{codecs};
ghost use Rattle.post_spec.specs.Steps.{Seen};
ghost use Rattle.told_pasts.specs.Steps.{Said};
ghost use Rattle.told_pasts.specs.Steps as steps;
ghost use Rattle.faultless_pasts.specs.Faultless.{told_codecs};
ghost use Rattle.audit_readings.specs.Saying.{IsSame, IsToldReply};
ghost use Rattle.audit_streams.specs.Streams as streams;
ghost use Rattle.audit_streams.specs.declared.reader.ToldWatts.{ToldWatts};
ghost use Rattle.audit_records.specs.Sayings.{IsAnswer, AnswersSo};

use audit_course::Saying;
use audit_readings::{ToldReply, ToldSaid, said};
use audit_streams::{ToldReader, ToldStream, ToldWatts, ToldWord};
use charge_world::Dialect;
use session_words::PostPlan;

/// What bytes say to the first word that has no reply.
#[derive(Drop)]
pub struct Answer {
    pub saying: Saying,
    /// The greatest watts that they spell, where they are a reply: 0 where they aren't.
    pub most: u64,
    /// Where they are a reply, each of its watts writes those that the post was told.
    pub writes: bool,
}

/// What spells no watts.
fn without_watts(saying: Saying) -> Answer
    ensures { result ≡ record { saying = saying; most = 0; writes = true } }
{
    Answer {
        saying,
        most: 0,
        writes: true,
    }
}

/// A response to a negotiation.
fn response(chosen: Option<Dialect>, positive: bool) -> Answer
    ensures { (plan : PostPlan) (told : ToldWatts) → IsAnswer plan told (steps.Response chosen positive) result }
{
    without_watts(Saying::Response { chosen, positive })
}

/// The reply to this word, if it is a request.
fn reply_to(word: Option<&ToldWord>, reply: ToldReply) -> Answer
    ensures { (plan : PostPlan) (told : ToldWatts) (is : Said) → IsToldReply plan told (option_map (λ word. word.now) word.entry) reply is → IsAnswer plan told is result }
{
    match word {
        Some(ToldWord::Asked(request)) => Answer {
            saying: Saying::Replied {
                request: request.copied(),
                reply: reply.reply,
            },
            most: reply.watts.most,
            writes: reply.watts.told,
        },
        _ => without_watts(Saying::Other),
    }
}

/// What was said to this word, as it is kept.
fn answer_to(word: Option<&ToldWord>, said: ToldSaid) -> Answer
    ensures { (plan : PostPlan) (told : ToldWatts) (is : Said) → IsSame plan told (option_map (λ word. word.now) word.entry) said is → IsAnswer plan told is result }
{
    match said {
        ToldSaid::Response { chosen, positive } => response(chosen, positive),
        ToldSaid::Replied(reply) => reply_to(word, reply),
        ToldSaid::Other => without_watts(Saying::Other),
        ToldSaid::Unasked => without_watts(Saying::Unasked),
    }
}

/// What bytes say that are sent at a post that was `told` these watts.
pub fn answer_in<R: ToldReader>(
    stream: &ToldStream,
    reader: &mut R,
    plan: &PostPlan,
    told: ToldWatts,
    bytes: &[u8],
) -> Answer
    requires told { told.watts < 32768000 }
    requires nominal { 0 < plan.now.nominal }
    ensures { (past : List Seen) → streams.AreOf (codecs R.negotiates R.reads R.encodes) plan.now.dialects.items past stream.now → streams.IsEven stream.now
        → AnswersSo (told_codecs R.negotiates R.reads R.encodes R.responds R.watts) plan.now told past bytes.now result }
{
    let said = said(stream, reader, plan, told, bytes);
    answer_to(stream.unanswered::<R>(), said)
}
