//! What bytes that were sent say.

ghost use Rattle.std.specs.Prelude.{◌≡◌, ◌≤◌, ◌<◌, List, length, IfOk, IfSome, MatchBool};
ghost use Rattle.std.specs.Option.{option_map};
ghost use Rattle.post_spec.specs.Codecs.{codecs};
ghost use Rattle.post_spec.specs.Steps.{Seen};
ghost use Rattle.faultless_pasts.specs.Faultless.{told_codecs};
ghost use Rattle.audit_streams.specs.Streams as streams;
ghost use Rattle.audit_readings.specs.Saying as saying;

use audit_streams::{ToldReader, ToldStream, ToldWatts, ToldWord};
use audit_watts::WattValues;
use car_rules::answers;
use charge_world::Dialect;
use session_words::{Ask, PostPlan, Reply, Word};
use v2gtp_frames::{FrameFault, whole_frame};

/// A reply, with what is kept of its watts.
#[derive(Drop)]
pub struct ToldReply {
    pub reply: Reply,
    pub watts: WattValues,
}

/// What bytes that were sent say to the first word that has no reply.
#[derive(Drop)]
pub enum ToldSaid {
    /// A response to the negotiation, for which the rule chose this dialect.
    Response {
        chosen: Option<Dialect>,
        positive: bool,
    },
    /// The reply to the request.
    Replied(ToldReply),
    /// Something else.
    Other,
    /// There is no such word.
    Unasked,
}

/// Whether the whole frame at the front fills so many bytes.
fn fills(front: Result<Option<usize>, FrameFault>, len: usize) -> bool
    requires { IfOk front (λ answer. IfSome answer (λ n. n ≤ 65536)) }
    ensures { result ≡ saying.fills front len }
{
    match front {
        Ok(Some(payload)) => len == 8 + payload,
        _ => false,
    }
}

/// Whether bytes are one frame.
fn is_frame(bytes: &[u8]) -> bool
    ensures { MatchBool result (saying.IsFrame bytes.now) (saying.IsNoFrame bytes.now) }
{
    fills(whole_frame(bytes), bytes.len())
}

/// Whether bytes are a positive response to a negotiation; none where they are no response.
fn response_in<R: ToldReader>(reader: &mut R, bytes: &[u8]) -> Option<bool>
    ensures { saying.ResponseSo R.responds bytes.now result }
{
    if is_frame(bytes) {
        reader.respond(&bytes[8..])
    } else {
        None
    }
}

/// The reply that a payload was read as, if it is one.
fn reply_word(word: Option<Word>) -> Option<Reply>
    ensures { saying.IsReplyWord word result }
{
    match word {
        Some(Word::Reply(reply)) => Some(reply),
        _ => None,
    }
}

/// The reply of the kind of a request that a payload spells, if it does.
fn reply_of<R: ToldReader>(
    reader: &mut R,
    plan: &PostPlan,
    told: ToldWatts,
    spoken: Dialect,
    ask: &Ask,
    payload: &[u8],
) -> Option<ToldReply>
    requires short { length payload.now ≤ 65536 }
    requires told { told.watts < 32768000 }
    requires nominal { 0 < plan.now.nominal }
    ensures { saying.PayloadSo (told_codecs R.negotiates R.reads R.encodes R.responds R.watts) plan.now told spoken ask.now payload.now result }
{
    let reply = reply_word(reader.read(spoken, payload))?;
    if !answers(ask, &reply.tell) {
        return None;
    }
    let watts = reader.watts(plan, told, spoken, payload)?;
    Some(ToldReply { reply, watts })
}

/// The reply of the kind of a request that bytes are, if they are one.
fn reply_in<R: ToldReader>(
    reader: &mut R,
    plan: &PostPlan,
    told: ToldWatts,
    spoken: Dialect,
    ask: &Ask,
    bytes: &[u8],
) -> Option<ToldReply>
    requires told { told.watts < 32768000 }
    requires nominal { 0 < plan.now.nominal }
    ensures { saying.ReplySo (told_codecs R.negotiates R.reads R.encodes R.responds R.watts) plan.now told spoken ask.now bytes.now result }
{
    if is_frame(bytes) {
        reply_of(reader, plan, told, spoken, ask, &bytes[8..])
    } else {
        None
    }
}

/// What bytes say to a word, in the dialect of the session.
fn said_to<R: ToldReader>(
    word: Option<&ToldWord>,
    spoken: Option<Dialect>,
    reader: &mut R,
    plan: &PostPlan,
    told: ToldWatts,
    bytes: &[u8],
) -> ToldSaid
    requires told { told.watts < 32768000 }
    requires nominal { 0 < plan.now.nominal }
    ensures { saying.SaysTo (told_codecs R.negotiates R.reads R.encodes R.responds R.watts) plan.now told spoken bytes.now (option_map (λ word. word.now) word.entry) result }
{
    match word {
        None => ToldSaid::Unasked,
        Some(ToldWord::Negotiated(chosen)) => match response_in(reader, bytes) {
            Some(positive) => ToldSaid::Response {
                chosen: *chosen,
                positive,
            },
            None => ToldSaid::Other,
        },
        Some(ToldWord::Asked(request)) => match spoken {
            Some(dialect) => { replied(reply_in(reader, plan, told, dialect, &request.ask, bytes)) }
            None => ToldSaid::Other,
        },
        Some(ToldWord::WrongSide | ToldWord::Refused | ToldWord::BadFrame(_)) => ToldSaid::Other,
    }
}

/// A reply, or something else.
fn replied(reply: Option<ToldReply>) -> ToldSaid
    ensures { result ≡ saying.said_by reply }
{
    match reply {
        Some(reply) => ToldSaid::Replied(reply),
        None => ToldSaid::Other,
    }
}

/// What bytes that were sent say to the first word without a reply, at a post that was `told` these watts.
pub fn said<R: ToldReader>(
    stream: &ToldStream,
    reader: &mut R,
    plan: &PostPlan,
    told: ToldWatts,
    bytes: &[u8],
) -> ToldSaid
    requires told { told.watts < 32768000 }
    requires nominal { 0 < plan.now.nominal }
    ensures { (past : List Seen) → streams.AreOf (codecs R.negotiates R.reads R.encodes) plan.now.dialects.items past stream.now → streams.IsEven stream.now
        → saying.SaidSo (told_codecs R.negotiates R.reads R.encodes R.responds R.watts) plan.now told past bytes.now (streams.kept_in stream.now) result }
{
    let spoken = stream.spoken::<R>();
    said_to(stream.unanswered::<R>(), spoken, reader, plan, told, bytes)
}
