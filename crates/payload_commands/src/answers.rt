//! The text of an answer.

ghost use Rattle.std.specs.Prelude.{◌≡◌, ◌≤◌, length, IfOk, IfErr, string_bytes};
ghost use Rattle.charging_files.specs.ScheduleKeys.{IsNeed};
ghost use Rattle.payload_commands.specs.Scheduling.{answer_lines, IsTextOf, IsAnswerText, IsNoAnswerTo, IsNoAnswer};

use hex_payloads::{HexFault, bytes_of};
use schedules::{Need, profile_lines};
use service_messages::schedule_answers::{Answer, AnswerFault, ScheduleFault, answer_of};
use std::alloc::{AllocError, Global};

/// Why there is no text.
#[derive(Clone, Copy)]
pub(crate) enum NoAnswer {
    /// The hexadecimal text is refused at this character, or the payload at this bit, from 0.
    Place(u64),
    /// The message has no answer.
    Schedule(ScheduleFault),
    /// Memory ran out.
    Memory,
}

impl From<AllocError> for NoAnswer {
    ghost use Rattle.payload_commands.specs.declared.answers.NoAnswer.TheVariants.{Memory};

    ghost from_gives = { λ _ fault. fault ≡ Memory };

    fn from(_none: AllocError) -> NoAnswer {
        NoAnswer::Memory
    }
}

/// The lines of an answer's profile, and that of its request.
fn lines_of(alloc: Global, answer: &Answer) -> Result<String, NoAnswer>
    ensures memory { IfErr result (λ fault. fault ≡ NoAnswer.Memory) }
    ensures lines { IfOk result (λ text. string_bytes text ≡ answer_lines answer.now.profile answer.now.request.items) }
{
    let mut text = profile_lines(alloc, &answer.profile)?;
    let request = hex::encode(alloc, answer.request.as_slice())?;
    text.push_str(request.as_str())?;
    text.push('\n')?;
    Ok(text)
}

/// The text of the answer to a payload of at most 65,536 bytes.
fn answer_text(alloc: Global, need: Need, payload: &[u8]) -> Result<String, NoAnswer>
    requires need { IsNeed need }
    requires payload { length payload.now ≤ 65536 }
    ensures text { IfOk result (λ text. IsTextOf need payload.now (string_bytes text)) }
    ensures fault { IfErr result (IsNoAnswerTo need payload.now) }
{
    match answer_of(alloc, payload, need) {
        Ok(answer) => lines_of(alloc, &answer),
        Err(AnswerFault::Refused(bit)) => Err(NoAnswer::Place(u64::from(bit))),
        Err(AnswerFault::Unanswered(fault)) => Err(NoAnswer::Schedule(fault)),
        Err(AnswerFault::Memory) => Err(NoAnswer::Memory),
    }
}

/// The text of the answer to the payload whose hexadecimal text this is.
pub(crate) fn text_of(alloc: Global, need: Need, hex: &str) -> Result<String, NoAnswer>
    requires { IsNeed need }
    ensures text { IfOk result (λ text. IsAnswerText need hex.now (string_bytes text)) }
    ensures fault { IfErr result (IsNoAnswer need hex.now) }
{
    match bytes_of(alloc, hex) {
        Ok(payload) => answer_text(alloc, need, &payload),
        Err(HexFault::Place(place)) => Err(NoAnswer::Place(place)),
        Err(HexFault::Memory) => Err(NoAnswer::Memory),
    }
}
