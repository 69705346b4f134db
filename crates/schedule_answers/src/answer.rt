//! The answer to a payload.

ghost use Rattle.std.specs.Prelude.{◌<◌, ◌≤◌, length, IfOk, IfErr};
ghost use Rattle.schedule_answers.specs.Answers.{IsAnswered, IsUnanswered};

use crate::codecs::codec;
use crate::fault::AnswerFault;
use crate::payload::payload_of;
use crate::profile::profile_in;
use schedules::{Need, Profile, steps_are_bounded};
use std::alloc::Global;

/// What a car answers.
#[derive(Debug, Drop)]
pub struct Answer {
    /// The charging profile.
    pub profile: Profile,
    /// The payload of the PowerDeliveryReq that asks for it.
    pub request: Vec<u8>,
}

/// What a car that needs so much answers to the ChargeParameterDiscoveryRes which a payload of at most 65,536 bytes spells
/// (ISO 15118-2:2014, 8.4.3.8, 8.4.3.9): for the first of its schedules that has a profile which reaches the energy, the best, and the
/// payload of its PowerDeliveryReq Start under the identifier of no session.
///
/// The car leaves at a second from 1 to 86,400, and takes less than 32,768,000 watts. `Refused` exactly where the payload spells no message,
/// with the bit of the first item that can't be taken; else `Unanswered` where the message has no schedules that can be answered, or no profile
/// of any of them reaches the energy. `Memory` comes freely.
pub fn answer_of(alloc: Global, payload: &[u8], need: Need) -> Result<Answer, AnswerFault>
    requires payload { length payload.now ≤ 65536 }
    requires departs { 0 < need.departure }
    requires day { need.departure ≤ 86400 }
    requires watts { need.max_watts < 32768000 }
    ensures answer { IfOk result (IsAnswered payload.now need) }
    ensures fault { IfErr result (IsUnanswered payload.now need) }
{
    steps_are_bounded();
    let (tables, mut table) = codec(alloc)?;
    let profile = profile_in(&tables, payload, need, &mut table)?;
    let request = payload_of(alloc, &tables, &profile, &mut table)?;
    Ok(Answer { profile, request })
}
