//! The answer of a car to the schedules of a ChargeParameterDiscoveryRes: a charging profile, and the PowerDeliveryReq that asks for it
//! (ISO 15118-2:2014, 8.4.3.8, 8.4.3.9, 8.5.2.10), of a message and of its payload.
//!
//! Proved: `profile_of`: the best profile for the first schedule of a message that reaches the energy that a car needs (`IsAnswer`), or why there is
//! none (`IsFault`): no profile reaches it, whatever its starts, or the message has no schedules that can be answered; `request_of`: the request of a
//! profile (`IsRequestOf`), which holds what is declared (`IsWithin`), so that it has one encoding, of no more than 2,048 bytes; `answer_of`: for a
//! payload that profile and the one encoding of its request (`IsAnswered`), or why there is none (`IsUnanswered`): the payload's exact refusal, or
//! that of the message; `one_fate`: a payload is refused, or has one profile that answers a need, or one reason why there is none, and never two of
//! these.
#![tactic(auto)]

mod answer;
mod choosing;
mod codecs;
mod fault;
mod laws;
mod payload;
mod profile;
mod request;
mod told;
mod tuples;

pub use answer::{Answer, answer_of};
pub use choosing::{ScheduleFault, profile_of};
pub use codecs::codec;
pub use fault::AnswerFault;
pub use laws::one_fate;
pub use request::{no_session, request_of};
pub use schedules::{Need, Profile};
