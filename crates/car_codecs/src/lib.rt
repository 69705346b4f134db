//! The codecs of a car's messages: the negotiation's (ISO 15118-2:2014, section 8.2), and those of ISO 15118-2:2014 (section 8.3) and of
//! DIN SPEC 70121:2014.
//!
//! Proved: `CarCodecs`: the codecs of the negotiation and of both dialects behind `CarCodec`, with its laws (`LawfulCarCodec`); each
//! payload that it writes has at most 1,024 bytes; no call but `make` takes memory.
#![tactic(auto)]

mod codecs;
mod din;
mod iso;
mod negotiating;
mod typed;

pub use car_codec::{CarCodec, REQUEST_ROOM};
pub use charge_world::{Dialect, NoMemory};
pub use codecs::CarCodecs;
pub use evcc_machine::Judged;
pub use session_words::Request;
