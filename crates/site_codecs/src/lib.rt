//! The codecs of a site's messages: the negotiation's (ISO 15118-2:2014, section 8.2), and those of ISO 15118-2:2014 (section 8.3) and of
//! DIN SPEC 70121:2014.
//!
//! Proved: `ChargeCodecs`: the codecs of the negotiation and of both dialects behind the trait `Codec`, with all memory taken once; each
//! reply that a post gives is written, in at most 1,024 bytes.
#![tactic(auto)]

mod codecs;
mod din;
mod iso;
mod negotiating;
mod typed;

pub use charge_world::{Dialect, NoMemory};
pub use codecs::ChargeCodecs;
pub use secc_machine::Judged;
pub use session_words::Reply;
pub use site_codec::{Codec, PAYLOAD, REPLY_ROOM};
pub use site_codec_laws;
