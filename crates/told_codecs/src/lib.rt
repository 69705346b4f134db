//! The reader of foreign traces over all messages of a site: the negotiation's (ISO 15118-2:2014, section 8.2), those of ISO 15118-2:2014 and
//! of DIN SPEC 70121:2014.
//!
//! Proved: `ChargeReader` meets all that is asked of a `ToldReader`, over the very definitions of words that a station's codecs meet
//! (`site_codec_rules`), the responses of the negotiation by their codes (`Responds`), and the watts of a reply by its tree (`reply_watts`);
//! its memory is taken once, when it is made.
#![tactic(auto)]

mod negotiating;
mod reader;
mod replies;

pub use charge_world::NoMemory;
pub use reader::ChargeReader;
