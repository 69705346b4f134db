//! What a payload is judged as and how a reply is encoded: in the negotiation (ISO 15118-2:2014, section 8.2), in ISO 15118-2:2014 (section
//! 8.3) and in DIN SPEC 70121:2014.
//!
//! Proved: `read_word`: the word of the tree that a payload spells in a dialect, or none (`Reads`); `payloads_are_read`: each payload has
//! that word or none; `given_replies`: each reply that a post gives can be spelled, and no schedule of it has more than one entry.
#![tactic(auto)]

ghost use Rattle.site_codec_rules.specs.Codecs.{EachIsRead};
ghost use Rattle.site_codec_rules.specs.Given.{GivenAreSpelled, GivenAreBrief};

mod reading;

pub use din_table_laws;
pub use iso_table_laws;
pub use reading::read_word;

/// Each payload reads as the word of the tree that it spells, or as none. The function does nothing: its contract is the law.
pub fn payloads_are_read()
    ensures { EachIsRead }
{}

/// Each reply that a post gives can be spelled in its dialect, and no schedule of it has more than one entry. The function does nothing: its
/// contract is the law.
pub fn given_replies()
    ensures spelled { GivenAreSpelled }
    ensures brief { GivenAreBrief }
{}
