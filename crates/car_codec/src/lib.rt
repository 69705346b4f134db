//! What a car needs of the codecs of its messages: the negotiation's (ISO 15118-2:2014, section 8.2) and those of the dialects (section
//! 7.9; DIN SPEC 70121:2014). A car is generic over them, and its promises hold for any codecs that keep these laws.
//!
//! Proved: the traits by which a car takes its codecs (`CarCodec`), and what the laws of runs ask of them (`LawfulCarCodec`); which
//! requests they have to spell (`IsAsked`). `car_codecs` keeps both.
#![tactic(auto)]

ghost use Rattle.std.specs.Prelude.{◌≤◌, length, take};
ghost use Rattle.session_words.specs.Plans.{IsOfferOnce};
ghost use Rattle.car_spec.specs.Codecs.{codecs};
ghost use Rattle.car_spec.specs.Spelled.{ReadsBack, AreDetermined};
ghost use Rattle.evcc_machine.specs.Views.{judged_of};
ghost use Rattle.car_codec.specs.Judging.{IsJudged, ChoosesOffered, RespondsFirst};
ghost use Rattle.car_codec.specs.Requests.{IsAsked};

use car_spec::CarCoded;
use charge_world::Dialect;
use evcc_machine::Judged;
use session_words::Request;

/// The room in which a car's offer or request is written has at least so many bytes, and neither has more.
pub const REQUEST_ROOM: usize = 1024;

/// Codecs of a car's messages. No call takes memory or keeps anything for a later one.
pub trait CarCodec: CarCoded {
    /// Writes the payload that offers these dialects, in order of preference, to the front of a room, and answers its number of bytes.
    fn offer(&mut self, dialects: &[Dialect], room: &mut [u8]) -> u32
        requires room { 1024 ≤ length room.old }
        requires once { IsOfferOnce dialects.now }
        ensures within { result ≤ 1024 }
        ensures encoded { Self.offers dialects.now (take result room.new) };

    /// What the first payload that a car hears is, where it offered these dialects.
    fn respond(&mut self, dialects: &[Dialect], payload: &[u8]) -> Judged
        requires payload { length payload.now ≤ 65536 }
        requires once { IsOfferOnce dialects.now }
        ensures { Self.responds dialects.now payload.now (judged_of result) };

    /// What a later payload is, in the dialect that was chosen.
    fn judge(&mut self, dialect: Dialect, payload: &[u8]) -> Judged
        requires { length payload.now ≤ 65536 }
        ensures { IsJudged (Self.reads dialect payload.now) (judged_of result) };

    /// Writes the payload of a request to the front of a room, and answers its number of bytes. The request is one that a car asks in this
    /// dialect.
    fn encode(&mut self, dialect: Dialect, request: &Request, room: &mut [u8]) -> u32
        requires room { 1024 ≤ length room.old }
        requires asked { IsAsked dialect request.now }
        ensures within { result ≤ 1024 }
        ensures encoded { Self.encodes dialect request.now (take result room.new) };

    /// The first payload that a car hears is never judged a reply of a dialect.
    ghost responds_first: { RespondsFirst Self.responds };

    /// A dialect that is chosen is one of those on offer.
    ghost chooses_offered: { ChoosesOffered Self.responds };
}

/// Codecs by whose payloads a run can be told apart: what the laws of every run ask of them.
pub trait LawfulCarCodec: CarCodec {
    /// The encoding of a request reads as that request, but for the watts that its numbers drop.
    ghost reads_back: { ReadsBack (codecs Self.offers Self.responds Self.reads Self.encodes) };

    /// A payload is judged one way, and what is said has one encoding.
    ghost determined: { AreDetermined (codecs Self.offers Self.responds Self.reads Self.encodes) };
}
