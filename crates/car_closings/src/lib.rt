//! What the bytes of a car's session tell in every run, whatever its codecs are: its words are the payloads of its stream in their order, and
//! each order to close its contactor is mandated by what was said and heard before it.
//!
//! Proved: for any codecs, in every run, `words_are_payloads` (the n-th word that a car reads is the n-th payload of its stream, and what it has
//! unread stands behind them); `closes_by_bytes` (each Close is mandated by the bytes of the session, where encoded requests read back and a
//! payload is judged one way).
#![tactic(auto)]

ghost use Rattle.car_spec.specs.Codecs.{codecs};
ghost use Rattle.car_closings.specs.Closing.{RunsCloseByBytes};
ghost use Rattle.car_closings.specs.Reading.{RunsReadInOrder};

use car_spec::CarCoded;

/// Each word that a car reads is what the payload at its place in the stream is judged as: the first word the first payload, and so on. What it has
/// unread is what stands behind them.
pub fn words_are_payloads<C: CarCoded>()
    ensures { RunsReadInOrder (codecs C.offers C.responds C.reads C.encodes) }
{}

/// Each order to close, taken or failed, is mandated by the bytes before it: in DC a CableCheck was answered Finished, and then a PreCharge
/// within 20.0 V of its target; in AC PowerDelivery Start was accepted; and no renegotiation was asked for since.
pub fn closes_by_bytes<C: CarCoded>()
    ensures { RunsCloseByBytes (codecs C.offers C.responds C.reads C.encodes) }
{}
