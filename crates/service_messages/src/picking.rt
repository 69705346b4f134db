//! Which set is picked.

ghost use Rattle.std.specs.Prelude.{◌↔◌, IsTrue, map, MatchOption};
ghost use Rattle.service_spec.specs.Services.{said_of, IsMet, Fits, IsPicked, PicksNone};
ghost use Rattle.service_messages.specs.Offers.{said_in, said_set_in, sets_in, IsChoice, HasNoChoice};

use crate::meeting::meets;
use crate::offers::reply_of;
use iso_details::{Parameter, ParameterSet, ServiceDetailRes};
use iso_message::IsoMessage;
use service_spec::{Parameter as Pair, Want};

/// Whether some parameter meets a pair.
fn is_met(parameters: &[Parameter<'_>], pair: &Pair<'_>) -> bool
    ensures { IsTrue result ↔ IsMet (map said_in parameters.now) (said_of pair.now) }
{
    for parameter in parameters {
        if meets(pair, parameter) {
            return true;
        }
    }
    false
}

/// Whether each pair is met.
fn are_met(want: &[Pair<'_>], parameters: &[Parameter<'_>]) -> bool
    ensures { IsTrue result ↔ Fits (map said_of want.now) (map said_in parameters.now) }
{
    for pair in want {
        if !is_met(parameters, pair) {
            return false;
        }
    }
    true
}

/// Whether each pair is met by some parameter of a set.
fn fits(want: &[Pair<'_>], set: &ParameterSet<'_>) -> bool
    ensures { IsTrue result ↔ Fits (map said_of want.now) (said_set_in set.now).parameters }
{
    are_met(want, set.parameter.as_slice())
}

/// The identifier of the first set in which each pair is met.
fn first_of(sets: &[ParameterSet<'_>], want: &[Pair<'_>]) -> Option<i16>
    ensures { MatchOption result (PicksNone (map said_of want.now) (map said_set_in sets.now)) (IsPicked (map said_of want.now) (map said_set_in sets.now)) }
{
    for set in sets {
        if fits(want, set) {
            return Some(set.parameter_set_id);
        }
    }
    None
}

/// The identifier of the first set of a reply in which each pair is met.
fn choice_of(reply: &ServiceDetailRes<'_>, want: &[Pair<'_>]) -> Option<i16>
    ensures { MatchOption result (PicksNone (map said_of want.now) (sets_in reply.now.service_parameter_list))
        (IsPicked (map said_of want.now) (sets_in reply.now.service_parameter_list)) }
{
    match &reply.service_parameter_list {
        Some(list) => first_of(list.parameter_set.as_slice(), want),
        None => None,
    }
}

/// The identifier of the set that a car picks of a ServiceDetailRes (ISO 15118-2:2014, 8.4.3.3.3): the first in which each pair that it wants is met
/// by some parameter of that name and value (own).
///
/// `None` exactly where the message is no ServiceDetailRes of the OK class, or has no such set.
pub fn pick(message: &IsoMessage<'_>, want: &Want<'_>) -> Option<i16>
    ensures { MatchOption result (HasNoChoice (map said_of want.now.pairs.items) message.now) (IsChoice (map said_of want.now.pairs.items) message.now) }
{
    match reply_of(message) {
        Some(reply) => choice_of(reply, want.pairs.as_slice()),
        None => None,
    }
}
