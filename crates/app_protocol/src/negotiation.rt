//! The rule of the negotiation.

ghost use Rattle.std.specs.Prelude.{◌≡◌, ◌<◌, MatchOption, IsTrue, ◌↔◌, List, [], ◌∷◌, ◌++◌};
ghost use Rattle.std.specs.Str.{chars};
ghost use Rattle.app_protocol.specs.Messages.{Protocol, protocol_of, protocols_of};
ghost use Rattle.app_protocol.specs.Winning.{Won};
ghost use Rattle.app_protocol.specs.Negotiation.{namespace_of, minor_of, Names, Matches, NoMatch, Negotiates, code_for};

use crate::message::{AppCode, AppProtocol, AppReq, AppRes};
use charge_world::{Dialect, Offer};

/// The winner among the entries so far.
#[derive(Clone, Copy)]
struct Winner {
    priority: u8,
    response: AppRes,
    dialect: Dialect,
}

/// The response to a request, and the dialect that both ends speak from then on; none where no entry matches a
/// dialect on offer.
pub fn negotiate(request: &AppReq<'_>, offer: &Offer) -> (AppRes, Option<Dialect>)
    ensures { Negotiates offer.now.entries.items (protocols_of request.now) result.0 result.1 }
{
    negotiate_among(request, offer.entries.as_slice())
}

/// The same, among these dialects.
pub fn negotiate_among(request: &AppReq<'_>, offers: &[Dialect]) -> (AppRes, Option<Dialect>)
    ensures { Negotiates offers.now (protocols_of request.now) result.0 result.1 }
{
    let mut best: Option<Winner> = None;
    for protocol in request.protocols.as_slice() {
        best = winner_with(best, protocol, offers);
    }
    match best {
        Some(winner) => (winner.response, Some(winner.dialect)),
        None => (
            AppRes {
                code: AppCode::Failed,
                schema: None,
            },
            None,
        ),
    }
}

/// The winner with one entry more.
fn winner_with(
    best: Option<Winner>,
    protocol: &AppProtocol<'_>,
    offers: &[Dialect],
) -> Option<Winner>
    ensures { (taken : List Protocol) → Won offers.now taken best → Won offers.now (taken ++ protocol_of protocol.now ∷ []) result }
{
    let Some(dialect) = dialect_of(protocol, offers) else {
        return best;
    };
    let winner = Winner {
        priority: protocol.priority,
        response: accepted(protocol, dialect),
        dialect,
    };
    match best {
        None => Some(winner),
        Some(old) => {
            if winner.priority < old.priority {
                Some(winner)
            } else {
                Some(old)
            }
        }
    }
}

/// The dialect on offer that the entry names.
fn dialect_of(protocol: &AppProtocol<'_>, offers: &[Dialect]) -> Option<Dialect>
    ensures { MatchOption result (NoMatch offers.now (protocol_of protocol.now)) (Matches offers.now (protocol_of protocol.now)) }
{
    for dialect in offers {
        if names(protocol, *dialect) {
            return Some(*dialect);
        }
    }
    None
}

fn names(protocol: &AppProtocol<'_>, dialect: Dialect) -> bool
    ensures { IsTrue result ↔ Names (protocol_of protocol.now) dialect }
{
    protocol.major == 2 && protocol.namespace.is(namespace(dialect))
}

fn namespace(dialect: Dialect) -> &'static str
    ensures { chars result.now ≡ namespace_of dialect }
{
    match dialect {
        Dialect::Iso => "urn:iso:15118:2:2013:MsgDef",
        Dialect::Din => "urn:din:70121:2012:MsgDef",
    }
}

/// The response that chooses this entry.
fn accepted(protocol: &AppProtocol<'_>, dialect: Dialect) -> AppRes
    ensures { result ≡ record { code = code_for protocol.now.minor dialect; schema = Some protocol.now.schema } }
{
    let code = if protocol.minor == minor(dialect) {
        AppCode::Successful
    } else {
        AppCode::MinorDeviation
    };
    AppRes {
        code,
        schema: Some(protocol.schema),
    }
}

/// Both dialects are of minor version 0.
fn minor(dialect: Dialect) -> u32
    ensures { result ≡ minor_of dialect }
{
    match dialect {
        Dialect::Iso | Dialect::Din => 0,
    }
}
