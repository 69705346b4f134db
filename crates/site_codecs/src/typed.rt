//! What the types of a reply bound. These functions do nothing but read it: their contracts are what is known then.

ghost use Rattle.std.specs.Prelude.{◌≤◌, ◌<◌, length, All};
ghost use Rattle.document_laws.specs.Laws.{AreBytes};
ghost use Rattle.written_words.specs.Typed.{IsTyped, IsTypedEvse, IsTypedTell};

use session_words::{EvseId, Reply, SessionId, Tell};

/// A byte is below 256.
pub(crate) fn law_of_bytes(bytes: &[u8])
    ensures each { All (λ byte. byte < 256) bytes.now }
    ensures all { AreBytes bytes.now }
{}

fn law_of_sessions(session: &SessionId)
    ensures few { length session.now.bytes.items ≤ 8 }
    ensures bytes { All (λ byte. byte < 256) session.now.bytes.items }
{
    law_of_bytes(session.bytes.as_slice());
}

fn law_of_identifiers(id: &EvseId)
    ensures { IsTypedEvse id.now }
{
    if let EvseId::Bytes(bytes) = id {
        law_of_bytes(bytes.as_slice());
    }
}

fn law_of_tells(tell: &Tell)
    ensures { IsTypedTell tell.now }
{
    match tell {
        Tell::ServiceDetail { service } => {
            // for the prover, which so knows that it fits its type
            let _service = *service;
        }
        Tell::SessionSetup { evse } => law_of_identifiers(evse),
        _ => {}
    }
}

/// What the types of a reply bound.
pub(crate) fn law_of_types(reply: &Reply)
    ensures { IsTyped reply.now }
{
    law_of_sessions(&reply.session);
    law_of_tells(&reply.tell);
}
