//! What the types of a request bound. These functions do nothing but read it: their contracts are what is known then.

ghost use Rattle.std.specs.Prelude.{◌≤◌, ◌<◌, length, All};
ghost use Rattle.car_codec_laws.specs.Asked.{IsTyped, IsTypedAsk};

use session_words::{Ask, Request, SessionId};

/// A byte is below 256.
fn law_of_bytes(bytes: &[u8])
    ensures { All (λ byte. byte < 256) bytes.now }
{}

fn law_of_sessions(session: &SessionId)
    ensures few { length session.now.bytes.items ≤ 8 }
    ensures bytes { All (λ byte. byte < 256) session.now.bytes.items }
{
    law_of_bytes(session.bytes.as_slice());
}

fn law_of_asks(ask: &Ask)
    ensures { IsTypedAsk ask.now }
{
    if let Ask::SessionSetup { car } = ask {
        law_of_bytes(car.as_slice());
    }
}

/// What the types of a request bound.
pub(crate) fn law_of_types(request: &Request)
    ensures { IsTyped request.now }
{
    law_of_sessions(&request.session);
    law_of_asks(&request.ask);
}
