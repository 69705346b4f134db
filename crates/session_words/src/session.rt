//! What names a session.

ghost use Rattle.std.specs.Prelude.{◌≡◌, ◌↔◌, IsTrue, replicate};
ghost use Rattle.session_words.specs.Sessions.{token_bytes};

use arrayvec::ArrayVec;

/// The SessionID of a message's header (ISO 15118-2:2014, 8.3.3): 0 to 8 bytes.
#[derive(Default, Drop, PartialEq, Eq)]
pub struct SessionId {
    pub bytes: ArrayVec<u8, 8>,
}

impl SessionId {
    /// Eight zero bytes: the identifier before SessionSetup is accepted.
    pub fn zero() -> SessionId
        ensures { result.bytes.items ≡ replicate 8 0 }
    {
        SessionId {
            bytes: ArrayVec::from([0; 8]),
        }
    }

    /// The identifier that a post gives to the session of a connection with this token: the token's bytes, the highest
    /// first. Token 0 counts as 1, since eight zero bytes name no session.
    pub fn of_token(token: u64) -> SessionId
        ensures { result.bytes.items ≡ token_bytes token }
    {
        let number = if token == 0 { 1 } else { token };
        SessionId {
            bytes: ArrayVec::from(number.to_be_bytes()),
        }
    }

    /// The same identifier once more.
    pub fn copied(&self) -> SessionId
        ensures { result ≡ self.now }
    {
        SessionId {
            bytes: ArrayVec::try_from(self.bytes.as_slice()).unwrap(),
        }
    }

    /// Whether both are the same bytes.
    pub fn same(&self, other: &SessionId) -> bool
        ensures { IsTrue result ↔ (self.now ≡ other.now) }
    {
        self.bytes.as_slice() == other.bytes.as_slice()
    }
}
