//! Why a datagram isn't readable.

use thiserror::Error;

/// The first fault of a datagram, in the order of these variants. A field is judged where the datagram is long
/// enough for it, and is a `BadLength` else.
#[derive(Clone, Copy, Debug, PartialEq, Eq, Error)]
pub enum SdpFault {
    /// The version field is this, and not 0x01fe.
    #[error("the version is 0x{0:04x}")]
    BadVersion(u16),
    /// The payload type is this, and not the one that is read.
    #[error("the payload type is 0x{0:04x}")]
    BadType(u16),
    /// The datagram's or the payload's length is wrong.
    #[error("the length is wrong")]
    BadLength,
    /// The security byte is this: neither 0x00 (TLS) nor 0x10 (none).
    #[error("the security is 0x{0:02x}")]
    BadSecurity(u8),
    /// The transport byte is this, and not 0x00 (TCP).
    #[error("the transport is 0x{0:02x}")]
    BadTransport(u8),
}
