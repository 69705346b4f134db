//! The two discovery messages.

/// A car asks where a post is (ISO 15118-2:2014, section 7.10.1.4). The transport is TCP.
#[derive(Clone, Copy, PartialEq, Eq)]
pub struct SdpRequest {
    /// Whether the car asks for a connection secured by TLS.
    pub tls: bool,
}

/// A post says where it is (ISO 15118-2:2014, section 7.10.1.5). The transport is TCP.
#[derive(Clone, Copy, PartialEq, Eq)]
pub struct SdpResponse {
    /// An IPv6 address, its highest byte first.
    pub address: [u8; 16],
    /// A TCP port.
    pub port: u16,
    /// Whether the connection is to be secured by TLS.
    pub tls: bool,
}

/// The loopback address 127.0.0.1, mapped into IPv6 as ::ffff:127.0.0.1 (own).
pub const LOOPBACK: [u8; 16] = [0, 0, 0, 0, 0, 0, 0, 0, 0, 0, 0xff, 0xff, 127, 0, 0, 1];
