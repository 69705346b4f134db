//! The numbers of the names.

/// The element of a request.
pub const REQUEST: u16 = 0;

/// The element of a response.
pub const RESPONSE: u16 = 1;

/// AppProtocol: one protocol of a request.
pub const APP_PROTOCOL: u16 = 2;

/// ProtocolNamespace of a protocol.
pub const NAMESPACE: u16 = 3;

/// VersionNumberMajor of a protocol.
pub const MAJOR: u16 = 4;

/// VersionNumberMinor of a protocol.
pub const MINOR: u16 = 5;

/// SchemaID of a protocol or of a response.
pub const SCHEMA_ID: u16 = 6;

/// Priority of a protocol.
pub const PRIORITY: u16 = 7;

/// ResponseCode of a response.
pub const RESPONSE_CODE: u16 = 8;
