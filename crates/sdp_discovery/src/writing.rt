//! Discovery messages as datagrams.

ghost use Rattle.std.specs.Prelude.{◌≡◌, ◌++◌, [], ◌∷◌, false};
ghost use Rattle.byteorder.specs.Endian.{big_bytes};
ghost use Rattle.v2gtp_frames.specs.Header.{header};
ghost use Rattle.sdp_discovery.specs.Discovery.{request_spelling, response_spelling, response_type, security, tcp, loopback, answer_on};

use crate::frame::{put_header, security_byte};
use crate::message::{LOOPBACK, SdpRequest, SdpResponse};
use byteorder::{BigEndian, ByteOrder};

/// The datagram of a request (ISO 15118-2:2014, section 7.10.1.4).
pub fn write_request(request: &SdpRequest) -> [u8; 10]
    ensures { result ≡ request_spelling request.now }
{
    let mut frame = [0u8; 10];
    put_header(&mut frame, 0x9000, 2);
    frame[8] = security_byte(request.tls);
    frame
}

/// The datagram of a response (ISO 15118-2:2014, section 7.10.1.5).
pub fn write_response(response: &SdpResponse) -> [u8; 28]
    ensures { result ≡ response_spelling response.now }
{
    let mut frame = [0u8; 28];
    put_header(&mut frame, 0x9001, 20);
    frame[8..24].copy_from_slice(&response.address);
    BigEndian::write_u16(&mut frame[24..26], response.port);
    frame[26] = security_byte(response.tls);
    frame
}

/// The datagram by which a station tells of its TCP port (own): the loopback address ::ffff:127.0.0.1, that port, no
/// security and TCP.
pub fn answer_to(port: u16) -> [u8; 28]
    ensures spelled { result ≡ response_spelling (answer_on port) }
    ensures fields { result ≡ header response_type 20 ++ loopback ++ big_bytes 2 port ++ security false ∷ tcp ∷ [] }
{
    write_response(&SdpResponse {
        address: LOOPBACK,
        port,
        tls: false,
    })
}
