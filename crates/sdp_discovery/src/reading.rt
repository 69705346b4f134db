//! Datagrams read as discovery messages.

ghost use Rattle.std.specs.Prelude.{◌≡◌, IfOk, IfErr};
ghost use Rattle.sdp_discovery.specs.Discovery.{request_spelling, response_spelling, IsResponse, IsRequestFault, IsResponseFault};
ghost use Rattle.sdp_discovery.specs.declared.fault.SdpFault.{SdpFault};
ghost use Rattle.sdp_discovery.specs.declared.message.SdpRequest.{SdpRequest};
ghost use Rattle.sdp_discovery.specs.declared.message.SdpResponse.{SdpResponse};

use crate::fault::SdpFault;
use crate::frame::{check_ending, check_header};
use crate::message::{SdpRequest, SdpResponse};
use byteorder::{BigEndian, ByteOrder};

/// Reads the datagram of a request (ISO 15118-2:2014, section 7.10.1.4), or names its first fault.
pub fn read_request(datagram: &[u8]) -> Result<SdpRequest, SdpFault>
    ensures read { IfOk result (λ request. datagram.now ≡ request_spelling request) }
    ensures readable { (request : SdpRequest) → datagram.now ≡ request_spelling request → result ≡ Ok request }
    ensures fault { IfErr result (IsRequestFault datagram.now) }
    ensures faulty { (fault : SdpFault) → IsRequestFault datagram.now fault → result ≡ Err fault }
{
    check_header(datagram, 0x9000, 2)?;
    let tls = check_ending(datagram, 0x9000, 2)?;
    Ok(SdpRequest { tls })
}

/// Reads the datagram of a response (ISO 15118-2:2014, section 7.10.1.5), or names its first fault.
pub fn read_response(datagram: &[u8]) -> Result<SdpResponse, SdpFault>
    ensures read { IfOk result (λ response. datagram.now ≡ response_spelling response) }
    ensures readable { (response : SdpResponse) → IsResponse response → datagram.now ≡ response_spelling response → result ≡ Ok response }
    ensures fault { IfErr result (IsResponseFault datagram.now) }
    ensures faulty { (fault : SdpFault) → IsResponseFault datagram.now fault → result ≡ Err fault }
{
    check_header(datagram, 0x9001, 20)?;
    let tls = check_ending(datagram, 0x9001, 20)?;
    let mut address = [0u8; 16];
    address.copy_from_slice(&datagram[8..24]);
    let port = BigEndian::read_u16(&datagram[24..26]);
    Ok(SdpResponse { address, port, tls })
}
