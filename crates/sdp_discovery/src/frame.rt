//! The V2GTP frame of a discovery message (ISO 15118-2:2014, section 7.8.3).

ghost use Rattle.std.specs.Prelude.{◌≡◌, ◌+◌, ◌≤◌, ◌<◌, ◌++◌, length, drop, IfOk, IfErr};
ghost use Rattle.v2gtp_frames.specs.Header.{header};
ghost use Rattle.sdp_discovery.specs.Discovery.{security, tcp, HasLength, IsFault, security_of, transport_of};

use crate::fault::SdpFault;
use byteorder::{BigEndian, ByteOrder};
use v2gtp_frames::{VERSION, put_frame};

/// Writes a header: a payload type, and a payload's length in bytes.
pub(crate) fn put_header(frame: &mut [u8], kind: u16, size: u32)
    requires { 8 ≤ length frame.old }
    ensures { frame.new ≡ header kind size ++ drop 8 frame.old }
{
    frame[..8].copy_from_slice(&put_frame(kind, size));
}

/// The byte that says whether TLS is used.
pub(crate) fn security_byte(tls: bool) -> u8
    ensures { result ≡ security tls }
{
    if tls { 0x00 } else { 0x10 }
}

/// Whether a header stands at the front, for a payload of `size` bytes, which is all of the rest.
pub(crate) fn check_header(frame: &[u8], kind: u16, size: u32) -> Result<(), SdpFault>
    requires { size < 100 }
    ensures right { IfOk result (λ _. HasLength kind size frame.now) }
    ensures fault { IfErr result (IsFault kind size frame.now) }
{
    if frame.len() < 2 {
        return Err(SdpFault::BadLength);
    }
    let version = BigEndian::read_u16(frame);
    if version != VERSION {
        return Err(SdpFault::BadVersion(version));
    }
    if frame.len() < 4 {
        return Err(SdpFault::BadLength);
    }
    let found = BigEndian::read_u16(&frame[2..]);
    if found != kind {
        return Err(SdpFault::BadType(found));
    }
    if frame.len() != 8 + size as usize {
        return Err(SdpFault::BadLength);
    }
    if BigEndian::read_u32(&frame[4..]) != size {
        return Err(SdpFault::BadLength);
    }
    Ok(())
}

/// Whether the last two bytes are a security and TCP, and which security: true for TLS.
pub(crate) fn check_ending(frame: &[u8], kind: u16, size: u32) -> Result<bool, SdpFault>
    requires size { (2 ≤ size) × (size < 100) }
    requires header { HasLength kind size frame.now }
    ensures security { IfOk result (λ tls. security_of size frame.now ≡ security tls) }
    ensures transport { IfOk result (λ _. transport_of size frame.now ≡ tcp) }
    ensures fault { IfErr result (IsFault kind size frame.now) }
{
    let found = frame[size as usize + 6];
    let tls = match found {
        0x00 => true,
        0x10 => false,
        _ => return Err(SdpFault::BadSecurity(found)),
    };
    let transport = frame[size as usize + 7];
    if transport != 0x00 {
        return Err(SdpFault::BadTransport(transport));
    }
    Ok(tls)
}
