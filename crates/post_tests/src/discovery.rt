use crate::cases::{Case, all_hold};
use sdp_discovery::{
    LOOPBACK, SdpFault, SdpRequest, SdpResponse, answer_to, read_request, read_response,
    write_request, write_response,
};
use std::alloc::Global;

/// A datagram, and the request that it is or its first fault.
struct Datagram(&'static [u8], Result<SdpRequest, SdpFault>);

/// A fault, and how it is told: its field in hexadecimal.
struct Told(SdpFault, &'static str);

impl Case for Datagram {
    fn holds(&self, _: Global) -> bool {
        read_request(self.0) == self.1
    }
}

impl Case for Told {
    fn holds(&self, alloc: Global) -> bool {
        match format!(in alloc; "{}", self.0) {
            Ok(text) => text.as_str() == self.1,
            Err(_) => false,
        }
    }
}

const DATAGRAMS: [Datagram; 11] = [
    Datagram(
        b"\x01\xfe\x90\x00\x00\x00\x00\x02\x10\x00",
        Ok(SdpRequest { tls: false }),
    ),
    Datagram(
        b"\x01\xfe\x90\x00\x00\x00\x00\x02\x00\x00",
        Ok(SdpRequest { tls: true }),
    ),
    Datagram(
        b"\x01\xfe\x90\x00\x00\x00\x00\x02\x10\x10",
        Err(SdpFault::BadTransport(0x10)),
    ),
    Datagram(
        b"\x01\xfe\x90\x00\x00\x00\x00\x02\x11\x10",
        Err(SdpFault::BadSecurity(0x11)),
    ),
    Datagram(
        b"\x01\xfe\x90\x00\x00\x00\x00\x03\x10\x00",
        Err(SdpFault::BadLength),
    ),
    Datagram(
        b"\x01\xfe\x90\x00\x00\x00\x00\x02\x10\x00\x00",
        Err(SdpFault::BadLength),
    ),
    Datagram(b"\x01\xfe\x90\x01", Err(SdpFault::BadType(0x9001))),
    Datagram(b"\x01\xfe\x90\x00", Err(SdpFault::BadLength)),
    Datagram(b"\x02\xfe", Err(SdpFault::BadVersion(0x02fe))),
    Datagram(b"\x01", Err(SdpFault::BadLength)),
    Datagram(b"", Err(SdpFault::BadLength)),
];

const FAULTS: [Told; 5] = [
    Told(SdpFault::BadVersion(0x02fe), "the version is 0x02fe"),
    Told(SdpFault::BadType(0x8001), "the payload type is 0x8001"),
    Told(SdpFault::BadLength, "the length is wrong"),
    Told(SdpFault::BadSecurity(0x01), "the security is 0x01"),
    Told(SdpFault::BadTransport(0x10), "the transport is 0x10"),
];

/// A post with port 15120 answers.
fn a_post_answers() -> bool {
    let response = SdpResponse {
        address: LOOPBACK,
        port: 15120,
        tls: false,
    };
    let datagram =
        *b"\x01\xfe\x90\x01\x00\x00\x00\x14\0\0\0\0\0\0\0\0\0\0\xff\xff\x7f\0\0\x01\x3b\x10\x10\x00";
    write_response(&response) == datagram
        && answer_to(15120) == datagram
        && read_response(&datagram) == Ok(response)
        && read_response(&datagram[..27]) == Err(SdpFault::BadLength)
}

/// A car asks without TLS.
fn a_car_asks() -> bool {
    write_request(&SdpRequest { tls: false }) == *b"\x01\xfe\x90\x00\x00\x00\x00\x02\x10\x00"
}

#[test]
fn a_post_is_asked_for_and_found(rt: HostRuntime) {
    all_hold(&rt, rt.alloc(), &DATAGRAMS);
    all_hold(&rt, rt.alloc(), &FAULTS);
    assert!(rt; a_post_answers());
    assert!(rt; a_car_asks());
}
