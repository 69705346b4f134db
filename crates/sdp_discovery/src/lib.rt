//! Discovery of a charging post (SDP, ISO 15118-2:2014, section 7.10.1): the datagrams by which a car asks for the address of a post, and a
//! post answers.
//!
//! Proved: both reads and writes, with the five faults in their order (`IsRequestFault`, `IsResponseFault`); `answer_to` is the response
//! with the loopback address ::ffff:127.0.0.1, the port, no security and TCP.
#![tactic(auto)]

pub mod fault;
pub mod frame;
pub mod message;
pub mod reading;
pub mod writing;

pub use fault::SdpFault;
pub use message::{LOOPBACK, SdpRequest, SdpResponse};
pub use reading::{read_request, read_response};
pub use writing::{answer_to, write_request, write_response};
