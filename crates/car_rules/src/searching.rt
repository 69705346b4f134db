//! How a car looks for a post.

ghost use Rattle.std.specs.Prelude.{◌≡◌, ◌<◌};
ghost use Rattle.sdp_discovery.specs.Discovery.{response_spelling, IsResponse};
ghost use Rattle.car_rules.specs.Searching as rule;

use crate::deadlines::{CarDue, due, due_at};
use sdp_discovery::{SdpResponse, read_response};
use session_words::{CarPlan, EndCause};

/// How far the search for a post has come.
#[derive(Clone, Copy)]
pub struct Search {
    /// The requests so far, at most 50.
    pub asked: u8,
    /// When the last one was sent; 0 before the first.
    pub last: u64,
    /// Whether the car dialed.
    pub dialed: bool,
}

impl Search {
    /// Nothing was asked yet.
    pub fn new() -> Search
        ensures { result ≡ rule.first_search }
    {
        Search {
            asked: 0,
            last: 0,
            dialed: false,
        }
    }

    /// Behind a request at this moment.
    pub fn asked_at(&self, now: u64) -> Search
        requires { self.now.asked < 255 }
        ensures { result ≡ rule.asked_at now self.now }
    {
        Search {
            asked: self.asked + 1,
            last: now,
            dialed: self.dialed,
        }
    }

    /// Once the car dialed.
    pub fn behind_dialing(&self) -> Search
        ensures { result ≡ rule.dialed self.now }
    {
        Search {
            asked: self.asked,
            last: self.last,
            dialed: true,
        }
    }
}

/// Whether the car still looks for a post.
pub fn is_searching(plan: &CarPlan, search: &Search) -> bool
    ensures { result ≡ rule.is_searching plan.now search.now }
{
    0 < plan.sdp && !search.dialed
}

/// When the next request is due; none where no further one is, or at no moment up to 2^64 - 1.
pub fn next_request(plan: &CarPlan, search: &Search) -> Option<u64>
    ensures { result ≡ rule.next_request plan.now search.now }
{
    if !is_searching(plan, search) || 50 <= search.asked {
        return None;
    }
    if search.asked == 0 {
        return Some(0);
    }
    due_at(search.last, 250)
}

/// The deadline of a search that nobody answers.
pub fn search_due(plan: &CarPlan, search: &Search) -> Option<CarDue>
    ensures { result ≡ rule.search_due plan.now search.now }
{
    if is_searching(plan, search) && 50 <= search.asked {
        due(EndCause::NoOffer, search.last, 250)
    } else {
        None
    }
}

/// The port of the response that a datagram is, where it has no TLS.
fn port_in(datagram: &[u8], response: &SdpResponse) -> Option<u16>
    requires within { IsResponse response.now }
    requires spelled { datagram.now ≡ response_spelling response.now }
    ensures { result ≡ rule.port_of datagram.now }
{
    if response.tls {
        None
    } else {
        Some(response.port)
    }
}

/// The port of a readable response without TLS.
pub fn port_of(datagram: &[u8]) -> Option<u16>
    ensures { result ≡ rule.port_of datagram.now }
{
    match read_response(datagram) {
        Ok(response) => port_in(datagram, &response),
        Err(_) => None,
    }
}
