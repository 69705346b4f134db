//! The words of a post and a car whose plans match.
//!
//! Proved: `requests_conform` (each request of the car, as the post reads it, is one that conforms in the post's row); `exchanges_go_well` (it is
//! answered with a code of the OK class, no end has another cause than SessionStop's, behind it what both keep meets again, and the car asks the same
//! again for a reason or has fewer requests left); `sessions_end` (so but for those that are repeated, 20 exchanges and the charging replies are
//! enough); `sessions_are_short` (with moments: 64 and four times the charging replies are
//! enough); `sessions_open` (behind SessionStop both ends ordered their contactors open last).
#![tactic(auto)]

ghost use Rattle.pair_words.specs.Laws.{ExchangesGoWell, RequestsConform, TheyEnd, TheyMeet};
ghost use Rattle.pair_words.specs.Orders.{TheyOpen};
ghost use Rattle.pair_words.specs.Timed.{ExchangesAreFew, SessionsAreShort};

/// Each request of the car, as the post reads it, is one that conforms in the post's row.
pub fn requests_conform()
    ensures { RequestsConform }
{}

/// Each request is answered with a code of the OK class, and no end has another cause than SessionStop's. Behind the exchange what both keep meets
/// again, and the car asks the same again for a reason, or has fewer requests left.
pub fn exchanges_go_well()
    ensures { ExchangesGoWell }
{}

/// Where a step is asked for again 100 ms later at the earliest, and what it waits for comes in time, the exchanges are at most 64 and four times the
/// charging replies, the negotiation counted.
pub fn sessions_are_short()
    ensures few { ExchangesAreFew }
    ensures short { SessionsAreShort }
{}

/// What both keep meets all along. But for requests that are repeated, 20 exchanges and the charging replies are enough.
pub fn sessions_end()
    ensures meet { TheyMeet }
    ensures end { TheyEnd }
{}

/// Behind SessionStop both ends ordered their contactors open last.
pub fn sessions_open()
    ensures { TheyOpen }
{}
