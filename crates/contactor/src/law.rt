//! What a contactor answers, whatever was called.

ghost use Rattle.contactor.specs.Law.{StandsRight, IsLiveRight};

/// After any calls, a contactor stands, and is live, as its orders and the feedback say.
pub fn law_of_contactor()
    ensures stands { StandsRight }
    ensures live { IsLiveRight }
{}
