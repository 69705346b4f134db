//! Where a session and a contactor stand.

/// How far a session of a post has come. A request is accepted or refused by it.
#[derive(Clone, Copy, PartialEq, Eq)]
pub enum Phase {
    /// The connection stands, and the negotiation of the dialect comes next.
    Connected,
    Negotiated,
    SetUp,
    Discovered,
    Selected,
    Authorized,
    DcReady,
    DcChecked,
    DcPreCharging,
    /// The contactor closes, and the reply to PowerDelivery waits for its feedback.
    DcClosing,
    DcCharging,
    DcStopped,
    AcReady,
    /// The contactor closes, and the reply to PowerDelivery waits for its feedback.
    AcClosing,
    AcCharging,
    AcStopped,
}

/// How a contactor stands, by its last order and the feedback since.
#[derive(Clone, Copy, PartialEq, Eq)]
pub enum Standing {
    /// It is open.
    Opened,
    /// It was ordered closed, and feedback of that has not come.
    Closing,
    /// It is closed.
    Closed,
    /// Its last order failed, so it has to be ordered open.
    MustOpen,
    /// It was ordered open, and feedback of that has not come; or it is closed where nothing ordered that.
    Opening,
}
