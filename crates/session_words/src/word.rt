//! The messages of a session, the same for both dialects: what a car asks and what a post tells.

ghost use Rattle.std.specs.Prelude.{◌≡◌};

use crate::amount::Amount;
use crate::code::{Code, Notify, Processing, Progress};
use crate::limits::{CarLimits, DcStatus, EvseId, PostLimits, PostStatus, Tuple};
use crate::mode::{Mode, OfferedMode};
use crate::session::SessionId;
use arrayvec::ArrayVec;

/// A request: the identifier in its header and what it asks.
#[derive(Drop)]
pub struct Request {
    pub session: SessionId,
    pub ask: Ask,
}

/// A reply: the identifier in its header, its code and what it tells.
#[derive(Drop, PartialEq, Eq)]
pub struct Reply {
    pub session: SessionId,
    pub code: Code,
    pub tell: Tell,
}

/// A message of either side.
#[derive(Drop)]
pub enum Word {
    Request(Request),
    Reply(Reply),
    /// A message without a body.
    Nothing,
}

/// What a request asks. Each variant has the name of its pair of messages; `PaymentSelection` is
/// PaymentServiceSelection in ISO and ServicePaymentSelection in DIN, `Authorization` is ContractAuthentication in
/// DIN, and `ChargeParameters` is ChargeParameterDiscovery.
#[derive(Drop)]
pub enum Ask {
    SessionSetup {
        /// The EVCCID.
        car: ArrayVec<u8, 8>,
    },
    ServiceDiscovery,
    ServiceDetail {
        service: u16,
    },
    PaymentSelection {
        /// Whether the payment is external, so that nothing but the post is paid.
        external: bool,
        services: ArrayVec<u16, 16>,
    },
    Authorization,
    ChargeParameters {
        mode: Mode,
        limits: CarLimits,
    },
    CableCheck {
        ready: bool,
        soc: u8,
    },
    PreCharge {
        ready: bool,
        soc: u8,
        /// The target voltage and current, in tenths.
        voltage: Amount,
        current: Amount,
    },
    PowerDelivery {
        progress: Progress,
        /// The schedule tuple. In DIN it is there exactly with a profile.
        tuple: Option<i16>,
        /// The greatest power of the profile's entries, in watts, right where all their units are.
        profile: Option<Amount>,
    },
    CurrentDemand {
        ready: bool,
        soc: u8,
        /// The target voltage and current, in tenths.
        voltage: Amount,
        current: Amount,
    },
    ChargingStatus,
    WeldingDetection {
        ready: bool,
        soc: u8,
    },
    SessionStop {
        pause: bool,
    },
}

impl Request {
    /// The same request once more.
    pub fn copied(&self) -> Request
        ensures { result ≡ self.now }
    {
        Request {
            session: self.session.copied(),
            ask: self.ask.copied(),
        }
    }
}

impl Ask {
    /// The same once more.
    fn copied(&self) -> Ask
        ensures { result ≡ self.now }
    {
        match self {
            Ask::SessionSetup { car } => Ask::SessionSetup {
                car: ArrayVec::try_from(car.as_slice()).unwrap(),
            },
            Ask::ServiceDiscovery => Ask::ServiceDiscovery,
            Ask::ServiceDetail { service } => Ask::ServiceDetail { service: *service },
            Ask::PaymentSelection { external, services } => Ask::PaymentSelection {
                external: *external,
                services: ArrayVec::try_from(services.as_slice()).unwrap(),
            },
            Ask::Authorization => Ask::Authorization,
            Ask::ChargeParameters { mode, limits } => Ask::ChargeParameters {
                mode: *mode,
                limits: *limits,
            },
            Ask::CableCheck { ready, soc } => Ask::CableCheck {
                ready: *ready,
                soc: *soc,
            },
            Ask::PreCharge {
                ready,
                soc,
                voltage,
                current,
            } => Ask::PreCharge {
                ready: *ready,
                soc: *soc,
                voltage: *voltage,
                current: *current,
            },
            Ask::PowerDelivery {
                progress,
                tuple,
                profile,
            } => Ask::PowerDelivery {
                progress: *progress,
                tuple: *tuple,
                profile: *profile,
            },
            Ask::CurrentDemand {
                ready,
                soc,
                voltage,
                current,
            } => Ask::CurrentDemand {
                ready: *ready,
                soc: *soc,
                voltage: *voltage,
                current: *current,
            },
            Ask::ChargingStatus => Ask::ChargingStatus,
            Ask::WeldingDetection { ready, soc } => Ask::WeldingDetection {
                ready: *ready,
                soc: *soc,
            },
            Ask::SessionStop { pause } => Ask::SessionStop { pause: *pause },
        }
    }
}

/// What a reply tells, beside its code.
#[derive(Drop, PartialEq, Eq)]
pub enum Tell {
    SessionSetup {
        evse: EvseId,
    },
    ServiceDiscovery {
        /// Whether charging is free.
        free: bool,
        modes: ArrayVec<OfferedMode, 6>,
    },
    ServiceDetail {
        service: u16,
    },
    PaymentSelection,
    Authorization {
        processing: Processing,
    },
    ChargeParameters {
        processing: Processing,
        schedule: Option<ArrayVec<Tuple, 3>>,
        limits: PostLimits,
    },
    CableCheck {
        status: DcStatus,
        processing: Processing,
    },
    PreCharge {
        status: DcStatus,
        /// The voltage at the outlet, in tenths of a volt.
        voltage: Amount,
    },
    PowerDelivery {
        status: PostStatus,
    },
    CurrentDemand {
        status: DcStatus,
        /// The voltage and the current at the outlet, in tenths.
        voltage: Amount,
        current: Amount,
        /// Whether the car asks for more current, voltage or power than the post gives.
        current_cut: bool,
        voltage_cut: bool,
        watts_cut: bool,
        /// The greatest values, in tenths and in watts.
        most_voltage: Option<Amount>,
        most_current: Option<Amount>,
        most_watts: Option<Amount>,
        /// ISO alone.
        evse: Option<EvseId>,
    },
    ChargingStatus {
        notify: Notify,
        evse: EvseId,
        /// The greatest current, in tenths of an ampere.
        current: Option<Amount>,
    },
    WeldingDetection {
        status: DcStatus,
        /// The voltage at the outlet, in tenths of a volt.
        voltage: Amount,
    },
    SessionStop,
}
