//! What the owner of a site, or of a car, lays down. Contracts say by `IsSitePlan`, `IsPostPlan` and `IsCarPlan`
//! of `specs/Plans.antt` when a plan is within its rules.

ghost use Rattle.std.specs.Prelude.{◌≡◌};

use crate::limits::EvseText;
use crate::mode::Mode;
use crate::session::SessionId;
use arrayvec::ArrayVec;
use charge_world::{Dialect, Tenths};

/// The plan of a charging site.
#[derive(Drop)]
pub struct SitePlan {
    /// The watts that the site may give in all, 1 to 8,000,000.
    pub limit: u32,
    /// The events after which the station stops, 1 to 4,294,967,296.
    pub turns: u64,
    /// The connections that the site serves in all, 1 to 1,000,000.
    pub sessions: u32,
    /// The posts in order of number, 1 to 8. The first has the number 1.
    pub post: ArrayVec<PostPlan, 8>,
}

/// The plan of one post.
#[derive(Drop)]
pub struct PostPlan {
    /// The TCP port of its sessions, 1 to 65,535.
    pub tcp: u16,
    /// The UDP port of its discovery; 0 is none.
    pub sdp: u16,
    /// How it gives energy.
    pub mode: Mode,
    /// The dialects that it speaks, each at most once and at least one, in order of preference. DIN goes with
    /// `DcCore`, `DcExtended` and `DcComboCore` alone.
    pub dialects: ArrayVec<Dialect, 2>,
    /// The EVSEID in ISO, 7 to 37 ASCII characters.
    pub evse_id: EvseText,
    /// The EVSEID in DIN, 1 to 32 bytes.
    pub evse_id_din: ArrayVec<u8, 32>,
    /// Whether charging is free. Elsewhere somebody has to pay at the post first.
    pub free: bool,
    /// The greatest watts, 1 to 1,000,000.
    pub max_watts: u32,
    /// The greatest voltage, in tenths of a volt.
    pub max_voltage: Tenths,
    /// The least voltage, in tenths of a volt.
    pub min_voltage: Tenths,
    /// The greatest current, in tenths of an ampere.
    pub max_current: Tenths,
    /// The least current, in tenths of an ampere.
    pub min_current: Tenths,
    /// The peak current ripple, in tenths of an ampere.
    pub ripple: Tenths,
    /// The nominal voltage of an AC post, 1 to 1,000 volts.
    pub nominal: u16,
}

impl Default for PostPlan {
    ghost is_default = { λ post. post.tcp ≡ 0 };

    /// The blank place of a list of plans. It is within no rules, since it has no port.
    fn default() -> PostPlan {
        PostPlan {
            tcp: 0,
            sdp: 0,
            mode: Mode::DcExtended,
            dialects: ArrayVec::new(),
            evse_id: EvseText::default(),
            evse_id_din: ArrayVec::new(),
            free: false,
            max_watts: 0,
            max_voltage: Tenths::default(),
            min_voltage: Tenths::default(),
            max_current: Tenths::default(),
            min_current: Tenths::default(),
            ripple: Tenths::default(),
            nominal: 0,
        }
    }
}

impl PostPlan {
    /// The same plan once more.
    pub fn copied(&self) -> PostPlan
        ensures { result ≡ self.now }
    {
        PostPlan {
            tcp: self.tcp,
            sdp: self.sdp,
            mode: self.mode,
            dialects: copied_dialects(&self.dialects),
            evse_id: self.evse_id.copied(),
            evse_id_din: ArrayVec::try_from(self.evse_id_din.as_slice()).unwrap(),
            free: self.free,
            max_watts: self.max_watts,
            max_voltage: self.max_voltage,
            min_voltage: self.min_voltage,
            max_current: self.max_current,
            min_current: self.min_current,
            ripple: self.ripple,
            nominal: self.nominal,
        }
    }
}

impl SitePlan {
    /// The same plan once more.
    pub fn copied(&self) -> SitePlan
        ensures { result ≡ self.now }
    {
        SitePlan {
            limit: self.limit,
            turns: self.turns,
            sessions: self.sessions,
            post: copied_posts(&self.post),
        }
    }
}

fn copied_posts(plans: &ArrayVec<PostPlan, 8>) -> ArrayVec<PostPlan, 8>
    ensures { result ≡ plans.now }
{
    let mut copies = ArrayVec::new();
    for plan in plans.as_slice() {
        copies.push(plan.copied());
    }
    copies
}

fn copied_dialects(dialects: &ArrayVec<Dialect, 2>) -> ArrayVec<Dialect, 2>
    ensures { result ≡ dialects.now }
{
    ArrayVec::try_from(dialects.as_slice()).unwrap()
}

/// How a car ends its session (ChargingSession of ISO 15118-2:2014).
#[derive(Clone, Copy, Default, PartialEq, Eq)]
pub enum Stop {
    #[default]
    Terminate,
    /// The car means to come back to this session.
    Pause,
}

/// The plan of a car.
#[derive(Drop)]
pub struct CarPlan {
    /// The TCP port that the car dials at once, 1 to 65,535. It has to be there where there is no discovery.
    pub tcp: Option<u16>,
    /// The UDP port of its discovery; 0 is none.
    pub sdp: u16,
    /// The events after which the car stops, 1 to 4,294,967,296.
    pub turns: u64,
    /// How it takes energy.
    pub mode: Mode,
    /// The dialects that it speaks, each at most once and at least one, in order of preference. DIN goes with
    /// `DcCore`, `DcExtended` and `DcComboCore` alone.
    pub dialects: ArrayVec<Dialect, 2>,
    /// Its EVCCID, six bytes.
    pub car_id: [u8; 6],
    /// The state of charge that it tells, 0 to 100 percent.
    pub soc: u8,
    /// The voltage that it asks for, in tenths of a volt.
    pub target_voltage: Tenths,
    /// The current that it asks for, in tenths of an ampere.
    pub target_current: Tenths,
    /// The greatest voltage, in tenths of a volt.
    pub max_voltage: Tenths,
    /// The greatest current, in tenths of an ampere.
    pub max_current: Tenths,
    /// The least current of AC charging, in tenths of an ampere.
    pub min_current: Tenths,
    /// The greatest watts, 1 to 1,000,000.
    pub max_watts: u32,
    /// The charging replies after which it stops, 1 to 10,000.
    pub cycles: u32,
    /// The welding detections after DC charging, 0 to 10.
    pub welding: u8,
    /// The milliseconds from a reply to the repeated request, 100 to 1,000.
    pub pace: u16,
    /// How it ends its session.
    pub stop: Stop,
    /// The session that it names in SessionSetup, to come back to it; without bytes where there is none.
    pub session: SessionId,
}

impl CarPlan {
    /// The same plan once more.
    pub fn copied(&self) -> CarPlan
        ensures { result ≡ self.now }
    {
        CarPlan {
            tcp: self.tcp,
            sdp: self.sdp,
            turns: self.turns,
            mode: self.mode,
            dialects: copied_dialects(&self.dialects),
            car_id: self.car_id,
            soc: self.soc,
            target_voltage: self.target_voltage,
            target_current: self.target_current,
            max_voltage: self.max_voltage,
            max_current: self.max_current,
            min_current: self.min_current,
            max_watts: self.max_watts,
            cycles: self.cycles,
            welding: self.welding,
            pace: self.pace,
            stop: self.stop,
            session: self.session.copied(),
        }
    }
}
