ghost use Rattle.std.specs.Prelude.{◌≤◌};
ghost use Rattle.session_words.specs.Plans.{IsPostPlan};

use crate::cases::{Case, all_hold};
use arrayvec::ArrayVec;
use charge_world::{Dialect, IsolationLevel, Order, PilotState, PlantEvent, Tenths};
use session_rules::{
    Break, Found, PreCharged, Stage, Watch, allowed_watts, ask_of, asks, break_cause, facts_behind,
    found_by, is_waiting, judge, lowered_by, order_of, plant_cause, reply_to, stage_behind,
    timeout_of, waiting_reply, word_cause,
};
use session_words::{
    Amount, Ask, CarLimits, Code, DcStatus, EndCause, EvseId, EvseText, Facts, Mode, Notify, Phase,
    PostLimits, PostPlan, PostStatus, Processing, Progress, Request, SessionId, Standing,
    StatusCode, Tell, Timeout, Tuple,
};
use std::alloc::Global;

/// The token of the sessions.
const TOKEN: u64 = 0x0102_0304_0506_0708;

fn tenths(n: u16) -> Tenths
    requires { n ≤ 30000 }
{
    Tenths::of(n).unwrap()
}

fn amount(size: u32) -> Amount {
    Amount { size, right: true }
}

/// A post of 50 kW that speaks ISO 15118-2, free or not.
fn post(mode: Mode, free: bool) -> PostPlan
    ensures { IsPostPlan result }
{
    let mut dialects = ArrayVec::new();
    dialects.push(Dialect::Iso);
    let mut evse_id_din = ArrayVec::new();
    evse_id_din.push(0);
    PostPlan {
        tcp: 15120,
        sdp: 0,
        mode,
        dialects,
        evse_id: EvseText::of("ZZ00000").unwrap(),
        evse_id_din,
        free,
        max_watts: 50_000,
        max_voltage: tenths(9200),
        min_voltage: tenths(1500),
        max_current: tenths(1250),
        min_current: tenths(0),
        ripple: tenths(10),
        nominal: 230,
    }
}

/// A session of ISO in this row, with this pre-charge.
fn stage(row: Phase, pre_charge: Option<PreCharged>) -> Stage {
    Stage {
        row,
        dialect: Dialect::Iso,
        session: SessionId::of_token(TOKEN),
        told: 0,
        schedule: 50_000,
        pre_charge,
    }
}

/// A car that is ready, at an open contactor.
fn facts(isolation: Option<IsolationLevel>) -> Facts {
    Facts {
        pilot: PilotState::C,
        isolation,
        voltage: tenths(0),
        current: tenths(0),
        paid: false,
        stop: false,
        contactor: Standing::Opened,
        kept: None,
        joined: false,
        renew: false,
    }
}

fn request(ask: Ask) -> Request {
    Request {
        session: SessionId::of_token(TOKEN),
        ask,
    }
}

fn dc_status(isolation: Option<IsolationLevel>, code: StatusCode) -> DcStatus {
    DcStatus {
        notify: Notify::None,
        isolation,
        code,
    }
}

/// Where a post stands when it is asked.
#[derive(Clone, Copy)]
struct Scene {
    mode: Mode,
    free: bool,
    row: Phase,
    /// The voltage that a pre-charge to 400.0 V came to, in tenths.
    pre_charged: Option<u16>,
    isolation: Option<IsolationLevel>,
    paid: bool,
    renew: bool,
    /// Whether the request names its session, or none.
    named: bool,
}

/// A free post for DC.
const DC: Scene = Scene {
    mode: Mode::DcExtended,
    free: true,
    row: Phase::SetUp,
    pre_charged: None,
    isolation: None,
    paid: false,
    renew: false,
    named: true,
};

/// What is asked.
#[derive(Clone, Copy)]
enum Asked {
    Authorization,
    Stop { pause: bool },
    Delivery(Progress),
    CableCheck,
}

fn ask_from(asked: Asked) -> Ask {
    match asked {
        Asked::Authorization => Ask::Authorization,
        Asked::Stop { pause } => Ask::SessionStop { pause },
        Asked::Delivery(progress) => Ask::PowerDelivery {
            progress,
            tuple: Some(1),
            profile: None,
        },
        Asked::CableCheck => Ask::CableCheck {
            ready: true,
            soc: 20,
        },
    }
}

/// What is wanted of an answer, where no watts are shown, and the row behind it.
#[derive(Clone, Copy)]
enum Wanted {
    /// OK, without an order and a cause.
    Good(Phase),
    /// OK, and the contactor is to close, or to open.
    Closes(Phase),
    Opens(Phase),
    /// OK, with the cause by which the session ends.
    Ends(EndCause, Phase),
    /// FAILED, which ends the session.
    Fails(Code, Phase),
}

/// The code, the order, the cause and the row.
fn parts_of(wanted: Wanted) -> (Code, Option<Order>, Option<EndCause>, Phase) {
    match wanted {
        Wanted::Good(row) => (Code::Ok, None, None, row),
        Wanted::Closes(row) => (Code::Ok, Some(Order::Close), None, row),
        Wanted::Opens(row) => (Code::Ok, Some(Order::Open), None, row),
        Wanted::Ends(cause, row) => (Code::Ok, None, Some(cause), row),
        Wanted::Fails(code, row) => (code, None, Some(EndCause::FailedReply), row),
    }
}

/// What is told.
#[derive(Clone, Copy)]
enum Told {
    /// It doesn't matter.
    Any,
    Authorization(Processing),
    Delivery(Option<IsolationLevel>, StatusCode),
    CableCheck(StatusCode, Processing),
}

fn tell_of(told: Told) -> Option<Tell> {
    match told {
        Told::Any => None,
        Told::Authorization(processing) => Some(Tell::Authorization { processing }),
        Told::Delivery(isolation, code) => Some(Tell::PowerDelivery {
            status: PostStatus::Dc(dc_status(isolation, code)),
        }),
        Told::CableCheck(code, processing) => Some(Tell::CableCheck {
            status: dc_status(None, code),
            processing,
        }),
    }
}

/// Whether a request is answered so.
fn is_answered(
    plan: &PostPlan,
    stage: Stage,
    facts: &Facts,
    request: &Request,
    wanted: Wanted,
    told: Told,
) -> bool
    requires { IsPostPlan plan.now }
{
    let (code, order, cause, row) = parts_of(wanted);
    let judged = judge(&stage, facts, plan, request);
    let reply = reply_to(&stage, facts, plan, request, judged, 0);
    let is_told = match tell_of(told) {
        Some(tell) => reply.tell == tell,
        None => true,
    };
    is_told
        && reply.code == code
        && order_of(&stage, facts, plan, request, judged, 0) == order
        && word_cause(false, found_by(reply.code, &request.ask)) == cause
        && stage_behind(stage, facts, plan, request, judged, 0).row == row
}

/// A request, and how it is answered.
struct Answer(Scene, Asked, Wanted, Told);

/// What was pre-charged to 400.0 V.
fn pre_charge_of(voltage: Option<u16>) -> Option<PreCharged> {
    match Tenths::of(voltage?) {
        Some(voltage) => Some(PreCharged {
            target: 4000,
            voltage,
        }),
        None => None,
    }
}

impl Case for Answer {
    fn holds(&self, _: Global) -> bool {
        let scene = self.0;
        let facts = Facts {
            paid: scene.paid,
            renew: scene.renew,
            ..facts(scene.isolation)
        };
        let session = if scene.named {
            SessionId::of_token(TOKEN)
        } else {
            SessionId::zero()
        };
        let request = Request {
            session,
            ask: ask_from(self.1),
        };
        is_answered(
            &post(scene.mode, scene.free),
            stage(scene.row, pre_charge_of(scene.pre_charged)),
            &facts,
            &request,
            self.2,
            self.3,
        )
    }
}

/// A pre-charge to 400.0 V that came to this voltage, where the isolation is valid.
macro_rules! pre_charged {
    ($voltage:expr) => {
        Scene {
            row: Phase::DcPreCharging,
            pre_charged: Some($voltage),
            isolation: Some(IsolationLevel::Valid),
            ..DC
        }
    };
}

const ANSWERS: [Answer; 19] = [
    // the first request out of order, and the last one
    Answer(
        DC,
        Asked::Authorization,
        Wanted::Fails(Code::FailedSequenceError, Phase::SetUp),
        Told::Authorization(Processing::Finished),
    ),
    Answer(
        Scene { named: false, ..DC },
        Asked::Authorization,
        Wanted::Fails(Code::FailedUnknownSession, Phase::SetUp),
        Told::Any,
    ),
    Answer(
        DC,
        Asked::Stop { pause: false },
        Wanted::Ends(EndCause::Stopped, Phase::SetUp),
        Told::Any,
    ),
    Answer(
        Scene { named: false, ..DC },
        Asked::Stop { pause: false },
        Wanted::Fails(Code::FailedUnknownSession, Phase::SetUp),
        Told::Any,
    ),
    Answer(
        Scene {
            row: Phase::DcStopped,
            ..DC
        },
        Asked::Stop { pause: false },
        Wanted::Ends(EndCause::Stopped, Phase::DcStopped),
        Told::Any,
    ),
    Answer(
        Scene {
            row: Phase::DcStopped,
            named: false,
            ..DC
        },
        Asked::Stop { pause: false },
        Wanted::Fails(Code::FailedUnknownSession, Phase::DcStopped),
        Told::Any,
    ),
    // an authorization waits until somebody paid
    Answer(
        Scene {
            row: Phase::Selected,
            free: false,
            ..DC
        },
        Asked::Authorization,
        Wanted::Good(Phase::Selected),
        Told::Authorization(Processing::OngoingWaitingForCustomerInteraction),
    ),
    Answer(
        Scene {
            row: Phase::Selected,
            free: false,
            paid: true,
            ..DC
        },
        Asked::Authorization,
        Wanted::Good(Phase::Authorized),
        Told::Authorization(Processing::Finished),
    ),
    // a start before the cable check closes nothing
    Answer(
        Scene {
            row: Phase::DcReady,
            ..DC
        },
        Asked::Delivery(Progress::Start),
        Wanted::Fails(Code::FailedSequenceError, Phase::DcReady),
        Told::Delivery(None, StatusCode::EvseMalfunction),
    ),
    // a start closes where the pre-charge came within 20 volts
    Answer(
        pre_charged!(3800),
        Asked::Delivery(Progress::Start),
        Wanted::Closes(Phase::DcClosing),
        Told::Any,
    ),
    Answer(
        pre_charged!(3790),
        Asked::Delivery(Progress::Start),
        Wanted::Fails(Code::FailedPowerDeliveryNotApplied, Phase::DcPreCharging),
        Told::Any,
    ),
    Answer(
        pre_charged!(4200),
        Asked::Delivery(Progress::Start),
        Wanted::Closes(Phase::DcClosing),
        Told::Any,
    ),
    Answer(
        pre_charged!(4201),
        Asked::Delivery(Progress::Start),
        Wanted::Fails(Code::FailedPowerDeliveryNotApplied, Phase::DcPreCharging),
        Told::Any,
    ),
    // a cable check waits for the isolation, and fails by a fault
    Answer(
        Scene {
            row: Phase::DcReady,
            ..DC
        },
        Asked::CableCheck,
        Wanted::Good(Phase::DcReady),
        Told::CableCheck(
            StatusCode::EvseIsolationMonitoringActive,
            Processing::Ongoing,
        ),
    ),
    Answer(
        Scene {
            row: Phase::DcReady,
            isolation: Some(IsolationLevel::Fault),
            ..DC
        },
        Asked::CableCheck,
        Wanted::Fails(Code::Failed, Phase::DcReady),
        Told::Any,
    ),
    // three phases
    Answer(
        Scene {
            mode: Mode::AcThreePhaseCore,
            row: Phase::AcReady,
            ..DC
        },
        Asked::Delivery(Progress::Start),
        Wanted::Closes(Phase::AcClosing),
        Told::Any,
    ),
    // a pause, and one that is too early
    Answer(
        Scene {
            row: Phase::DcStopped,
            ..DC
        },
        Asked::Stop { pause: true },
        Wanted::Ends(EndCause::Paused, Phase::DcStopped),
        Told::Any,
    ),
    Answer(
        Scene {
            row: Phase::DcCharging,
            ..DC
        },
        Asked::Stop { pause: true },
        Wanted::Fails(Code::Failed, Phase::DcCharging),
        Told::Any,
    ),
    // a renegotiation opens and goes back to the parameters
    Answer(
        Scene {
            row: Phase::DcCharging,
            isolation: Some(IsolationLevel::Valid),
            renew: true,
            ..DC
        },
        Asked::Delivery(Progress::Renegotiate),
        Wanted::Opens(Phase::Authorized),
        Told::Delivery(Some(IsolationLevel::Valid), StatusCode::EvseNotReady),
    ),
];

/// Behind a renegotiation none is wanted any more, and a start is too early.
fn is_renewed() -> bool {
    let plan = post(Mode::DcExtended, true);
    let renewing = Facts {
        renew: true,
        ..facts(Some(IsolationLevel::Valid))
    };
    let charging = stage(Phase::DcCharging, None);
    let renegotiate = request(ask_from(Asked::Delivery(Progress::Renegotiate)));
    let judged = judge(&charging, &renewing, &plan, &renegotiate);
    let renewed = facts_behind(renewing, &charging, &plan, &renegotiate, judged);
    !renewed.renew
        && is_answered(
            &plan,
            stage(Phase::Authorized, None),
            &renewed,
            &request(ask_from(Asked::Delivery(Progress::Start))),
            Wanted::Fails(Code::FailedSequenceError, Phase::Authorized),
            Told::Any,
        )
}

/// What a charger tells.
#[derive(Clone, Copy)]
enum Happened {
    /// 230.0 V and this current, in tenths of an ampere.
    Measured(u16),
    Isolation(IsolationLevel),
    Pilot(PilotState),
    Emergency,
    Opened,
}

fn event_of(happened: Happened) -> PlantEvent {
    match happened {
        Happened::Measured(current) => PlantEvent::Measured {
            voltage: tenths(2300),
            current: tenths(current.min(30000)),
        },
        Happened::Isolation(level) => PlantEvent::Isolation(level),
        Happened::Pilot(state) => PlantEvent::Pilot(state),
        Happened::Emergency => PlantEvent::Emergency,
        Happened::Opened => PlantEvent::Feedback { closed: false },
    }
}

/// An event, and by which causes it ends a session that charges, and one whose isolation was checked.
struct Ending(Happened, Option<EndCause>, Option<EndCause>);

/// A charging session of three phases that may take 22,080 W.
const CHARGING: Watch = Watch {
    row: Phase::AcCharging,
    standing: Standing::Closed,
    live: true,
    phases: 3,
    allowed: 22080,
};

/// A session whose isolation was checked, and whose contactor is open.
const CHECKED: Watch = Watch {
    row: Phase::DcChecked,
    standing: Standing::Opened,
    live: false,
    phases: 1,
    allowed: 22080,
};

impl Case for Ending {
    fn holds(&self, _: Global) -> bool {
        let event = event_of(self.0);
        plant_cause(&CHARGING, &event) == self.1 && plant_cause(&CHECKED, &event) == self.2
    }
}

const ENDINGS: [Ending; 6] = [
    Ending(Happened::Measured(336), None, None),
    Ending(Happened::Measured(337), Some(EndCause::OverPower), None),
    Ending(
        Happened::Isolation(IsolationLevel::Invalid),
        None,
        Some(EndCause::IsolationLost),
    ),
    Ending(
        Happened::Pilot(PilotState::B),
        Some(EndCause::PilotLost),
        None,
    ),
    Ending(
        Happened::Emergency,
        Some(EndCause::Emergency),
        Some(EndCause::Emergency),
    ),
    Ending(Happened::Opened, Some(EndCause::FeedbackWrong), None),
];

/// What a session waits for, and what ends it beside the charger.
fn waits_and_ends() -> bool {
    word_cause(true, Found::Accepted) == Some(EndCause::Impatient)
        && is_waiting(Phase::DcClosing)
        && !is_waiting(Phase::DcCharging)
        && timeout_of(Phase::DcClosing) == Timeout::Feedback
        && break_cause(Break::Due(Timeout::Feedback)) == EndCause::FeedbackTimeout
        && break_cause(Break::OrderFailed) == EndCause::OrderFailed
}

/// Three phases at 32 amperes are asked for, closed and charged with.
fn charges_by_three_phases() -> bool {
    let plan = post(Mode::AcThreePhaseCore, true);
    let car = CarLimits::Ac {
        most_current: amount(320),
        least_current: amount(60),
        most_voltage: amount(4000),
    };
    let confirmed = stage(Phase::AcClosing, None).confirmed();
    let closed = Tell::PowerDelivery {
        status: PostStatus::Ac {
            notify: Notify::None,
        },
    };
    ask_of(&plan, &car) == 22080
        && confirmed.row == Phase::AcCharging
        && waiting_reply(&confirmed, &facts(None), &plan).tell == closed
        && shows_the_current(&plan, &confirmed)
}

/// A charging status orders and tells 32 amperes.
fn shows_the_current(plan: &PostPlan, charging: &Stage) -> bool
    requires { IsPostPlan plan.now }
{
    let facts = facts(None);
    let status = request(Ask::ChargingStatus);
    let limits = Order::Limits {
        voltage: tenths(2300),
        current: tenths(320),
        watts: 22080,
    };
    let told = Tell::ChargingStatus {
        notify: Notify::None,
        evse: EvseId::Text(plan.evse_id.copied()),
        current: Some(amount(320)),
    };
    let judged = judge(charging, &facts, plan, &status);
    order_of(charging, &facts, plan, &status, judged, 22080) == Some(limits)
        && reply_to(charging, &facts, plan, &status, judged, 22080).tell == told
}

/// A car that comes back joins the session that was kept, and a new one otherwise.
fn joins(is_kept: bool, code: Code, token: u64) -> bool {
    let plan = post(Mode::DcExtended, true);
    let setup = request(Ask::SessionSetup {
        car: ArrayVec::new(),
    });
    let facts = Facts {
        kept: is_kept.then_some(SessionId::of_token(TOKEN)),
        ..facts(None)
    };
    let begun = Stage::new(7).negotiated(Dialect::Iso);
    let judged = judge(&begun, &facts, &plan, &setup);
    let reply = reply_to(&begun, &facts, &plan, &setup, judged, 0);
    let behind = facts_behind(facts, &begun, &plan, &setup, judged);
    reply.code == code
        && reply.session == SessionId::of_token(token)
        && behind.joined == is_kept
        && behind.kept.is_none()
}

/// A demand of too much is cut, and hears of a renegotiation and of a stop.
fn is_cut(stop: bool, notify: Notify, code: StatusCode) -> bool {
    let plan = post(Mode::DcExtended, true);
    let demand = request(Ask::CurrentDemand {
        ready: true,
        soc: 40,
        voltage: amount(4000),
        current: amount(1251),
    });
    let asking = Facts {
        renew: true,
        stop,
        ..facts(Some(IsolationLevel::Valid))
    };
    let charging = stage(Phase::DcCharging, None);
    let told = Tell::CurrentDemand {
        status: DcStatus {
            notify,
            isolation: Some(IsolationLevel::Valid),
            code,
        },
        voltage: amount(0),
        current: amount(0),
        current_cut: true,
        voltage_cut: false,
        watts_cut: true,
        most_voltage: Some(amount(9200)),
        most_current: Some(amount(1250)),
        most_watts: Some(amount(50_000)),
        evse: Some(EvseId::Text(plan.evse_id.copied())),
    };
    let limits = Order::Limits {
        voltage: tenths(4000),
        current: tenths(1250),
        watts: 50_000,
    };
    let judged = judge(&charging, &asking, &plan, &demand);
    reply_to(&charging, &asking, &plan, &demand, judged, 50_000).tell == told
        && order_of(&charging, &asking, &plan, &demand, judged, 50_000) == Some(limits)
        && stage_behind(charging, &asking, &plan, &demand, judged, 50_000).told == 50_000
}

/// The one tuple of a schedule, where these watts are any.
fn schedule(watts: u32) -> Option<ArrayVec<Tuple, 3>> {
    let mut tuples = ArrayVec::new();
    tuples.push(Tuple {
        id: 1,
        entries: 1,
        least: amount(watts),
    });
    (watts > 0).then_some(tuples)
}

/// The parameters of a car that asks for 40 kW.
const CAR: CarLimits = CarLimits::Dc {
    ready: false,
    soc: 20,
    current: Amount {
        size: 1250,
        right: true,
    },
    watts: Some(Amount {
        size: 40_000,
        right: true,
    }),
    voltage: Amount {
        size: 4000,
        right: true,
    },
};

/// Parameters are shown these watts, and wait without any.
fn is_shown(shown: u32, row: Phase, processing: Processing) -> bool {
    let plan = post(Mode::DcExtended, true);
    let ask = request(Ask::ChargeParameters {
        mode: Mode::DcExtended,
        limits: CAR,
    });
    let told = Tell::ChargeParameters {
        processing,
        schedule: schedule(shown),
        limits: PostLimits::Dc {
            status: dc_status(None, StatusCode::EvseReady),
            current: amount(1250),
            watts: Some(amount(shown)),
            voltage: amount(9200),
            least_current: amount(0),
            least_voltage: amount(1500),
            ripple: amount(10),
        },
    };
    let facts = facts(None);
    let authorized = stage(Phase::Authorized, None);
    let judged = judge(&authorized, &facts, &plan, &ask);
    if asks(&plan, &ask.ask) != Some(40_000)
        || reply_to(&authorized, &facts, &plan, &ask, judged, shown).tell != told
    {
        return false;
    }
    let behind = stage_behind(authorized, &facts, &plan, &ask, judged, shown);
    behind.row == row && behind.told == shown
}

/// Less watts are allowed at once, and at most 5 seconds later.
fn is_lowered(now: u64, allowed: u32) -> bool {
    allowed_watts(10_000, lowered_by(40_000, None, 500, 10_000), now) == allowed
}

#[test]
fn requests_are_answered_and_events_end_sessions(rt: HostRuntime) {
    all_hold(&rt, rt.alloc(), &ANSWERS);
    all_hold(&rt, rt.alloc(), &ENDINGS);
    assert!(rt; is_renewed());
    assert!(rt; waits_and_ends());
    assert!(rt; charges_by_three_phases());
}

#[test]
fn sessions_are_joined_and_watts_are_shown(rt: HostRuntime) {
    assert!(rt; joins(true, Code::OkOldSessionJoined, TOKEN));
    assert!(rt; joins(false, Code::OkNewSessionEstablished, 7));
    assert!(rt; is_cut(false, Notify::ReNegotiation, StatusCode::EvseReady));
    assert!(rt; is_cut(true, Notify::StopCharging, StatusCode::EvseShutdown));
    assert!(rt; is_shown(40_000, Phase::DcReady, Processing::Finished));
    assert!(rt; is_shown(0, Phase::Authorized, Processing::Ongoing));
    assert!(rt; is_lowered(5_499, 40_000) && is_lowered(5_500, 10_000));
}
