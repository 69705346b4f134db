//! The parts of a step.

ghost use Rattle.std.specs.Prelude.{◌≡◌, ◌≤◌, ◌∷◌, [], ◌++◌, if◌then◌else◌, fold};
ghost use Rattle.std.specs.Option.{option_to_list};
ghost use Rattle.arrayvec.specs.ArrayVec.{array_vec_len};
ghost use Rattle.pilot_basic.specs.Machine.{mode_at, mode_after, is_free, pilot_after, Acts, IsInRange, follows};
ghost use Rattle.pilot_basic.specs.Contactor.{told, driven};

use crate::duty::duty_of;
use crate::words::{BasicEvent, BasicOrder, Mode};
use arrayvec::ArrayVec;
use charge_world::PilotState;
use contactor::{CloseRight, Contactor, Standing, is_ready};

/// How long a pause lasts, in milliseconds (own).
const PAUSE: u64 = 3000;

/// The duty that asks for digital communication: 5 percent (IEC 61851-1, annex A).
const DIGITAL_DUTY: u16 = 50;

/// The duty of a post that offers nothing: a steady pilot.
const NO_DUTY: u16 = 1000;

/// The mode at a moment, where a pause may be over.
pub(crate) fn reached(mode: Mode, now: u64) -> Mode
    ensures { result ≡ mode_at mode now }
{
    match mode {
        Mode::Pause(since) if now.saturating_sub(since) >= PAUSE => Mode::Off,
        _ => mode,
    }
}

/// Whether basic and digital charging may begin.
fn free(mode: Mode) -> bool
    ensures { result ≡ is_free mode }
{
    matches!(mode, Mode::Off | Mode::Basic)
}

/// The mode that an event leads to.
pub(crate) fn next_mode(mode: Mode, event: &BasicEvent, now: u64) -> Mode
    ensures { result ≡ mode_after mode event.now now }
{
    match (event, mode) {
        (BasicEvent::Offer(_), Mode::Off | Mode::Basic) => Mode::Basic,
        (BasicEvent::GoDigital, Mode::Off | Mode::Basic) => Mode::Digital,
        (BasicEvent::DigitalEnded, Mode::Digital) => Mode::Pause(now),
        _ => mode,
    }
}

/// The pilot after an event.
pub(crate) fn next_pilot(pilot: PilotState, event: &BasicEvent) -> PilotState
    ensures { result ≡ pilot_after event.now pilot }
{
    match event {
        BasicEvent::Pilot(state) => *state,
        _ => pilot,
    }
}

/// What an event tells the contactor.
pub(crate) fn hear(contactor: &mut Contactor, event: &BasicEvent)
    ensures { contactor.new ≡ told contactor.old event.now }
{
    if let BasicEvent::Feedback { closed } = event {
        let _ = contactor.feedback(*closed);
    }
}

/// What an event itself leads to. Every order to the contactor counts as taken.
pub(crate) fn act(
    contactor: &mut Contactor,
    mode: Mode,
    event: &BasicEvent,
) -> ArrayVec<BasicOrder, 3>
    requires { IsInRange event.now }
    ensures acts { Acts mode contactor.old.live event.now result.items }
    ensures few { array_vec_len result ≤ 2 }
    ensures kept { contactor.new ≡ fold driven contactor.old result.items }
{
    match event {
        BasicEvent::Offer(amps) if free(mode) => one(BasicOrder::Duty(duty_of(*amps))),
        BasicEvent::GoDigital if free(mode) => go_digital(contactor),
        BasicEvent::DigitalEnded if matches!(mode, Mode::Digital) => one(BasicOrder::Duty(NO_DUTY)),
        _ => ArrayVec::new(),
    }
}

/// One order.
fn one(order: BasicOrder) -> ArrayVec<BasicOrder, 3>
    ensures { result.items ≡ order ∷ [] }
{
    let mut orders = ArrayVec::new();
    orders.push(order);
    orders
}

/// The orders before digital communication.
fn go_digital(contactor: &mut Contactor) -> ArrayVec<BasicOrder, 3>
    ensures orders { result.items ≡ (if contactor.old.live
        then BasicOrder.Open ∷ BasicOrder.Duty 50 ∷ [] else BasicOrder.Duty 50 ∷ []) }
    ensures kept { contactor.new ≡ fold driven contactor.old result.items }
{
    if contactor.live() {
        let _ = contactor.release();
        let mut orders = one(BasicOrder::Open);
        orders.push(BasicOrder::Duty(DIGITAL_DUTY));
        orders
    } else {
        one(BasicOrder::Duty(DIGITAL_DUTY))
    }
}

/// The order to the contactor after an event. It counts as taken.
pub(crate) fn follow(contactor: &mut Contactor, mode: Mode, pilot: PilotState) -> Option<BasicOrder>
    ensures order { option_to_list result ≡ follows mode pilot contactor.old.live contactor.old.standing }
    ensures kept { contactor.new ≡ fold driven contactor.old (option_to_list result) }
{
    if !matches!(mode, Mode::Basic) {
        return None;
    }
    if !is_ready(pilot) {
        return open_live(contactor);
    }
    if matches!(contactor.state(), Standing::Opened) {
        let _ = contactor.close(CloseRight::ac(pilot));
        return Some(BasicOrder::Close);
    }
    None
}

/// Opens the contactor where it is live.
fn open_live(contactor: &mut Contactor) -> Option<BasicOrder>
    ensures order { option_to_list result ≡ (if contactor.old.live then BasicOrder.Open ∷ [] else []) }
    ensures kept { contactor.new ≡ fold driven contactor.old (option_to_list result) }
{
    if contactor.live() {
        let _ = contactor.release();
        return Some(BasicOrder::Open);
    }
    None
}

/// Orders, and one more, if there is one.
pub(crate) fn with_order(
    mut orders: ArrayVec<BasicOrder, 3>,
    order: Option<BasicOrder>,
) -> ArrayVec<BasicOrder, 3>
    requires { array_vec_len orders ≤ 2 }
    ensures { result.items ≡ orders.items ++ option_to_list order }
{
    if let Some(order) = order {
        orders.push(order);
    }
    orders
}
