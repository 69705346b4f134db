use crate::cases::{Case, all_hold};
use arrayvec::ArrayVec;
use session_words::{
    Amount, Code, EndCause, EvseId, EvseText, Mode, OfferedMode, PostPlan, SessionId, Timeout,
    ac_current, ac_watts, dc_watts, written_watts,
};
use std::alloc::Global;

/// A multiplier and a value, and what they are in tenths and in watts, rounded towards zero.
struct Physical(i8, i16, u32, u32);

/// Watts, and the least multiplier with the value by which they are written.
struct Watts(u32, u8, u16);

/// A text, and whether it is one of a post.
struct Name(&'static str, bool);

impl Case for Physical {
    fn holds(&self, _: Global) -> bool {
        -3 <= self.0
            && self.0 <= 3
            && Amount::in_tenths(self.0, self.1, true).size == self.2
            && Amount::in_units(self.0, self.1, true).size == self.3
    }
}

impl Case for Watts {
    fn holds(&self, _: Global) -> bool {
        if self.0 > 8_000_000 {
            return false;
        }
        let written = written_watts(self.0);
        written.multiplier == self.1 && written.value == self.2
    }
}

impl Case for Name {
    fn holds(&self, _: Global) -> bool {
        match EvseText::of(self.0) {
            Some(text) => self.1 && text.copied().as_str() == self.0,
            None => !self.1,
        }
    }
}

const PHYSICAL: [Physical; 6] = [
    Physical(-3, 32767, 327, 32),
    Physical(-2, 199, 19, 1),
    Physical(-1, 320, 320, 32),
    Physical(0, 230, 2300, 230),
    Physical(3, 22, 220000, 22000),
    Physical(3, -1, 0, 0),
];

const WATTS: [Watts; 5] = [
    Watts(32767, 0, 32767),
    Watts(32768, 1, 3276),
    Watts(50000, 1, 5000),
    Watts(1_000_000, 2, 10000),
    Watts(8_000_000, 3, 8000),
];

const NAMES: [Name; 3] = [
    Name("ZZ00000", true),
    Name("äöüäöüäöüäöüäöüäöüäöüäöüäöüäöüäöüäöüß", true),
    Name("ZZ00000000000000000000000000000000000000", false),
];

/// Watts of 32 amperes on three phases, and back.
fn watts_of_phases() -> bool {
    ac_watts(320, 230, Mode::AcThreePhaseCore.phases()) == 22080
        && ac_current(22080, 230, 3).get() == 320
        && dc_watts(4999, 1) == 49
}

/// A session is named by its token, and zero counts as one.
fn tokens_name_sessions() -> bool {
    let named = SessionId::of_token(0x0102_0304_0506_0708);
    let zero = SessionId::of_token(0);
    named.bytes.as_slice() == [1, 2, 3, 4, 5, 6, 7, 8].as_slice()
        && zero.bytes.as_slice() == [0, 0, 0, 0, 0, 0, 0, 1].as_slice()
        && !zero.same(&SessionId::zero())
        && named.copied().same(&named)
}

fn causes_and_codes() -> bool {
    EndCause::Paused.number() == 29
        && EndCause::from(Timeout::Feedback).number() == 9
        && Code::OkOldSessionJoined.is_ok()
        && !Code::FailedSequenceError.is_ok()
        && Mode::DcComboCore.can_speak_din()
        && !Mode::DcUnique.can_speak_din()
        && Mode::AcSinglePhaseCore.is_ac()
        && OfferedMode::from(Mode::DcCore) == OfferedMode::DcCore
}

/// The name of a post is copied, and a plan has a default.
fn copies_and_defaults() -> bool {
    let named = EvseId::Bytes(ArrayVec::from([7; 32]));
    named.copied() == named && PostPlan::default().tcp == 0
}

#[test]
fn amounts_names_causes_and_codes(rt: HostRuntime) {
    all_hold(&rt, rt.alloc(), &PHYSICAL);
    all_hold(&rt, rt.alloc(), &WATTS);
    all_hold(&rt, rt.alloc(), &NAMES);
    assert!(rt; watts_of_phases());
    assert!(rt; tokens_name_sessions());
    assert!(rt; causes_and_codes());
    assert!(rt; copies_and_defaults());
}
