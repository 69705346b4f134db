//! What the two ends tell of themselves.

ghost use Rattle.std.specs.Prelude.{◌≡◌, ◌≤◌, ℕ, List, [], nat_eq};
ghost use Rattle.std.specs.Option.{SomeIff};
ghost use Rattle.std.specs.Cmp.{on_equiv, on_per, partial_equiv_from_equiv};
ghost use Rattle.std.specs.Cmp.Lexicographic.{pointwise, nat_list_eq_equiv};
ghost use Rattle.session_words.specs.EvseTexts.{begins_point, code_points, IsEvseText};

use crate::amount::Amount;
use crate::code::{Notify, StatusCode};
use arrayvec::{ArrayString, ArrayVec};
use charge_world::IsolationLevel;
use std::marker::Model;

/// How many code points a text has.
fn code_points_of(text: &str) -> usize
    ensures { result ≡ code_points text.now }
{
    text.as_bytes()
        .iter()
        .filter(|byte| starts_point(**byte))
        .count()
}

/// Whether a byte of UTF-8 begins a code point.
fn starts_point(byte: u8) -> bool
    ensures { result ≡ begins_point byte }
{
    byte < 128 || 192 <= byte
}

/// A text of at most 37 code points, and so of at most 148 bytes. Contracts see its bytes.
#[derive(Drop)]
pub struct EvseText {
    text: ArrayString<148>,
}

impl Model for EvseText {
    ghost use Rattle.std.specs.Prelude.{ℕ, List, ◌≤◌};
    ghost use Rattle.session_words.specs.EvseTexts.{code_points};

    ghost Value = { List ℕ };

    ghost view = { λ t. t.text.bytes };

    ghost invariant = { λ t. code_points t.text.bytes ≤ 37 };
}

impl EvseText {
    /// This text; `None` exactly where it has more than 37 code points, or more bytes than so many can have.
    pub fn of(text: &str) -> Option<EvseText>
        ensures { SomeIff result (IsEvseText text.now) text.now }
    {
        if text.len() > 148 || code_points_of(text) > 37 {
            return None;
        }
        let mut copy = ArrayString::new();
        copy.push_str(text);
        Some(EvseText { text: copy })
    }

    /// The text.
    pub fn as_str(&self) -> &str
        ensures value { result.now ≡ self.now }
        ensures bound { IsEvseText result.now }
    {
        self.text.as_str()
    }

    /// The same text once more.
    pub fn copied(&self) -> EvseText
        ensures { result ≡ self.now }
    {
        EvseText { text: self.text }
    }
}

impl Default for EvseText {
    ghost is_default = { λ text. text ≡ [] };

    /// The empty text.
    fn default() -> EvseText {
        EvseText {
            text: ArrayString::new(),
        }
    }
}

impl PartialEq for EvseText {
    ghost eq = { λ s t. pointwise nat_eq s t };

    ghost laws = { on_per (λ (s : List ℕ). s) (partial_equiv_from_equiv nat_list_eq_equiv) };

    fn eq(&self, other: &Self) -> bool {
        self.as_str() == other.as_str()
    }
}

impl Eq for EvseText {
    ghost laws = { on_equiv (λ (s : List ℕ). s) nat_list_eq_equiv };
}

/// The EVSEID of a post: a text in ISO 15118-2, bytes in DIN SPEC 70121.
#[derive(Drop, PartialEq, Eq)]
pub enum EvseId {
    /// At most 37 code points.
    Text(EvseText),
    Bytes(ArrayVec<u8, 32>),
}

impl EvseId {
    /// The same name once more.
    pub fn copied(&self) -> EvseId
        ensures { result ≡ self.now }
    {
        match self {
            EvseId::Text(text) => EvseId::Text(text.copied()),
            EvseId::Bytes(bytes) => EvseId::Bytes(ArrayVec::try_from(bytes.as_slice()).unwrap()),
        }
    }
}

/// What a car can take (EVChargeParameter). Voltages and currents are in tenths.
#[derive(Clone, Copy)]
pub enum CarLimits {
    Ac {
        most_current: Amount,
        least_current: Amount,
        most_voltage: Amount,
    },
    Dc {
        ready: bool,
        /// State of charge, 0 to 100 percent.
        soc: u8,
        /// The greatest current.
        current: Amount,
        /// The greatest power, where the car tells it.
        watts: Option<Amount>,
        /// The greatest voltage.
        voltage: Amount,
    },
}

/// One schedule of power that a post offers (SAScheduleTuple).
#[derive(Clone, Copy, Default, PartialEq, Eq)]
pub struct Tuple {
    pub id: i16,
    /// How many entries its schedule has.
    pub entries: u32,
    /// The least power of the entries, in watts, right where all their units are.
    pub least: Amount,
}

/// The status of a DC post (DC_EVSEStatus).
#[derive(Clone, Copy, PartialEq, Eq)]
pub struct DcStatus {
    pub notify: Notify,
    pub isolation: Option<IsolationLevel>,
    pub code: StatusCode,
}

/// The status of a post of either kind.
#[derive(Clone, Copy, PartialEq, Eq)]
pub enum PostStatus {
    Ac { notify: Notify },
    Dc(DcStatus),
}

/// What a post can give (EVSEChargeParameter). Currents are in tenths of an ampere.
#[derive(Clone, Copy, PartialEq, Eq)]
pub enum PostLimits {
    Ac {
        notify: Notify,
        /// The nominal voltage, in tenths of a volt.
        nominal: Amount,
        /// The greatest current.
        current: Amount,
    },
    Dc {
        status: DcStatus,
        /// The greatest current.
        current: Amount,
        /// The greatest power, which DIN may leave out.
        watts: Option<Amount>,
        /// The greatest voltage.
        voltage: Amount,
        least_current: Amount,
        least_voltage: Amount,
        /// The peak current ripple.
        ripple: Amount,
    },
}
