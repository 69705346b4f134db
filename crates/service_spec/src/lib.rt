//! Value-added services (ISO 15118-2:2014, 8.4.3.3.3, 8.5.2.20 to 8.5.2.22): the sets of parameters in which a service is offered, and which of
//! them a car picks that wants some parameters (own).
//!
//! `specs/Services.antt` says which set is picked, and `specs/Wants.antt` how what is wanted is written. It takes no memory.
//!
//! Proved: `want_of` reads exactly the pairs that a word spells (`IsWant`), and is `BadWant` exactly where there are none; `pick` gives the first set in
//! which each pair is met (`IsPicked`), or there is none (`PicksNone`); `one_want`, `one_choice`: a word spells one want, and one set is picked or none.
#![tactic(auto)]

mod laws;
mod numbers;
mod picking;
mod values;
mod wants;

use arrayvec::ArrayVec;
pub use laws::{one_choice, one_want};
pub use picking::{meets, pick};
pub use values::{has_name_form, has_text_form, is_name, is_text, length_of};
pub use wants::want_of;

/// The most parameters of a set, and the most pairs of a want (ISO 15118-2:2014, 8.5.2.22).
pub const PARAMETERS: usize = 16;

/// The most sets of a service (ISO 15118-2:2014, 8.5.2.21).
pub const SETS: usize = 16;

/// The value of a parameter.
#[derive(Clone, Copy)]
pub enum Value<'a> {
    Truth(bool),
    Number(i32),
    /// At most 64 characters, without `"` and `;`.
    Text(&'a str),
}

/// A parameter of a set, or a pair of what is wanted.
#[derive(Clone, Copy)]
pub struct Parameter<'a> {
    /// 1 to 64 letters, digits or `_`.
    pub name: &'a str,
    pub value: Value<'a>,
}

impl Default for Parameter<'_> {
    /// The parameter without a name.
    fn default() -> Self {
        Parameter {
            name: "",
            value: Value::Truth(false),
        }
    }
}

/// A set of parameters in which a service is offered.
#[derive(Drop, Default)]
pub struct ParameterSet<'a> {
    pub id: i16,
    /// 1 to 16.
    pub parameters: ArrayVec<Parameter<'a>, 16>,
}

/// A service of a catalogue.
#[derive(Drop, Default)]
pub struct Service<'a> {
    pub id: u16,
    /// At most 16.
    pub sets: ArrayVec<ParameterSet<'a>, 16>,
}

/// What a car wants of a service.
#[derive(Drop)]
pub struct Want<'a> {
    /// 1 to 16.
    pub pairs: ArrayVec<Parameter<'a>, 16>,
}

/// A word that spells nothing that may be wanted.
#[derive(Clone, Copy, Debug, PartialEq, Eq)]
pub struct BadWant;
