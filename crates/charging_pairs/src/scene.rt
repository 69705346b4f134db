//! The scenes.

use crate::pair::Charge;

/// A station, with a post for each of these ways to charge and a car that comes there for so many charging replies, and what the cars and then
/// the station are to print.
#[derive(Clone, Copy)]
pub(crate) struct Scene {
    pub(crate) name: &'static str,
    pub(crate) charges: &'static [Charge],
    pub(crate) cycles: u32,
    pub(crate) printed: &'static str,
}

pub(crate) const SCENES: [Scene; 4] = [
    Scene {
        name: "direct current in ISO 15118-2",
        charges: &[Charge::IsoDirect],
        cycles: 200,
        printed: "cycles 200 cause 1, post 1 sessions 1 closed 1 causes 00000002, trace replayed to itself",
    },
    Scene {
        name: "direct current in DIN SPEC 70121",
        charges: &[Charge::DinDirect],
        cycles: 10,
        printed: "cycles 10 cause 1, post 1 sessions 1 closed 1 causes 00000002, trace replayed to itself",
    },
    Scene {
        name: "alternating current",
        charges: &[Charge::IsoAlternating],
        cycles: 10,
        printed: "cycles 10 cause 1, post 1 sessions 1 closed 1 causes 00000002, trace replayed to itself",
    },
    Scene {
        name: "two cars at once, the first in ISO 15118-2 and the second in DIN SPEC 70121",
        charges: &[Charge::IsoDirect, Charge::DinDirect],
        cycles: 200,
        printed: "cycles 200 cause 1, cycles 200 cause 1, post 1 sessions 1 closed 1 causes 00000002, \
post 2 sessions 1 closed 1 causes 00000002, trace replayed to itself",
    },
];
