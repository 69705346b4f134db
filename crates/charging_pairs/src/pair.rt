//! A car and its post, and their plans.

use charge_world::PortPair;
use std::alloc::{AllocError, Global};

/// How a car charges at its post.
#[derive(Clone, Copy)]
pub(crate) enum Charge {
    /// Direct current in ISO 15118-2.
    IsoDirect,
    /// Direct current in DIN SPEC 70121.
    DinDirect,
    /// Three phases of alternating current in ISO 15118-2: 11 kW, 16 A.
    IsoAlternating,
}

impl Charge {
    /// The lines on it that stand in the plans of both.
    fn lines(self) -> &'static str {
        match self {
            Charge::IsoDirect => "mode = \"DC_extended\"\ndialects = [\"iso\"]\n",
            Charge::DinDirect => "mode = \"DC_core\"\ndialects = [\"din\"]\n",
            Charge::IsoAlternating => {
                "mode = \"AC_three_phase_core\"\ndialects = [\"iso\"]\nmax_watts = 11000\nmax_current = 160\n"
            }
        }
    }
}

/// A car and its post, which find one another by discovery.
#[derive(Clone, Copy)]
pub(crate) struct Pair {
    pub(crate) charge: Charge,
    pub(crate) ports: PortPair,
}

impl Pair {
    /// The plan of the car: so many charging replies, one each 100 ms.
    pub(crate) fn car_plan(&self, alloc: Global, cycles: u32) -> Result<String, AllocError> {
        let sdp = self.ports.sdp;
        let lines = self.charge.lines();
        format!(in alloc; "sdp = {sdp}\ncycles = {cycles}\n{lines}")
    }

    /// The table of the post.
    fn post_table(&self, alloc: Global) -> Result<String, AllocError> {
        let PortPair { tcp, sdp } = self.ports;
        let lines = self.charge.lines();
        format!(in alloc; "[[post]]\ntcp = {tcp}\nsdp = {sdp}\n{lines}")
    }
}

/// The plan of the station whose posts these are, each for one connection.
pub(crate) fn station_plan(alloc: Global, pairs: &[Pair]) -> Result<String, AllocError> {
    let sessions = pairs.len();
    let mut plan = format!(in alloc; "sessions = {sessions}\n")?;
    for pair in pairs {
        let table = pair.post_table(alloc)?;
        plan.push_str(table.as_str())?;
    }
    Ok(plan)
}
