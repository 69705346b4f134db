//! Behind every block of a run a contactor that is closed is mandated to be, or couldn't be opened.
//!
//! Proved: `holds_as_mandated`: behind every block of every run, a contactor whose last taken order is Close is still mandated to be closed, by
//! a PowerDelivery Start that has its own Close, or an order to open that came after that Close failed; `ends_as_mandated`: so at the end of a
//! run, whole or cut, with its closing orders; where encoded replies read back.
#![tactic(auto)]

ghost use Rattle.post_spec.specs.Codecs.{codecs};
ghost use Rattle.mandated_runs.specs.Holding.{RunsHoldMandated, RunsEndMandated};

use post_spec::Coded;

/// Behind every block of every run, where the last order that a charger took is Close, the session of its post is still mandated to it, or
/// an order to open that came since has failed (ISO 15118-2:2014, 8.8.4; IEC 61851-23).
pub fn holds_as_mandated<C: Coded>()
    ensures { RunsHoldMandated (codecs C.negotiates C.reads C.encodes) }
{}

/// So it is at the end of every run, whole or cut, with the orders that close it.
pub fn ends_as_mandated<C: Coded>()
    ensures { RunsEndMandated (codecs C.negotiates C.reads C.encodes) }
{}
