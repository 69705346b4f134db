//! The types of the rows, as one.

ghost use Rattle.std.specs.Prelude.{◌≡◌, true, IfSome, is_some};
ghost use Rattle.session_rules.specs.Causes.{needs_isolation};
ghost use Rattle.session_rules.specs.Finishing.{is_valid};
ghost use Rattle.secc_rows.specs.Rows.{carried_stage, stage_in};
ghost use Rattle.secc_rows.specs.Leading.{IsAccepted, LeadsTo, right_of};

use crate::ac::{AcCharging, AcClosing, AcReady, AcStopped};
use crate::carried::{Accepted, Carried};
use crate::dc::{DcCharging, DcChecked, DcClosing, DcPreCharging, DcReady, DcStopped};
use crate::setup::{Authorized, Connected, Discovered, Negotiated, Selected, SetUp};
use contactor::CloseRight;
use session_words::Phase;

/// A row by its type.
#[derive(Drop)]
pub(crate) enum Kind {
    Connected(Connected),
    Negotiated(Negotiated),
    SetUp(SetUp),
    Discovered(Discovered),
    Selected(Selected),
    Authorized(Authorized),
    DcReady(DcReady),
    DcChecked(DcChecked),
    DcPreCharging(DcPreCharging),
    DcClosing(DcClosing),
    DcCharging(DcCharging),
    DcStopped(DcStopped),
    AcReady(AcReady),
    AcClosing(AcClosing),
    AcCharging(AcCharging),
    AcStopped(AcStopped),
}

impl Kind {
    /// The row, and what the session takes along.
    pub(crate) fn parts(&self) -> (Phase, &Carried)
        ensures { carried_stage result.0 result.1.now ≡ stage_in self.now }
    {
        match self {
            Kind::Connected(row) => (Phase::Connected, &row.carried),
            Kind::Negotiated(row) => (Phase::Negotiated, &row.carried),
            Kind::SetUp(row) => (Phase::SetUp, &row.carried),
            Kind::Discovered(row) => (Phase::Discovered, &row.carried),
            Kind::Selected(row) => (Phase::Selected, &row.carried),
            Kind::Authorized(row) => (Phase::Authorized, &row.carried),
            Kind::DcReady(row) => (Phase::DcReady, &row.carried),
            Kind::DcChecked(row) => (Phase::DcChecked, &row.carried),
            Kind::DcPreCharging(row) => (Phase::DcPreCharging, &row.carried),
            Kind::DcClosing(row) => (Phase::DcClosing, &row.carried),
            Kind::DcCharging(row) => (Phase::DcCharging, &row.carried),
            Kind::DcStopped(row) => (Phase::DcStopped, &row.carried),
            Kind::AcReady(row) => (Phase::AcReady, &row.carried),
            Kind::AcClosing(row) => (Phase::AcClosing, &row.carried),
            Kind::AcCharging(row) => (Phase::AcCharging, &row.carried),
            Kind::AcStopped(row) => (Phase::AcStopped, &row.carried),
        }
    }

    /// The row behind an accepted request, with the right to close where its order is that. The rows that take no request accept none.
    #[tactic(auto, using(crate::proofs::Rows::led_nowhere))]
    pub(crate) fn step(self, by: Accepted<'_>) -> (Kind, Option<CloseRight>)
        requires accepted { IsAccepted (stage_in self) by }
        requires isolation { needs_isolation (stage_in self).row ≡ true → is_valid by.facts.now.isolation ≡ true }
        ensures leads { LeadsTo (stage_in self) by.entry result.0 (is_some result.1) }
        ensures right { IfSome result.1 (λ right. right ≡ right_of (stage_in self) by.entry.facts.now) }
    {
        match self {
            Kind::Connected(row) => (Kind::Connected(row), None),
            Kind::Negotiated(row) => (row.step(by), None),
            Kind::SetUp(row) => (row.step(by), None),
            Kind::Discovered(row) => (row.step(by), None),
            Kind::Selected(row) => (row.step(by), None),
            Kind::Authorized(row) => (row.step(by), None),
            Kind::DcReady(row) => (row.step(by), None),
            Kind::DcChecked(row) => (row.step(by), None),
            Kind::DcPreCharging(row) => row.step(by),
            Kind::DcClosing(row) => (Kind::DcClosing(row), None),
            Kind::DcCharging(row) => (row.step(by), None),
            Kind::DcStopped(row) => (row.step(by), None),
            Kind::AcReady(row) => row.step(by),
            Kind::AcClosing(row) => (Kind::AcClosing(row), None),
            Kind::AcCharging(row) => (row.step(by), None),
            Kind::AcStopped(row) => (row.step(by), None),
        }
    }
}
