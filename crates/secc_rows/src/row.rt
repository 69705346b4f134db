//! The row of a session.

ghost use Rattle.std.specs.Prelude.{◌≡◌};
ghost use Rattle.session_words.specs.declared.phase.Phase.TheVariants as row;
ghost use Rattle.session_rules.specs.Reply.{waiting_reply as reply_that_waited};
ghost use Rattle.session_rules.specs.Stages.{first_stage, negotiated, confirmed};
ghost use Rattle.secc_rows.specs.Rows.{place_of};

use crate::carried::{Carried, Place};
use crate::kind::Kind;
use crate::setup::Connected;
use charge_world::Dialect;
use session_rules::{Stage, is_waiting, waiting_reply};
use session_words::{Facts, PostPlan, Reply};
use std::marker::Model;

/// The row of a session, with what the session keeps there. Contracts see the stage of the session.
#[derive(Drop)]
pub struct Row {
    pub(crate) kind: Kind,
}

impl Model for Row {
    ghost use Rattle.session_rules.specs.declared.stage.Stage.{Stage};
    ghost use Rattle.secc_rows.specs.Rows.{stage_in};

    ghost Value = { Stage };

    ghost view = { λ r. stage_in r.kind };
}

impl Row {
    /// The row of a connection that came with this token.
    pub fn new(token: u64) -> Row
        ensures { result ≡ first_stage token }
    {
        Row {
            kind: Kind::Connected(Connected {
                carried: Carried::of(Stage::new(token)),
            }),
        }
    }

    /// Where the session is.
    pub fn place(&self) -> Place
        ensures { result ≡ place_of self.now }
    {
        let (row, carried) = self.kind.parts();
        Place {
            row,
            dialect: carried.dialect,
            told: carried.told,
        }
    }

    /// The stage of the session.
    pub fn stage(&self) -> Stage
        ensures { result ≡ self.now }
    {
        let (row, carried) = self.kind.parts();
        carried.stage(row)
    }

    /// The reply to PowerDelivery that waited, with the facts of the moment in which the feedback confirmed the order.
    pub fn waiting_reply(&self, facts: &Facts, plan: &PostPlan) -> Reply
        ensures { result ≡ reply_that_waited self.now facts.now plan.now }
    {
        waiting_reply(&self.stage(), facts, plan)
    }

    /// The row behind a negotiation that chose this dialect. It comes first.
    pub fn negotiated(self, dialect: Dialect) -> Row
        requires { self.row ≡ row.Connected }
        ensures { result ≡ negotiated self dialect }
    {
        match self.kind {
            Kind::Connected(row) => Row {
                kind: Kind::Negotiated(row.negotiated(dialect)),
            },
            kind => Row { kind },
        }
    }

    /// The row behind a reply: that which waited leads on, behind any other the row stays.
    pub fn confirmed(self) -> Row
        ensures { result ≡ confirmed self }
    {
        if !is_waiting(self.place().row) {
            return self;
        }
        let kind = match self.kind {
            Kind::DcClosing(row) => Kind::DcCharging(row.confirmed()),
            Kind::AcClosing(row) => Kind::AcCharging(row.confirmed()),
            kind => kind,
        };
        Row { kind }
    }
}
