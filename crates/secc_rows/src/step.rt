//! What a request leads to.

ghost use Rattle.std.specs.Prelude.{◌≡◌, true, Some, if◌then◌else◌};
ghost use Rattle.charge_world.specs.declared.ports.Order.TheVariants as order;
ghost use Rattle.session_words.specs.Plans.{IsPostPlan};
ghost use Rattle.contactor.specs.Rights.{is_ready, is_safe};
ghost use Rattle.session_rules.specs.Causes.{needs_isolation};
ghost use Rattle.session_rules.specs.Finishing.{is_valid};
ghost use Rattle.session_rules.specs.Moves.{moved, stage_behind, facts_behind};
ghost use Rattle.session_rules.specs.Orders.{granted_order, order_of};
ghost use Rattle.session_rules.specs.Verdict.{verdict, is_accepted as accepts_code};
ghost use Rattle.secc_rows.specs.Ends.{end_of, reply_at_once};
ghost use Rattle.secc_rows.specs.Leading.{IsAccepted, ClosesRightly, right_of};

use crate::carried::Accepted;
use crate::row::Row;
use charge_world::Order;
use contactor::{CloseRight, Contactor};
use session_rules::{
    facts_behind, found_by, is_accepted, is_waiting, judge, order_of, reply_to, word_cause,
};
use session_words::{EndCause, Facts, PostPlan, Reply, Request};

/// What a request leads to, judged once.
#[derive(Drop)]
pub struct Ruled {
    /// The row behind it: the same one where it isn't accepted, or ends the session.
    pub row: Row,
    /// The facts behind it.
    pub facts: Facts,
    /// Whether it is accepted.
    pub accepted: bool,
    /// The order that goes before its reply.
    pub order: Option<Order>,
    /// Its reply; none where it waits for the contactor.
    pub reply: Option<Reply>,
    /// The cause by which the session ends behind it.
    pub end: Option<EndCause>,
}

/// The order to close, for which a right is spent.
fn close(right: CloseRight) -> Order
    ensures order { result ≡ order.Close }
    ensures pilot { is_ready right.pilot ≡ true }
    ensures check { is_safe right.check ≡ true }
{
    Contactor::new().close(right)
}

impl Row {
    /// The row behind an accepted request that gives this order. Close is ordered by spending the right to it.
    fn onward(self, by: Accepted<'_>, given: Option<Order>) -> (Row, Option<Order>)
        requires accepted { IsAccepted self by }
        requires isolation { needs_isolation self.row ≡ true → is_valid by.facts.now.isolation ≡ true }
        requires given { given ≡ granted_order by.plan.now self.told by.shown by.request.now.ask }
        ensures row { result.0 ≡ moved self by.entry.facts.now by.entry.plan.now by.entry.request.now by.entry.shown }
        ensures order { result.1 ≡ given }
        ensures right { result.1 ≡ Some order.Close → ClosesRightly (right_of self by.entry.facts.now) }
    {
        let (kind, right) = self.kind.step(by);
        let order = match right {
            Some(right) => Some(close(right)),
            None => given,
        };
        (Row { kind }, order)
    }

    /// What a request leads to, where these watts are shown. The isolation has to be valid in the rows that need it.
    pub fn step(self, request: &Request, facts: Facts, plan: &PostPlan, shown: u32) -> Ruled
        requires plan { IsPostPlan plan.now }
        requires isolation { needs_isolation self.row ≡ true → is_valid facts.isolation ≡ true }
        ensures row { result.row ≡ stage_behind self facts plan.now request.now shown }
        ensures facts { result.facts ≡ facts_behind self facts plan.now request.now }
        ensures accepted { result.accepted ≡ accepts_code (verdict self facts plan.now request.now) }
        ensures order { result.order ≡ order_of self facts plan.now request.now shown }
        // Close is ordered by a right alone, under the conditions of its row.
        ensures right { result.order ≡ Some order.Close → ClosesRightly (right_of self facts) }
        ensures reply { result.reply ≡ reply_at_once self facts plan.now request.now shown }
        ensures end { result.end ≡ end_of self facts plan.now request.now }
    {
        let stage = self.stage();
        let code = judge(&stage, &facts, plan, request);
        let accepted = is_accepted(code);
        let given = order_of(&stage, &facts, plan, request, code, shown);
        let reply = reply_to(&stage, &facts, plan, request, code, shown);
        let (row, order) = if accepted {
            let by = Accepted {
                request,
                facts: &facts,
                plan,
                shown,
            };
            self.onward(by, given)
        } else {
            (self, None)
        };
        let waits = is_waiting(row.place().row);
        Ruled {
            row,
            facts: facts_behind(facts, &stage, plan, request, code),
            accepted,
            order,
            reply: if waits { None } else { Some(reply) },
            end: word_cause(false, found_by(code, &request.ask)),
        }
    }
}
