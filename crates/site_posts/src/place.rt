//! A post of a site, with its plan and what it counted.

ghost use Rattle.std.specs.Prelude.{◌≡◌, ◌<◌, ◌+◌, ◌&&◌, if◌then◌else◌, ℕ, IfOk, List, true};
ghost use Rattle.station_spec.specs.Report.{is_close};
ghost use Rattle.post_spec.specs.Steps.{Give, Send, Answer, End};
ghost use Rattle.station_spec.specs.Runs.{unheard};
ghost use Rattle.session_words.specs.Causes.{number_of};
ghost use Rattle.session_words.specs.Plans.{IsPostPlan};
ghost use Rattle.site_codec.specs.Replies.{IsPlan};
ghost use Rattle.site_posts.specs.Places.{capped, done_place, place_of};

use crate::causes::CauseSet;
use crate::report::PostReport;
use bitflags::Flags;
use charge_world::{NoMemory, Order};
use session_words::{EndCause, PostPlan};
use site_codec::secc_machine::{Done, Post};
use std::alloc::Global;

/// A post of a site.
#[derive(Drop)]
pub struct Place {
    pub plan: PostPlan,
    pub post: Post,
    pub report: PostReport,
}

/// The amounts of a plan are within their types. It does nothing: each is looked at for the prover, which so knows its bound.
fn bound_plan(plan: &PostPlan)
    requires { IsPostPlan plan.now }
    ensures { IsPlan plan.now }
{
    let _max_voltage = plan.max_voltage.get();
    let _min_voltage = plan.min_voltage.get();
    let _max_current = plan.max_current.get();
    let _min_current = plan.min_current.get();
    let _ripple = plan.ripple.get();
}

impl Place {
    /// A post of this plan that heard nothing yet. It takes all the memory that the post needs.
    pub fn make(alloc: Global, plan: &PostPlan) -> Result<Place, NoMemory>
        requires { IsPostPlan plan.now }
        ensures made { IfOk result (λ place. place ≡ place_of (unheard plan.now)) }
        ensures plan { IfOk result (λ place. IsPlan place.plan) }
    {
        bound_plan(plan);
        Ok(Place {
            plan: plan.copied(),
            post: Post::make(alloc)?,
            report: PostReport {
                sessions: 0,
                closed: 0,
                causes: CauseSet::empty(),
            },
        })
    }

    /// An order was given, and taken or not.
    pub fn gave(&mut self, order: Order, taken: bool)
        ensures { self.new ≡ done_place (Give order) taken self.old }
    {
        self.report.closed = closed_with(self.report.closed, &order, taken);
        self.post.did(Done::Gave(order), taken);
    }

    /// A reply was sent, and taken or not.
    pub fn sent(&mut self, taken: bool)
        ensures { (bytes : List ℕ) → self.new ≡ done_place (Send bytes) taken self.old }
    {
        self.post.did(Done::Sent, taken);
    }

    /// A datagram was answered, and taken or not.
    pub fn answered(&mut self, taken: bool)
        ensures { (bytes : List ℕ) → self.new ≡ done_place (Answer bytes) taken self.old }
    {
        self.post.did(Done::Answered, taken);
    }

    /// The session ended by this cause.
    pub fn ended(&mut self, cause: EndCause)
        ensures { self.new ≡ done_place (End (number_of cause)) true self.old }
    {
        self.post.did(Done::Ended, true);
        self.report.causes = self.report.causes.with(small_number(cause));
    }
}

/// The orders to close that were taken, with this order.
fn closed_with(closed: u64, order: &Order, taken: bool) -> u64
    ensures { result ≡ (if is_close order.now && taken then capped (closed + 1) else closed) }
{
    match order {
        Order::Close if taken => closed.saturating_add(1),
        _ => closed,
    }
}

/// The number of a cause, which has a bit in a set of causes.
#[tactic(auto, using(crate::proofs::Reports::number_small))]
fn small_number(cause: EndCause) -> u8
    ensures value { result ≡ number_of cause }
    ensures small { result < 32 }
{
    cause.number()
}
