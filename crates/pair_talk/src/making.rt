//! A pair in memory. All memory that a session needs is taken when it is made.

ghost use Rattle.std.specs.Prelude.{◌≡◌, IfOk, length};
ghost use Rattle.session_words.specs.Plans.{IsCarPlan, IsPostPlan, IsSitePlan};
ghost use Rattle.session_words.specs.declared.plan.PostPlan.{PostPlan as PostPlanOf};
ghost use Rattle.station_spec.specs.States.{fresh};
ghost use Rattle.plant_sim.specs.Charger.{idle};
ghost use Rattle.car_codec.specs.Requests.{IsPlan};
ghost use Rattle.pipe_spec.specs.Histories.{joined, ported};
ghost use Rattle.pair_ends.specs.Ends.{post_side, car_side};
ghost use Rattle.pair_ends.specs.Tallies.{post_nothing};
ghost use Rattle.pair_talk.specs.Beginning.{IsNew};
ghost use Rattle.pair_talk.specs.Making.{IsNewPost};
ghost use Rattle.pair_talk.specs.Sides.{sides};

use crate::NoMemory;
use crate::pair::Pair;
use car_acts::Driver;
use endpoint::FRAME;
use pair_ends::{CarEnd, CarTally, PostEnd, PostTally, Way};
use pipe_spec::Numbers;
use plant_sim::Sim;
use session_words::{CarPlan, PostPlan, SitePlan};
use site_posts::Place;
use std::alloc::Global;

/// A port that a plan may name. A car that is joined to a station dials none.
const PORT: u16 = 15118;

/// A post of this plan that heard nothing yet, alone at a site of so many watts.
fn post_made(alloc: Global, plan: &PostPlan, limit: u32) -> Result<PostEnd, NoMemory>
    requires { IsPostPlan plan.now }
    ensures { IfOk result (λ end. IsNewPost plan.now limit (post_side end)) }
{
    let mut places = Vec::new(alloc);
    places.push(Place::make(alloc, plan)?)?;
    let room = vec![in alloc; 0; FRAME]?;
    Ok(PostEnd {
        places,
        limit,
        charger: Sim::new(plan.free),
        tally: PostTally::nothing(),
        room,
    })
}

/// The plan of a car that is joined to a station.
pub(crate) fn plan_joined(plan: &CarPlan) -> CarPlan
    requires { IsCarPlan plan.now }
    ensures value { result ≡ ported (joined plan.now) }
    ensures rules { IsCarPlan result }
{
    CarPlan {
        sdp: 0,
        tcp: Some(PORT),
        ..plan.copied()
    }
}

/// An EVCCID has six bytes.
fn bound_id(id: [u8; 6])
    ensures { length id ≡ 6 }
{}

/// The values of a plan are within their types. It does nothing: each value is looked at for the prover, which so knows its bound.
pub(crate) fn bound_car(plan: &CarPlan)
    requires { IsCarPlan plan.now }
    ensures { IsPlan plan.now }
{
    bound_id(plan.car_id);
    let _target_voltage = plan.target_voltage.get();
    let _target_current = plan.target_current.get();
    let _max_voltage = plan.max_voltage.get();
    let _max_current = plan.max_current.get();
    let _min_current = plan.min_current.get();
}

/// A car of this plan.
fn car_made(alloc: Global, plan: &CarPlan) -> Result<CarEnd, NoMemory>
    requires { IsCarPlan plan.now }
    ensures plan { IfOk result (λ end. (car_side end).plan ≡ ported (joined plan.now)) }
    ensures rules { IfOk result (λ end. IsPlan (car_side end).plan) }
{
    let driver = Driver::make(alloc, plan_joined(plan))?;
    let room = vec![in alloc; 0; FRAME]?;
    Ok(CarEnd {
        driver,
        tally: CarTally::nothing(),
        room,
    })
}

impl Pair {
    /// A pair of these plans, of which the station's first post is used alone. It takes all the memory that it will ever take.
    pub(crate) fn make(
        alloc: Global,
        station: &SitePlan,
        car: &CarPlan,
        seed: u64,
    ) -> Result<Pair, NoMemory>
        requires station { IsSitePlan station.now }
        requires car { IsCarPlan car.now }
        ensures { IfOk result (λ pair. IsNew station.now car.now seed (sides pair)) }
    {
        let posts = station.post.as_slice();
        let post = post_made(alloc, &posts[0], station.limit)?;
        let car = car_made(alloc, car)?;
        let to_station = Way::make(alloc)?;
        let to_car = Way::make(alloc)?;
        Ok(Pair {
            post,
            car,
            to_station,
            to_car,
            moment: 0,
            numbers: Numbers::of(seed),
            turns: station.turns,
        })
    }
}
