//! The plans that are there without a file.

ghost use Rattle.std.specs.Prelude.{◌≡◌};
ghost use Rattle.session_words.specs.Plans.{IsSitePlan, IsCarPlan};
ghost use Rattle.site_plan.specs.Plans as spec;
ghost use Rattle.site_plan.specs.Plans.{IsFixedSite, IsFixedCar, IsSitePlanOf, IsCarPlanOf};

use crate::car::car_keys;
use crate::post::post_plan;
use crate::site::site_limits;
use plan_keys::Keys;
use session_words::{CarPlan, Mode, SitePlan};

/// Three phases of alternating current, or direct current.
fn fixed_mode(ac: bool) -> Mode
    ensures { result ≡ spec.fixed_mode ac }
{
    if ac {
        Mode::AcThreePhaseCore
    } else {
        Mode::DcExtended
    }
}

/// The plan of a station with the defaults of its keys.
fn default_site(ac: bool) -> SitePlan
    ensures fields { IsFixedSite ac result }
    ensures within { IsSitePlan result }
{
    let mut site = site_limits(&mut Keys::of(None));
    site.post.push(post_plan(&mut Keys::of(None), Some(15120), fixed_mode(ac)));
    site
}

/// The plan of a car with the defaults of its keys.
fn default_car(ac: bool) -> CarPlan
    ensures fields { IsFixedCar ac result }
    ensures within { IsCarPlan result }
{
    car_keys(&mut Keys::of(None), Some(15120), fixed_mode(ac))
}

/// The plan of a station with one post at the TCP port 15120, and else the defaults (own). The post gives alternating
/// current in three phases and speaks ISO alone where `ac` is true; else it gives direct current and speaks ISO and DIN.
pub fn fixed(ac: bool) -> SitePlan
    ensures fields { IsFixedSite ac result }
    ensures text { IsSitePlanOf (spec.site_text ac) result }
    ensures within { IsSitePlan result }
{
    default_site(ac)
}

/// The plan of a car that dials the TCP port 15120, and else the defaults (own). It takes alternating current in three
/// phases and speaks ISO alone where `ac` is true; else it takes direct current and speaks ISO and DIN.
#[tactic(auto, using(crate::proofs::Defaults::car_said))]
pub fn fixed_car(ac: bool) -> CarPlan
    ensures fields { IsFixedCar ac result }
    ensures text { IsCarPlanOf (spec.car_text ac) result }
    ensures within { IsCarPlan result }
{
    default_car(ac)
}
