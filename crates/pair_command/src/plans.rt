//! The plan of a station in one file, and that of a car in another.

ghost use Rattle.std.specs.Prelude.{◌≡◌, ℕ, List, IfOk, IfErr, MatchResult};
ghost use Rattle.session_words.specs.Plans.{IsCarPlan, IsSitePlan};
ghost use Rattle.plan_files.specs.FileTexts.{CountsFault};
ghost use Rattle.command_status.specs.Told.{TellsAlways};
ghost use Rattle.pair_command.specs.Files.{plans_told, ArePlans, HasFault, IsBehind};

use charge_world::Source;
use plan_files::{PlanFileFault, TextFault, car_plan_in, site_plan_in, text_in};
use plan_keys::LONGEST;
use site_plan::{CarPlan, PlanFault, SitePlan};
use std::alloc::Global;

/// The plans of a station and of a car.
#[derive(Drop)]
pub(crate) struct PairPlans {
    pub(crate) station: SitePlan,
    pub(crate) car: CarPlan,
}

/// The fault where the station's plan is refused: the car's is still read, and what can't be read is told first.
fn refused_behind<F: Source>(
    alloc: Global,
    fault: PlanFault,
    name: &str,
    files: &mut F,
) -> PlanFileFault
    ensures fault { IsBehind fault result }
    ensures faults { CountsFault PlanFileFault.Unread (F.faults files.old) (F.faults files.new) result }
    ensures holds { (other : List ℕ) → F.holds files.new other ≡ F.holds files.old other }
{
    match text_in(alloc, files, name, LONGEST) {
        Ok(_) => PlanFileFault::Refused(fault),
        Err(TextFault::Unread) => PlanFileFault::Unread,
        Err(TextFault::Memory) => PlanFileFault::Refused(PlanFault::Memory),
    }
}

/// Reads both files, and then judges the plan of the station, and that of the car.
///
/// `Unread` exactly where a file can't be read, before anything is judged; `Refused` where the first is no plan of a station, and then where the second
/// is none of a car. Want of memory comes freely.
pub(crate) fn plans_in<F: Source>(
    alloc: Global,
    station_name: &str,
    car_name: &str,
    files: &mut F,
) -> Result<PairPlans, PlanFileFault>
    ensures read { IfOk result (λ plans. ArePlans (TellsAlways F.left)
        (plans_told (F.holds files.old station_name.now) (F.holds files.old car_name.now) (F.faults files.old) (F.faults files.new))
        plans.station plans.car) }
    ensures station { IfOk result (λ plans. IsSitePlan plans.station) }
    ensures car { IfOk result (λ plans. IsCarPlan plans.car) }
    ensures fault { IfErr result (HasFault (TellsAlways F.left)
        (plans_told (F.holds files.old station_name.now) (F.holds files.old car_name.now) (F.faults files.old) (F.faults files.new))) }
    ensures faults { MatchResult result (λ _. F.faults files.new ≡ F.faults files.old) (CountsFault PlanFileFault.Unread (F.faults files.old) (F.faults files.new)) }
    ensures holds { (other : List ℕ) → F.holds files.new other ≡ F.holds files.old other }
{
    match site_plan_in(alloc, files, station_name) {
        Ok(station) => match car_plan_in(alloc, files, car_name) {
            Ok(car) => Ok(PairPlans { station, car }),
            Err(fault) => Err(fault),
        },
        Err(PlanFileFault::Unread) => Err(PlanFileFault::Unread),
        Err(PlanFileFault::Refused(fault)) => Err(refused_behind(alloc, fault, car_name, files)),
    }
}
