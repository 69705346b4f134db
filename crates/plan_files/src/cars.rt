//! The plan of a car in a file.

ghost use Rattle.std.specs.Prelude.{◌≡◌, ℕ, List, IfOk, IfErr, MatchResult};
ghost use Rattle.session_words.specs.Plans.{IsCarPlan};
ghost use Rattle.plan_keys.specs.Faults.{Tells};
ghost use Rattle.site_plan.specs.Plans.{IsCarPlanOf, car_told};
ghost use Rattle.plan_files.specs.FileTexts.{IsBeginning, CountsFault};
ghost use Rattle.plan_files.specs.Plans.{IsCarPlanIn, IsCarFileFault};

use crate::plans::PlanFileFault;
use crate::reading::{TextFault, text_in};
use charge_world::Source;
use plan_keys::LONGEST;
use site_plan::{CarPlan, PlanFault, car_plan_of};
use std::alloc::Global;

/// Reads the plan of a car from the file of that name, or says why there is none (own). A file above 65,536 bytes is refused by `OverLimit`
/// with the key `bytes`.
pub fn car_plan_in<F: Source>(
    alloc: Global,
    files: &mut F,
    name: &str,
) -> Result<CarPlan, PlanFileFault>
    ensures plan { IfOk result (IsCarPlanIn (F.left files.new) (F.holds files.old name.now)) }
    ensures within { IfOk result IsCarPlan }
    ensures fault { IfErr result (IsCarFileFault (F.left files.new) (F.holds files.old name.now)) }
    ensures faults { MatchResult result (λ _. F.faults files.new ≡ F.faults files.old) (CountsFault PlanFileFault.Unread (F.faults files.old) (F.faults files.new)) }
    ensures holds { (other : List ℕ) → F.holds files.new other ≡ F.holds files.old other }
{
    match text_in(alloc, files, name, LONGEST) {
        Ok(bytes) => match plan_of(alloc, &bytes) {
            Ok(plan) => Ok(plan),
            Err(fault) => Err(PlanFileFault::Refused(fault)),
        },
        Err(TextFault::Unread) => Err(PlanFileFault::Unread),
        Err(TextFault::Memory) => Err(PlanFileFault::Refused(PlanFault::Memory)),
    }
}

/// The plan of the text that begins with these bytes, and is these where they are no more than a plan may have.
fn plan_of(alloc: Global, bytes: &[u8]) -> Result<CarPlan, PlanFault>
    ensures plan { IfOk result (λ plan. (text : List ℕ) → IsBeginning text bytes.now 65537 → IsCarPlanOf text plan) }
    ensures within { IfOk result IsCarPlan }
    ensures fault { IfErr result (λ fault. (text : List ℕ) → IsBeginning text bytes.now 65537 → Tells fault (car_told text)) }
{
    car_plan_of(alloc, bytes)
}
