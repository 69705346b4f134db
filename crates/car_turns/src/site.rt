//! A car in memory.

ghost use Rattle.std.specs.Prelude.{◌≡◌, IfOk};
ghost use Rattle.session_words.specs.Plans.{IsCarPlan};
ghost use Rattle.car_acts.specs.Reporting.{reported};
ghost use Rattle.car_acts.specs.Made.{IsMadeOf};

use car_acts::{CarReport, Driver};
use endpoint::Desk;
use session_words::CarPlan;
use std::alloc::Global;
use trace_lines::NoMemory;

/// A car by its plan, with the codecs of its messages. All memory of driving is taken when it is made.
#[derive(Drop)]
pub struct CarSite<C> {
    pub(crate) desk: Desk<C>,
    pub(crate) driver: Driver,
}

impl<C: Drop> CarSite<C> {
    /// A car of this plan that heard nothing yet. It takes all the memory that driving needs: some 84 kB and what its codecs have.
    pub fn make(alloc: Global, codec: C, plan: &CarPlan) -> Result<CarSite<C>, NoMemory>
        requires { IsCarPlan plan.now }
        ensures { IfOk result (λ site. IsMadeOf plan.now site.driver) }
    {
        let desk = Desk::make(alloc, codec)?;
        let driver = Driver::make(alloc, plan.copied())?;
        Ok(CarSite { desk, driver })
    }
}

impl<C> CarSite<C> {
    /// What the car reports: its charging replies so far, and once it ended its cause and, at cause 29, the identifier of the session to come
    /// back to.
    pub fn report(&self) -> CarReport
        ensures { result ≡ reported self.now.driver.report self.now.driver.car }
    {
        self.driver.report()
    }
}
