//! A car with its plan, and what it reports.

ghost use Rattle.std.specs.Prelude.{◌≡◌, IfOk, length};
ghost use Rattle.session_words.specs.Plans.{IsCarPlan};
ghost use Rattle.car_codec.specs.Requests.{IsPlan};
ghost use Rattle.car_acts.specs.Made.{IsMadeOf};
ghost use Rattle.car_acts.specs.Reporting.{report_by, reported};

use charge_world::NoMemory;
use evcc_machine::Car;
use session_words::{CarPlan, EndCause, SessionId};
use std::alloc::Global;
use std::marker::Model;

/// What a car reports. Contracts see the report of the definitions.
#[derive(Drop)]
pub struct CarReport {
    /// The accepted charging replies, at most 10,000.
    pub cycles: u32,
    /// The number of the cause by which the car ended, 0 where it didn't.
    pub cause: u8,
    /// At cause 29, the identifier of the session to come back to.
    pub session: Option<SessionId>,
}

impl Model for CarReport {
    ghost use Rattle.car_spec.specs.Report.{Report};

    ghost Value = { Report };

    ghost view = { λ r. record {
      cycles = r.cycles;
      cause = r.cause;
      session = r.session;
    } };
}

/// A car with its plan, and what it reported at its end, once it ended.
#[derive(Drop)]
pub struct Driver {
    pub plan: CarPlan,
    pub car: Car,
    pub report: Option<CarReport>,
}

/// What a car reports that ends by a cause.
pub(crate) fn report_at(car: &Car, cause: EndCause) -> CarReport
    ensures { result ≡ report_by cause car.now }
{
    let number = cause.number();
    match car.stage() {
        Some(stage) => CarReport {
            cycles: stage.cycles,
            cause: number,
            session: if number == 29 {
                Some(stage.session)
            } else {
                None
            },
        },
        None => CarReport {
            cycles: 0,
            cause: number,
            session: None,
        },
    }
}

impl CarReport {
    /// The same report once more.
    fn copied(&self) -> CarReport
        ensures { result ≡ self.now }
    {
        CarReport {
            cycles: self.cycles,
            cause: self.cause,
            session: match &self.session {
                Some(session) => Some(session.copied()),
                None => None,
            },
        }
    }
}

/// An EVCCID has six bytes.
fn bound_id(id: [u8; 6])
    ensures { length id ≡ 6 }
{}

/// The values of a plan are within their types. It does nothing: each value is looked at for the prover, which so knows its bound.
fn bound_plan(plan: &CarPlan)
    requires { IsCarPlan plan.now }
    ensures { IsPlan plan.now }
{
    bound_id(plan.car_id);
    let _target_voltage = plan.target_voltage.get();
    let _target_current = plan.target_current.get();
    let _max_voltage = plan.max_voltage.get();
    let _max_current = plan.max_current.get();
    let _min_current = plan.min_current.get();
}

impl Driver {
    /// A car of this plan that heard nothing yet. It takes all the memory that the car needs.
    pub fn make(alloc: Global, plan: CarPlan) -> Result<Driver, NoMemory>
        requires { IsCarPlan plan }
        ensures { IfOk result (IsMadeOf plan) }
    {
        bound_plan(&plan);
        let car = Car::make(alloc)?;
        Ok(Driver {
            plan,
            car,
            report: None,
        })
    }

    /// What the car reported at its end; before that, its charging replies so far.
    pub fn report(&self) -> CarReport
        ensures { result ≡ reported self.now.report self.now.car }
    {
        match &self.report {
            Some(report) => report.copied(),
            None => CarReport {
                cycles: match self.car.stage() {
                    Some(stage) => stage.cycles,
                    None => 0,
                },
                cause: 0,
                session: None,
            },
        }
    }
}
