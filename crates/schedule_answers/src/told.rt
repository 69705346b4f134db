//! The schedules that a message tells.

ghost use Rattle.std.specs.Prelude.{◌≡◌, MatchOption, List};
ghost use Rattle.iso_schedules.specs.declared.schedules.SaScheduleTuple.{SaScheduleTuple as Told};
ghost use Rattle.schedule_answers.specs.Schedules.{TellsIn};

use iso_message::{BodyElement, IsoMessage};
use iso_schedules::{SaScheduleTuple, SaSchedules};
use iso_values::codes::code_of;

/// The tuples of a ChargeParameterDiscoveryRes of the OK class that has some.
pub(crate) fn tuples_in<'m>(message: &'m IsoMessage<'_>) -> Option<&'m [SaScheduleTuple]>
    ensures { MatchOption result ((tuples : List Told) → TellsIn message.now.body.element tuples → ⊥) (λ tuples. TellsIn message.now.body.element tuples.now) }
{
    let Some(BodyElement::ChargeParameterDiscoveryRes(reply)) = &message.body.element else {
        return None;
    };
    if !code_of(reply.response_code).is_ok() {
        return None;
    }
    match &reply.sa_schedules {
        Some(SaSchedules::SaScheduleList(list)) => Some(list.sa_schedule_tuple.as_slice()),
        None => None,
    }
}
