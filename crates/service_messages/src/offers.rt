//! The reply that offers sets.

ghost use Rattle.std.specs.Prelude.{List, MatchOption};
ghost use Rattle.service_spec.specs.Services.{SaidSet};
ghost use Rattle.service_messages.specs.Offers.{OffersIn, sets_in};

use iso_details::ServiceDetailRes;
use iso_message::{BodyElement, IsoMessage};
use iso_values::codes::code_of;

/// The ServiceDetailRes of the OK class that a message is.
pub(crate) fn reply_of<'m, 'a>(message: &'m IsoMessage<'a>) -> Option<&'m ServiceDetailRes<'a>>
    ensures { MatchOption result ((sets : List SaidSet) → OffersIn message.now.body.element sets → ⊥)
        (λ reply. OffersIn message.now.body.element (sets_in reply.now.service_parameter_list)) }
{
    let Some(BodyElement::ServiceDetailRes(reply)) = &message.body.element else {
        return None;
    };
    if code_of(reply.response_code).is_ok() {
        Some(reply)
    } else {
        None
    }
}
