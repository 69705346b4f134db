//! The message of a service.

ghost use Rattle.std.specs.Prelude.{◌≡◌, ◌≤◌, All, IfSome, map, length};
ghost use Rattle.iso_message.specs.Documents.{IsWithin};
ghost use Rattle.service_spec.specs.Wants.{IsPair};
ghost use Rattle.service_spec.specs.Sets.{IsOffered, IsService};
ghost use Rattle.service_messages.specs.Messages as rule;
ghost use Rattle.service_messages.specs.Messages.{IsDetailOf};
ghost use Rattle.service_messages.specs.Held.{IsHeldParameter, IsHeldSet, IsHeldList, IsHeldReply};

use crate::values::parameter_of;
use arrayvec::ArrayVec;
use iso_details::{Parameter, ParameterSet, ServiceDetailRes, ServiceParameterList};
use iso_message::{Body, BodyElement, IsoMessage};
use iso_parts::{Header, ResponseCode};
use message_parts::Binary;
use schedule_answers::no_session;
use service_spec::{Parameter as Pair, ParameterSet as Offered, Service};

/// The parameters of a set as they are written.
fn parameters_of<'a>(pairs: &[Pair<'a>]) -> ArrayVec<Parameter<'a>, 16>
    requires few { length pairs.now ≤ 16 }
    requires pairs { All IsPair pairs.now }
    ensures parameters { result.items ≡ map rule.parameter_of pairs.now }
    ensures held { All IsHeldParameter result.items }
{
    let mut parameters = ArrayVec::new();
    for pair in pairs {
        parameters.push(parameter_of(*pair));
    }
    parameters
}

/// A set as it is written.
fn set_of<'a>(set: &Offered<'a>) -> ParameterSet<'a>
    requires { IsOffered set.now }
    ensures set { result ≡ rule.set_of set.now }
    ensures held { IsHeldSet result }
{
    ParameterSet {
        parameter_set_id: set.id,
        parameter: parameters_of(set.parameters.as_slice()),
    }
}

/// The sets of a service as they are written.
fn sets_of<'a>(sets: &[Offered<'a>]) -> ArrayVec<ParameterSet<'a>, 16>
    requires few { length sets.now ≤ 16 }
    requires sets { All IsOffered sets.now }
    ensures sets { result.items ≡ map rule.set_of sets.now }
    ensures held { All IsHeldSet result.items }
{
    let mut written = ArrayVec::new();
    for set in sets {
        written.push(set_of(set));
    }
    written
}

/// The list of a service's sets; none where there are none.
fn list_of<'a>(sets: &[Offered<'a>]) -> Option<ServiceParameterList<'a>>
    requires few { length sets.now ≤ 16 }
    requires sets { All IsOffered sets.now }
    ensures list { result ≡ rule.list_of sets.now }
    ensures held { IfSome result IsHeldList }
{
    if sets.is_empty() {
        return None;
    }
    Some(ServiceParameterList {
        parameter_set: sets_of(sets),
    })
}

/// The reply that tells of a service, or that there is none.
fn reply_of<'a>(service: &Option<Service<'a>>, id: u16) -> ServiceDetailRes<'a>
    requires { IfSome service.now IsService }
    ensures reply { result ≡ rule.reply_of id service.now }
    ensures held { IsHeldReply result }
{
    match service {
        Some(service) => ServiceDetailRes {
            response_code: ResponseCode::Ok,
            service_id: id,
            service_parameter_list: list_of(service.sets.as_slice()),
        },
        None => ServiceDetailRes {
            response_code: ResponseCode::FailedServiceIdInvalid,
            service_id: id,
            service_parameter_list: None,
        },
    }
}

/// The ServiceDetailRes for the service of this identifier of a catalogue (ISO 15118-2:2014, 8.4.3.3.3), under the identifier of no session, which
/// has 8 bytes of 0: OK with its sets, where the catalogue has it, else FAILED_ServiceIDInvalid. Its texts are lent from the catalogue.
pub fn message_of<'a>(service: &Option<Service<'a>>, id: u16) -> IsoMessage<'a>
    requires { IfSome service.now IsService }
    ensures message { IsDetailOf id service.now result }
    ensures within { IsWithin result }
{
    IsoMessage {
        header: Header {
            session_id: Binary::of_bytes(no_session()),
            notification: None,
        },
        body: Body {
            element: Some(BodyElement::ServiceDetailRes(reply_of(service, id))),
        },
    }
}
