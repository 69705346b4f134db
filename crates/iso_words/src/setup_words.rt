//! Messages that set up a session, as words have them (ISO 15118-2:2014, 8.4.3).

ghost use Rattle.std.specs.Prelude.{◌≡◌, map};
ghost use Rattle.message_parts.specs.Contents.{holding};
ghost use Rattle.tree_words.specs.Named.{children};
ghost use Rattle.iso_details.specs.Details.{service_detail_req_parts, service_detail_res_parts};
ghost use Rattle.iso_setup.specs.Selection.{selected_service_list_parts, payment_service_selection_req_parts};
ghost use Rattle.iso_setup.specs.Services.{service_discovery_res_parts};
ghost use Rattle.iso_setup.specs.Session.{session_setup_req_parts, session_setup_res_parts, authorization_res_parts, session_stop_req_parts};
ghost use Rattle.iso_schema.specs.declared.names.TheConstants.{SELECTED_SERVICE};
ghost use Rattle.iso_values.specs.Modes.{offered_of as offered_as};
ghost use Rattle.word_tables.specs.Tables.{read};
ghost use Rattle.message_tables.specs.Values.{list_of};
ghost use Rattle.iso_tables.specs.Setup.{setup_req, setup_asked, setup_res, setup_told, discovery_res, discovery_told, service_row, detail_asked, detail_res, detail_told, service, selection_req, selection_asked, authorization_res, authorization_told, stop_req, stop_asked};

use arrayvec::ArrayVec;
use iso_details::{ServiceDetailReq, ServiceDetailRes};
use iso_parts::EnergyTransferMode;
use iso_setup::{
    AuthorizationRes, PaymentServiceSelectionReq, SelectedServiceList, ServiceDiscoveryRes,
    SessionSetupReq, SessionSetupRes, SessionStopReq,
};
use iso_values::modes::offered_of;
use iso_values::states::{is_external, is_pause, processing_of};
use session_words::{Ask, EvseId, OfferedMode, Tell};
use word_values::{bytes_of, evse_text_of};

/// What SessionSetupReq asks.
pub(crate) fn setup_ask(request: &SessionSetupReq<'_>) -> Ask
    ensures { result ≡ setup_asked (read setup_req (children (holding (session_setup_req_parts request.now)))) }
{
    Ask::SessionSetup {
        car: bytes_of(&request.evccid),
    }
}

/// What SessionSetupRes tells.
pub(crate) fn setup_tell(reply: &SessionSetupRes<'_>) -> Tell
    ensures { result ≡ setup_told (read setup_res (children (holding (session_setup_res_parts reply.now)))).1 }
{
    Tell::SessionSetup {
        evse: EvseId::Text(evse_text_of(&reply.evseid)),
    }
}

/// The modes that a post offers.
fn offered_in(modes: &ArrayVec<EnergyTransferMode, 6>) -> ArrayVec<OfferedMode, 6>
    ensures { result.items ≡ map offered_as modes.now.items }
{
    let all = modes.as_slice();
    let mut offered = ArrayVec::new();
    for mode in all {
        offered.push(offered_of(*mode));
    }
    offered
}

/// What ServiceDiscoveryRes tells.
#[tactic(auto, using(crate::proofs::Parts::discovery_read))]
pub(crate) fn discovery_tell(reply: &ServiceDiscoveryRes<'_>) -> Tell
    ensures { result ≡ discovery_told (read discovery_res (children (holding (service_discovery_res_parts reply.now)))).1 }
{
    let service = &reply.charge_service;
    Tell::ServiceDiscovery {
        free: service.free_service,
        modes: offered_in(&service.supported_energy_transfer_mode.energy_transfer_mode),
    }
}

/// What ServiceDetailReq asks.
pub(crate) fn detail_ask(request: &ServiceDetailReq) -> Ask
    ensures { result ≡ detail_asked (read service_row (children (holding (service_detail_req_parts request.now)))) }
{
    Ask::ServiceDetail {
        service: request.service_id,
    }
}

/// What ServiceDetailRes tells.
pub(crate) fn detail_tell(reply: &ServiceDetailRes<'_>) -> Tell
    ensures { result ≡ detail_told (read detail_res (children (holding (service_detail_res_parts reply.now)))).1 }
{
    Tell::ServiceDetail {
        service: reply.service_id,
    }
}

/// The numbers of services.
fn numbers_of(services: &SelectedServiceList) -> ArrayVec<u16, 16>
    ensures { result.items ≡ read (list_of SELECTED_SERVICE 1 16 service) (holding (selected_service_list_parts services.now)) }
{
    let all = services.selected_service.as_slice();
    let mut numbers = ArrayVec::new();
    for service in all {
        numbers.push(service.service_id);
    }
    numbers
}

/// What PaymentServiceSelectionReq asks.
#[tactic(auto, using(crate::proofs::Values::external_read))]
pub(crate) fn selection_ask(request: &PaymentServiceSelectionReq) -> Ask
    ensures { result ≡ selection_asked (read selection_req (children (holding (payment_service_selection_req_parts request.now)))) }
{
    Ask::PaymentSelection {
        external: is_external(request.selected_payment_option),
        services: numbers_of(&request.selected_service_list),
    }
}

/// What AuthorizationRes tells.
#[tactic(auto, using(crate::proofs::Values::step_read))]
pub(crate) fn authorization_tell(reply: &AuthorizationRes) -> Tell
    ensures { result ≡ authorization_told (read authorization_res (children (holding (authorization_res_parts reply.now)))).1 }
{
    Tell::Authorization {
        processing: processing_of(reply.evse_processing),
    }
}

/// What SessionStopReq asks.
#[tactic(auto, using(crate::proofs::Values::pause_read))]
pub(crate) fn stop_ask(request: &SessionStopReq) -> Ask
    ensures { result ≡ stop_asked (read stop_req (children (holding (session_stop_req_parts request.now)))) }
{
    Ask::SessionStop {
        pause: is_pause(request.charging_session),
    }
}
