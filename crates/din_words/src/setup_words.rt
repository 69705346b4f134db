//! Messages that set up a session, as words have them (DIN SPEC 70121:2014).

ghost use Rattle.std.specs.Prelude.{◌≡◌, [], ◌∷◌};
ghost use Rattle.exi_documents.specs.Trees.{Ordinal};
ghost use Rattle.message_parts.specs.Contents.{Of, holding};
ghost use Rattle.tree_words.specs.Named.{children};
ghost use Rattle.din_parts.specs.Codes.{supported_energy_transfer_type_ordinal};
ghost use Rattle.din_setup.specs.Selection.{selected_service_list_parts, service_payment_selection_req_parts};
ghost use Rattle.din_setup.specs.Services.{service_discovery_res_parts};
ghost use Rattle.din_setup.specs.Session.{session_setup_req_parts, session_setup_res_parts, contract_authentication_res_parts};
ghost use Rattle.din_schema.specs.declared.names.TheConstants.{SELECTED_SERVICE};
ghost use Rattle.word_tables.specs.Tables.{read};
ghost use Rattle.din_tables.specs.Codes.{offered_mode};
ghost use Rattle.message_tables.specs.Values.{list_of};
ghost use Rattle.din_tables.specs.Setup.{setup_req, setup_asked, setup_res, setup_told, discovery_res, discovery_told, service, selection_req, selection_asked, authorization_res, authorization_told};

use arrayvec::ArrayVec;
use din_parts::SupportedEnergyTransferType;
use din_setup::{
    ContractAuthenticationRes, SelectedServiceList, ServiceDiscoveryRes,
    ServicePaymentSelectionReq, SessionSetupReq, SessionSetupRes,
};
use din_values::modes::offered_of;
use din_values::states::{is_external, processing_of};
use session_words::{Ask, EvseId, OfferedMode, Tell};
use word_values::bytes_of;

/// What SessionSetupReq asks.
pub(crate) fn setup_ask(request: &SessionSetupReq<'_>) -> Ask
    ensures { result ≡ setup_asked (read setup_req (children (holding (session_setup_req_parts request.now)))) }
{
    Ask::SessionSetup {
        car: bytes_of(&request.evccid),
    }
}

/// What SessionSetupRes tells.
pub(crate) fn setup_tell(reply: &SessionSetupRes<'_>) -> Tell
    ensures { result ≡ setup_told (read setup_res (children (holding (session_setup_res_parts reply.now)))).1 }
{
    Tell::SessionSetup {
        evse: EvseId::Bytes(bytes_of(&reply.evseid)),
    }
}

/// The one mode of a list.
#[tactic(auto, using(crate::proofs::Values::offered_read))]
fn offered_in(mode: SupportedEnergyTransferType) -> ArrayVec<OfferedMode, 6>
    ensures { result.items ≡ read offered_mode (Of (Ordinal (supported_energy_transfer_type_ordinal mode))) ∷ [] }
{
    let mut modes = ArrayVec::new();
    modes.push(offered_of(mode));
    modes
}

/// What ServiceDiscoveryRes tells.
pub(crate) fn discovery_tell(reply: &ServiceDiscoveryRes<'_>) -> Tell
    ensures { result ≡ discovery_told (read discovery_res (children (holding (service_discovery_res_parts reply.now)))).1 }
{
    Tell::ServiceDiscovery {
        free: reply.charge_service.free_service,
        modes: offered_in(reply.charge_service.energy_transfer_type),
    }
}

/// The numbers of services.
fn numbers_of(services: &SelectedServiceList) -> ArrayVec<u16, 16>
    ensures { result.items ≡ read (list_of SELECTED_SERVICE 1 16 service) (holding (selected_service_list_parts services.now)) }
{
    let all = services.selected_service.as_slice();
    let mut numbers = ArrayVec::new();
    for service in all {
        numbers.push(service.service_id);
    }
    numbers
}

/// What ServicePaymentSelectionReq asks.
#[tactic(auto, using(crate::proofs::Values::external_read))]
pub(crate) fn selection_ask(request: &ServicePaymentSelectionReq) -> Ask
    ensures { result ≡ selection_asked (read selection_req (children (holding (service_payment_selection_req_parts request.now)))) }
{
    Ask::PaymentSelection {
        external: is_external(request.selected_payment_option),
        services: numbers_of(&request.selected_service_list),
    }
}

/// What ContractAuthenticationRes tells.
#[tactic(auto, using(crate::proofs::Values::step_read))]
pub(crate) fn authorization_tell(reply: &ContractAuthenticationRes) -> Tell
    ensures { result ≡ authorization_told (read authorization_res (children (holding (contract_authentication_res_parts reply.now)))).1 }
{
    Tell::Authorization {
        processing: processing_of(reply.evse_processing),
    }
}
