//! Messages that set up a session, as they are written of words (ISO 15118-2:2014, 8.4.3).

ghost use Rattle.std.specs.Prelude.{◌≡◌, map, [], ◌∷◌, None};
ghost use Rattle.exi_documents.specs.Trees.{Ordinal};
ghost use Rattle.exi_bits.specs.Lent.{items_of};
ghost use Rattle.message_parts.specs.Contents.{Of, holding, trees_of};
ghost use Rattle.iso_parts.specs.Codes.{energy_transfer_mode_ordinal};
ghost use Rattle.iso_parts.specs.declared.codes.PaymentOption.TheVariants.{ExternalPayment};
ghost use Rattle.iso_details.specs.Details.{service_detail_req_parts, service_detail_res_parts};
ghost use Rattle.iso_setup.specs.Selection.{selected_service_parts, payment_service_selection_req_parts, payment_service_selection_res_parts};
ghost use Rattle.iso_setup.specs.Services.{charge_service_parts, service_discovery_res_parts};
ghost use Rattle.iso_setup.specs.Session.{session_setup_req_parts, session_setup_res_parts, authorization_res_parts, session_stop_req_parts, session_stop_res_parts};
ghost use Rattle.word_tables.specs.Tables.{written};
ghost use Rattle.iso_tables.specs.Codes as codes;
ghost use Rattle.iso_tables.specs.Setup as table;

use arrayvec::ArrayVec;
use iso_details::{ServiceDetailReq, ServiceDetailRes};
use iso_parts::{EnergyTransferMode, PaymentOption, ServiceCategory};
use iso_setup::{
    AuthorizationReq, AuthorizationRes, ChargeService, PaymentOptionList,
    PaymentServiceSelectionReq, PaymentServiceSelectionRes, SelectedService, SelectedServiceList,
    ServiceDiscoveryReq, ServiceDiscoveryRes, SessionSetupReq, SessionSetupRes, SessionStopReq,
    SessionStopRes, SupportedEnergyTransferMode,
};
use iso_values::codes::response_code;
use iso_values::modes::offered_mode;
use iso_values::states::{charging_session, evse_processing, payment_option};
use message_parts::{Binary, Text};
use session_words::{Code, OfferedMode, Processing};

/// SessionSetupReq.
pub(crate) fn setup_req(car: Binary<'_>) -> SessionSetupReq<'_>
    ensures { trees_of (session_setup_req_parts result) ≡ written table.setup_req (items_of car.entry.span, tt) }
{
    SessionSetupReq { evccid: car }
}

/// SessionSetupRes.
#[tactic(auto, using(crate::proofs::Values::code_written))]
pub(crate) fn setup_res<'a>(code: Code, evse: &'a str) -> SessionSetupRes<'a>
    ensures { trees_of (session_setup_res_parts result) ≡ written table.setup_res (code, (evse.now, tt)) }
{
    SessionSetupRes {
        response_code: response_code(code),
        evseid: Text::Written(evse),
        evse_time_stamp: None,
    }
}

/// ServiceDiscoveryReq.
pub(crate) fn discovery_req<'a>() -> ServiceDiscoveryReq<'a>
    ensures { result ≡ record { service_scope = None; service_category = None } }
{
    ServiceDiscoveryReq {
        service_scope: None,
        service_category: None,
    }
}

/// The modes that a post offers, as they are written.
fn offered_modes(modes: &ArrayVec<OfferedMode, 6>) -> ArrayVec<EnergyTransferMode, 6>
    ensures { map (λ m. Of (Ordinal (energy_transfer_mode_ordinal m))) result.items ≡ map (λ m. written codes.offered_mode m) modes.now.items }
{
    let all = modes.as_slice();
    let mut offered = ArrayVec::new();
    for mode in all {
        offered.push(offered_mode(*mode));
    }
    offered
}

/// Service 1, which charges a car.
fn charge_service<'a>(free: bool, modes: &ArrayVec<OfferedMode, 6>) -> ChargeService<'a>
    ensures { holding (charge_service_parts result) ≡ written table.charge_service (free, (modes.now.items, tt)) }
{
    ChargeService {
        service_id: 1,
        service_name: None,
        service_category: ServiceCategory::EvCharging,
        service_scope: None,
        free_service: free,
        supported_energy_transfer_mode: SupportedEnergyTransferMode {
            energy_transfer_mode: offered_modes(modes),
        },
    }
}

/// External payment alone.
fn external_payment() -> PaymentOptionList
    ensures { result ≡ record { payment_option = record { items = ExternalPayment ∷ [] } } }
{
    let mut options = ArrayVec::new();
    options.push(PaymentOption::ExternalPayment);
    PaymentOptionList {
        payment_option: options,
    }
}

/// ServiceDiscoveryRes.
#[tactic(auto, using(crate::proofs::Values::code_written))]
pub(crate) fn discovery_res<'a>(
    code: Code,
    free: bool,
    modes: &ArrayVec<OfferedMode, 6>,
) -> ServiceDiscoveryRes<'a>
    ensures { trees_of (service_discovery_res_parts result) ≡ written table.discovery_res (code, ((free, (modes.now.items, tt)), tt)) }
{
    ServiceDiscoveryRes {
        response_code: response_code(code),
        payment_option_list: external_payment(),
        charge_service: charge_service(free, modes),
        service_list: None,
    }
}

/// ServiceDetailReq.
pub(crate) fn detail_req(service: u16) -> ServiceDetailReq
    ensures { trees_of (service_detail_req_parts result) ≡ written table.service_row (service, tt) }
{
    ServiceDetailReq {
        service_id: service,
    }
}

/// ServiceDetailRes.
#[tactic(auto, using(crate::proofs::Values::code_written))]
pub(crate) fn detail_res<'a>(code: Code, service: u16) -> ServiceDetailRes<'a>
    ensures { trees_of (service_detail_res_parts result) ≡ written table.detail_res (code, (service, tt)) }
{
    ServiceDetailRes {
        response_code: response_code(code),
        service_id: service,
        service_parameter_list: None,
    }
}

/// A service without a parameter set.
fn selected_service(service: u16) -> SelectedService
    ensures { result ≡ record { service_id = service; parameter_set_id = None } }
{
    SelectedService {
        service_id: service,
        parameter_set_id: None,
    }
}

/// Services without parameter sets.
fn selected_services(services: &ArrayVec<u16, 16>) -> ArrayVec<SelectedService, 16>
    ensures { map (λ s. holding (selected_service_parts s)) result.items ≡ map (λ n. written table.service n) services.now.items }
{
    let all = services.as_slice();
    let mut selected = ArrayVec::new();
    for service in all {
        selected.push(selected_service(*service));
    }
    selected
}

/// PaymentServiceSelectionReq.
#[tactic(auto, using(crate::proofs::Values::external_written))]
pub(crate) fn selection_req(
    external: bool,
    services: &ArrayVec<u16, 16>,
) -> PaymentServiceSelectionReq
    ensures { trees_of (payment_service_selection_req_parts result) ≡ written table.selection_req (external, (services.now.items, tt)) }
{
    PaymentServiceSelectionReq {
        selected_payment_option: payment_option(external),
        selected_service_list: SelectedServiceList {
            selected_service: selected_services(services),
        },
    }
}

/// AuthorizationReq.
pub(crate) fn authorization_req<'a>() -> AuthorizationReq<'a>
    ensures { result ≡ record { id = None; gen_challenge = None } }
{
    AuthorizationReq {
        id: None,
        gen_challenge: None,
    }
}

/// AuthorizationRes.
#[tactic(auto, using(crate::proofs::Values::code_written, crate::proofs::Values::step_written))]
pub(crate) fn authorization_res(code: Code, processing: Processing) -> AuthorizationRes
    ensures { trees_of (authorization_res_parts result) ≡ written table.authorization_res (code, (processing, tt)) }
{
    AuthorizationRes {
        response_code: response_code(code),
        evse_processing: evse_processing(processing),
    }
}

/// SessionStopReq.
#[tactic(auto, using(crate::proofs::Values::pause_written))]
pub(crate) fn stop_req(pause: bool) -> SessionStopReq
    ensures { trees_of (session_stop_req_parts result) ≡ written table.stop_req (pause, tt) }
{
    SessionStopReq {
        charging_session: charging_session(pause),
    }
}

/// PaymentServiceSelectionRes.
#[tactic(auto, using(crate::proofs::Values::code_written))]
pub(crate) fn selection_res(code: Code) -> PaymentServiceSelectionRes
    ensures { trees_of (payment_service_selection_res_parts result) ≡ written table.code_alone (code, tt) }
{
    PaymentServiceSelectionRes {
        response_code: response_code(code),
    }
}

/// SessionStopRes.
#[tactic(auto, using(crate::proofs::Values::code_written))]
pub(crate) fn stop_res(code: Code) -> SessionStopRes
    ensures { trees_of (session_stop_res_parts result) ≡ written table.code_alone (code, tt) }
{
    SessionStopRes {
        response_code: response_code(code),
    }
}
