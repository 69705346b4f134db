//! Messages that set up a session, as they are written of words (DIN SPEC 70121:2014).

ghost use Rattle.std.specs.Prelude.{◌≡◌, map, [], ◌∷◌, None};
ghost use Rattle.exi_bits.specs.Lent.{items_of};
ghost use Rattle.message_parts.specs.Contents.{holding, trees_of};
ghost use Rattle.din_parts.specs.declared.codes.PaymentOption.TheVariants.{ExternalPayment};
ghost use Rattle.din_setup.specs.Selection.{selected_service_parts, service_payment_selection_req_parts, service_payment_selection_res_parts};
ghost use Rattle.din_setup.specs.Services.{charge_service_parts, service_discovery_res_parts};
ghost use Rattle.din_setup.specs.Session.{session_setup_req_parts, session_setup_res_parts, contract_authentication_res_parts, session_stop_res_parts};
ghost use Rattle.word_tables.specs.Tables.{written};
ghost use Rattle.din_tables.specs.Setup as table;

use arrayvec::ArrayVec;
use din_parts::{PaymentOption, ServiceCategory};
use din_setup::{
    ChargeService, ContractAuthenticationReq, ContractAuthenticationRes, PaymentOptions,
    SelectedService, SelectedServiceList, ServiceDiscoveryReq, ServiceDiscoveryRes,
    ServicePaymentSelectionReq, ServicePaymentSelectionRes, ServiceTag, SessionSetupReq,
    SessionSetupRes, SessionStopRes,
};
use din_values::codes::response_code;
use din_values::modes::offered_mode;
use din_values::states::{evse_processing, payment_option};
use message_parts::Binary;
use session_words::{Code, OfferedMode, Processing};

/// SessionSetupReq.
pub(crate) fn setup_req(car: Binary<'_>) -> SessionSetupReq<'_>
    ensures { trees_of (session_setup_req_parts result) ≡ written table.setup_req (items_of car.entry.span, tt) }
{
    SessionSetupReq { evccid: car }
}

/// SessionSetupRes.
#[tactic(auto, using(crate::proofs::Values::code_written))]
pub(crate) fn setup_res(code: Code, evse: Binary<'_>) -> SessionSetupRes<'_>
    ensures { trees_of (session_setup_res_parts result) ≡ written table.setup_res (code, (items_of evse.entry.span, tt)) }
{
    SessionSetupRes {
        response_code: response_code(code),
        evseid: evse,
        date_time_now: None,
    }
}

/// ServiceDiscoveryReq.
pub(crate) fn discovery_req<'a>() -> ServiceDiscoveryReq<'a>
    ensures { result ≡ record { service_scope = None; service_category = None } }
{
    ServiceDiscoveryReq {
        service_scope: None,
        service_category: None,
    }
}

/// The first mode that is offered.
fn first_mode(modes: &[OfferedMode]) -> OfferedMode
    ensures { result ≡ table.first_mode modes.now }
{
    match modes {
        [] => OfferedMode::DcExtended,
        [mode, ..] => *mode,
    }
}

/// Service 1, which charges a car.
#[tactic(auto, using(crate::proofs::Values::offered_written))]
fn charge_service<'a>(free: bool, modes: &[OfferedMode]) -> ChargeService<'a>
    ensures { holding (charge_service_parts result) ≡ written table.charge_service (free, (table.first_mode modes.now, tt)) }
{
    ChargeService {
        service_tag: ServiceTag {
            service_id: 1,
            service_name: None,
            service_category: ServiceCategory::EvCharging,
            service_scope: None,
        },
        free_service: free,
        energy_transfer_type: offered_mode(first_mode(modes)),
    }
}

/// External payment alone.
fn external_payment() -> PaymentOptions
    ensures { result ≡ record { payment_option = record { items = ExternalPayment ∷ [] } } }
{
    let mut options = ArrayVec::new();
    options.push(PaymentOption::ExternalPayment);
    PaymentOptions {
        payment_option: options,
    }
}

/// ServiceDiscoveryRes.
#[tactic(auto, using(crate::proofs::Values::code_written))]
pub(crate) fn discovery_res<'a>(
    code: Code,
    free: bool,
    modes: &[OfferedMode],
) -> ServiceDiscoveryRes<'a>
    ensures { trees_of (service_discovery_res_parts result) ≡ written table.discovery_res (code, ((free, (table.first_mode modes.now, tt)), tt)) }
{
    ServiceDiscoveryRes {
        response_code: response_code(code),
        payment_options: external_payment(),
        charge_service: charge_service(free, modes),
        service_list: None,
    }
}

/// A service without a parameter set.
fn selected_service(service: u16) -> SelectedService
    ensures { result ≡ record { service_id = service; parameter_set_id = None } }
{
    SelectedService {
        service_id: service,
        parameter_set_id: None,
    }
}

/// Services without parameter sets.
fn selected_services(services: &ArrayVec<u16, 16>) -> ArrayVec<SelectedService, 16>
    ensures { map (λ s. holding (selected_service_parts s)) result.items ≡ map (λ n. written table.service n) services.now.items }
{
    let all = services.as_slice();
    let mut selected = ArrayVec::new();
    for service in all {
        selected.push(selected_service(*service));
    }
    selected
}

/// ServicePaymentSelectionReq.
#[tactic(auto, using(crate::proofs::Values::external_written))]
pub(crate) fn selection_req(
    external: bool,
    services: &ArrayVec<u16, 16>,
) -> ServicePaymentSelectionReq
    ensures { trees_of (service_payment_selection_req_parts result) ≡ written table.selection_req (external, (services.now.items, tt)) }
{
    ServicePaymentSelectionReq {
        selected_payment_option: payment_option(external),
        selected_service_list: SelectedServiceList {
            selected_service: selected_services(services),
        },
    }
}

/// ContractAuthenticationReq.
pub(crate) fn authorization_req<'a>() -> ContractAuthenticationReq<'a>
    ensures { result ≡ record { id = None; gen_challenge = None } }
{
    ContractAuthenticationReq {
        id: None,
        gen_challenge: None,
    }
}

/// ContractAuthenticationRes.
#[tactic(auto, using(crate::proofs::Values::code_written, crate::proofs::Values::step_written))]
pub(crate) fn authorization_res(code: Code, processing: Processing) -> ContractAuthenticationRes
    ensures { trees_of (contract_authentication_res_parts result) ≡ written table.authorization_res (code, (processing, tt)) }
{
    ContractAuthenticationRes {
        response_code: response_code(code),
        evse_processing: evse_processing(processing),
    }
}

/// ServicePaymentSelectionRes.
#[tactic(auto, using(crate::proofs::Values::code_written))]
pub(crate) fn selection_res(code: Code) -> ServicePaymentSelectionRes
    ensures { trees_of (service_payment_selection_res_parts result) ≡ written table.code_alone (code, tt) }
{
    ServicePaymentSelectionRes {
        response_code: response_code(code),
    }
}

/// SessionStopRes.
#[tactic(auto, using(crate::proofs::Values::code_written))]
pub(crate) fn stop_res(code: Code) -> SessionStopRes
    ensures { trees_of (session_stop_res_parts result) ≡ written table.code_alone (code, tt) }
{
    SessionStopRes {
        response_code: response_code(code),
    }
}
