//! Types of elements of the messages of ISO 15118-2.

ghost use Rattle.std.specs.Prelude.{[]};

use arrayvec::ArrayVec;
use exi_documents::Refusal;
use exi_schema::Places;
use iso_parts::message_fields::{
    Elements, Elements2, Elements4, Optional, OptionalValue, Required, RequiredValue, Several,
    SeveralValues,
};
use iso_parts::{EnergyTransferMode, PaymentOption, ResponseCode, ServiceCategory};
use iso_schema::names;
use message_parts::exi_events::EventWriter;
use message_parts::{
    Descent, PutRecord, ReadRecord, Record, Text, put_optional, put_optional_value, put_record,
    put_records, put_value, put_values, whole_record,
};

/// Service.
#[derive(Drop, Default)]
pub struct Service<'a> {
    pub service_id: u16,
    /// At most 32 code points.
    pub service_name: Option<Text<'a>>,
    pub service_category: ServiceCategory,
    /// At most 64 code points.
    pub service_scope: Option<Text<'a>>,
    pub free_service: bool,
}

impl PutRecord for Service<'_> {
    ghost use Rattle.std.specs.Prelude.{refl};
    ghost use Rattle.iso_schema.specs.Declarations.{kinds};
    ghost use Rattle.iso_schema.specs.Setup.{service};
    ghost use Rattle.iso_setup.specs.Services.{service_parts};

    ghost kinds = { kinds };

    ghost attributes = { [] };

    ghost particles = { service };

    ghost apart = { refl };

    ghost given = { λ v. [] };

    ghost parts = { service_parts };

    fn write<P: Places>(&self, writer: &mut EventWriter<'_, '_, P>) {
        put_value(writer, names::SERVICE_ID, &self.service_id);
        put_optional_value(writer, names::SERVICE_NAME, &self.service_name);
        put_value(writer, names::SERVICE_CATEGORY, &self.service_category);
        put_optional_value(writer, names::SERVICE_SCOPE, &self.service_scope);
        put_value(writer, names::FREE_SERVICE, &self.free_service);
    }
}

impl<'a> Record<'a> for Service<'a> {
    ghost use Rattle.std.proofs.Common.{rules};

    type Made = Elements2<
        (
            RequiredValue<u16>,
            OptionalValue<Text<'a>, { names::SERVICE_NAME }>,
            RequiredValue<ServiceCategory>,
        ),
        (
            OptionalValue<Text<'a>, { names::SERVICE_SCOPE }>,
            RequiredValue<bool>,
        ),
    >;

    fn of(made: Self::Made) -> Service<'a> {
        let Elements2(
            (
                RequiredValue(service_id),
                OptionalValue(service_name),
                RequiredValue(service_category),
            ),
            (OptionalValue(service_scope), RequiredValue(free_service)),
        ) = made;
        Service {
            service_id,
            service_name,
            service_category,
            service_scope,
            free_service,
        }
    }

    ghost declared = { Prim.search rules };
}

impl<'a> ReadRecord<'a> for Service<'a> {
    fn read<P: Places>(descent: &mut Descent<'a, '_, P>) -> Result<Service<'a>, Refusal> {
        whole_record(descent)
    }
}

/// ServiceList.
#[derive(Drop)]
pub struct ServiceList<'a> {
    /// 1 to 8.
    pub service: ArrayVec<Service<'a>, 8>,
}

impl PutRecord for ServiceList<'_> {
    ghost use Rattle.std.specs.Prelude.{refl};
    ghost use Rattle.iso_schema.specs.Declarations.{kinds};
    ghost use Rattle.iso_schema.specs.Setup.{service_list};
    ghost use Rattle.iso_setup.specs.Services.{service_list_parts};

    ghost kinds = { kinds };

    ghost attributes = { [] };

    ghost particles = { service_list };

    ghost apart = { refl };

    ghost given = { λ v. [] };

    ghost parts = { service_list_parts };

    fn write<P: Places>(&self, writer: &mut EventWriter<'_, '_, P>) {
        put_records(writer, names::SERVICE, &self.service);
    }
}

impl<'a> Record<'a> for ServiceList<'a> {
    ghost use Rattle.std.proofs.Common.{rules};

    type Made = Elements<Several<Service<'a>, 8, { names::SERVICE }>>;

    fn of(made: Self::Made) -> ServiceList<'a> {
        let Elements(Several(service)) = made;
        ServiceList { service }
    }

    ghost declared = { Prim.search rules };
}

impl<'a> ReadRecord<'a> for ServiceList<'a> {
    fn read<P: Places>(descent: &mut Descent<'a, '_, P>) -> Result<ServiceList<'a>, Refusal> {
        whole_record(descent)
    }
}

/// SupportedEnergyTransferMode.
#[derive(Drop)]
pub struct SupportedEnergyTransferMode {
    /// 1 to 6.
    pub energy_transfer_mode: ArrayVec<EnergyTransferMode, 6>,
}

impl PutRecord for SupportedEnergyTransferMode {
    ghost use Rattle.std.specs.Prelude.{refl};
    ghost use Rattle.iso_schema.specs.Declarations.{kinds};
    ghost use Rattle.iso_schema.specs.Setup.{supported_energy_transfer_mode};
    ghost use Rattle.iso_setup.specs.Services.{supported_energy_transfer_mode_parts};

    ghost kinds = { kinds };

    ghost attributes = { [] };

    ghost particles = { supported_energy_transfer_mode };

    ghost apart = { refl };

    ghost given = { λ v. [] };

    ghost parts = { supported_energy_transfer_mode_parts };

    fn write<P: Places>(&self, writer: &mut EventWriter<'_, '_, P>) {
        put_values(
            writer,
            names::ENERGY_TRANSFER_MODE,
            &self.energy_transfer_mode,
        );
    }
}

impl<'a> Record<'a> for SupportedEnergyTransferMode {
    ghost use Rattle.std.proofs.Common.{rules};

    type Made = Elements<SeveralValues<EnergyTransferMode, 6, { names::ENERGY_TRANSFER_MODE }>>;

    fn of(made: Self::Made) -> SupportedEnergyTransferMode {
        let Elements(SeveralValues(energy_transfer_mode)) = made;
        SupportedEnergyTransferMode {
            energy_transfer_mode,
        }
    }

    ghost declared = { Prim.search rules };
}

impl<'a> ReadRecord<'a> for SupportedEnergyTransferMode {
    fn read<P: Places>(
        descent: &mut Descent<'a, '_, P>,
    ) -> Result<SupportedEnergyTransferMode, Refusal> {
        whole_record(descent)
    }
}

/// ChargeService.
#[derive(Drop)]
pub struct ChargeService<'a> {
    pub service_id: u16,
    /// At most 32 code points.
    pub service_name: Option<Text<'a>>,
    pub service_category: ServiceCategory,
    /// At most 64 code points.
    pub service_scope: Option<Text<'a>>,
    pub free_service: bool,
    pub supported_energy_transfer_mode: SupportedEnergyTransferMode,
}

impl PutRecord for ChargeService<'_> {
    ghost use Rattle.std.specs.Prelude.{refl};
    ghost use Rattle.iso_schema.specs.Declarations.{kinds};
    ghost use Rattle.iso_schema.specs.Setup.{charge_service};
    ghost use Rattle.iso_setup.specs.Services.{charge_service_parts};

    ghost kinds = { kinds };

    ghost attributes = { [] };

    ghost particles = { charge_service };

    ghost apart = { refl };

    ghost given = { λ v. [] };

    ghost parts = { charge_service_parts };

    fn write<P: Places>(&self, writer: &mut EventWriter<'_, '_, P>) {
        put_value(writer, names::SERVICE_ID, &self.service_id);
        put_optional_value(writer, names::SERVICE_NAME, &self.service_name);
        put_value(writer, names::SERVICE_CATEGORY, &self.service_category);
        put_optional_value(writer, names::SERVICE_SCOPE, &self.service_scope);
        put_value(writer, names::FREE_SERVICE, &self.free_service);
        put_record(
            writer,
            names::SUPPORTED_ENERGY_TRANSFER_MODE,
            &self.supported_energy_transfer_mode,
        );
    }
}

impl<'a> Record<'a> for ChargeService<'a> {
    ghost use Rattle.std.proofs.Common.{rules};

    type Made = Elements2<
        (
            RequiredValue<u16>,
            OptionalValue<Text<'a>, { names::SERVICE_NAME }>,
            RequiredValue<ServiceCategory>,
        ),
        (
            OptionalValue<Text<'a>, { names::SERVICE_SCOPE }>,
            RequiredValue<bool>,
            Required<SupportedEnergyTransferMode>,
        ),
    >;

    fn of(made: Self::Made) -> ChargeService<'a> {
        let Elements2(
            (
                RequiredValue(service_id),
                OptionalValue(service_name),
                RequiredValue(service_category),
            ),
            (
                OptionalValue(service_scope),
                RequiredValue(free_service),
                Required(supported_energy_transfer_mode),
            ),
        ) = made;
        ChargeService {
            service_id,
            service_name,
            service_category,
            service_scope,
            free_service,
            supported_energy_transfer_mode,
        }
    }

    ghost declared = { Prim.search rules };
}

impl<'a> ReadRecord<'a> for ChargeService<'a> {
    fn read<P: Places>(descent: &mut Descent<'a, '_, P>) -> Result<ChargeService<'a>, Refusal> {
        whole_record(descent)
    }
}

/// PaymentOptionList.
#[derive(Drop)]
pub struct PaymentOptionList {
    /// 1 to 2.
    pub payment_option: ArrayVec<PaymentOption, 2>,
}

impl PutRecord for PaymentOptionList {
    ghost use Rattle.std.specs.Prelude.{refl};
    ghost use Rattle.iso_schema.specs.Declarations.{kinds};
    ghost use Rattle.iso_schema.specs.Setup.{payment_option_list};
    ghost use Rattle.iso_setup.specs.Services.{payment_option_list_parts};

    ghost kinds = { kinds };

    ghost attributes = { [] };

    ghost particles = { payment_option_list };

    ghost apart = { refl };

    ghost given = { λ v. [] };

    ghost parts = { payment_option_list_parts };

    fn write<P: Places>(&self, writer: &mut EventWriter<'_, '_, P>) {
        put_values(writer, names::PAYMENT_OPTION, &self.payment_option);
    }
}

impl<'a> Record<'a> for PaymentOptionList {
    ghost use Rattle.std.proofs.Common.{rules};

    type Made = Elements<SeveralValues<PaymentOption, 2, { names::PAYMENT_OPTION }>>;

    fn of(made: Self::Made) -> PaymentOptionList {
        let Elements(SeveralValues(payment_option)) = made;
        PaymentOptionList { payment_option }
    }

    ghost declared = { Prim.search rules };
}

impl<'a> ReadRecord<'a> for PaymentOptionList {
    fn read<P: Places>(descent: &mut Descent<'a, '_, P>) -> Result<PaymentOptionList, Refusal> {
        whole_record(descent)
    }
}

/// ServiceDiscoveryReq.
#[derive(Drop)]
pub struct ServiceDiscoveryReq<'a> {
    /// At most 64 code points.
    pub service_scope: Option<Text<'a>>,
    pub service_category: Option<ServiceCategory>,
}

impl PutRecord for ServiceDiscoveryReq<'_> {
    ghost use Rattle.std.specs.Prelude.{refl};
    ghost use Rattle.iso_schema.specs.Declarations.{kinds};
    ghost use Rattle.iso_schema.specs.Setup.{service_discovery_req};
    ghost use Rattle.iso_setup.specs.Services.{service_discovery_req_parts};

    ghost kinds = { kinds };

    ghost attributes = { [] };

    ghost particles = { service_discovery_req };

    ghost apart = { refl };

    ghost given = { λ v. [] };

    ghost parts = { service_discovery_req_parts };

    fn write<P: Places>(&self, writer: &mut EventWriter<'_, '_, P>) {
        put_optional_value(writer, names::SERVICE_SCOPE, &self.service_scope);
        put_optional_value(writer, names::SERVICE_CATEGORY, &self.service_category);
    }
}

impl<'a> Record<'a> for ServiceDiscoveryReq<'a> {
    ghost use Rattle.std.proofs.Common.{rules};

    type Made = Elements2<
        OptionalValue<Text<'a>, { names::SERVICE_SCOPE }>,
        OptionalValue<ServiceCategory, { names::SERVICE_CATEGORY }>,
    >;

    fn of(made: Self::Made) -> ServiceDiscoveryReq<'a> {
        let Elements2(OptionalValue(service_scope), OptionalValue(service_category)) = made;
        ServiceDiscoveryReq {
            service_scope,
            service_category,
        }
    }

    ghost declared = { Prim.search rules };
}

impl<'a> ReadRecord<'a> for ServiceDiscoveryReq<'a> {
    fn read<P: Places>(
        descent: &mut Descent<'a, '_, P>,
    ) -> Result<ServiceDiscoveryReq<'a>, Refusal> {
        whole_record(descent)
    }
}

/// ServiceDiscoveryRes.
#[derive(Drop)]
pub struct ServiceDiscoveryRes<'a> {
    pub response_code: ResponseCode,
    pub payment_option_list: PaymentOptionList,
    pub charge_service: ChargeService<'a>,
    pub service_list: Option<ServiceList<'a>>,
}

impl PutRecord for ServiceDiscoveryRes<'_> {
    ghost use Rattle.std.specs.Prelude.{refl};
    ghost use Rattle.iso_schema.specs.Declarations.{kinds};
    ghost use Rattle.iso_schema.specs.Setup.{service_discovery_res};
    ghost use Rattle.iso_setup.specs.Services.{service_discovery_res_parts};

    ghost kinds = { kinds };

    ghost attributes = { [] };

    ghost particles = { service_discovery_res };

    ghost apart = { refl };

    ghost given = { λ v. [] };

    ghost parts = { service_discovery_res_parts };

    fn write<P: Places>(&self, writer: &mut EventWriter<'_, '_, P>) {
        put_value(writer, names::RESPONSE_CODE, &self.response_code);
        put_record(
            writer,
            names::PAYMENT_OPTION_LIST,
            &self.payment_option_list,
        );
        put_record(writer, names::CHARGE_SERVICE, &self.charge_service);
        put_optional(writer, names::SERVICE_LIST, &self.service_list);
    }
}

impl<'a> Record<'a> for ServiceDiscoveryRes<'a> {
    ghost use Rattle.std.proofs.Common.{rules};

    type Made = Elements4<
        RequiredValue<ResponseCode>,
        Required<PaymentOptionList>,
        Required<ChargeService<'a>>,
        Optional<ServiceList<'a>, { names::SERVICE_LIST }>,
    >;

    fn of(made: Self::Made) -> ServiceDiscoveryRes<'a> {
        let Elements4(
            RequiredValue(response_code),
            Required(payment_option_list),
            Required(charge_service),
            Optional(service_list),
        ) = made;
        ServiceDiscoveryRes {
            response_code,
            payment_option_list,
            charge_service,
            service_list,
        }
    }

    ghost declared = { Prim.search rules };
}

impl<'a> ReadRecord<'a> for ServiceDiscoveryRes<'a> {
    fn read<P: Places>(
        descent: &mut Descent<'a, '_, P>,
    ) -> Result<ServiceDiscoveryRes<'a>, Refusal> {
        whole_record(descent)
    }
}
