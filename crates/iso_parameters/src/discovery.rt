//! Types of elements of the messages of ISO 15118-2.

ghost use Rattle.std.specs.Prelude.{[]};

use crate::limits::{EvChargeParameter, EvseChargeParameter};
use exi_documents::Refusal;
use exi_schema::Places;
use iso_schedules::SaSchedules;
use iso_schedules::iso_parts::message_fields::{Elements3, OneOf, OptionalValue, RequiredValue};
use iso_schedules::iso_parts::{EnergyTransferMode, EvseProcessing, ResponseCode};
use iso_schema::names;
use message_parts::exi_events::EventWriter;
use message_parts::{
    Descent, LargeRecord, PutRecord, ReadRecord, Record, choice, first_child, optional_choice_here,
    put_choice, put_optional_choice, put_optional_value, put_value, value, whole_record,
};

/// ChargeParameterDiscoveryReq.
#[derive(Clone, Copy)]
pub struct ChargeParameterDiscoveryReq {
    pub max_entries_sa_schedule_tuple: Option<u16>,
    pub requested_energy_transfer_mode: EnergyTransferMode,
    pub ev_charge_parameter: EvChargeParameter,
}

impl PutRecord for ChargeParameterDiscoveryReq {
    ghost use Rattle.std.specs.Prelude.{refl};
    ghost use Rattle.iso_schema.specs.Declarations.{kinds};
    ghost use Rattle.iso_schema.specs.Parameters.{charge_parameter_discovery_req};
    ghost use Rattle.iso_parameters.specs.Discovery.{charge_parameter_discovery_req_parts};

    ghost kinds = { kinds };

    ghost attributes = { [] };

    ghost particles = { charge_parameter_discovery_req };

    ghost apart = { refl };

    ghost given = { λ v. [] };

    ghost parts = { charge_parameter_discovery_req_parts };

    fn write<P: Places>(&self, writer: &mut EventWriter<'_, '_, P>) {
        put_optional_value(
            writer,
            names::MAX_ENTRIES_SA_SCHEDULE_TUPLE,
            &self.max_entries_sa_schedule_tuple,
        );
        put_value(
            writer,
            names::REQUESTED_ENERGY_TRANSFER_MODE,
            &self.requested_energy_transfer_mode,
        );
        put_choice(writer, &self.ev_charge_parameter);
    }
}

impl<'a> Record<'a> for ChargeParameterDiscoveryReq {
    ghost use Rattle.std.proofs.Common.{rules};

    type Made = Elements3<
        OptionalValue<u16, { names::MAX_ENTRIES_SA_SCHEDULE_TUPLE }>,
        RequiredValue<EnergyTransferMode>,
        OneOf<EvChargeParameter>,
    >;

    fn of(made: Self::Made) -> ChargeParameterDiscoveryReq {
        let Elements3(
            OptionalValue(max_entries_sa_schedule_tuple),
            RequiredValue(requested_energy_transfer_mode),
            OneOf(ev_charge_parameter),
        ) = made;
        ChargeParameterDiscoveryReq {
            max_entries_sa_schedule_tuple,
            requested_energy_transfer_mode,
            ev_charge_parameter,
        }
    }

    ghost declared = { Prim.search rules };
}

impl<'a> ReadRecord<'a> for ChargeParameterDiscoveryReq {
    fn read<P: Places>(
        descent: &mut Descent<'a, '_, P>,
    ) -> Result<ChargeParameterDiscoveryReq, Refusal> {
        whole_record(descent)
    }
}

/// ChargeParameterDiscoveryRes.
#[derive(Drop, Default)]
pub struct ChargeParameterDiscoveryRes {
    pub response_code: ResponseCode,
    pub evse_processing: EvseProcessing,
    pub sa_schedules: Option<SaSchedules>,
    pub evse_charge_parameter: EvseChargeParameter,
}

impl PutRecord for ChargeParameterDiscoveryRes {
    ghost use Rattle.std.specs.Prelude.{refl};
    ghost use Rattle.iso_schema.specs.Declarations.{kinds};
    ghost use Rattle.iso_schema.specs.Parameters.{charge_parameter_discovery_res};
    ghost use Rattle.iso_parameters.specs.Discovery.{charge_parameter_discovery_res_parts};

    ghost kinds = { kinds };

    ghost attributes = { [] };

    ghost particles = { charge_parameter_discovery_res };

    ghost apart = { refl };

    ghost given = { λ v. [] };

    ghost parts = { charge_parameter_discovery_res_parts };

    fn write<P: Places>(&self, writer: &mut EventWriter<'_, '_, P>) {
        put_value(writer, names::RESPONSE_CODE, &self.response_code);
        put_value(writer, names::EVSE_PROCESSING, &self.evse_processing);
        put_optional_choice(writer, &self.sa_schedules);
        put_choice(writer, &self.evse_charge_parameter);
    }
}

impl<'a> LargeRecord<'a> for ChargeParameterDiscoveryRes {
    fn read_here<P: Places>(&mut self, descent: &mut Descent<'a, '_, P>) -> Result<(), Refusal> {
        first_child(descent)?;
        self.response_code = value(descent)?;
        self.evse_processing = value(descent)?;
        optional_choice_here(&mut self.sa_schedules, descent)?;
        self.evse_charge_parameter = choice(descent)?;
        Ok(())
    }
}
