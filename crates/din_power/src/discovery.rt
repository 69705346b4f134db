//! Types of elements of the messages of DIN SPEC 70121.

ghost use Rattle.std.specs.Prelude.{[]};

use crate::limits::{EvChargeParameter, EvseChargeParameter};
use crate::schedules::SaSchedules;
use din_parts::message_fields::{Elements2, OneOf, RequiredValue};
use din_parts::{EnergyTransferMode, EvseProcessing, ResponseCode};
use din_schema::names;
use exi_documents::Refusal;
use exi_schema::Places;
use message_parts::exi_events::EventWriter;
use message_parts::{
    Descent, LargeRecord, PutRecord, ReadRecord, Record, choice, first_child, optional_choice_here,
    put_choice, put_optional_choice, put_value, value, whole_record,
};

/// ChargeParameterDiscoveryReq.
#[derive(Clone, Copy)]
pub struct ChargeParameterDiscoveryReq {
    pub ev_requested_energy_transfer_type: EnergyTransferMode,
    pub ev_charge_parameter: EvChargeParameter,
}

impl PutRecord for ChargeParameterDiscoveryReq {
    ghost use Rattle.std.specs.Prelude.{refl};
    ghost use Rattle.din_schema.specs.Declarations.{kinds};
    ghost use Rattle.din_schema.specs.Parameters.{charge_parameter_discovery_req};
    ghost use Rattle.din_power.specs.Discovery.{charge_parameter_discovery_req_parts};

    ghost kinds = { kinds };

    ghost attributes = { [] };

    ghost particles = { charge_parameter_discovery_req };

    ghost apart = { refl };

    ghost given = { λ v. [] };

    ghost parts = { charge_parameter_discovery_req_parts };

    fn write<P: Places>(&self, writer: &mut EventWriter<'_, '_, P>) {
        put_value(
            writer,
            names::EV_REQUESTED_ENERGY_TRANSFER_TYPE,
            &self.ev_requested_energy_transfer_type,
        );
        put_choice(writer, &self.ev_charge_parameter);
    }
}

impl<'a> Record<'a> for ChargeParameterDiscoveryReq {
    ghost use Rattle.std.proofs.Common.{rules};

    type Made = Elements2<RequiredValue<EnergyTransferMode>, OneOf<EvChargeParameter>>;

    fn of(made: Self::Made) -> ChargeParameterDiscoveryReq {
        let Elements2(
            RequiredValue(ev_requested_energy_transfer_type),
            OneOf(ev_charge_parameter),
        ) = made;
        ChargeParameterDiscoveryReq {
            ev_requested_energy_transfer_type,
            ev_charge_parameter,
        }
    }

    ghost declared = { Prim.search rules };
}

impl<'a> ReadRecord<'a> for ChargeParameterDiscoveryReq {
    fn read<P: Places>(
        descent: &mut Descent<'a, '_, P>,
    ) -> Result<ChargeParameterDiscoveryReq, Refusal> {
        whole_record(descent)
    }
}

/// ChargeParameterDiscoveryRes.
#[derive(Drop, Default)]
pub struct ChargeParameterDiscoveryRes {
    pub response_code: ResponseCode,
    pub evse_processing: EvseProcessing,
    pub sa_schedules: Option<SaSchedules>,
    pub evse_charge_parameter: EvseChargeParameter,
}

impl PutRecord for ChargeParameterDiscoveryRes {
    ghost use Rattle.std.specs.Prelude.{refl};
    ghost use Rattle.din_schema.specs.Declarations.{kinds};
    ghost use Rattle.din_schema.specs.Parameters.{charge_parameter_discovery_res};
    ghost use Rattle.din_power.specs.Discovery.{charge_parameter_discovery_res_parts};

    ghost kinds = { kinds };

    ghost attributes = { [] };

    ghost particles = { charge_parameter_discovery_res };

    ghost apart = { refl };

    ghost given = { λ v. [] };

    ghost parts = { charge_parameter_discovery_res_parts };

    fn write<P: Places>(&self, writer: &mut EventWriter<'_, '_, P>) {
        put_value(writer, names::RESPONSE_CODE, &self.response_code);
        put_value(writer, names::EVSE_PROCESSING, &self.evse_processing);
        put_optional_choice(writer, &self.sa_schedules);
        put_choice(writer, &self.evse_charge_parameter);
    }
}

impl<'a> LargeRecord<'a> for ChargeParameterDiscoveryRes {
    fn read_here<P: Places>(&mut self, descent: &mut Descent<'a, '_, P>) -> Result<(), Refusal> {
        first_child(descent)?;
        self.response_code = value(descent)?;
        self.evse_processing = value(descent)?;
        optional_choice_here(&mut self.sa_schedules, descent)?;
        self.evse_charge_parameter = choice(descent)?;
        Ok(())
    }
}
