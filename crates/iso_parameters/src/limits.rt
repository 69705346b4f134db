//! Types of elements of the messages of ISO 15118-2.

ghost use Rattle.std.specs.Prelude.{[]};

use exi_documents::Refusal;
use exi_schema::Places;
use iso_schedules::iso_parts::message_fields::{
    Elements2, Elements3, Optional, OptionalValue, Required,
};
use iso_schedules::iso_parts::{AcEvseStatus, DcEvStatus, DcEvseStatus, PhysicalValue};
use iso_schema::names;
use message_parts::exi_events::EventWriter;
use message_parts::{
    Choice, Descent, PutChoice, PutRecord, ReadRecord, Record, member, put_optional,
    put_optional_value, put_record, whole_record,
};

/// AC_EVChargeParameter.
#[derive(Clone, Copy)]
pub struct AcEvChargeParameter {
    pub departure_time: Option<u32>,
    pub e_amount: PhysicalValue,
    pub ev_max_voltage: PhysicalValue,
    pub ev_max_current: PhysicalValue,
    pub ev_min_current: PhysicalValue,
}

impl PutRecord for AcEvChargeParameter {
    ghost use Rattle.std.specs.Prelude.{refl};
    ghost use Rattle.iso_schema.specs.Declarations.{kinds};
    ghost use Rattle.iso_schema.specs.Parameters.{ac_ev_charge_parameter};
    ghost use Rattle.iso_parameters.specs.Limits.{ac_ev_charge_parameter_parts};

    ghost kinds = { kinds };

    ghost attributes = { [] };

    ghost particles = { ac_ev_charge_parameter };

    ghost apart = { refl };

    ghost given = { λ v. [] };

    ghost parts = { ac_ev_charge_parameter_parts };

    fn write<P: Places>(&self, writer: &mut EventWriter<'_, '_, P>) {
        put_optional_value(writer, names::DEPARTURE_TIME, &self.departure_time);
        put_record(writer, names::E_AMOUNT, &self.e_amount);
        put_record(writer, names::EV_MAX_VOLTAGE, &self.ev_max_voltage);
        put_record(writer, names::EV_MAX_CURRENT, &self.ev_max_current);
        put_record(writer, names::EV_MIN_CURRENT, &self.ev_min_current);
    }
}

impl<'a> Record<'a> for AcEvChargeParameter {
    ghost use Rattle.std.proofs.Common.{rules};

    type Made = Elements2<
        (
            OptionalValue<u32, { names::DEPARTURE_TIME }>,
            Required<PhysicalValue>,
            Required<PhysicalValue>,
        ),
        (Required<PhysicalValue>, Required<PhysicalValue>),
    >;

    fn of(made: Self::Made) -> AcEvChargeParameter {
        let Elements2(
            (OptionalValue(departure_time), Required(e_amount), Required(ev_max_voltage)),
            (Required(ev_max_current), Required(ev_min_current)),
        ) = made;
        AcEvChargeParameter {
            departure_time,
            e_amount,
            ev_max_voltage,
            ev_max_current,
            ev_min_current,
        }
    }

    ghost declared = { Prim.search rules };
}

impl<'a> ReadRecord<'a> for AcEvChargeParameter {
    fn read<P: Places>(descent: &mut Descent<'a, '_, P>) -> Result<AcEvChargeParameter, Refusal> {
        whole_record(descent)
    }
}

/// DC_EVChargeParameter.
#[derive(Clone, Copy)]
pub struct DcEvChargeParameter {
    pub departure_time: Option<u32>,
    pub dc_ev_status: DcEvStatus,
    pub ev_maximum_current_limit: PhysicalValue,
    pub ev_maximum_power_limit: Option<PhysicalValue>,
    pub ev_maximum_voltage_limit: PhysicalValue,
    pub ev_energy_capacity: Option<PhysicalValue>,
    pub ev_energy_request: Option<PhysicalValue>,
    /// 0 to 100.
    pub full_soc: Option<u8>,
    /// 0 to 100.
    pub bulk_soc: Option<u8>,
}

impl PutRecord for DcEvChargeParameter {
    ghost use Rattle.std.specs.Prelude.{refl};
    ghost use Rattle.iso_schema.specs.Declarations.{kinds};
    ghost use Rattle.iso_schema.specs.Parameters.{dc_ev_charge_parameter};
    ghost use Rattle.iso_parameters.specs.Limits.{dc_ev_charge_parameter_parts};

    ghost kinds = { kinds };

    ghost attributes = { [] };

    ghost particles = { dc_ev_charge_parameter };

    ghost apart = { refl };

    ghost given = { λ v. [] };

    ghost parts = { dc_ev_charge_parameter_parts };

    fn write<P: Places>(&self, writer: &mut EventWriter<'_, '_, P>) {
        put_optional_value(writer, names::DEPARTURE_TIME, &self.departure_time);
        put_record(writer, names::DC_EV_STATUS, &self.dc_ev_status);
        put_record(
            writer,
            names::EV_MAXIMUM_CURRENT_LIMIT,
            &self.ev_maximum_current_limit,
        );
        put_optional(
            writer,
            names::EV_MAXIMUM_POWER_LIMIT,
            &self.ev_maximum_power_limit,
        );
        put_record(
            writer,
            names::EV_MAXIMUM_VOLTAGE_LIMIT,
            &self.ev_maximum_voltage_limit,
        );
        put_optional(writer, names::EV_ENERGY_CAPACITY, &self.ev_energy_capacity);
        put_optional(writer, names::EV_ENERGY_REQUEST, &self.ev_energy_request);
        put_optional_value(writer, names::FULL_SOC, &self.full_soc);
        put_optional_value(writer, names::BULK_SOC, &self.bulk_soc);
    }
}

impl<'a> Record<'a> for DcEvChargeParameter {
    ghost use Rattle.std.proofs.Common.{rules};

    type Made = Elements3<
        (
            OptionalValue<u32, { names::DEPARTURE_TIME }>,
            Required<DcEvStatus>,
            Required<PhysicalValue>,
        ),
        (
            Optional<PhysicalValue, { names::EV_MAXIMUM_POWER_LIMIT }>,
            Required<PhysicalValue>,
            Optional<PhysicalValue, { names::EV_ENERGY_CAPACITY }>,
        ),
        (
            Optional<PhysicalValue, { names::EV_ENERGY_REQUEST }>,
            OptionalValue<u8, { names::FULL_SOC }>,
            OptionalValue<u8, { names::BULK_SOC }>,
        ),
    >;

    fn of(made: Self::Made) -> DcEvChargeParameter {
        let Elements3(
            (
                OptionalValue(departure_time),
                Required(dc_ev_status),
                Required(ev_maximum_current_limit),
            ),
            (
                Optional(ev_maximum_power_limit),
                Required(ev_maximum_voltage_limit),
                Optional(ev_energy_capacity),
            ),
            (Optional(ev_energy_request), OptionalValue(full_soc), OptionalValue(bulk_soc)),
        ) = made;
        DcEvChargeParameter {
            departure_time,
            dc_ev_status,
            ev_maximum_current_limit,
            ev_maximum_power_limit,
            ev_maximum_voltage_limit,
            ev_energy_capacity,
            ev_energy_request,
            full_soc,
            bulk_soc,
        }
    }

    ghost declared = { Prim.search rules };
}

impl<'a> ReadRecord<'a> for DcEvChargeParameter {
    fn read<P: Places>(descent: &mut Descent<'a, '_, P>) -> Result<DcEvChargeParameter, Refusal> {
        whole_record(descent)
    }
}

/// One element of the substitution group EVChargeParameter.
#[derive(Clone, Copy)]
pub enum EvChargeParameter {
    Ac(AcEvChargeParameter),
    Dc(DcEvChargeParameter),
}

impl PutChoice for EvChargeParameter {
    ghost use Rattle.iso_schema.specs.Declarations.{kinds};
    ghost use Rattle.iso_parameters.specs.Limits.{ev_charge_parameter_members, ev_charge_parameter_name, ev_charge_parameter_inside};

    ghost kinds = { kinds };

    ghost members = { ev_charge_parameter_members };

    ghost name = { ev_charge_parameter_name };

    ghost inside = { ev_charge_parameter_inside };

    fn write_member<P: Places>(&self, writer: &mut EventWriter<'_, '_, P>) {
        match self {
            EvChargeParameter::Ac(ac) => put_record(writer, names::AC_EV_CHARGE_PARAMETER, ac),
            EvChargeParameter::Dc(dc) => put_record(writer, names::DC_EV_CHARGE_PARAMETER, dc),
        }
    }
}

impl<'a> Choice<'a> for EvChargeParameter {
    fn read_member<P: Places>(
        descent: &mut Descent<'a, '_, P>,
    ) -> Result<EvChargeParameter, Refusal> {
        if descent.is_at(names::AC_EV_CHARGE_PARAMETER) {
            member(descent).map(EvChargeParameter::Ac)
        } else {
            member(descent).map(EvChargeParameter::Dc)
        }
    }
}

/// AC_EVSEChargeParameter.
#[derive(Clone, Copy, Default)]
pub struct AcEvseChargeParameter {
    pub ac_evse_status: AcEvseStatus,
    pub evse_nominal_voltage: PhysicalValue,
    pub evse_max_current: PhysicalValue,
}

impl PutRecord for AcEvseChargeParameter {
    ghost use Rattle.std.specs.Prelude.{refl};
    ghost use Rattle.iso_schema.specs.Declarations.{kinds};
    ghost use Rattle.iso_schema.specs.Schedules.{ac_evse_charge_parameter};
    ghost use Rattle.iso_parameters.specs.Limits.{ac_evse_charge_parameter_parts};

    ghost kinds = { kinds };

    ghost attributes = { [] };

    ghost particles = { ac_evse_charge_parameter };

    ghost apart = { refl };

    ghost given = { λ v. [] };

    ghost parts = { ac_evse_charge_parameter_parts };

    fn write<P: Places>(&self, writer: &mut EventWriter<'_, '_, P>) {
        put_record(writer, names::AC_EVSE_STATUS, &self.ac_evse_status);
        put_record(
            writer,
            names::EVSE_NOMINAL_VOLTAGE,
            &self.evse_nominal_voltage,
        );
        put_record(writer, names::EVSE_MAX_CURRENT, &self.evse_max_current);
    }
}

impl<'a> Record<'a> for AcEvseChargeParameter {
    ghost use Rattle.std.proofs.Common.{rules};

    type Made = Elements3<Required<AcEvseStatus>, Required<PhysicalValue>, Required<PhysicalValue>>;

    fn of(made: Self::Made) -> AcEvseChargeParameter {
        let Elements3(
            Required(ac_evse_status),
            Required(evse_nominal_voltage),
            Required(evse_max_current),
        ) = made;
        AcEvseChargeParameter {
            ac_evse_status,
            evse_nominal_voltage,
            evse_max_current,
        }
    }

    ghost declared = { Prim.search rules };
}

impl<'a> ReadRecord<'a> for AcEvseChargeParameter {
    fn read<P: Places>(descent: &mut Descent<'a, '_, P>) -> Result<AcEvseChargeParameter, Refusal> {
        whole_record(descent)
    }
}

/// DC_EVSEChargeParameter.
#[derive(Clone, Copy)]
pub struct DcEvseChargeParameter {
    pub dc_evse_status: DcEvseStatus,
    pub evse_maximum_current_limit: PhysicalValue,
    pub evse_maximum_power_limit: PhysicalValue,
    pub evse_maximum_voltage_limit: PhysicalValue,
    pub evse_minimum_current_limit: PhysicalValue,
    pub evse_minimum_voltage_limit: PhysicalValue,
    pub evse_current_regulation_tolerance: Option<PhysicalValue>,
    pub evse_peak_current_ripple: PhysicalValue,
    pub evse_energy_to_be_delivered: Option<PhysicalValue>,
}

impl PutRecord for DcEvseChargeParameter {
    ghost use Rattle.std.specs.Prelude.{refl};
    ghost use Rattle.iso_schema.specs.Declarations.{kinds};
    ghost use Rattle.iso_schema.specs.Schedules.{dc_evse_charge_parameter};
    ghost use Rattle.iso_parameters.specs.Limits.{dc_evse_charge_parameter_parts};

    ghost kinds = { kinds };

    ghost attributes = { [] };

    ghost particles = { dc_evse_charge_parameter };

    ghost apart = { refl };

    ghost given = { λ v. [] };

    ghost parts = { dc_evse_charge_parameter_parts };

    fn write<P: Places>(&self, writer: &mut EventWriter<'_, '_, P>) {
        put_record(writer, names::DC_EVSE_STATUS, &self.dc_evse_status);
        put_record(
            writer,
            names::EVSE_MAXIMUM_CURRENT_LIMIT,
            &self.evse_maximum_current_limit,
        );
        put_record(
            writer,
            names::EVSE_MAXIMUM_POWER_LIMIT,
            &self.evse_maximum_power_limit,
        );
        put_record(
            writer,
            names::EVSE_MAXIMUM_VOLTAGE_LIMIT,
            &self.evse_maximum_voltage_limit,
        );
        put_record(
            writer,
            names::EVSE_MINIMUM_CURRENT_LIMIT,
            &self.evse_minimum_current_limit,
        );
        put_record(
            writer,
            names::EVSE_MINIMUM_VOLTAGE_LIMIT,
            &self.evse_minimum_voltage_limit,
        );
        put_optional(
            writer,
            names::EVSE_CURRENT_REGULATION_TOLERANCE,
            &self.evse_current_regulation_tolerance,
        );
        put_record(
            writer,
            names::EVSE_PEAK_CURRENT_RIPPLE,
            &self.evse_peak_current_ripple,
        );
        put_optional(
            writer,
            names::EVSE_ENERGY_TO_BE_DELIVERED,
            &self.evse_energy_to_be_delivered,
        );
    }
}

impl<'a> Record<'a> for DcEvseChargeParameter {
    ghost use Rattle.std.proofs.Common.{rules};

    type Made = Elements3<
        (
            Required<DcEvseStatus>,
            Required<PhysicalValue>,
            Required<PhysicalValue>,
        ),
        (
            Required<PhysicalValue>,
            Required<PhysicalValue>,
            Required<PhysicalValue>,
        ),
        (
            Optional<PhysicalValue, { names::EVSE_CURRENT_REGULATION_TOLERANCE }>,
            Required<PhysicalValue>,
            Optional<PhysicalValue, { names::EVSE_ENERGY_TO_BE_DELIVERED }>,
        ),
    >;

    fn of(made: Self::Made) -> DcEvseChargeParameter {
        let Elements3(
            (
                Required(dc_evse_status),
                Required(evse_maximum_current_limit),
                Required(evse_maximum_power_limit),
            ),
            (
                Required(evse_maximum_voltage_limit),
                Required(evse_minimum_current_limit),
                Required(evse_minimum_voltage_limit),
            ),
            (
                Optional(evse_current_regulation_tolerance),
                Required(evse_peak_current_ripple),
                Optional(evse_energy_to_be_delivered),
            ),
        ) = made;
        DcEvseChargeParameter {
            dc_evse_status,
            evse_maximum_current_limit,
            evse_maximum_power_limit,
            evse_maximum_voltage_limit,
            evse_minimum_current_limit,
            evse_minimum_voltage_limit,
            evse_current_regulation_tolerance,
            evse_peak_current_ripple,
            evse_energy_to_be_delivered,
        }
    }

    ghost declared = { Prim.search rules };
}

impl<'a> ReadRecord<'a> for DcEvseChargeParameter {
    fn read<P: Places>(descent: &mut Descent<'a, '_, P>) -> Result<DcEvseChargeParameter, Refusal> {
        whole_record(descent)
    }
}

/// One element of the substitution group EVSEChargeParameter.
#[derive(Clone, Copy)]
pub enum EvseChargeParameter {
    Ac(AcEvseChargeParameter),
    Dc(DcEvseChargeParameter),
}

impl Default for EvseChargeParameter {
    fn default() -> EvseChargeParameter {
        EvseChargeParameter::Ac(AcEvseChargeParameter::default())
    }
}

impl PutChoice for EvseChargeParameter {
    ghost use Rattle.iso_schema.specs.Declarations.{kinds};
    ghost use Rattle.iso_parameters.specs.Limits.{evse_charge_parameter_members, evse_charge_parameter_name, evse_charge_parameter_inside};

    ghost kinds = { kinds };

    ghost members = { evse_charge_parameter_members };

    ghost name = { evse_charge_parameter_name };

    ghost inside = { evse_charge_parameter_inside };

    fn write_member<P: Places>(&self, writer: &mut EventWriter<'_, '_, P>) {
        match self {
            EvseChargeParameter::Ac(ac) => put_record(writer, names::AC_EVSE_CHARGE_PARAMETER, ac),
            EvseChargeParameter::Dc(dc) => put_record(writer, names::DC_EVSE_CHARGE_PARAMETER, dc),
        }
    }
}

impl<'a> Choice<'a> for EvseChargeParameter {
    fn read_member<P: Places>(
        descent: &mut Descent<'a, '_, P>,
    ) -> Result<EvseChargeParameter, Refusal> {
        if descent.is_at(names::AC_EVSE_CHARGE_PARAMETER) {
            member(descent).map(EvseChargeParameter::Ac)
        } else {
            member(descent).map(EvseChargeParameter::Dc)
        }
    }
}
