//! Types of elements of the messages of DIN SPEC 70121.

ghost use Rattle.std.specs.Prelude.{[]};

use din_parts::message_fields::{
    Elements, Elements3, Optional, OptionalValue, Required, RequiredValue,
};
use din_parts::{DcEvStatus, DcEvseStatus, EvseProcessing, PhysicalValue, ResponseCode};
use din_schema::names;
use exi_documents::Refusal;
use exi_schema::Places;
use message_parts::exi_events::EventWriter;
use message_parts::{
    Descent, PutRecord, ReadRecord, Record, put_optional, put_optional_value, put_record,
    put_value, whole_record,
};

/// CableCheckReq.
#[derive(Clone, Copy)]
pub struct CableCheckReq {
    pub dc_ev_status: DcEvStatus,
}

impl PutRecord for CableCheckReq {
    ghost use Rattle.std.specs.Prelude.{refl};
    ghost use Rattle.din_schema.specs.Declarations.{kinds};
    ghost use Rattle.din_schema.specs.Charging.{cable_check_req};
    ghost use Rattle.din_power.specs.Charging.{cable_check_req_parts};

    ghost kinds = { kinds };

    ghost attributes = { [] };

    ghost particles = { cable_check_req };

    ghost apart = { refl };

    ghost given = { λ v. [] };

    ghost parts = { cable_check_req_parts };

    fn write<P: Places>(&self, writer: &mut EventWriter<'_, '_, P>) {
        put_record(writer, names::DC_EV_STATUS, &self.dc_ev_status);
    }
}

impl<'a> Record<'a> for CableCheckReq {
    ghost use Rattle.std.proofs.Common.{rules};

    type Made = Elements<Required<DcEvStatus>>;

    fn of(made: Self::Made) -> CableCheckReq {
        let Elements(Required(dc_ev_status)) = made;
        CableCheckReq { dc_ev_status }
    }

    ghost declared = { Prim.search rules };
}

impl<'a> ReadRecord<'a> for CableCheckReq {
    fn read<P: Places>(descent: &mut Descent<'a, '_, P>) -> Result<CableCheckReq, Refusal> {
        whole_record(descent)
    }
}

/// CableCheckRes.
#[derive(Clone, Copy)]
pub struct CableCheckRes {
    pub response_code: ResponseCode,
    pub dc_evse_status: DcEvseStatus,
    pub evse_processing: EvseProcessing,
}

impl PutRecord for CableCheckRes {
    ghost use Rattle.std.specs.Prelude.{refl};
    ghost use Rattle.din_schema.specs.Declarations.{kinds};
    ghost use Rattle.din_schema.specs.Charging.{cable_check_res};
    ghost use Rattle.din_power.specs.Charging.{cable_check_res_parts};

    ghost kinds = { kinds };

    ghost attributes = { [] };

    ghost particles = { cable_check_res };

    ghost apart = { refl };

    ghost given = { λ v. [] };

    ghost parts = { cable_check_res_parts };

    fn write<P: Places>(&self, writer: &mut EventWriter<'_, '_, P>) {
        put_value(writer, names::RESPONSE_CODE, &self.response_code);
        put_record(writer, names::DC_EVSE_STATUS, &self.dc_evse_status);
        put_value(writer, names::EVSE_PROCESSING, &self.evse_processing);
    }
}

impl<'a> Record<'a> for CableCheckRes {
    ghost use Rattle.std.proofs.Common.{rules};

    type Made = Elements3<
        RequiredValue<ResponseCode>,
        Required<DcEvseStatus>,
        RequiredValue<EvseProcessing>,
    >;

    fn of(made: Self::Made) -> CableCheckRes {
        let Elements3(
            RequiredValue(response_code),
            Required(dc_evse_status),
            RequiredValue(evse_processing),
        ) = made;
        CableCheckRes {
            response_code,
            dc_evse_status,
            evse_processing,
        }
    }

    ghost declared = { Prim.search rules };
}

impl<'a> ReadRecord<'a> for CableCheckRes {
    fn read<P: Places>(descent: &mut Descent<'a, '_, P>) -> Result<CableCheckRes, Refusal> {
        whole_record(descent)
    }
}

/// PreChargeReq.
#[derive(Clone, Copy)]
pub struct PreChargeReq {
    pub dc_ev_status: DcEvStatus,
    pub ev_target_voltage: PhysicalValue,
    pub ev_target_current: PhysicalValue,
}

impl PutRecord for PreChargeReq {
    ghost use Rattle.std.specs.Prelude.{refl};
    ghost use Rattle.din_schema.specs.Declarations.{kinds};
    ghost use Rattle.din_schema.specs.Charging.{pre_charge_req};
    ghost use Rattle.din_power.specs.Charging.{pre_charge_req_parts};

    ghost kinds = { kinds };

    ghost attributes = { [] };

    ghost particles = { pre_charge_req };

    ghost apart = { refl };

    ghost given = { λ v. [] };

    ghost parts = { pre_charge_req_parts };

    fn write<P: Places>(&self, writer: &mut EventWriter<'_, '_, P>) {
        put_record(writer, names::DC_EV_STATUS, &self.dc_ev_status);
        put_record(writer, names::EV_TARGET_VOLTAGE, &self.ev_target_voltage);
        put_record(writer, names::EV_TARGET_CURRENT, &self.ev_target_current);
    }
}

impl<'a> Record<'a> for PreChargeReq {
    ghost use Rattle.std.proofs.Common.{rules};

    type Made = Elements3<Required<DcEvStatus>, Required<PhysicalValue>, Required<PhysicalValue>>;

    fn of(made: Self::Made) -> PreChargeReq {
        let Elements3(
            Required(dc_ev_status),
            Required(ev_target_voltage),
            Required(ev_target_current),
        ) = made;
        PreChargeReq {
            dc_ev_status,
            ev_target_voltage,
            ev_target_current,
        }
    }

    ghost declared = { Prim.search rules };
}

impl<'a> ReadRecord<'a> for PreChargeReq {
    fn read<P: Places>(descent: &mut Descent<'a, '_, P>) -> Result<PreChargeReq, Refusal> {
        whole_record(descent)
    }
}

/// PreChargeRes.
#[derive(Clone, Copy)]
pub struct PreChargeRes {
    pub response_code: ResponseCode,
    pub dc_evse_status: DcEvseStatus,
    pub evse_present_voltage: PhysicalValue,
}

impl PutRecord for PreChargeRes {
    ghost use Rattle.std.specs.Prelude.{refl};
    ghost use Rattle.din_schema.specs.Declarations.{kinds};
    ghost use Rattle.din_schema.specs.Charging.{pre_charge_res};
    ghost use Rattle.din_power.specs.Charging.{pre_charge_res_parts};

    ghost kinds = { kinds };

    ghost attributes = { [] };

    ghost particles = { pre_charge_res };

    ghost apart = { refl };

    ghost given = { λ v. [] };

    ghost parts = { pre_charge_res_parts };

    fn write<P: Places>(&self, writer: &mut EventWriter<'_, '_, P>) {
        put_value(writer, names::RESPONSE_CODE, &self.response_code);
        put_record(writer, names::DC_EVSE_STATUS, &self.dc_evse_status);
        put_record(
            writer,
            names::EVSE_PRESENT_VOLTAGE,
            &self.evse_present_voltage,
        );
    }
}

impl<'a> Record<'a> for PreChargeRes {
    ghost use Rattle.std.proofs.Common.{rules};

    type Made = Elements3<
        RequiredValue<ResponseCode>,
        Required<DcEvseStatus>,
        Required<PhysicalValue>,
    >;

    fn of(made: Self::Made) -> PreChargeRes {
        let Elements3(
            RequiredValue(response_code),
            Required(dc_evse_status),
            Required(evse_present_voltage),
        ) = made;
        PreChargeRes {
            response_code,
            dc_evse_status,
            evse_present_voltage,
        }
    }

    ghost declared = { Prim.search rules };
}

impl<'a> ReadRecord<'a> for PreChargeRes {
    fn read<P: Places>(descent: &mut Descent<'a, '_, P>) -> Result<PreChargeRes, Refusal> {
        whole_record(descent)
    }
}

/// CurrentDemandReq.
#[derive(Clone, Copy)]
pub struct CurrentDemandReq {
    pub dc_ev_status: DcEvStatus,
    pub ev_target_current: PhysicalValue,
    pub ev_maximum_voltage_limit: Option<PhysicalValue>,
    pub ev_maximum_current_limit: Option<PhysicalValue>,
    pub ev_maximum_power_limit: Option<PhysicalValue>,
    pub bulk_charging_complete: Option<bool>,
    pub charging_complete: bool,
    pub remaining_time_to_full_so_c: Option<PhysicalValue>,
    pub remaining_time_to_bulk_so_c: Option<PhysicalValue>,
    pub ev_target_voltage: PhysicalValue,
}

impl PutRecord for CurrentDemandReq {
    ghost use Rattle.std.specs.Prelude.{refl};
    ghost use Rattle.din_schema.specs.Declarations.{kinds};
    ghost use Rattle.din_schema.specs.Charging.{current_demand_req};
    ghost use Rattle.din_power.specs.Charging.{current_demand_req_parts};

    ghost kinds = { kinds };

    ghost attributes = { [] };

    ghost particles = { current_demand_req };

    ghost apart = { refl };

    ghost given = { λ v. [] };

    ghost parts = { current_demand_req_parts };

    fn write<P: Places>(&self, writer: &mut EventWriter<'_, '_, P>) {
        put_record(writer, names::DC_EV_STATUS, &self.dc_ev_status);
        put_record(writer, names::EV_TARGET_CURRENT, &self.ev_target_current);
        put_optional(
            writer,
            names::EV_MAXIMUM_VOLTAGE_LIMIT,
            &self.ev_maximum_voltage_limit,
        );
        put_optional(
            writer,
            names::EV_MAXIMUM_CURRENT_LIMIT,
            &self.ev_maximum_current_limit,
        );
        put_optional(
            writer,
            names::EV_MAXIMUM_POWER_LIMIT,
            &self.ev_maximum_power_limit,
        );
        put_optional_value(
            writer,
            names::BULK_CHARGING_COMPLETE,
            &self.bulk_charging_complete,
        );
        put_value(writer, names::CHARGING_COMPLETE, &self.charging_complete);
        put_optional(
            writer,
            names::REMAINING_TIME_TO_FULL_SO_C,
            &self.remaining_time_to_full_so_c,
        );
        put_optional(
            writer,
            names::REMAINING_TIME_TO_BULK_SO_C,
            &self.remaining_time_to_bulk_so_c,
        );
        put_record(writer, names::EV_TARGET_VOLTAGE, &self.ev_target_voltage);
    }
}

impl<'a> Record<'a> for CurrentDemandReq {
    ghost use Rattle.std.proofs.Common.{rules};

    type Made = Elements3<
        (
            Required<DcEvStatus>,
            Required<PhysicalValue>,
            Optional<PhysicalValue, { names::EV_MAXIMUM_VOLTAGE_LIMIT }>,
            Optional<PhysicalValue, { names::EV_MAXIMUM_CURRENT_LIMIT }>,
        ),
        (
            Optional<PhysicalValue, { names::EV_MAXIMUM_POWER_LIMIT }>,
            OptionalValue<bool, { names::BULK_CHARGING_COMPLETE }>,
            RequiredValue<bool>,
        ),
        (
            Optional<PhysicalValue, { names::REMAINING_TIME_TO_FULL_SO_C }>,
            Optional<PhysicalValue, { names::REMAINING_TIME_TO_BULK_SO_C }>,
            Required<PhysicalValue>,
        ),
    >;

    fn of(made: Self::Made) -> CurrentDemandReq {
        let Elements3(
            (
                Required(dc_ev_status),
                Required(ev_target_current),
                Optional(ev_maximum_voltage_limit),
                Optional(ev_maximum_current_limit),
            ),
            (
                Optional(ev_maximum_power_limit),
                OptionalValue(bulk_charging_complete),
                RequiredValue(charging_complete),
            ),
            (
                Optional(remaining_time_to_full_so_c),
                Optional(remaining_time_to_bulk_so_c),
                Required(ev_target_voltage),
            ),
        ) = made;
        CurrentDemandReq {
            dc_ev_status,
            ev_target_current,
            ev_maximum_voltage_limit,
            ev_maximum_current_limit,
            ev_maximum_power_limit,
            bulk_charging_complete,
            charging_complete,
            remaining_time_to_full_so_c,
            remaining_time_to_bulk_so_c,
            ev_target_voltage,
        }
    }

    ghost declared = { Prim.search rules };
}

impl<'a> ReadRecord<'a> for CurrentDemandReq {
    fn read<P: Places>(descent: &mut Descent<'a, '_, P>) -> Result<CurrentDemandReq, Refusal> {
        whole_record(descent)
    }
}

/// CurrentDemandRes.
#[derive(Clone, Copy)]
pub struct CurrentDemandRes {
    pub response_code: ResponseCode,
    pub dc_evse_status: DcEvseStatus,
    pub evse_present_voltage: PhysicalValue,
    pub evse_present_current: PhysicalValue,
    pub evse_current_limit_achieved: bool,
    pub evse_voltage_limit_achieved: bool,
    pub evse_power_limit_achieved: bool,
    pub evse_maximum_voltage_limit: Option<PhysicalValue>,
    pub evse_maximum_current_limit: Option<PhysicalValue>,
    pub evse_maximum_power_limit: Option<PhysicalValue>,
}

impl PutRecord for CurrentDemandRes {
    ghost use Rattle.std.specs.Prelude.{refl};
    ghost use Rattle.din_schema.specs.Declarations.{kinds};
    ghost use Rattle.din_schema.specs.Charging.{current_demand_res};
    ghost use Rattle.din_power.specs.Charging.{current_demand_res_parts};

    ghost kinds = { kinds };

    ghost attributes = { [] };

    ghost particles = { current_demand_res };

    ghost apart = { refl };

    ghost given = { λ v. [] };

    ghost parts = { current_demand_res_parts };

    fn write<P: Places>(&self, writer: &mut EventWriter<'_, '_, P>) {
        put_value(writer, names::RESPONSE_CODE, &self.response_code);
        put_record(writer, names::DC_EVSE_STATUS, &self.dc_evse_status);
        put_record(
            writer,
            names::EVSE_PRESENT_VOLTAGE,
            &self.evse_present_voltage,
        );
        put_record(
            writer,
            names::EVSE_PRESENT_CURRENT,
            &self.evse_present_current,
        );
        put_value(
            writer,
            names::EVSE_CURRENT_LIMIT_ACHIEVED,
            &self.evse_current_limit_achieved,
        );
        put_value(
            writer,
            names::EVSE_VOLTAGE_LIMIT_ACHIEVED,
            &self.evse_voltage_limit_achieved,
        );
        put_value(
            writer,
            names::EVSE_POWER_LIMIT_ACHIEVED,
            &self.evse_power_limit_achieved,
        );
        put_optional(
            writer,
            names::EVSE_MAXIMUM_VOLTAGE_LIMIT,
            &self.evse_maximum_voltage_limit,
        );
        put_optional(
            writer,
            names::EVSE_MAXIMUM_CURRENT_LIMIT,
            &self.evse_maximum_current_limit,
        );
        put_optional(
            writer,
            names::EVSE_MAXIMUM_POWER_LIMIT,
            &self.evse_maximum_power_limit,
        );
    }
}

impl<'a> Record<'a> for CurrentDemandRes {
    ghost use Rattle.std.proofs.Common.{rules};

    type Made = Elements3<
        (
            RequiredValue<ResponseCode>,
            Required<DcEvseStatus>,
            Required<PhysicalValue>,
            Required<PhysicalValue>,
        ),
        (
            RequiredValue<bool>,
            RequiredValue<bool>,
            RequiredValue<bool>,
        ),
        (
            Optional<PhysicalValue, { names::EVSE_MAXIMUM_VOLTAGE_LIMIT }>,
            Optional<PhysicalValue, { names::EVSE_MAXIMUM_CURRENT_LIMIT }>,
            Optional<PhysicalValue, { names::EVSE_MAXIMUM_POWER_LIMIT }>,
        ),
    >;

    fn of(made: Self::Made) -> CurrentDemandRes {
        let Elements3(
            (
                RequiredValue(response_code),
                Required(dc_evse_status),
                Required(evse_present_voltage),
                Required(evse_present_current),
            ),
            (
                RequiredValue(evse_current_limit_achieved),
                RequiredValue(evse_voltage_limit_achieved),
                RequiredValue(evse_power_limit_achieved),
            ),
            (
                Optional(evse_maximum_voltage_limit),
                Optional(evse_maximum_current_limit),
                Optional(evse_maximum_power_limit),
            ),
        ) = made;
        CurrentDemandRes {
            response_code,
            dc_evse_status,
            evse_present_voltage,
            evse_present_current,
            evse_current_limit_achieved,
            evse_voltage_limit_achieved,
            evse_power_limit_achieved,
            evse_maximum_voltage_limit,
            evse_maximum_current_limit,
            evse_maximum_power_limit,
        }
    }

    ghost declared = { Prim.search rules };
}

impl<'a> ReadRecord<'a> for CurrentDemandRes {
    fn read<P: Places>(descent: &mut Descent<'a, '_, P>) -> Result<CurrentDemandRes, Refusal> {
        whole_record(descent)
    }
}

/// WeldingDetectionReq.
#[derive(Clone, Copy)]
pub struct WeldingDetectionReq {
    pub dc_ev_status: DcEvStatus,
}

impl PutRecord for WeldingDetectionReq {
    ghost use Rattle.std.specs.Prelude.{refl};
    ghost use Rattle.din_schema.specs.Declarations.{kinds};
    ghost use Rattle.din_schema.specs.Charging.{welding_detection_req};
    ghost use Rattle.din_power.specs.Charging.{welding_detection_req_parts};

    ghost kinds = { kinds };

    ghost attributes = { [] };

    ghost particles = { welding_detection_req };

    ghost apart = { refl };

    ghost given = { λ v. [] };

    ghost parts = { welding_detection_req_parts };

    fn write<P: Places>(&self, writer: &mut EventWriter<'_, '_, P>) {
        put_record(writer, names::DC_EV_STATUS, &self.dc_ev_status);
    }
}

impl<'a> Record<'a> for WeldingDetectionReq {
    ghost use Rattle.std.proofs.Common.{rules};

    type Made = Elements<Required<DcEvStatus>>;

    fn of(made: Self::Made) -> WeldingDetectionReq {
        let Elements(Required(dc_ev_status)) = made;
        WeldingDetectionReq { dc_ev_status }
    }

    ghost declared = { Prim.search rules };
}

impl<'a> ReadRecord<'a> for WeldingDetectionReq {
    fn read<P: Places>(descent: &mut Descent<'a, '_, P>) -> Result<WeldingDetectionReq, Refusal> {
        whole_record(descent)
    }
}

/// WeldingDetectionRes.
#[derive(Clone, Copy)]
pub struct WeldingDetectionRes {
    pub response_code: ResponseCode,
    pub dc_evse_status: DcEvseStatus,
    pub evse_present_voltage: PhysicalValue,
}

impl PutRecord for WeldingDetectionRes {
    ghost use Rattle.std.specs.Prelude.{refl};
    ghost use Rattle.din_schema.specs.Declarations.{kinds};
    ghost use Rattle.din_schema.specs.Charging.{welding_detection_res};
    ghost use Rattle.din_power.specs.Charging.{welding_detection_res_parts};

    ghost kinds = { kinds };

    ghost attributes = { [] };

    ghost particles = { welding_detection_res };

    ghost apart = { refl };

    ghost given = { λ v. [] };

    ghost parts = { welding_detection_res_parts };

    fn write<P: Places>(&self, writer: &mut EventWriter<'_, '_, P>) {
        put_value(writer, names::RESPONSE_CODE, &self.response_code);
        put_record(writer, names::DC_EVSE_STATUS, &self.dc_evse_status);
        put_record(
            writer,
            names::EVSE_PRESENT_VOLTAGE,
            &self.evse_present_voltage,
        );
    }
}

impl<'a> Record<'a> for WeldingDetectionRes {
    ghost use Rattle.std.proofs.Common.{rules};

    type Made = Elements3<
        RequiredValue<ResponseCode>,
        Required<DcEvseStatus>,
        Required<PhysicalValue>,
    >;

    fn of(made: Self::Made) -> WeldingDetectionRes {
        let Elements3(
            RequiredValue(response_code),
            Required(dc_evse_status),
            Required(evse_present_voltage),
        ) = made;
        WeldingDetectionRes {
            response_code,
            dc_evse_status,
            evse_present_voltage,
        }
    }

    ghost declared = { Prim.search rules };
}

impl<'a> ReadRecord<'a> for WeldingDetectionRes {
    fn read<P: Places>(descent: &mut Descent<'a, '_, P>) -> Result<WeldingDetectionRes, Refusal> {
        whole_record(descent)
    }
}
