//! Types of elements of the messages of ISO 15118-2.

ghost use Rattle.std.specs.Prelude.{[]};

use arrayvec::ArrayVec;
use exi_documents::Refusal;
use exi_schema::Places;
use iso_parts::message_fields::{
    AtMostOneOf, Elements, Elements2, Elements3, Elements4, OneOf, Optional, OptionalValue,
    Required, RequiredValue, Several,
};
use iso_parts::message_parts::exi_events::EventWriter;
use iso_parts::message_parts::{
    Choice, Descent, Group, PutChoice, PutRecord, ReadRecord, Record, Text, member, put_choice,
    put_optional, put_optional_choice, put_optional_value, put_record, put_records, put_value,
    whole_record,
};
use iso_parts::{
    AcEvseStatus, ChargeProgress, DcEvStatus, EvseStatus, MeterInfo, PhysicalValue, ResponseCode,
};
use iso_schema::names;

/// ProfileEntry.
#[derive(Clone, Copy, Default)]
pub struct ProfileEntry {
    pub charging_profile_entry_start: u32,
    pub charging_profile_entry_max_power: PhysicalValue,
    /// 1 to 3.
    pub charging_profile_entry_max_number_of_phases_in_use: Option<u8>,
}

impl PutRecord for ProfileEntry {
    ghost use Rattle.std.specs.Prelude.{refl};
    ghost use Rattle.iso_schema.specs.Declarations.{kinds};
    ghost use Rattle.iso_schema.specs.Delivery.{profile_entry};
    ghost use Rattle.iso_delivery.specs.Delivery.{profile_entry_parts};

    ghost kinds = { kinds };

    ghost attributes = { [] };

    ghost particles = { profile_entry };

    ghost apart = { refl };

    ghost given = { λ v. [] };

    ghost parts = { profile_entry_parts };

    fn write<P: Places>(&self, writer: &mut EventWriter<'_, '_, P>) {
        put_value(
            writer,
            names::CHARGING_PROFILE_ENTRY_START,
            &self.charging_profile_entry_start,
        );
        put_record(
            writer,
            names::CHARGING_PROFILE_ENTRY_MAX_POWER,
            &self.charging_profile_entry_max_power,
        );
        put_optional_value(
            writer,
            names::CHARGING_PROFILE_ENTRY_MAX_NUMBER_OF_PHASES_IN_USE,
            &self.charging_profile_entry_max_number_of_phases_in_use,
        );
    }
}

impl<'a> Record<'a> for ProfileEntry {
    ghost use Rattle.std.proofs.Common.{rules};

    type Made = Elements3<
        RequiredValue<u32>,
        Required<PhysicalValue>,
        OptionalValue<u8, { names::CHARGING_PROFILE_ENTRY_MAX_NUMBER_OF_PHASES_IN_USE }>,
    >;

    fn of(made: Self::Made) -> ProfileEntry {
        let Elements3(
            RequiredValue(charging_profile_entry_start),
            Required(charging_profile_entry_max_power),
            OptionalValue(charging_profile_entry_max_number_of_phases_in_use),
        ) = made;
        ProfileEntry {
            charging_profile_entry_start,
            charging_profile_entry_max_power,
            charging_profile_entry_max_number_of_phases_in_use,
        }
    }

    ghost declared = { Prim.search rules };
}

impl<'a> ReadRecord<'a> for ProfileEntry {
    fn read<P: Places>(descent: &mut Descent<'a, '_, P>) -> Result<ProfileEntry, Refusal> {
        whole_record(descent)
    }
}

/// ChargingProfile.
#[derive(Drop)]
pub struct ChargingProfile {
    /// 1 to 24.
    pub profile_entry: ArrayVec<ProfileEntry, 24>,
}

impl PutRecord for ChargingProfile {
    ghost use Rattle.std.specs.Prelude.{refl};
    ghost use Rattle.iso_schema.specs.Declarations.{kinds};
    ghost use Rattle.iso_schema.specs.Delivery.{charging_profile};
    ghost use Rattle.iso_delivery.specs.Delivery.{charging_profile_parts};

    ghost kinds = { kinds };

    ghost attributes = { [] };

    ghost particles = { charging_profile };

    ghost apart = { refl };

    ghost given = { λ v. [] };

    ghost parts = { charging_profile_parts };

    fn write<P: Places>(&self, writer: &mut EventWriter<'_, '_, P>) {
        put_records(writer, names::PROFILE_ENTRY, &self.profile_entry);
    }
}

impl<'a> Record<'a> for ChargingProfile {
    ghost use Rattle.std.proofs.Common.{rules};

    type Made = Elements<Several<ProfileEntry, 24, { names::PROFILE_ENTRY }>>;

    fn of(made: Self::Made) -> ChargingProfile {
        let Elements(Several(profile_entry)) = made;
        ChargingProfile { profile_entry }
    }

    ghost declared = { Prim.search rules };
}

impl<'a> ReadRecord<'a> for ChargingProfile {
    fn read<P: Places>(descent: &mut Descent<'a, '_, P>) -> Result<ChargingProfile, Refusal> {
        whole_record(descent)
    }
}

/// DC_EVPowerDeliveryParameter.
#[derive(Clone, Copy)]
pub struct DcEvPowerDeliveryParameter {
    pub dc_ev_status: DcEvStatus,
    pub bulk_charging_complete: Option<bool>,
    pub charging_complete: bool,
}

impl PutRecord for DcEvPowerDeliveryParameter {
    ghost use Rattle.std.specs.Prelude.{refl};
    ghost use Rattle.iso_schema.specs.Declarations.{kinds};
    ghost use Rattle.iso_schema.specs.Delivery.{dc_ev_power_delivery_parameter};
    ghost use Rattle.iso_delivery.specs.Delivery.{dc_ev_power_delivery_parameter_parts};

    ghost kinds = { kinds };

    ghost attributes = { [] };

    ghost particles = { dc_ev_power_delivery_parameter };

    ghost apart = { refl };

    ghost given = { λ v. [] };

    ghost parts = { dc_ev_power_delivery_parameter_parts };

    fn write<P: Places>(&self, writer: &mut EventWriter<'_, '_, P>) {
        put_record(writer, names::DC_EV_STATUS, &self.dc_ev_status);
        put_optional_value(
            writer,
            names::BULK_CHARGING_COMPLETE,
            &self.bulk_charging_complete,
        );
        put_value(writer, names::CHARGING_COMPLETE, &self.charging_complete);
    }
}

impl<'a> Record<'a> for DcEvPowerDeliveryParameter {
    ghost use Rattle.std.proofs.Common.{rules};

    type Made = Elements3<
        Required<DcEvStatus>,
        OptionalValue<bool, { names::BULK_CHARGING_COMPLETE }>,
        RequiredValue<bool>,
    >;

    fn of(made: Self::Made) -> DcEvPowerDeliveryParameter {
        let Elements3(
            Required(dc_ev_status),
            OptionalValue(bulk_charging_complete),
            RequiredValue(charging_complete),
        ) = made;
        DcEvPowerDeliveryParameter {
            dc_ev_status,
            bulk_charging_complete,
            charging_complete,
        }
    }

    ghost declared = { Prim.search rules };
}

impl<'a> ReadRecord<'a> for DcEvPowerDeliveryParameter {
    fn read<P: Places>(
        descent: &mut Descent<'a, '_, P>,
    ) -> Result<DcEvPowerDeliveryParameter, Refusal> {
        whole_record(descent)
    }
}

/// One element of the substitution group EVPowerDeliveryParameter.
#[derive(Clone, Copy)]
pub enum EvPowerDeliveryParameter {
    Dc(DcEvPowerDeliveryParameter),
}

impl PutChoice for EvPowerDeliveryParameter {
    ghost use Rattle.iso_schema.specs.Declarations.{kinds};
    ghost use Rattle.iso_delivery.specs.Delivery.{ev_power_delivery_parameter_members, ev_power_delivery_parameter_name, ev_power_delivery_parameter_inside};

    ghost kinds = { kinds };

    ghost members = { ev_power_delivery_parameter_members };

    ghost name = { ev_power_delivery_parameter_name };

    ghost inside = { ev_power_delivery_parameter_inside };

    fn write_member<P: Places>(&self, writer: &mut EventWriter<'_, '_, P>) {
        match self {
            EvPowerDeliveryParameter::Dc(dc) => put_record(
                writer,
                names::DC_EV_POWER_DELIVERY_PARAMETER,
                dc,
            ),
        }
    }
}

impl<'a> Choice<'a> for EvPowerDeliveryParameter {
    fn read_member<P: Places>(
        descent: &mut Descent<'a, '_, P>,
    ) -> Result<EvPowerDeliveryParameter, Refusal> {
        member(descent).map(EvPowerDeliveryParameter::Dc)
    }
}

impl<'a> Group<'a> for EvPowerDeliveryParameter {
    fn names() -> &'static [u16] {
        &[names::DC_EV_POWER_DELIVERY_PARAMETER]
    }
}

/// PowerDeliveryReq.
#[derive(Drop)]
pub struct PowerDeliveryReq {
    pub charge_progress: ChargeProgress,
    /// 1 to 255.
    pub sa_schedule_tuple_id: u8,
    pub charging_profile: Option<ChargingProfile>,
    pub ev_power_delivery_parameter: Option<EvPowerDeliveryParameter>,
}

impl PutRecord for PowerDeliveryReq {
    ghost use Rattle.std.specs.Prelude.{refl};
    ghost use Rattle.iso_schema.specs.Declarations.{kinds};
    ghost use Rattle.iso_schema.specs.Delivery.{power_delivery_req};
    ghost use Rattle.iso_delivery.specs.Delivery.{power_delivery_req_parts};

    ghost kinds = { kinds };

    ghost attributes = { [] };

    ghost particles = { power_delivery_req };

    ghost apart = { refl };

    ghost given = { λ v. [] };

    ghost parts = { power_delivery_req_parts };

    fn write<P: Places>(&self, writer: &mut EventWriter<'_, '_, P>) {
        put_value(writer, names::CHARGE_PROGRESS, &self.charge_progress);
        put_value(
            writer,
            names::SA_SCHEDULE_TUPLE_ID,
            &self.sa_schedule_tuple_id,
        );
        put_optional(writer, names::CHARGING_PROFILE, &self.charging_profile);
        put_optional_choice(writer, &self.ev_power_delivery_parameter);
    }
}

impl<'a> Record<'a> for PowerDeliveryReq {
    ghost use Rattle.std.proofs.Common.{rules};

    type Made = Elements4<
        RequiredValue<ChargeProgress>,
        RequiredValue<u8>,
        Optional<ChargingProfile, { names::CHARGING_PROFILE }>,
        AtMostOneOf<EvPowerDeliveryParameter>,
    >;

    fn of(made: Self::Made) -> PowerDeliveryReq {
        let Elements4(
            RequiredValue(charge_progress),
            RequiredValue(sa_schedule_tuple_id),
            Optional(charging_profile),
            AtMostOneOf(ev_power_delivery_parameter),
        ) = made;
        PowerDeliveryReq {
            charge_progress,
            sa_schedule_tuple_id,
            charging_profile,
            ev_power_delivery_parameter,
        }
    }

    ghost declared = { Prim.search rules };
}

impl<'a> ReadRecord<'a> for PowerDeliveryReq {
    fn read<P: Places>(descent: &mut Descent<'a, '_, P>) -> Result<PowerDeliveryReq, Refusal> {
        whole_record(descent)
    }
}

/// PowerDeliveryRes.
#[derive(Clone, Copy)]
pub struct PowerDeliveryRes {
    pub response_code: ResponseCode,
    pub evse_status: EvseStatus,
}

impl PutRecord for PowerDeliveryRes {
    ghost use Rattle.std.specs.Prelude.{refl};
    ghost use Rattle.iso_schema.specs.Declarations.{kinds};
    ghost use Rattle.iso_schema.specs.Delivery.{power_delivery_res};
    ghost use Rattle.iso_delivery.specs.Delivery.{power_delivery_res_parts};

    ghost kinds = { kinds };

    ghost attributes = { [] };

    ghost particles = { power_delivery_res };

    ghost apart = { refl };

    ghost given = { λ v. [] };

    ghost parts = { power_delivery_res_parts };

    fn write<P: Places>(&self, writer: &mut EventWriter<'_, '_, P>) {
        put_value(writer, names::RESPONSE_CODE, &self.response_code);
        put_choice(writer, &self.evse_status);
    }
}

impl<'a> Record<'a> for PowerDeliveryRes {
    ghost use Rattle.std.proofs.Common.{rules};

    type Made = Elements2<RequiredValue<ResponseCode>, OneOf<EvseStatus>>;

    fn of(made: Self::Made) -> PowerDeliveryRes {
        let Elements2(RequiredValue(response_code), OneOf(evse_status)) = made;
        PowerDeliveryRes {
            response_code,
            evse_status,
        }
    }

    ghost declared = { Prim.search rules };
}

impl<'a> ReadRecord<'a> for PowerDeliveryRes {
    fn read<P: Places>(descent: &mut Descent<'a, '_, P>) -> Result<PowerDeliveryRes, Refusal> {
        whole_record(descent)
    }
}

/// ChargingStatusReq.
#[derive(Clone, Copy)]
pub struct ChargingStatusReq;

impl PutRecord for ChargingStatusReq {
    ghost use Rattle.std.specs.Prelude.{refl};
    ghost use Rattle.iso_schema.specs.Declarations.{kinds};

    ghost kinds = { kinds };

    ghost attributes = { [] };

    ghost particles = { [] };

    ghost apart = { refl };

    ghost given = { λ v. [] };

    ghost parts = { λ v. [] };

    fn write<P: Places>(&self, _writer: &mut EventWriter<'_, '_, P>) {}
}

impl<'a> Record<'a> for ChargingStatusReq {
    ghost use Rattle.std.proofs.Common.{rules};

    type Made = Elements<()>;

    fn of(_made: Self::Made) -> ChargingStatusReq {
        ChargingStatusReq
    }

    ghost declared = { Prim.search rules };
}

impl<'a> ReadRecord<'a> for ChargingStatusReq {
    fn read<P: Places>(descent: &mut Descent<'a, '_, P>) -> Result<ChargingStatusReq, Refusal> {
        whole_record(descent)
    }
}

/// ChargingStatusRes.
#[derive(Drop)]
pub struct ChargingStatusRes<'a> {
    pub response_code: ResponseCode,
    /// At most 37 code points.
    pub evseid: Text<'a>,
    /// 1 to 255.
    pub sa_schedule_tuple_id: u8,
    pub evse_max_current: Option<PhysicalValue>,
    pub meter_info: Option<MeterInfo<'a>>,
    pub receipt_required: Option<bool>,
    pub ac_evse_status: AcEvseStatus,
}

impl PutRecord for ChargingStatusRes<'_> {
    ghost use Rattle.std.specs.Prelude.{refl};
    ghost use Rattle.iso_schema.specs.Declarations.{kinds};
    ghost use Rattle.iso_schema.specs.Delivery.{charging_status_res};
    ghost use Rattle.iso_delivery.specs.Delivery.{charging_status_res_parts};

    ghost kinds = { kinds };

    ghost attributes = { [] };

    ghost particles = { charging_status_res };

    ghost apart = { refl };

    ghost given = { λ v. [] };

    ghost parts = { charging_status_res_parts };

    fn write<P: Places>(&self, writer: &mut EventWriter<'_, '_, P>) {
        put_value(writer, names::RESPONSE_CODE, &self.response_code);
        put_value(writer, names::EVSEID, &self.evseid);
        put_value(
            writer,
            names::SA_SCHEDULE_TUPLE_ID,
            &self.sa_schedule_tuple_id,
        );
        put_optional(writer, names::EVSE_MAX_CURRENT, &self.evse_max_current);
        put_optional(writer, names::METER_INFO, &self.meter_info);
        put_optional_value(writer, names::RECEIPT_REQUIRED, &self.receipt_required);
        put_record(writer, names::AC_EVSE_STATUS, &self.ac_evse_status);
    }
}

impl<'a> Record<'a> for ChargingStatusRes<'a> {
    ghost use Rattle.std.proofs.Common.{rules};

    type Made = Elements2<
        (
            RequiredValue<ResponseCode>,
            RequiredValue<Text<'a>>,
            RequiredValue<u8>,
            Optional<PhysicalValue, { names::EVSE_MAX_CURRENT }>,
        ),
        (
            Optional<MeterInfo<'a>, { names::METER_INFO }>,
            OptionalValue<bool, { names::RECEIPT_REQUIRED }>,
            Required<AcEvseStatus>,
        ),
    >;

    fn of(made: Self::Made) -> ChargingStatusRes<'a> {
        let Elements2(
            (
                RequiredValue(response_code),
                RequiredValue(evseid),
                RequiredValue(sa_schedule_tuple_id),
                Optional(evse_max_current),
            ),
            (Optional(meter_info), OptionalValue(receipt_required), Required(ac_evse_status)),
        ) = made;
        ChargingStatusRes {
            response_code,
            evseid,
            sa_schedule_tuple_id,
            evse_max_current,
            meter_info,
            receipt_required,
            ac_evse_status,
        }
    }

    ghost declared = { Prim.search rules };
}

impl<'a> ReadRecord<'a> for ChargingStatusRes<'a> {
    fn read<P: Places>(descent: &mut Descent<'a, '_, P>) -> Result<ChargingStatusRes<'a>, Refusal> {
        whole_record(descent)
    }
}
