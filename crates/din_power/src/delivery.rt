//! Types of elements of the messages of DIN SPEC 70121.

ghost use Rattle.std.specs.Prelude.{[]};

use arrayvec::ArrayVec;
use din_parts::message_fields::{
    AtMostOneOf, Elements2, Elements3, OneOf, Optional, OptionalValue, Required, RequiredValue,
    Several,
};
use din_parts::{DcEvStatus, EvseStatus, ResponseCode};
use din_schema::names;
use exi_documents::Refusal;
use exi_schema::Places;
use message_parts::exi_events::EventWriter;
use message_parts::{
    Choice, Descent, Group, PutChoice, PutRecord, ReadRecord, Record, member, put_choice,
    put_optional, put_optional_choice, put_optional_value, put_record, put_records, put_value,
    whole_record,
};

/// ProfileEntry.
#[derive(Clone, Copy, Default)]
pub struct ProfileEntry {
    pub charging_profile_entry_start: u32,
    pub charging_profile_entry_max_power: i16,
}

impl PutRecord for ProfileEntry {
    ghost use Rattle.std.specs.Prelude.{refl};
    ghost use Rattle.din_schema.specs.Declarations.{kinds};
    ghost use Rattle.din_schema.specs.Parameters.{profile_entry};
    ghost use Rattle.din_power.specs.Delivery.{profile_entry_parts};

    ghost kinds = { kinds };

    ghost attributes = { [] };

    ghost particles = { profile_entry };

    ghost apart = { refl };

    ghost given = { λ v. [] };

    ghost parts = { profile_entry_parts };

    fn write<P: Places>(&self, writer: &mut EventWriter<'_, '_, P>) {
        put_value(
            writer,
            names::CHARGING_PROFILE_ENTRY_START,
            &self.charging_profile_entry_start,
        );
        put_value(
            writer,
            names::CHARGING_PROFILE_ENTRY_MAX_POWER,
            &self.charging_profile_entry_max_power,
        );
    }
}

impl<'a> Record<'a> for ProfileEntry {
    ghost use Rattle.std.proofs.Common.{rules};

    type Made = Elements2<RequiredValue<u32>, RequiredValue<i16>>;

    fn of(made: Self::Made) -> ProfileEntry {
        let Elements2(
            RequiredValue(charging_profile_entry_start),
            RequiredValue(charging_profile_entry_max_power),
        ) = made;
        ProfileEntry {
            charging_profile_entry_start,
            charging_profile_entry_max_power,
        }
    }

    ghost declared = { Prim.search rules };
}

impl<'a> ReadRecord<'a> for ProfileEntry {
    fn read<P: Places>(descent: &mut Descent<'a, '_, P>) -> Result<ProfileEntry, Refusal> {
        whole_record(descent)
    }
}

/// ChargingProfile.
#[derive(Drop)]
pub struct ChargingProfile {
    pub sa_schedule_tuple_id: i16,
    /// 1 to 24.
    pub profile_entry: ArrayVec<ProfileEntry, 24>,
}

impl PutRecord for ChargingProfile {
    ghost use Rattle.std.specs.Prelude.{refl};
    ghost use Rattle.din_schema.specs.Declarations.{kinds};
    ghost use Rattle.din_schema.specs.Parameters.{charging_profile};
    ghost use Rattle.din_power.specs.Delivery.{charging_profile_parts};

    ghost kinds = { kinds };

    ghost attributes = { [] };

    ghost particles = { charging_profile };

    ghost apart = { refl };

    ghost given = { λ v. [] };

    ghost parts = { charging_profile_parts };

    fn write<P: Places>(&self, writer: &mut EventWriter<'_, '_, P>) {
        put_value(
            writer,
            names::SA_SCHEDULE_TUPLE_ID,
            &self.sa_schedule_tuple_id,
        );
        put_records(writer, names::PROFILE_ENTRY, &self.profile_entry);
    }
}

impl<'a> Record<'a> for ChargingProfile {
    ghost use Rattle.std.proofs.Common.{rules};

    type Made = Elements2<RequiredValue<i16>, Several<ProfileEntry, 24, { names::PROFILE_ENTRY }>>;

    fn of(made: Self::Made) -> ChargingProfile {
        let Elements2(RequiredValue(sa_schedule_tuple_id), Several(profile_entry)) = made;
        ChargingProfile {
            sa_schedule_tuple_id,
            profile_entry,
        }
    }

    ghost declared = { Prim.search rules };
}

impl<'a> ReadRecord<'a> for ChargingProfile {
    fn read<P: Places>(descent: &mut Descent<'a, '_, P>) -> Result<ChargingProfile, Refusal> {
        whole_record(descent)
    }
}

/// DC_EVPowerDeliveryParameter.
#[derive(Clone, Copy)]
pub struct DcEvPowerDeliveryParameter {
    pub dc_ev_status: DcEvStatus,
    pub bulk_charging_complete: Option<bool>,
    pub charging_complete: bool,
}

impl PutRecord for DcEvPowerDeliveryParameter {
    ghost use Rattle.std.specs.Prelude.{refl};
    ghost use Rattle.din_schema.specs.Declarations.{kinds};
    ghost use Rattle.din_schema.specs.Parameters.{dc_ev_power_delivery_parameter};
    ghost use Rattle.din_power.specs.Delivery.{dc_ev_power_delivery_parameter_parts};

    ghost kinds = { kinds };

    ghost attributes = { [] };

    ghost particles = { dc_ev_power_delivery_parameter };

    ghost apart = { refl };

    ghost given = { λ v. [] };

    ghost parts = { dc_ev_power_delivery_parameter_parts };

    fn write<P: Places>(&self, writer: &mut EventWriter<'_, '_, P>) {
        put_record(writer, names::DC_EV_STATUS, &self.dc_ev_status);
        put_optional_value(
            writer,
            names::BULK_CHARGING_COMPLETE,
            &self.bulk_charging_complete,
        );
        put_value(writer, names::CHARGING_COMPLETE, &self.charging_complete);
    }
}

impl<'a> Record<'a> for DcEvPowerDeliveryParameter {
    ghost use Rattle.std.proofs.Common.{rules};

    type Made = Elements3<
        Required<DcEvStatus>,
        OptionalValue<bool, { names::BULK_CHARGING_COMPLETE }>,
        RequiredValue<bool>,
    >;

    fn of(made: Self::Made) -> DcEvPowerDeliveryParameter {
        let Elements3(
            Required(dc_ev_status),
            OptionalValue(bulk_charging_complete),
            RequiredValue(charging_complete),
        ) = made;
        DcEvPowerDeliveryParameter {
            dc_ev_status,
            bulk_charging_complete,
            charging_complete,
        }
    }

    ghost declared = { Prim.search rules };
}

impl<'a> ReadRecord<'a> for DcEvPowerDeliveryParameter {
    fn read<P: Places>(
        descent: &mut Descent<'a, '_, P>,
    ) -> Result<DcEvPowerDeliveryParameter, Refusal> {
        whole_record(descent)
    }
}

/// One element of the substitution group EVPowerDeliveryParameter.
#[derive(Clone, Copy)]
pub enum EvPowerDeliveryParameter {
    Dc(DcEvPowerDeliveryParameter),
}

impl PutChoice for EvPowerDeliveryParameter {
    ghost use Rattle.din_schema.specs.Declarations.{kinds};
    ghost use Rattle.din_power.specs.Delivery.{ev_power_delivery_parameter_members, ev_power_delivery_parameter_name, ev_power_delivery_parameter_inside};

    ghost kinds = { kinds };

    ghost members = { ev_power_delivery_parameter_members };

    ghost name = { ev_power_delivery_parameter_name };

    ghost inside = { ev_power_delivery_parameter_inside };

    fn write_member<P: Places>(&self, writer: &mut EventWriter<'_, '_, P>) {
        match self {
            EvPowerDeliveryParameter::Dc(dc) => put_record(
                writer,
                names::DC_EV_POWER_DELIVERY_PARAMETER,
                dc,
            ),
        }
    }
}

impl<'a> Choice<'a> for EvPowerDeliveryParameter {
    fn read_member<P: Places>(
        descent: &mut Descent<'a, '_, P>,
    ) -> Result<EvPowerDeliveryParameter, Refusal> {
        member(descent).map(EvPowerDeliveryParameter::Dc)
    }
}

impl<'a> Group<'a> for EvPowerDeliveryParameter {
    fn names() -> &'static [u16] {
        &[names::DC_EV_POWER_DELIVERY_PARAMETER]
    }
}

/// PowerDeliveryReq.
#[derive(Drop)]
pub struct PowerDeliveryReq {
    pub ready_to_charge_state: bool,
    pub charging_profile: Option<ChargingProfile>,
    pub ev_power_delivery_parameter: Option<EvPowerDeliveryParameter>,
}

impl PutRecord for PowerDeliveryReq {
    ghost use Rattle.std.specs.Prelude.{refl};
    ghost use Rattle.din_schema.specs.Declarations.{kinds};
    ghost use Rattle.din_schema.specs.Parameters.{power_delivery_req};
    ghost use Rattle.din_power.specs.Delivery.{power_delivery_req_parts};

    ghost kinds = { kinds };

    ghost attributes = { [] };

    ghost particles = { power_delivery_req };

    ghost apart = { refl };

    ghost given = { λ v. [] };

    ghost parts = { power_delivery_req_parts };

    fn write<P: Places>(&self, writer: &mut EventWriter<'_, '_, P>) {
        put_value(
            writer,
            names::READY_TO_CHARGE_STATE,
            &self.ready_to_charge_state,
        );
        put_optional(writer, names::CHARGING_PROFILE, &self.charging_profile);
        put_optional_choice(writer, &self.ev_power_delivery_parameter);
    }
}

impl<'a> Record<'a> for PowerDeliveryReq {
    ghost use Rattle.std.proofs.Common.{rules};

    type Made = Elements3<
        RequiredValue<bool>,
        Optional<ChargingProfile, { names::CHARGING_PROFILE }>,
        AtMostOneOf<EvPowerDeliveryParameter>,
    >;

    fn of(made: Self::Made) -> PowerDeliveryReq {
        let Elements3(
            RequiredValue(ready_to_charge_state),
            Optional(charging_profile),
            AtMostOneOf(ev_power_delivery_parameter),
        ) = made;
        PowerDeliveryReq {
            ready_to_charge_state,
            charging_profile,
            ev_power_delivery_parameter,
        }
    }

    ghost declared = { Prim.search rules };
}

impl<'a> ReadRecord<'a> for PowerDeliveryReq {
    fn read<P: Places>(descent: &mut Descent<'a, '_, P>) -> Result<PowerDeliveryReq, Refusal> {
        whole_record(descent)
    }
}

/// PowerDeliveryRes.
#[derive(Clone, Copy)]
pub struct PowerDeliveryRes {
    pub response_code: ResponseCode,
    pub evse_status: EvseStatus,
}

impl PutRecord for PowerDeliveryRes {
    ghost use Rattle.std.specs.Prelude.{refl};
    ghost use Rattle.din_schema.specs.Declarations.{kinds};
    ghost use Rattle.din_schema.specs.Parameters.{power_delivery_res};
    ghost use Rattle.din_power.specs.Delivery.{power_delivery_res_parts};

    ghost kinds = { kinds };

    ghost attributes = { [] };

    ghost particles = { power_delivery_res };

    ghost apart = { refl };

    ghost given = { λ v. [] };

    ghost parts = { power_delivery_res_parts };

    fn write<P: Places>(&self, writer: &mut EventWriter<'_, '_, P>) {
        put_value(writer, names::RESPONSE_CODE, &self.response_code);
        put_choice(writer, &self.evse_status);
    }
}

impl<'a> Record<'a> for PowerDeliveryRes {
    ghost use Rattle.std.proofs.Common.{rules};

    type Made = Elements2<RequiredValue<ResponseCode>, OneOf<EvseStatus>>;

    fn of(made: Self::Made) -> PowerDeliveryRes {
        let Elements2(RequiredValue(response_code), OneOf(evse_status)) = made;
        PowerDeliveryRes {
            response_code,
            evse_status,
        }
    }

    ghost declared = { Prim.search rules };
}

impl<'a> ReadRecord<'a> for PowerDeliveryRes {
    fn read<P: Places>(descent: &mut Descent<'a, '_, P>) -> Result<PowerDeliveryRes, Refusal> {
        whole_record(descent)
    }
}
