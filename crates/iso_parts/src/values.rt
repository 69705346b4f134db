//! Types of elements of the messages of ISO 15118-2.

ghost use Rattle.std.specs.Prelude.{[]};

use crate::enumerations::{
    EvErrorCode, EvseNotification, EvseStatusCode, IsolationLevel, UnitSymbol,
};
use exi_documents::Refusal;
use exi_schema::Places;
use iso_schema::names;
use message_fields::message_parts::exi_events::EventWriter;
use message_fields::message_parts::{
    Binary, Choice, Descent, PutChoice, PutRecord, ReadRecord, Record, Text, Three, ThreeChildren,
    member, put_optional_value, put_record, put_value, three_children, whole_record,
};
use message_fields::{Elements2, Elements4, OptionalValue, RequiredValue};

/// PhysicalValue.
#[derive(Clone, Copy, Default)]
pub struct PhysicalValue {
    /// -3 to 3.
    pub multiplier: i8,
    pub unit: UnitSymbol,
    pub value: i16,
}

impl PutRecord for PhysicalValue {
    ghost use Rattle.std.specs.Prelude.{refl};
    ghost use Rattle.iso_schema.specs.Declarations.{kinds};
    ghost use Rattle.iso_schema.specs.Frame.{physical_value};
    ghost use Rattle.iso_parts.specs.Values.{physical_value_parts};

    ghost kinds = { kinds };

    ghost attributes = { [] };

    ghost particles = { physical_value };

    ghost apart = { refl };

    ghost given = { λ v. [] };

    ghost parts = { physical_value_parts };

    #[inline(always)]
    fn three_values(&self) -> Option<ThreeChildren> {
        three_children(
            names::MULTIPLIER,
            &self.multiplier,
            names::UNIT,
            &self.unit,
            names::VALUE,
            &self.value,
        )
    }

    fn write<P: Places>(&self, writer: &mut EventWriter<'_, '_, P>) {
        put_value(writer, names::MULTIPLIER, &self.multiplier);
        put_value(writer, names::UNIT, &self.unit);
        put_value(writer, names::VALUE, &self.value);
    }
}

impl<'a> Record<'a> for PhysicalValue {
    ghost use Rattle.std.proofs.Common.{rules};

    type Made = Three<i8, UnitSymbol, i16>;

    fn of(made: Self::Made) -> PhysicalValue {
        PhysicalValue {
            multiplier: made.first,
            unit: made.second,
            value: made.third,
        }
    }

    ghost declared = { Prim.search rules };
}

impl<'a> ReadRecord<'a> for PhysicalValue {
    fn read<P: Places>(descent: &mut Descent<'a, '_, P>) -> Result<PhysicalValue, Refusal> {
        whole_record(descent)
    }
}

/// DC_EVStatus.
#[derive(Clone, Copy)]
pub struct DcEvStatus {
    pub ev_ready: bool,
    pub ev_error_code: EvErrorCode,
    /// 0 to 100.
    pub evress_soc: u8,
}

impl PutRecord for DcEvStatus {
    ghost use Rattle.std.specs.Prelude.{refl};
    ghost use Rattle.iso_schema.specs.Declarations.{kinds};
    ghost use Rattle.iso_schema.specs.Frame.{dc_ev_status};
    ghost use Rattle.iso_parts.specs.Values.{dc_ev_status_parts};

    ghost kinds = { kinds };

    ghost attributes = { [] };

    ghost particles = { dc_ev_status };

    ghost apart = { refl };

    ghost given = { λ v. [] };

    ghost parts = { dc_ev_status_parts };

    #[inline(always)]
    fn three_values(&self) -> Option<ThreeChildren> {
        three_children(
            names::EV_READY,
            &self.ev_ready,
            names::EV_ERROR_CODE,
            &self.ev_error_code,
            names::EVRESS_SOC,
            &self.evress_soc,
        )
    }

    fn write<P: Places>(&self, writer: &mut EventWriter<'_, '_, P>) {
        put_value(writer, names::EV_READY, &self.ev_ready);
        put_value(writer, names::EV_ERROR_CODE, &self.ev_error_code);
        put_value(writer, names::EVRESS_SOC, &self.evress_soc);
    }
}

impl<'a> Record<'a> for DcEvStatus {
    ghost use Rattle.std.proofs.Common.{rules};

    type Made = Three<bool, EvErrorCode, u8>;

    fn of(made: Self::Made) -> DcEvStatus {
        DcEvStatus {
            ev_ready: made.first,
            ev_error_code: made.second,
            evress_soc: made.third,
        }
    }

    ghost declared = { Prim.search rules };
}

impl<'a> ReadRecord<'a> for DcEvStatus {
    fn read<P: Places>(descent: &mut Descent<'a, '_, P>) -> Result<DcEvStatus, Refusal> {
        whole_record(descent)
    }
}

/// AC_EVSEStatus.
#[derive(Clone, Copy, Default)]
pub struct AcEvseStatus {
    pub notification_max_delay: u16,
    pub evse_notification: EvseNotification,
    pub rcd: bool,
}

impl PutRecord for AcEvseStatus {
    ghost use Rattle.std.specs.Prelude.{refl};
    ghost use Rattle.iso_schema.specs.Declarations.{kinds};
    ghost use Rattle.iso_schema.specs.Frame.{ac_evse_status};
    ghost use Rattle.iso_parts.specs.Values.{ac_evse_status_parts};

    ghost kinds = { kinds };

    ghost attributes = { [] };

    ghost particles = { ac_evse_status };

    ghost apart = { refl };

    ghost given = { λ v. [] };

    ghost parts = { ac_evse_status_parts };

    #[inline(always)]
    fn three_values(&self) -> Option<ThreeChildren> {
        three_children(
            names::NOTIFICATION_MAX_DELAY,
            &self.notification_max_delay,
            names::EVSE_NOTIFICATION,
            &self.evse_notification,
            names::RCD,
            &self.rcd,
        )
    }

    fn write<P: Places>(&self, writer: &mut EventWriter<'_, '_, P>) {
        put_value(
            writer,
            names::NOTIFICATION_MAX_DELAY,
            &self.notification_max_delay,
        );
        put_value(writer, names::EVSE_NOTIFICATION, &self.evse_notification);
        put_value(writer, names::RCD, &self.rcd);
    }
}

impl<'a> Record<'a> for AcEvseStatus {
    ghost use Rattle.std.proofs.Common.{rules};

    type Made = Three<u16, EvseNotification, bool>;

    fn of(made: Self::Made) -> AcEvseStatus {
        AcEvseStatus {
            notification_max_delay: made.first,
            evse_notification: made.second,
            rcd: made.third,
        }
    }

    ghost declared = { Prim.search rules };
}

impl<'a> ReadRecord<'a> for AcEvseStatus {
    fn read<P: Places>(descent: &mut Descent<'a, '_, P>) -> Result<AcEvseStatus, Refusal> {
        whole_record(descent)
    }
}

/// DC_EVSEStatus.
#[derive(Clone, Copy)]
pub struct DcEvseStatus {
    pub notification_max_delay: u16,
    pub evse_notification: EvseNotification,
    pub evse_isolation_status: Option<IsolationLevel>,
    pub evse_status_code: EvseStatusCode,
}

impl PutRecord for DcEvseStatus {
    ghost use Rattle.std.specs.Prelude.{refl};
    ghost use Rattle.iso_schema.specs.Declarations.{kinds};
    ghost use Rattle.iso_schema.specs.Frame.{dc_evse_status};
    ghost use Rattle.iso_parts.specs.Values.{dc_evse_status_parts};

    ghost kinds = { kinds };

    ghost attributes = { [] };

    ghost particles = { dc_evse_status };

    ghost apart = { refl };

    ghost given = { λ v. [] };

    ghost parts = { dc_evse_status_parts };

    fn write<P: Places>(&self, writer: &mut EventWriter<'_, '_, P>) {
        put_value(
            writer,
            names::NOTIFICATION_MAX_DELAY,
            &self.notification_max_delay,
        );
        put_value(writer, names::EVSE_NOTIFICATION, &self.evse_notification);
        put_optional_value(
            writer,
            names::EVSE_ISOLATION_STATUS,
            &self.evse_isolation_status,
        );
        put_value(writer, names::EVSE_STATUS_CODE, &self.evse_status_code);
    }
}

impl<'a> Record<'a> for DcEvseStatus {
    ghost use Rattle.std.proofs.Common.{rules};

    type Made = Elements4<
        RequiredValue<u16>,
        RequiredValue<EvseNotification>,
        OptionalValue<IsolationLevel, { names::EVSE_ISOLATION_STATUS }>,
        RequiredValue<EvseStatusCode>,
    >;

    fn of(made: Self::Made) -> DcEvseStatus {
        let Elements4(
            RequiredValue(notification_max_delay),
            RequiredValue(evse_notification),
            OptionalValue(evse_isolation_status),
            RequiredValue(evse_status_code),
        ) = made;
        DcEvseStatus {
            notification_max_delay,
            evse_notification,
            evse_isolation_status,
            evse_status_code,
        }
    }

    ghost declared = { Prim.search rules };
}

impl<'a> ReadRecord<'a> for DcEvseStatus {
    fn read<P: Places>(descent: &mut Descent<'a, '_, P>) -> Result<DcEvseStatus, Refusal> {
        whole_record(descent)
    }
}

/// One element of the substitution group EVSEStatus.
#[derive(Clone, Copy)]
pub enum EvseStatus {
    Ac(AcEvseStatus),
    Dc(DcEvseStatus),
}

impl PutChoice for EvseStatus {
    ghost use Rattle.iso_schema.specs.Declarations.{kinds};
    ghost use Rattle.iso_parts.specs.Values.{evse_status_members, evse_status_name, evse_status_inside};

    ghost kinds = { kinds };

    ghost members = { evse_status_members };

    ghost name = { evse_status_name };

    ghost inside = { evse_status_inside };

    fn write_member<P: Places>(&self, writer: &mut EventWriter<'_, '_, P>) {
        match self {
            EvseStatus::Ac(ac) => put_record(writer, names::AC_EVSE_STATUS, ac),
            EvseStatus::Dc(dc) => put_record(writer, names::DC_EVSE_STATUS, dc),
        }
    }
}

impl<'a> Choice<'a> for EvseStatus {
    fn read_member<P: Places>(descent: &mut Descent<'a, '_, P>) -> Result<EvseStatus, Refusal> {
        if descent.is_at(names::AC_EVSE_STATUS) {
            member(descent).map(EvseStatus::Ac)
        } else {
            member(descent).map(EvseStatus::Dc)
        }
    }
}

/// MeterInfo.
#[derive(Drop)]
pub struct MeterInfo<'a> {
    /// At most 32 code points.
    pub meter_id: Text<'a>,
    pub meter_reading: Option<u64>,
    /// At most 64 bytes.
    pub sig_meter_reading: Option<Binary<'a>>,
    pub meter_status: Option<i16>,
    pub t_meter: Option<i64>,
}

impl PutRecord for MeterInfo<'_> {
    ghost use Rattle.std.specs.Prelude.{refl};
    ghost use Rattle.iso_schema.specs.Declarations.{kinds};
    ghost use Rattle.iso_schema.specs.Frame.{meter_info};
    ghost use Rattle.iso_parts.specs.Values.{meter_info_parts};

    ghost kinds = { kinds };

    ghost attributes = { [] };

    ghost particles = { meter_info };

    ghost apart = { refl };

    ghost given = { λ v. [] };

    ghost parts = { meter_info_parts };

    fn write<P: Places>(&self, writer: &mut EventWriter<'_, '_, P>) {
        put_value(writer, names::METER_ID, &self.meter_id);
        put_optional_value(writer, names::METER_READING, &self.meter_reading);
        put_optional_value(writer, names::SIG_METER_READING, &self.sig_meter_reading);
        put_optional_value(writer, names::METER_STATUS, &self.meter_status);
        put_optional_value(writer, names::T_METER, &self.t_meter);
    }
}

impl<'a> Record<'a> for MeterInfo<'a> {
    ghost use Rattle.std.proofs.Common.{rules};

    type Made = Elements2<
        (
            RequiredValue<Text<'a>>,
            OptionalValue<u64, { names::METER_READING }>,
            OptionalValue<Binary<'a>, { names::SIG_METER_READING }>,
        ),
        (
            OptionalValue<i16, { names::METER_STATUS }>,
            OptionalValue<i64, { names::T_METER }>,
        ),
    >;

    fn of(made: Self::Made) -> MeterInfo<'a> {
        let Elements2(
            (
                RequiredValue(meter_id),
                OptionalValue(meter_reading),
                OptionalValue(sig_meter_reading),
            ),
            (OptionalValue(meter_status), OptionalValue(t_meter)),
        ) = made;
        MeterInfo {
            meter_id,
            meter_reading,
            sig_meter_reading,
            meter_status,
            t_meter,
        }
    }

    ghost declared = { Prim.search rules };
}

impl<'a> ReadRecord<'a> for MeterInfo<'a> {
    fn read<P: Places>(descent: &mut Descent<'a, '_, P>) -> Result<MeterInfo<'a>, Refusal> {
        whole_record(descent)
    }
}
