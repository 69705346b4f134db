//! Types of elements of the messages of DIN SPEC 70121.

ghost use Rattle.std.specs.Prelude.{[]};

use crate::enumerations::{
    EvErrorCode, EvseNotification, EvseStatusCode, IsolationLevel, UnitSymbol,
};
use din_schema::names;
use exi_documents::Refusal;
use exi_schema::Places;
use message_fields::message_parts::exi_events::EventWriter;
use message_fields::message_parts::{
    Choice, Descent, OptionalChildren, OptionalSecond, PutChoice, PutRecord, ReadRecord, Record,
    member, optional_children, put_optional_value, put_record, put_value, whole_record,
};
use message_fields::{Elements2, Elements4, OptionalValue, RequiredValue};

/// PhysicalValue.
#[derive(Clone, Copy, Default)]
pub struct PhysicalValue {
    /// -3 to 3.
    pub multiplier: i8,
    pub unit: Option<UnitSymbol>,
    pub value: i16,
}

impl PutRecord for PhysicalValue {
    ghost use Rattle.std.specs.Prelude.{refl};
    ghost use Rattle.din_schema.specs.Declarations.{kinds};
    ghost use Rattle.din_schema.specs.Frame.{physical_value};
    ghost use Rattle.din_parts.specs.Values.{physical_value_parts};

    ghost kinds = { kinds };

    ghost attributes = { [] };

    ghost particles = { physical_value };

    ghost apart = { refl };

    ghost given = { λ v. [] };

    ghost parts = { physical_value_parts };

    #[inline(always)]
    fn optional_values(&self) -> Option<OptionalChildren> {
        optional_children(
            names::MULTIPLIER,
            &self.multiplier,
            names::UNIT,
            &self.unit,
            names::VALUE,
            &self.value,
        )
    }

    fn write<P: Places>(&self, writer: &mut EventWriter<'_, '_, P>) {
        put_value(writer, names::MULTIPLIER, &self.multiplier);
        put_optional_value(writer, names::UNIT, &self.unit);
        put_value(writer, names::VALUE, &self.value);
    }
}

impl<'a> Record<'a> for PhysicalValue {
    ghost use Rattle.std.proofs.Common.{rules};

    type Made = OptionalSecond<i8, UnitSymbol, i16, { names::UNIT }>;

    fn of(made: Self::Made) -> PhysicalValue {
        PhysicalValue {
            multiplier: made.first,
            unit: made.second,
            value: made.third,
        }
    }

    ghost declared = { Prim.search rules };
}

impl<'a> ReadRecord<'a> for PhysicalValue {
    fn read<P: Places>(descent: &mut Descent<'a, '_, P>) -> Result<PhysicalValue, Refusal> {
        whole_record(descent)
    }
}

/// DC_EVStatus.
#[derive(Clone, Copy)]
pub struct DcEvStatus {
    pub ev_ready: bool,
    pub ev_cabin_conditioning: Option<bool>,
    pub evress_conditioning: Option<bool>,
    pub ev_error_code: EvErrorCode,
    /// 0 to 100.
    pub evress_soc: u8,
}

impl PutRecord for DcEvStatus {
    ghost use Rattle.std.specs.Prelude.{refl};
    ghost use Rattle.din_schema.specs.Declarations.{kinds};
    ghost use Rattle.din_schema.specs.Frame.{dc_ev_status};
    ghost use Rattle.din_parts.specs.Values.{dc_ev_status_parts};

    ghost kinds = { kinds };

    ghost attributes = { [] };

    ghost particles = { dc_ev_status };

    ghost apart = { refl };

    ghost given = { λ v. [] };

    ghost parts = { dc_ev_status_parts };

    fn write<P: Places>(&self, writer: &mut EventWriter<'_, '_, P>) {
        put_value(writer, names::EV_READY, &self.ev_ready);
        put_optional_value(
            writer,
            names::EV_CABIN_CONDITIONING,
            &self.ev_cabin_conditioning,
        );
        put_optional_value(
            writer,
            names::EVRESS_CONDITIONING,
            &self.evress_conditioning,
        );
        put_value(writer, names::EV_ERROR_CODE, &self.ev_error_code);
        put_value(writer, names::EVRESS_SOC, &self.evress_soc);
    }
}

impl<'a> Record<'a> for DcEvStatus {
    ghost use Rattle.std.proofs.Common.{rules};

    type Made = Elements2<
        (
            RequiredValue<bool>,
            OptionalValue<bool, { names::EV_CABIN_CONDITIONING }>,
            OptionalValue<bool, { names::EVRESS_CONDITIONING }>,
        ),
        (RequiredValue<EvErrorCode>, RequiredValue<u8>),
    >;

    fn of(made: Self::Made) -> DcEvStatus {
        let Elements2(
            (
                RequiredValue(ev_ready),
                OptionalValue(ev_cabin_conditioning),
                OptionalValue(evress_conditioning),
            ),
            (RequiredValue(ev_error_code), RequiredValue(evress_soc)),
        ) = made;
        DcEvStatus {
            ev_ready,
            ev_cabin_conditioning,
            evress_conditioning,
            ev_error_code,
            evress_soc,
        }
    }

    ghost declared = { Prim.search rules };
}

impl<'a> ReadRecord<'a> for DcEvStatus {
    fn read<P: Places>(descent: &mut Descent<'a, '_, P>) -> Result<DcEvStatus, Refusal> {
        whole_record(descent)
    }
}

/// DC_EVSEStatus.
#[derive(Clone, Copy, Default)]
pub struct DcEvseStatus {
    pub evse_isolation_status: Option<IsolationLevel>,
    pub evse_status_code: EvseStatusCode,
    pub notification_max_delay: u32,
    pub evse_notification: EvseNotification,
}

impl PutRecord for DcEvseStatus {
    ghost use Rattle.std.specs.Prelude.{refl};
    ghost use Rattle.din_schema.specs.Declarations.{kinds};
    ghost use Rattle.din_schema.specs.Frame.{dc_evse_status};
    ghost use Rattle.din_parts.specs.Values.{dc_evse_status_parts};

    ghost kinds = { kinds };

    ghost attributes = { [] };

    ghost particles = { dc_evse_status };

    ghost apart = { refl };

    ghost given = { λ v. [] };

    ghost parts = { dc_evse_status_parts };

    fn write<P: Places>(&self, writer: &mut EventWriter<'_, '_, P>) {
        put_optional_value(
            writer,
            names::EVSE_ISOLATION_STATUS,
            &self.evse_isolation_status,
        );
        put_value(writer, names::EVSE_STATUS_CODE, &self.evse_status_code);
        put_value(
            writer,
            names::NOTIFICATION_MAX_DELAY,
            &self.notification_max_delay,
        );
        put_value(writer, names::EVSE_NOTIFICATION, &self.evse_notification);
    }
}

impl<'a> Record<'a> for DcEvseStatus {
    ghost use Rattle.std.proofs.Common.{rules};

    type Made = Elements4<
        OptionalValue<IsolationLevel, { names::EVSE_ISOLATION_STATUS }>,
        RequiredValue<EvseStatusCode>,
        RequiredValue<u32>,
        RequiredValue<EvseNotification>,
    >;

    fn of(made: Self::Made) -> DcEvseStatus {
        let Elements4(
            OptionalValue(evse_isolation_status),
            RequiredValue(evse_status_code),
            RequiredValue(notification_max_delay),
            RequiredValue(evse_notification),
        ) = made;
        DcEvseStatus {
            evse_isolation_status,
            evse_status_code,
            notification_max_delay,
            evse_notification,
        }
    }

    ghost declared = { Prim.search rules };
}

impl<'a> ReadRecord<'a> for DcEvseStatus {
    fn read<P: Places>(descent: &mut Descent<'a, '_, P>) -> Result<DcEvseStatus, Refusal> {
        whole_record(descent)
    }
}

/// One element of the substitution group EVSEStatus.
#[derive(Clone, Copy)]
pub enum EvseStatus {
    Dc(DcEvseStatus),
}

impl PutChoice for EvseStatus {
    ghost use Rattle.din_schema.specs.Declarations.{kinds};
    ghost use Rattle.din_parts.specs.Values.{evse_status_members, evse_status_name, evse_status_inside};

    ghost kinds = { kinds };

    ghost members = { evse_status_members };

    ghost name = { evse_status_name };

    ghost inside = { evse_status_inside };

    fn write_member<P: Places>(&self, writer: &mut EventWriter<'_, '_, P>) {
        match self {
            EvseStatus::Dc(dc) => put_record(writer, names::DC_EVSE_STATUS, dc),
        }
    }
}

impl<'a> Choice<'a> for EvseStatus {
    fn read_member<P: Places>(descent: &mut Descent<'a, '_, P>) -> Result<EvseStatus, Refusal> {
        member(descent).map(EvseStatus::Dc)
    }
}
