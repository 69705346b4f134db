//! Types of elements of the messages of DIN SPEC 70121.

ghost use Rattle.std.specs.Prelude.{[]};

use crate::enumerations::FaultCode;
use din_schema::names;
use exi_documents::Refusal;
use exi_schema::Places;
use message_fields::message_parts::exi_events::EventWriter;
use message_fields::message_parts::{
    Binary, Descent, PutRecord, ReadRecord, Record, Text, put_optional, put_optional_value,
    put_value, whole_record,
};
use message_fields::{Elements2, Elements3, LeftOut, Optional, OptionalValue, RequiredValue};

/// Notification.
#[derive(Drop)]
pub struct Notification<'a> {
    pub fault_code: FaultCode,
    /// At most 64 code points.
    pub fault_msg: Option<Text<'a>>,
}

impl PutRecord for Notification<'_> {
    ghost use Rattle.std.specs.Prelude.{refl};
    ghost use Rattle.din_schema.specs.Declarations.{kinds};
    ghost use Rattle.din_schema.specs.Frame.{notification};
    ghost use Rattle.din_parts.specs.Frame.{notification_parts};

    ghost kinds = { kinds };

    ghost attributes = { [] };

    ghost particles = { notification };

    ghost apart = { refl };

    ghost given = { λ v. [] };

    ghost parts = { notification_parts };

    fn write<P: Places>(&self, writer: &mut EventWriter<'_, '_, P>) {
        put_value(writer, names::FAULT_CODE, &self.fault_code);
        put_optional_value(writer, names::FAULT_MSG, &self.fault_msg);
    }
}

impl<'a> Record<'a> for Notification<'a> {
    ghost use Rattle.std.proofs.Common.{rules};

    type Made = Elements2<RequiredValue<FaultCode>, OptionalValue<Text<'a>, { names::FAULT_MSG }>>;

    fn of(made: Self::Made) -> Notification<'a> {
        let Elements2(RequiredValue(fault_code), OptionalValue(fault_msg)) = made;
        Notification {
            fault_code,
            fault_msg,
        }
    }

    ghost declared = { Prim.search rules };
}

impl<'a> ReadRecord<'a> for Notification<'a> {
    fn read<P: Places>(descent: &mut Descent<'a, '_, P>) -> Result<Notification<'a>, Refusal> {
        whole_record(descent)
    }
}

/// Header.
#[derive(Drop, Default)]
pub struct Header<'a> {
    /// At most 8 bytes.
    pub session_id: Binary<'a>,
    pub notification: Option<Notification<'a>>,
}

impl PutRecord for Header<'_> {
    ghost use Rattle.std.specs.Prelude.{refl};
    ghost use Rattle.din_schema.specs.Declarations.{kinds};
    ghost use Rattle.din_schema.specs.Frame.{header};
    ghost use Rattle.din_parts.specs.Frame.{header_parts};

    ghost kinds = { kinds };

    ghost attributes = { [] };

    ghost particles = { header };

    ghost apart = { refl };

    ghost given = { λ v. [] };

    ghost parts = { header_parts };

    fn write<P: Places>(&self, writer: &mut EventWriter<'_, '_, P>) {
        put_value(writer, names::SESSION_ID, &self.session_id);
        put_optional(writer, names::NOTIFICATION, &self.notification);
    }
}

impl<'a> Record<'a> for Header<'a> {
    ghost use Rattle.std.proofs.Common.{rules};

    type Made = Elements3<
        RequiredValue<Binary<'a>>,
        Optional<Notification<'a>, { names::NOTIFICATION }>,
        LeftOut,
    >;

    fn of(made: Self::Made) -> Header<'a> {
        let Elements3(RequiredValue(session_id), Optional(notification), LeftOut) = made;
        Header {
            session_id,
            notification,
        }
    }

    ghost declared = { Prim.search rules };
}

impl<'a> ReadRecord<'a> for Header<'a> {
    fn read<P: Places>(descent: &mut Descent<'a, '_, P>) -> Result<Header<'a>, Refusal> {
        whole_record(descent)
    }
}
