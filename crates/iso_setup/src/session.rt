//! Types of elements of the messages of ISO 15118-2.

ghost use Rattle.std.specs.Prelude.{[]};

use exi_documents::Refusal;
use exi_schema::Places;
use iso_parts::message_fields::{
    Elements, Elements2, Elements3, OptionalValue, RequiredValue, WithOptionalAttribute,
};
use iso_parts::{ChargingSession, EvseProcessing, ResponseCode};
use iso_schema::names;
use message_parts::exi_events::EventWriter;
use message_parts::{
    Binary, Descent, PutRecord, ReadRecord, Record, Text, put_optional_attribute,
    put_optional_value, put_value, whole_record,
};

/// SessionSetupReq.
#[derive(Drop)]
pub struct SessionSetupReq<'a> {
    /// At most 6 bytes.
    pub evccid: Binary<'a>,
}

impl PutRecord for SessionSetupReq<'_> {
    ghost use Rattle.std.specs.Prelude.{refl};
    ghost use Rattle.iso_schema.specs.Declarations.{kinds};
    ghost use Rattle.iso_schema.specs.Setup.{session_setup_req};
    ghost use Rattle.iso_setup.specs.Session.{session_setup_req_parts};

    ghost kinds = { kinds };

    ghost attributes = { [] };

    ghost particles = { session_setup_req };

    ghost apart = { refl };

    ghost given = { λ v. [] };

    ghost parts = { session_setup_req_parts };

    fn write<P: Places>(&self, writer: &mut EventWriter<'_, '_, P>) {
        put_value(writer, names::EVCCID, &self.evccid);
    }
}

impl<'a> Record<'a> for SessionSetupReq<'a> {
    ghost use Rattle.std.proofs.Common.{rules};

    type Made = Elements<RequiredValue<Binary<'a>>>;

    fn of(made: Self::Made) -> SessionSetupReq<'a> {
        let Elements(RequiredValue(evccid)) = made;
        SessionSetupReq { evccid }
    }

    ghost declared = { Prim.search rules };
}

impl<'a> ReadRecord<'a> for SessionSetupReq<'a> {
    fn read<P: Places>(descent: &mut Descent<'a, '_, P>) -> Result<SessionSetupReq<'a>, Refusal> {
        whole_record(descent)
    }
}

/// SessionSetupRes.
#[derive(Drop)]
pub struct SessionSetupRes<'a> {
    pub response_code: ResponseCode,
    /// At most 37 code points.
    pub evseid: Text<'a>,
    pub evse_time_stamp: Option<i64>,
}

impl PutRecord for SessionSetupRes<'_> {
    ghost use Rattle.std.specs.Prelude.{refl};
    ghost use Rattle.iso_schema.specs.Declarations.{kinds};
    ghost use Rattle.iso_schema.specs.Setup.{session_setup_res};
    ghost use Rattle.iso_setup.specs.Session.{session_setup_res_parts};

    ghost kinds = { kinds };

    ghost attributes = { [] };

    ghost particles = { session_setup_res };

    ghost apart = { refl };

    ghost given = { λ v. [] };

    ghost parts = { session_setup_res_parts };

    fn write<P: Places>(&self, writer: &mut EventWriter<'_, '_, P>) {
        put_value(writer, names::RESPONSE_CODE, &self.response_code);
        put_value(writer, names::EVSEID, &self.evseid);
        put_optional_value(writer, names::EVSE_TIME_STAMP, &self.evse_time_stamp);
    }
}

impl<'a> Record<'a> for SessionSetupRes<'a> {
    ghost use Rattle.std.proofs.Common.{rules};

    type Made = Elements3<
        RequiredValue<ResponseCode>,
        RequiredValue<Text<'a>>,
        OptionalValue<i64, { names::EVSE_TIME_STAMP }>,
    >;

    fn of(made: Self::Made) -> SessionSetupRes<'a> {
        let Elements3(
            RequiredValue(response_code),
            RequiredValue(evseid),
            OptionalValue(evse_time_stamp),
        ) = made;
        SessionSetupRes {
            response_code,
            evseid,
            evse_time_stamp,
        }
    }

    ghost declared = { Prim.search rules };
}

impl<'a> ReadRecord<'a> for SessionSetupRes<'a> {
    fn read<P: Places>(descent: &mut Descent<'a, '_, P>) -> Result<SessionSetupRes<'a>, Refusal> {
        whole_record(descent)
    }
}

/// AuthorizationReq.
#[derive(Drop)]
pub struct AuthorizationReq<'a> {
    /// At most 64 code points.
    pub id: Option<Text<'a>>,
    /// At most 16 bytes.
    pub gen_challenge: Option<Binary<'a>>,
}

impl PutRecord for AuthorizationReq<'_> {
    ghost use Rattle.std.specs.Prelude.{refl};
    ghost use Rattle.iso_schema.specs.Declarations.{kinds};
    ghost use Rattle.iso_schema.specs.Selection.{authorization_req};
    ghost use Rattle.iso_setup.specs.Session.{authorization_req_given, authorization_req_parts, authorization_req_attributes};

    ghost kinds = { kinds };

    ghost attributes = { authorization_req_attributes };

    ghost particles = { authorization_req };

    ghost apart = { refl };

    ghost given = { authorization_req_given };

    ghost parts = { authorization_req_parts };

    fn write<P: Places>(&self, writer: &mut EventWriter<'_, '_, P>) {
        put_optional_attribute(writer, names::ID, &self.id);
        put_optional_value(writer, names::GEN_CHALLENGE, &self.gen_challenge);
    }
}

impl<'a> Record<'a> for AuthorizationReq<'a> {
    ghost use Rattle.std.proofs.Common.{rules};

    type Made = WithOptionalAttribute<
        Text<'a>,
        OptionalValue<Binary<'a>, { names::GEN_CHALLENGE }>,
    >;

    fn of(made: Self::Made) -> AuthorizationReq<'a> {
        let WithOptionalAttribute(id, OptionalValue(gen_challenge)) = made;
        AuthorizationReq { id, gen_challenge }
    }

    ghost declared = { Prim.search rules };
}

impl<'a> ReadRecord<'a> for AuthorizationReq<'a> {
    fn read<P: Places>(descent: &mut Descent<'a, '_, P>) -> Result<AuthorizationReq<'a>, Refusal> {
        whole_record(descent)
    }
}

/// AuthorizationRes.
#[derive(Clone, Copy)]
pub struct AuthorizationRes {
    pub response_code: ResponseCode,
    pub evse_processing: EvseProcessing,
}

impl PutRecord for AuthorizationRes {
    ghost use Rattle.std.specs.Prelude.{refl};
    ghost use Rattle.iso_schema.specs.Declarations.{kinds};
    ghost use Rattle.iso_schema.specs.Selection.{authorization_res};
    ghost use Rattle.iso_setup.specs.Session.{authorization_res_parts};

    ghost kinds = { kinds };

    ghost attributes = { [] };

    ghost particles = { authorization_res };

    ghost apart = { refl };

    ghost given = { λ v. [] };

    ghost parts = { authorization_res_parts };

    fn write<P: Places>(&self, writer: &mut EventWriter<'_, '_, P>) {
        put_value(writer, names::RESPONSE_CODE, &self.response_code);
        put_value(writer, names::EVSE_PROCESSING, &self.evse_processing);
    }
}

impl<'a> Record<'a> for AuthorizationRes {
    ghost use Rattle.std.proofs.Common.{rules};

    type Made = Elements2<RequiredValue<ResponseCode>, RequiredValue<EvseProcessing>>;

    fn of(made: Self::Made) -> AuthorizationRes {
        let Elements2(RequiredValue(response_code), RequiredValue(evse_processing)) = made;
        AuthorizationRes {
            response_code,
            evse_processing,
        }
    }

    ghost declared = { Prim.search rules };
}

impl<'a> ReadRecord<'a> for AuthorizationRes {
    fn read<P: Places>(descent: &mut Descent<'a, '_, P>) -> Result<AuthorizationRes, Refusal> {
        whole_record(descent)
    }
}

/// SessionStopReq.
#[derive(Clone, Copy)]
pub struct SessionStopReq {
    pub charging_session: ChargingSession,
}

impl PutRecord for SessionStopReq {
    ghost use Rattle.std.specs.Prelude.{refl};
    ghost use Rattle.iso_schema.specs.Declarations.{kinds};
    ghost use Rattle.iso_schema.specs.Selection.{session_stop_req};
    ghost use Rattle.iso_setup.specs.Session.{session_stop_req_parts};

    ghost kinds = { kinds };

    ghost attributes = { [] };

    ghost particles = { session_stop_req };

    ghost apart = { refl };

    ghost given = { λ v. [] };

    ghost parts = { session_stop_req_parts };

    fn write<P: Places>(&self, writer: &mut EventWriter<'_, '_, P>) {
        put_value(writer, names::CHARGING_SESSION, &self.charging_session);
    }
}

impl<'a> Record<'a> for SessionStopReq {
    ghost use Rattle.std.proofs.Common.{rules};

    type Made = Elements<RequiredValue<ChargingSession>>;

    fn of(made: Self::Made) -> SessionStopReq {
        let Elements(RequiredValue(charging_session)) = made;
        SessionStopReq { charging_session }
    }

    ghost declared = { Prim.search rules };
}

impl<'a> ReadRecord<'a> for SessionStopReq {
    fn read<P: Places>(descent: &mut Descent<'a, '_, P>) -> Result<SessionStopReq, Refusal> {
        whole_record(descent)
    }
}

/// SessionStopRes.
#[derive(Clone, Copy)]
pub struct SessionStopRes {
    pub response_code: ResponseCode,
}

impl PutRecord for SessionStopRes {
    ghost use Rattle.std.specs.Prelude.{refl};
    ghost use Rattle.iso_schema.specs.Declarations.{kinds};
    ghost use Rattle.iso_schema.specs.Selection.{session_stop_res};
    ghost use Rattle.iso_setup.specs.Session.{session_stop_res_parts};

    ghost kinds = { kinds };

    ghost attributes = { [] };

    ghost particles = { session_stop_res };

    ghost apart = { refl };

    ghost given = { λ v. [] };

    ghost parts = { session_stop_res_parts };

    fn write<P: Places>(&self, writer: &mut EventWriter<'_, '_, P>) {
        put_value(writer, names::RESPONSE_CODE, &self.response_code);
    }
}

impl<'a> Record<'a> for SessionStopRes {
    ghost use Rattle.std.proofs.Common.{rules};

    type Made = Elements<RequiredValue<ResponseCode>>;

    fn of(made: Self::Made) -> SessionStopRes {
        let Elements(RequiredValue(response_code)) = made;
        SessionStopRes { response_code }
    }

    ghost declared = { Prim.search rules };
}

impl<'a> ReadRecord<'a> for SessionStopRes {
    fn read<P: Places>(descent: &mut Descent<'a, '_, P>) -> Result<SessionStopRes, Refusal> {
        whole_record(descent)
    }
}
