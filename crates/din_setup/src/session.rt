//! Types of elements of the messages of DIN SPEC 70121.

ghost use Rattle.std.specs.Prelude.{[]};

use din_parts::message_fields::{
    Elements, Elements2, Elements3, OptionalValue, RequiredValue, WithOptionalAttribute,
};
use din_parts::message_parts::exi_events::EventWriter;
use din_parts::message_parts::{
    Binary, Descent, PutRecord, ReadRecord, Record, Text, put_optional_attribute,
    put_optional_value, put_value, whole_record,
};
use din_parts::{EvseProcessing, ResponseCode};
use din_schema::names;
use exi_documents::Refusal;
use exi_schema::Places;

/// SessionSetupReq.
#[derive(Drop)]
pub struct SessionSetupReq<'a> {
    /// At most 8 bytes.
    pub evccid: Binary<'a>,
}

impl PutRecord for SessionSetupReq<'_> {
    ghost use Rattle.std.specs.Prelude.{refl};
    ghost use Rattle.din_schema.specs.Declarations.{kinds};
    ghost use Rattle.din_schema.specs.Setup.{session_setup_req};
    ghost use Rattle.din_setup.specs.Session.{session_setup_req_parts};

    ghost kinds = { kinds };

    ghost attributes = { [] };

    ghost particles = { session_setup_req };

    ghost apart = { refl };

    ghost given = { λ v. [] };

    ghost parts = { session_setup_req_parts };

    fn write<P: Places>(&self, writer: &mut EventWriter<'_, '_, P>) {
        put_value(writer, names::EVCCID, &self.evccid);
    }
}

impl<'a> Record<'a> for SessionSetupReq<'a> {
    ghost use Rattle.std.proofs.Common.{rules};

    type Made = Elements<RequiredValue<Binary<'a>>>;

    fn of(made: Self::Made) -> SessionSetupReq<'a> {
        let Elements(RequiredValue(evccid)) = made;
        SessionSetupReq { evccid }
    }

    ghost declared = { Prim.search rules };
}

impl<'a> ReadRecord<'a> for SessionSetupReq<'a> {
    fn read<P: Places>(descent: &mut Descent<'a, '_, P>) -> Result<SessionSetupReq<'a>, Refusal> {
        whole_record(descent)
    }
}

/// SessionSetupRes.
#[derive(Drop)]
pub struct SessionSetupRes<'a> {
    pub response_code: ResponseCode,
    /// At most 32 bytes.
    pub evseid: Binary<'a>,
    pub date_time_now: Option<i64>,
}

impl PutRecord for SessionSetupRes<'_> {
    ghost use Rattle.std.specs.Prelude.{refl};
    ghost use Rattle.din_schema.specs.Declarations.{kinds};
    ghost use Rattle.din_schema.specs.Setup.{session_setup_res};
    ghost use Rattle.din_setup.specs.Session.{session_setup_res_parts};

    ghost kinds = { kinds };

    ghost attributes = { [] };

    ghost particles = { session_setup_res };

    ghost apart = { refl };

    ghost given = { λ v. [] };

    ghost parts = { session_setup_res_parts };

    fn write<P: Places>(&self, writer: &mut EventWriter<'_, '_, P>) {
        put_value(writer, names::RESPONSE_CODE, &self.response_code);
        put_value(writer, names::EVSEID, &self.evseid);
        put_optional_value(writer, names::DATE_TIME_NOW, &self.date_time_now);
    }
}

impl<'a> Record<'a> for SessionSetupRes<'a> {
    ghost use Rattle.std.proofs.Common.{rules};

    type Made = Elements3<
        RequiredValue<ResponseCode>,
        RequiredValue<Binary<'a>>,
        OptionalValue<i64, { names::DATE_TIME_NOW }>,
    >;

    fn of(made: Self::Made) -> SessionSetupRes<'a> {
        let Elements3(
            RequiredValue(response_code),
            RequiredValue(evseid),
            OptionalValue(date_time_now),
        ) = made;
        SessionSetupRes {
            response_code,
            evseid,
            date_time_now,
        }
    }

    ghost declared = { Prim.search rules };
}

impl<'a> ReadRecord<'a> for SessionSetupRes<'a> {
    fn read<P: Places>(descent: &mut Descent<'a, '_, P>) -> Result<SessionSetupRes<'a>, Refusal> {
        whole_record(descent)
    }
}

/// ContractAuthenticationReq.
#[derive(Drop)]
pub struct ContractAuthenticationReq<'a> {
    /// At most 64 code points.
    pub id: Option<Text<'a>>,
    /// At most 64 code points.
    pub gen_challenge: Option<Text<'a>>,
}

impl PutRecord for ContractAuthenticationReq<'_> {
    ghost use Rattle.std.specs.Prelude.{refl};
    ghost use Rattle.din_schema.specs.Declarations.{kinds};
    ghost use Rattle.din_schema.specs.Setup.{contract_authentication_req};
    ghost use Rattle.din_setup.specs.Session.{contract_authentication_req_given, contract_authentication_req_parts, contract_authentication_req_attributes};

    ghost kinds = { kinds };

    ghost attributes = { contract_authentication_req_attributes };

    ghost particles = { contract_authentication_req };

    ghost apart = { refl };

    ghost given = { contract_authentication_req_given };

    ghost parts = { contract_authentication_req_parts };

    fn write<P: Places>(&self, writer: &mut EventWriter<'_, '_, P>) {
        put_optional_attribute(writer, names::ID, &self.id);
        put_optional_value(writer, names::GEN_CHALLENGE, &self.gen_challenge);
    }
}

impl<'a> Record<'a> for ContractAuthenticationReq<'a> {
    ghost use Rattle.std.proofs.Common.{rules};

    type Made = WithOptionalAttribute<Text<'a>, OptionalValue<Text<'a>, { names::GEN_CHALLENGE }>>;

    fn of(made: Self::Made) -> ContractAuthenticationReq<'a> {
        let WithOptionalAttribute(id, OptionalValue(gen_challenge)) = made;
        ContractAuthenticationReq { id, gen_challenge }
    }

    ghost declared = { Prim.search rules };
}

impl<'a> ReadRecord<'a> for ContractAuthenticationReq<'a> {
    fn read<P: Places>(
        descent: &mut Descent<'a, '_, P>,
    ) -> Result<ContractAuthenticationReq<'a>, Refusal> {
        whole_record(descent)
    }
}

/// ContractAuthenticationRes.
#[derive(Clone, Copy)]
pub struct ContractAuthenticationRes {
    pub response_code: ResponseCode,
    pub evse_processing: EvseProcessing,
}

impl PutRecord for ContractAuthenticationRes {
    ghost use Rattle.std.specs.Prelude.{refl};
    ghost use Rattle.din_schema.specs.Declarations.{kinds};
    ghost use Rattle.din_schema.specs.Setup.{contract_authentication_res};
    ghost use Rattle.din_setup.specs.Session.{contract_authentication_res_parts};

    ghost kinds = { kinds };

    ghost attributes = { [] };

    ghost particles = { contract_authentication_res };

    ghost apart = { refl };

    ghost given = { λ v. [] };

    ghost parts = { contract_authentication_res_parts };

    fn write<P: Places>(&self, writer: &mut EventWriter<'_, '_, P>) {
        put_value(writer, names::RESPONSE_CODE, &self.response_code);
        put_value(writer, names::EVSE_PROCESSING, &self.evse_processing);
    }
}

impl<'a> Record<'a> for ContractAuthenticationRes {
    ghost use Rattle.std.proofs.Common.{rules};

    type Made = Elements2<RequiredValue<ResponseCode>, RequiredValue<EvseProcessing>>;

    fn of(made: Self::Made) -> ContractAuthenticationRes {
        let Elements2(RequiredValue(response_code), RequiredValue(evse_processing)) = made;
        ContractAuthenticationRes {
            response_code,
            evse_processing,
        }
    }

    ghost declared = { Prim.search rules };
}

impl<'a> ReadRecord<'a> for ContractAuthenticationRes {
    fn read<P: Places>(
        descent: &mut Descent<'a, '_, P>,
    ) -> Result<ContractAuthenticationRes, Refusal> {
        whole_record(descent)
    }
}

/// SessionStopReq.
#[derive(Clone, Copy)]
pub struct SessionStopReq;

impl PutRecord for SessionStopReq {
    ghost use Rattle.std.specs.Prelude.{refl};
    ghost use Rattle.din_schema.specs.Declarations.{kinds};

    ghost kinds = { kinds };

    ghost attributes = { [] };

    ghost particles = { [] };

    ghost apart = { refl };

    ghost given = { λ v. [] };

    ghost parts = { λ v. [] };

    fn write<P: Places>(&self, _writer: &mut EventWriter<'_, '_, P>) {}
}

impl<'a> Record<'a> for SessionStopReq {
    ghost use Rattle.std.proofs.Common.{rules};

    type Made = Elements<()>;

    fn of(_made: Self::Made) -> SessionStopReq {
        SessionStopReq
    }

    ghost declared = { Prim.search rules };
}

impl<'a> ReadRecord<'a> for SessionStopReq {
    fn read<P: Places>(descent: &mut Descent<'a, '_, P>) -> Result<SessionStopReq, Refusal> {
        whole_record(descent)
    }
}

/// SessionStopRes.
#[derive(Clone, Copy)]
pub struct SessionStopRes {
    pub response_code: ResponseCode,
}

impl PutRecord for SessionStopRes {
    ghost use Rattle.std.specs.Prelude.{refl};
    ghost use Rattle.din_schema.specs.Declarations.{kinds};
    ghost use Rattle.din_schema.specs.Setup.{session_stop_res};
    ghost use Rattle.din_setup.specs.Session.{session_stop_res_parts};

    ghost kinds = { kinds };

    ghost attributes = { [] };

    ghost particles = { session_stop_res };

    ghost apart = { refl };

    ghost given = { λ v. [] };

    ghost parts = { session_stop_res_parts };

    fn write<P: Places>(&self, writer: &mut EventWriter<'_, '_, P>) {
        put_value(writer, names::RESPONSE_CODE, &self.response_code);
    }
}

impl<'a> Record<'a> for SessionStopRes {
    ghost use Rattle.std.proofs.Common.{rules};

    type Made = Elements<RequiredValue<ResponseCode>>;

    fn of(made: Self::Made) -> SessionStopRes {
        let Elements(RequiredValue(response_code)) = made;
        SessionStopRes { response_code }
    }

    ghost declared = { Prim.search rules };
}

impl<'a> ReadRecord<'a> for SessionStopRes {
    fn read<P: Places>(descent: &mut Descent<'a, '_, P>) -> Result<SessionStopRes, Refusal> {
        whole_record(descent)
    }
}
