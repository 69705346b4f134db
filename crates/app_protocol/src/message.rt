//! The messages of the negotiation, and how they are read and put.

ghost use Rattle.std.specs.Prelude.{[]};
ghost use Rattle.std.proofs.Common.{rules};
ghost use Rattle.exi_documents.specs.Trees.{Ordinal};
ghost use Rattle.message_parts.specs.Values.{is_named};
ghost use Rattle.app_schema.specs.Declarations.{kinds as all_kinds, protocol_particles, request_particles, response_particles};
ghost use Rattle.app_protocol.specs.Messages.{ordinal_of, protocol_parts, parts_of_request, parts_of_response, root_name, root_inside, root_number};

use app_schema::names::{
    APP_PROTOCOL, MAJOR, MINOR, NAMESPACE, PRIORITY, REQUEST, RESPONSE, RESPONSE_CODE, SCHEMA_ID,
};
use arrayvec::ArrayVec;
use exi_documents::Refusal;
use exi_events::{EventWriter, Value};
use exi_schema::Places;
use message_fields::{Elements2, OptionalValue, RequiredValue};
use message_parts::{
    Choice, Descent, PutChoice, PutRecord, ReadRecord, Record, Root, Simple, Text, first_child,
    member, put_optional_value, put_record, put_records, put_value, records, whole_record,
};

/// One protocol that a car offers.
#[derive(Drop)]
pub struct AppProtocol<'a> {
    /// ProtocolNamespace: at most 100 characters.
    pub namespace: Text<'a>,
    /// VersionNumberMajor.
    pub major: u32,
    /// VersionNumberMinor.
    pub minor: u32,
    /// SchemaID: the car's short name for this protocol, which the response repeats.
    pub schema: u8,
    /// Priority: from 1, the most wanted, to 20.
    pub priority: u8,
}

impl<'a> Default for AppProtocol<'a> {
    fn default() -> AppProtocol<'a> {
        AppProtocol {
            namespace: Text::default(),
            major: 0,
            minor: 0,
            schema: 0,
            priority: 1,
        }
    }
}

impl<'a> PutRecord for AppProtocol<'a> {
    ghost use Rattle.std.specs.Prelude.{refl};

    ghost kinds = { all_kinds };

    ghost attributes = { [] };

    ghost particles = { protocol_particles };

    ghost apart = { refl };

    ghost given = { λ _. [] };

    ghost parts = { protocol_parts };

    fn write<P: Places>(&self, writer: &mut EventWriter<'_, '_, P>) {
        put_value(writer, NAMESPACE, &self.namespace);
        put_value(writer, MAJOR, &self.major);
        put_value(writer, MINOR, &self.minor);
        put_value(writer, SCHEMA_ID, &self.schema);
        put_value(writer, PRIORITY, &self.priority);
    }
}

impl<'a> Record<'a> for AppProtocol<'a> {
    type Made = Elements2<
        (
            RequiredValue<Text<'a>>,
            RequiredValue<u32>,
            RequiredValue<u32>,
        ),
        (RequiredValue<u8>, RequiredValue<u8>),
    >;

    fn of(made: Self::Made) -> AppProtocol<'a> {
        let Elements2(
            (RequiredValue(namespace), RequiredValue(major), RequiredValue(minor)),
            (RequiredValue(schema), RequiredValue(priority)),
        ) = made;
        AppProtocol {
            namespace,
            major,
            minor,
            schema,
            priority,
        }
    }

    ghost declared = { Prim.search rules };
}

impl<'a> ReadRecord<'a> for AppProtocol<'a> {
    fn read<P: Places>(descent: &mut Descent<'a, '_, P>) -> Result<AppProtocol<'a>, Refusal> {
        whole_record(descent)
    }
}

/// A car's request: what it offers, 1 to 20 protocols.
#[derive(Drop)]
pub struct AppReq<'a> {
    /// In the order of the request.
    pub protocols: ArrayVec<AppProtocol<'a>, 20>,
}

impl<'a> PutRecord for AppReq<'a> {
    ghost use Rattle.std.specs.Prelude.{refl};

    ghost kinds = { all_kinds };

    ghost attributes = { [] };

    ghost particles = { request_particles };

    ghost apart = { refl };

    ghost given = { λ _. [] };

    ghost parts = { parts_of_request };

    fn write<P: Places>(&self, writer: &mut EventWriter<'_, '_, P>) {
        put_records(writer, APP_PROTOCOL, &self.protocols);
    }
}

impl<'a> ReadRecord<'a> for AppReq<'a> {
    fn read<P: Places>(descent: &mut Descent<'a, '_, P>) -> Result<AppReq<'a>, Refusal> {
        first_child(descent)?;
        let protocols = records(descent, APP_PROTOCOL)?;
        Ok(AppReq { protocols })
    }
}

/// The response code.
#[derive(Clone, Copy, PartialEq, Eq, Drop)]
pub enum AppCode {
    /// OK_SuccessfulNegotiation.
    Successful,
    /// OK_SuccessfulNegotiationWithMinorDeviation: the minor versions differ.
    MinorDeviation,
    /// Failed_NoNegotiation: no protocol of the request is on offer.
    Failed,
}

impl<'a> Simple<'a> for AppCode {
    ghost takes = { is_named 3 };

    ghost value = { λ code. Ordinal (ordinal_of code) };

    fn as_value(&self) -> Value<'_> {
        match self {
            AppCode::Successful => Value::Ordinal(0),
            AppCode::MinorDeviation => Value::Ordinal(1),
            AppCode::Failed => Value::Ordinal(2),
        }
    }

    fn of(read: Value<'a>) -> AppCode {
        match read {
            Value::Ordinal(0) => AppCode::Successful,
            Value::Ordinal(1) => AppCode::MinorDeviation,
            _ => AppCode::Failed,
        }
    }
}

/// A station's response.
#[derive(Clone, Copy, PartialEq, Eq, Drop)]
pub struct AppRes {
    /// ResponseCode.
    pub code: AppCode,
    /// SchemaID: the chosen protocol's, and none where none is chosen.
    pub schema: Option<u8>,
}

impl PutRecord for AppRes {
    ghost use Rattle.std.specs.Prelude.{refl};

    ghost kinds = { all_kinds };

    ghost attributes = { [] };

    ghost particles = { response_particles };

    ghost apart = { refl };

    ghost given = { λ _. [] };

    ghost parts = { parts_of_response };

    fn write<P: Places>(&self, writer: &mut EventWriter<'_, '_, P>) {
        put_value(writer, RESPONSE_CODE, &self.code);
        put_optional_value(writer, SCHEMA_ID, &self.schema);
    }
}

impl<'a> Record<'a> for AppRes {
    type Made = Elements2<RequiredValue<AppCode>, OptionalValue<u8, { SCHEMA_ID }>>;

    fn of(made: Self::Made) -> AppRes {
        let Elements2(RequiredValue(code), OptionalValue(schema)) = made;
        AppRes { code, schema }
    }

    ghost declared = { Prim.search rules };
}

impl<'a> ReadRecord<'a> for AppRes {
    fn read<P: Places>(descent: &mut Descent<'a, '_, P>) -> Result<AppRes, Refusal> {
        whole_record(descent)
    }
}

/// A message of the negotiation.
#[derive(Drop)]
pub enum AppMessage<'a> {
    /// supportedAppProtocolReq.
    Req(AppReq<'a>),
    /// supportedAppProtocolRes.
    Res(AppRes),
}

impl<'a> PutChoice for AppMessage<'a> {
    ghost use Rattle.app_protocol.specs.Messages.{root_members};

    ghost kinds = { all_kinds };

    ghost members = { root_members };

    ghost name = { root_name };

    ghost inside = { root_inside };

    fn write_member<P: Places>(&self, writer: &mut EventWriter<'_, '_, P>) {
        match self {
            AppMessage::Req(request) => put_record(writer, REQUEST, request),
            AppMessage::Res(response) => put_record(writer, RESPONSE, response),
        }
    }
}

impl<'a> Choice<'a> for AppMessage<'a> {
    fn read_member<P: Places>(descent: &mut Descent<'a, '_, P>) -> Result<AppMessage<'a>, Refusal> {
        if descent.is_at(REQUEST) {
            let request = member(descent)?;
            return Ok(AppMessage::Req(request));
        }
        let response = member(descent)?;
        Ok(AppMessage::Res(response))
    }
}

impl<'a> Root for AppMessage<'a> {
    ghost number = { root_number };

    fn number(&self) -> u32 {
        match self {
            AppMessage::Req(_) => 0,
            AppMessage::Res(_) => 1,
        }
    }
}
