//! The declarations as tables.

ghost use Rattle.std.specs.Prelude.{◌≡◌};
ghost use Rattle.exi_schema.specs.Told.{schema_of};
ghost use Rattle.app_schema.specs.Declarations.{negotiation_schema};

use crate::names::{
    APP_PROTOCOL, MAJOR, MINOR, NAMESPACE, PRIORITY, REQUEST, RESPONSE, RESPONSE_CODE, SCHEMA_ID,
};
use exi_schema::{Datatype, Declaration, Member, MemberStanding, Particle, RootOf, Schema};

/// The texts of the names, by their numbers.
static NAMES: [&'static str; 9] = [
    "supportedAppProtocolReq",
    "supportedAppProtocolRes",
    "AppProtocol",
    "ProtocolNamespace",
    "VersionNumberMajor",
    "VersionNumberMinor",
    "SchemaID",
    "Priority",
    "ResponseCode",
];

const CODES: [&'static str; 3] = [
    "OK_SuccessfulNegotiation",
    "OK_SuccessfulNegotiationWithMinorDeviation",
    "Failed_NoNegotiation",
];

const NONE: [&'static str; 0] = [];

static VALUES: [&'static [&'static str]; 8] = [
    &NONE, &NONE, &NONE, &NONE, &CODES, &NONE, &NONE, &NONE,
];

// the numbers of the kinds
pub(crate) const NAMESPACE_TEXT: u16 = 0;

pub(crate) const UNSIGNED_INT: u16 = 1;

pub(crate) const UNSIGNED_BYTE: u16 = 2;

pub(crate) const PRIORITY_NUMBER: u16 = 3;

pub(crate) const CODE_NAME: u16 = 4;

pub(crate) const PROTOCOL: u16 = 5;

pub(crate) const REQUEST_KIND: u16 = 6;

pub(crate) const RESPONSE_KIND: u16 = 7;

static ROOTS: [RootOf; 2] = [
    RootOf {
        number: 0,
        name: REQUEST,
        kind: REQUEST_KIND,
    },
    RootOf {
        number: 1,
        name: RESPONSE,
        kind: RESPONSE_KIND,
    },
];

/// From so many to so many copies of one element.
macro_rules! copies {
    ($least:expr, $most:expr, $name:expr, $kind:expr) => {
        Particle {
            members: &[Member {
                name: $name,
                kind: $kind,
                standing: MemberStanding::Taken,
            }],
            least: $least,
            most: Some($most),
            profile: $most,
        }
    };
}

const PROTOCOL_PARTS: [Particle<'static>; 5] = [
    copies!(1, 1, NAMESPACE, NAMESPACE_TEXT),
    copies!(1, 1, MAJOR, UNSIGNED_INT),
    copies!(1, 1, MINOR, UNSIGNED_INT),
    copies!(1, 1, SCHEMA_ID, UNSIGNED_BYTE),
    copies!(1, 1, PRIORITY, PRIORITY_NUMBER),
];

const REQUEST_PARTS: [Particle<'static>; 1] = [copies!(1, 20, APP_PROTOCOL, PROTOCOL)];

const RESPONSE_PARTS: [Particle<'static>; 2] = [
    copies!(1, 1, RESPONSE_CODE, CODE_NAME),
    copies!(0, 1, SCHEMA_ID, UNSIGNED_BYTE),
];

static KINDS: [Declaration<'static>; 8] = [
    Declaration::Simple(Datatype::Text { most: 100 }),
    Declaration::Simple(Datatype::Unsigned {
        most: 4_294_967_295,
    }),
    Declaration::Simple(Datatype::Bounded {
        least: 0,
        count: 256,
    }),
    Declaration::Simple(Datatype::Bounded {
        least: 1,
        count: 20,
    }),
    Declaration::Simple(Datatype::Named { count: 3 }),
    Declaration::Complex {
        attributes: &[],
        particles: &PROTOCOL_PARTS,
    },
    Declaration::Complex {
        attributes: &[],
        particles: &REQUEST_PARTS,
    },
    Declaration::Complex {
        attributes: &[],
        particles: &RESPONSE_PARTS,
    },
];

/// The schema of the negotiation.
pub fn negotiation() -> Schema<'static>
    ensures { schema_of result ≡ negotiation_schema }
{
    Schema {
        kinds: &KINDS,
        names: &NAMES,
        values: &VALUES,
        root_bits: 2,
        roots: &ROOTS,
    }
}
