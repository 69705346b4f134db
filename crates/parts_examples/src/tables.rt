//! The declarations as tables.

ghost use Rattle.std.specs.Prelude.{◌≡◌, true};
ghost use Rattle.exi_schema.specs.Told.{schema_of};
ghost use Rattle.kind_laws.specs.Order.{is_ordered};
ghost use Rattle.parts_examples.specs.Declarations.{report_schema};

use crate::kinds::*;
use crate::names::*;
use exi_schema::{
    AttributeOf, Datatype, Declaration, Member, MemberStanding, Particle, RootOf, Schema,
};

/// The texts of the names, by their numbers.
static NAMES: [&'static str; 38] = [
    "Report",
    "Number",
    "Revision",
    "Place",
    "Seal",
    "State",
    "Meter",
    "Phase",
    "Pulses",
    "Energy",
    "Total",
    "Offset",
    "Power",
    "Reactive",
    "Time",
    "Valid",
    "Load",
    "Remark",
    "Flag",
    "Step",
    "Short",
    "Whole",
    "Reading",
    "Word",
    "Scale",
    "Value",
    "AcSupply",
    "DcSupply",
    "SolarSupply",
    "Supply",
    "Voltage",
    "Current",
    "Cause",
    "Ended",
    "Stopped",
    "Day",
    "Hour",
    "Closed",
];

const STATES: [&'static str; 3] = ["Free", "Charging", "Broken"];

const NONE: [&'static str; 0] = [];

static VALUES: [&'static [&'static str]; 21] = [
    &NONE, &NONE, &NONE, &NONE, &NONE, &NONE, &NONE, &NONE, &NONE, &NONE, &NONE, &NONE, &STATES,
    &NONE, &NONE, &NONE, &NONE, &NONE, &NONE, &NONE, &NONE,
];

static ROOTS: [RootOf; 1] = [RootOf {
    number: 0,
    name: REPORT,
    kind: REPORT_KIND,
}];

/// An element of a particle.
macro_rules! member {
    ($standing:ident, $name:expr, $kind:expr) => {
        Member { name: $name, kind: $kind, standing: MemberStanding::$standing }
    };
}

/// One element, from so many to so many times.
macro_rules! copies {
    ($least:expr, $most:expr, $name:expr, $kind:expr) => {
        Particle { members: &[member!(Taken, $name, $kind)], least: $least, most: Some($most), profile: $most }
    };
}

/// One element, from so many times on, of which so many are accepted.
macro_rules! unbounded {
    ($least:expr, $profile:expr, $name:expr, $kind:expr) => {
        Particle { members: &[member!(Taken, $name, $kind)], least: $least, most: None, profile: $profile }
    };
}

/// One of these elements, or with 0 perhaps one.
macro_rules! one_of {
    ($least:expr, $members:expr) => {
        Particle { members: $members, least: $least, most: Some(1), profile: 1 }
    };
}

const AMOUNTS: [Member; 6] = [
    member!(Taken, FLAG, BOOLEAN_KIND),
    member!(Taken, STEP, BYTE_KIND),
    member!(Taken, SHORT, SHORT_KIND),
    member!(Taken, WHOLE, INT_KIND),
    member!(Taken, READING, READING_KIND),
    member!(Taken, WORD, TEXT_KIND),
];

const SUPPLIES: [Member; 4] = [
    member!(Taken, AC_SUPPLY, AC_SUPPLY_KIND),
    member!(Taken, DC_SUPPLY, DC_SUPPLY_KIND),
    member!(OutOfProfile, SOLAR_SUPPLY, EMPTY_KIND),
    member!(Abstract, SUPPLY, EMPTY_KIND),
];

const CAUSES: [Member; 3] = [
    member!(Abstract, CAUSE, EMPTY_KIND),
    member!(Taken, ENDED, UNSIGNED_SHORT_KIND),
    member!(Taken, STOPPED, STOPPED_KIND),
];

const METER_PARTS: [Particle<'static>; 10] = [
    copies!(1, 1, PHASE, PHASE_KIND),
    copies!(1, 1, PULSES, UNSIGNED_SHORT_KIND),
    copies!(1, 1, ENERGY, UNSIGNED_INT_KIND),
    copies!(1, 1, TOTAL, UNSIGNED_LONG_KIND),
    copies!(1, 1, OFFSET, BYTE_KIND),
    copies!(1, 1, POWER, SHORT_KIND),
    copies!(1, 1, REACTIVE, INT_KIND),
    copies!(1, 1, TIME, LONG_KIND),
    copies!(1, 1, VALID, BOOLEAN_KIND),
    copies!(0, 1, LOAD, OCTET_KIND),
];

const READING_PARTS: [Particle<'static>; 2] = [
    copies!(1, 1, SCALE, BYTE_KIND),
    copies!(1, 1, VALUE, SHORT_KIND),
];

const AC_PARTS: [Particle<'static>; 1] = [copies!(1, 1, PHASE, PHASE_KIND)];

const DC_PARTS: [Particle<'static>; 2] = [
    copies!(1, 1, VOLTAGE, UNSIGNED_SHORT_KIND),
    copies!(0, 1, CURRENT, UNSIGNED_SHORT_KIND),
];

const STOPPED_PARTS: [Particle<'static>; 1] = [copies!(1, 1, STATE, STATE_KIND)];

const DAY_PARTS: [Particle<'static>; 1] = [unbounded!(1, 2, HOUR, OCTET_KIND)];

const REPORT_PARTS: [Particle<'static>; 10] = [
    copies!(1, 1, PLACE, TEXT_KIND),
    copies!(1, 1, SEAL, SEAL_KIND),
    copies!(1, 1, STATE, STATE_KIND),
    copies!(1, 1, METER, METER_KIND),
    copies!(0, 1, REMARK, TEXT_KIND),
    one_of!(1, &AMOUNTS),
    one_of!(1, &SUPPLIES),
    one_of!(0, &CAUSES),
    copies!(1, 3, DAY, DAY_KIND),
    copies!(1, 1, CLOSED, EMPTY_KIND),
];

const REPORT_ATTRIBUTES: [AttributeOf; 2] = [
    AttributeOf {
        name: NUMBER,
        kind: OCTET_KIND,
        required: true,
    },
    AttributeOf {
        name: REVISION,
        kind: UNSIGNED_SHORT_KIND,
        required: false,
    },
];

static KINDS: [Declaration<'static>; 21] = [
    Declaration::Simple(Datatype::Bool),
    Declaration::Simple(Datatype::Bounded {
        least: -128,
        count: 256,
    }),
    Declaration::Simple(Datatype::Bounded {
        least: 0,
        count: 256,
    }),
    Declaration::Simple(Datatype::Bounded { least: 1, count: 3 }),
    Declaration::Simple(Datatype::Unsigned { most: 65_535 }),
    Declaration::Simple(Datatype::Unsigned {
        most: 4_294_967_295,
    }),
    Declaration::Simple(Datatype::Unsigned {
        most: 18_446_744_073_709_551_615,
    }),
    Declaration::Simple(Datatype::Signed {
        least: -32_768,
        most: 32_767,
    }),
    Declaration::Simple(Datatype::Signed {
        least: -2_147_483_648,
        most: 2_147_483_647,
    }),
    Declaration::Simple(Datatype::Signed {
        least: -9_223_372_036_854_775_808,
        most: 9_223_372_036_854_775_807,
    }),
    Declaration::Simple(Datatype::Text { most: 20 }),
    Declaration::Simple(Datatype::Binary { most: 4 }),
    Declaration::Simple(Datatype::Named { count: 3 }),
    Declaration::Complex {
        attributes: &[],
        particles: &[],
    },
    Declaration::Complex {
        attributes: &[],
        particles: &METER_PARTS,
    },
    Declaration::Complex {
        attributes: &[],
        particles: &READING_PARTS,
    },
    Declaration::Complex {
        attributes: &[],
        particles: &AC_PARTS,
    },
    Declaration::Complex {
        attributes: &[],
        particles: &DC_PARTS,
    },
    Declaration::Complex {
        attributes: &[],
        particles: &STOPPED_PARTS,
    },
    Declaration::Complex {
        attributes: &[],
        particles: &DAY_PARTS,
    },
    Declaration::Complex {
        attributes: &REPORT_ATTRIBUTES,
        particles: &REPORT_PARTS,
    },
];

/// The schema of a report.
pub fn report_schema() -> Schema<'static>
    ensures schema { schema_of result ≡ report_schema }
    // Attributes and members of groups stand in order of their names.
    ensures ordered { is_ordered report_schema ≡ true }
{
    Schema {
        kinds: &KINDS,
        names: &NAMES,
        values: &VALUES,
        root_bits: 2,
        roots: &ROOTS,
    }
}
