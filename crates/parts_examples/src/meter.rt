//! A meter: ten fields, numbers of every kind.

ghost use Rattle.std.specs.Prelude.{[]};

use crate::names;
use exi_documents::Refusal;
use exi_events::EventWriter;
use exi_schema::Places;
use message_fields::{Elements3, OptionalValue, RequiredValue};
use message_parts::{
    Descent, PutRecord, ReadRecord, Record, put_optional_value, put_value, whole_record,
};

/// What a meter reads.
#[derive(Clone, Copy, Debug, PartialEq, Eq)]
pub struct Meter {
    /// The phase that is measured, 1 to 3.
    pub phase: u8,
    pub pulses: u16,
    /// In watt hours, of the session.
    pub energy: u32,
    /// In watt hours, since the meter was made.
    pub total: u64,
    /// In seconds.
    pub offset: i8,
    /// In watts, negative where it is fed back.
    pub power: i16,
    /// In volt amperes.
    pub reactive: i32,
    /// In seconds since 1970.
    pub time: i64,
    /// Whether it is calibrated.
    pub valid: bool,
    /// In percent.
    pub load: Option<u8>,
}

impl PutRecord for Meter {
    ghost use Rattle.std.specs.Prelude.{refl};
    ghost use Rattle.parts_examples.specs.Declarations.{kinds, meter};
    ghost use Rattle.parts_examples.specs.Parts.{meter_parts};

    ghost kinds = { kinds };

    ghost attributes = { [] };

    ghost particles = { meter };

    ghost apart = { refl };

    ghost given = { λ v. [] };

    ghost parts = { meter_parts };

    fn write<P: Places>(&self, writer: &mut EventWriter<'_, '_, P>) {
        put_value(writer, names::PHASE, &self.phase);
        put_value(writer, names::PULSES, &self.pulses);
        put_value(writer, names::ENERGY, &self.energy);
        put_value(writer, names::TOTAL, &self.total);
        put_value(writer, names::OFFSET, &self.offset);
        put_value(writer, names::POWER, &self.power);
        put_value(writer, names::REACTIVE, &self.reactive);
        put_value(writer, names::TIME, &self.time);
        put_value(writer, names::VALID, &self.valid);
        put_optional_value(writer, names::LOAD, &self.load);
    }
}

impl<'a> Record<'a> for Meter {
    ghost use Rattle.std.proofs.Common.{rules};

    type Made = Elements3<
        (
            RequiredValue<u8>,
            RequiredValue<u16>,
            RequiredValue<u32>,
            RequiredValue<u64>,
        ),
        (
            RequiredValue<i8>,
            RequiredValue<i16>,
            RequiredValue<i32>,
            RequiredValue<i64>,
        ),
        (RequiredValue<bool>, OptionalValue<u8, { names::LOAD }>),
    >;

    fn of(made: Self::Made) -> Meter {
        let Elements3(
            (
                RequiredValue(phase),
                RequiredValue(pulses),
                RequiredValue(energy),
                RequiredValue(total),
            ),
            (
                RequiredValue(offset),
                RequiredValue(power),
                RequiredValue(reactive),
                RequiredValue(time),
            ),
            (RequiredValue(valid), OptionalValue(load)),
        ) = made;
        Meter {
            phase,
            pulses,
            energy,
            total,
            offset,
            power,
            reactive,
            time,
            valid,
            load,
        }
    }

    ghost declared = { Prim.search rules };
}

impl<'a> ReadRecord<'a> for Meter {
    fn read<P: Places>(descent: &mut Descent<'a, '_, P>) -> Result<Meter, Refusal> {
        whole_record(descent)
    }
}
