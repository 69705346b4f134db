//! One of several elements: a choice of six, a group, and one that may be absent.

ghost use Rattle.std.specs.Prelude.{[]};

use crate::names;
use exi_documents::Refusal;
use exi_events::{EventWriter, Value};
use exi_schema::Places;
use message_fields::{Elements, Elements2, OptionalValue, RequiredValue};
use message_parts::{
    Choice, Descent, Group, PutChoice, PutRecord, ReadRecord, Record, Simple, Text, member,
    member_value, put_optional_value, put_record, put_value, whole_record,
};

/// How a post is.
#[derive(Clone, Copy, Debug, PartialEq, Eq)]
pub enum State {
    Free,
    Charging,
    Broken,
}

impl<'a> Simple<'a> for State {
    ghost use Rattle.exi_documents.specs.Trees.{Ordinal};
    ghost use Rattle.message_parts.specs.Values.{is_named};
    ghost use Rattle.parts_examples.specs.Parts.{state_ordinal};

    ghost takes = { is_named 3 };

    ghost value = { λ x. Ordinal (state_ordinal x) };

    fn as_value(&self) -> Value<'_> {
        Value::Ordinal(match self {
            State::Free => 0,
            State::Charging => 1,
            State::Broken => 2,
        })
    }

    fn of(read: Value<'a>) -> State {
        match read {
            Value::Ordinal(0) => State::Free,
            Value::Ordinal(1) => State::Charging,
            _ => State::Broken,
        }
    }
}

/// A number and its scale.
#[derive(Clone, Copy, Debug, PartialEq, Eq)]
pub struct Reading {
    pub scale: i8,
    pub value: i16,
}

impl PutRecord for Reading {
    ghost use Rattle.std.specs.Prelude.{refl};
    ghost use Rattle.parts_examples.specs.Declarations.{kinds, reading};
    ghost use Rattle.parts_examples.specs.Parts.{reading_parts};

    ghost kinds = { kinds };

    ghost attributes = { [] };

    ghost particles = { reading };

    ghost apart = { refl };

    ghost given = { λ v. [] };

    ghost parts = { reading_parts };

    fn write<P: Places>(&self, writer: &mut EventWriter<'_, '_, P>) {
        put_value(writer, names::SCALE, &self.scale);
        put_value(writer, names::VALUE, &self.value);
    }
}

impl<'a> Record<'a> for Reading {
    ghost use Rattle.std.proofs.Common.{rules};

    type Made = Elements2<RequiredValue<i8>, RequiredValue<i16>>;

    fn of(made: Self::Made) -> Reading {
        let Elements2(RequiredValue(scale), RequiredValue(value)) = made;
        Reading { scale, value }
    }

    ghost declared = { Prim.search rules };
}

impl<'a> ReadRecord<'a> for Reading {
    fn read<P: Places>(descent: &mut Descent<'a, '_, P>) -> Result<Reading, Refusal> {
        whole_record(descent)
    }
}

/// An amount of one of six kinds.
#[derive(Drop)]
pub enum Amount<'a> {
    Flag(bool),
    Step(i8),
    Short(i16),
    Whole(i32),
    Reading(Reading),
    Word(Text<'a>),
}

impl PutChoice for Amount<'_> {
    ghost use Rattle.message_parts.specs.Particles.{alternatives};
    ghost use Rattle.parts_examples.specs.Declarations.{kinds, amounts};
    ghost use Rattle.parts_examples.specs.Parts.{amount_name, amount_inside};

    ghost kinds = { kinds };

    ghost members = { alternatives amounts };

    ghost name = { amount_name };

    ghost inside = { amount_inside };

    fn write_member<P: Places>(&self, writer: &mut EventWriter<'_, '_, P>) {
        match self {
            Amount::Flag(flag) => put_value(writer, names::FLAG, flag),
            Amount::Step(step) => put_value(writer, names::STEP, step),
            Amount::Short(short) => put_value(writer, names::SHORT, short),
            Amount::Whole(whole) => put_value(writer, names::WHOLE, whole),
            Amount::Reading(reading) => put_record(writer, names::READING, reading),
            Amount::Word(word) => put_value(writer, names::WORD, word),
        }
    }
}

impl<'a> Choice<'a> for Amount<'a> {
    fn read_member<P: Places>(descent: &mut Descent<'a, '_, P>) -> Result<Amount<'a>, Refusal> {
        if descent.is_at(names::FLAG) {
            Ok(Amount::Flag(member_value(descent)?))
        } else if descent.is_at(names::STEP) {
            Ok(Amount::Step(member_value(descent)?))
        } else if descent.is_at(names::SHORT) {
            Ok(Amount::Short(member_value(descent)?))
        } else if descent.is_at(names::WHOLE) {
            Ok(Amount::Whole(member_value(descent)?))
        } else if descent.is_at(names::READING) {
            Ok(Amount::Reading(member(descent)?))
        } else {
            Ok(Amount::Word(member_value(descent)?))
        }
    }
}

/// Alternating current.
#[derive(Clone, Copy, Debug, PartialEq, Eq)]
pub struct AcSupply {
    /// 1 to 3.
    pub phase: u8,
}

impl PutRecord for AcSupply {
    ghost use Rattle.std.specs.Prelude.{refl};
    ghost use Rattle.parts_examples.specs.Declarations.{kinds, ac_supply};
    ghost use Rattle.parts_examples.specs.Parts.{ac_parts};

    ghost kinds = { kinds };

    ghost attributes = { [] };

    ghost particles = { ac_supply };

    ghost apart = { refl };

    ghost given = { λ v. [] };

    ghost parts = { ac_parts };

    fn write<P: Places>(&self, writer: &mut EventWriter<'_, '_, P>) {
        put_value(writer, names::PHASE, &self.phase);
    }
}

impl<'a> Record<'a> for AcSupply {
    ghost use Rattle.std.proofs.Common.{rules};

    type Made = Elements<RequiredValue<u8>>;

    fn of(made: Self::Made) -> AcSupply {
        let Elements(RequiredValue(phase)) = made;
        AcSupply { phase }
    }

    ghost declared = { Prim.search rules };
}

impl<'a> ReadRecord<'a> for AcSupply {
    fn read<P: Places>(descent: &mut Descent<'a, '_, P>) -> Result<AcSupply, Refusal> {
        whole_record(descent)
    }
}

/// Direct current.
#[derive(Clone, Copy, Debug, PartialEq, Eq)]
pub struct DcSupply {
    /// In volts.
    pub voltage: u16,
    /// In amperes.
    pub current: Option<u16>,
}

impl PutRecord for DcSupply {
    ghost use Rattle.std.specs.Prelude.{refl};
    ghost use Rattle.parts_examples.specs.Declarations.{kinds, dc_supply};
    ghost use Rattle.parts_examples.specs.Parts.{dc_parts};

    ghost kinds = { kinds };

    ghost attributes = { [] };

    ghost particles = { dc_supply };

    ghost apart = { refl };

    ghost given = { λ v. [] };

    ghost parts = { dc_parts };

    fn write<P: Places>(&self, writer: &mut EventWriter<'_, '_, P>) {
        put_value(writer, names::VOLTAGE, &self.voltage);
        put_optional_value(writer, names::CURRENT, &self.current);
    }
}

impl<'a> Record<'a> for DcSupply {
    ghost use Rattle.std.proofs.Common.{rules};

    type Made = Elements2<RequiredValue<u16>, OptionalValue<u16, { names::CURRENT }>>;

    fn of(made: Self::Made) -> DcSupply {
        let Elements2(RequiredValue(voltage), OptionalValue(current)) = made;
        DcSupply { voltage, current }
    }

    ghost declared = { Prim.search rules };
}

impl<'a> ReadRecord<'a> for DcSupply {
    fn read<P: Places>(descent: &mut Descent<'a, '_, P>) -> Result<DcSupply, Refusal> {
        whole_record(descent)
    }
}

/// What a post supplies: the members of the profile.
#[derive(Clone, Copy, Debug, PartialEq, Eq)]
pub enum Supply {
    Ac(AcSupply),
    Dc(DcSupply),
}

impl PutChoice for Supply {
    ghost use Rattle.message_parts.specs.Particles.{alternatives};
    ghost use Rattle.parts_examples.specs.Declarations.{kinds, supplies};
    ghost use Rattle.parts_examples.specs.Parts.{supply_name, supply_inside};

    ghost kinds = { kinds };

    ghost members = { alternatives supplies };

    ghost name = { supply_name };

    ghost inside = { supply_inside };

    fn write_member<P: Places>(&self, writer: &mut EventWriter<'_, '_, P>) {
        match self {
            Supply::Ac(supply) => put_record(writer, names::AC_SUPPLY, supply),
            Supply::Dc(supply) => put_record(writer, names::DC_SUPPLY, supply),
        }
    }
}

impl<'a> Choice<'a> for Supply {
    fn read_member<P: Places>(descent: &mut Descent<'a, '_, P>) -> Result<Supply, Refusal> {
        if descent.is_at(names::AC_SUPPLY) {
            Ok(Supply::Ac(member(descent)?))
        } else {
            Ok(Supply::Dc(member(descent)?))
        }
    }
}

/// A stop.
#[derive(Clone, Copy, Debug, PartialEq, Eq)]
pub struct Stopped {
    pub state: State,
}

impl PutRecord for Stopped {
    ghost use Rattle.std.specs.Prelude.{refl};
    ghost use Rattle.parts_examples.specs.Declarations.{kinds, stopped};
    ghost use Rattle.parts_examples.specs.Parts.{stopped_parts};

    ghost kinds = { kinds };

    ghost attributes = { [] };

    ghost particles = { stopped };

    ghost apart = { refl };

    ghost given = { λ v. [] };

    ghost parts = { stopped_parts };

    fn write<P: Places>(&self, writer: &mut EventWriter<'_, '_, P>) {
        put_value(writer, names::STATE, &self.state);
    }
}

impl<'a> Record<'a> for Stopped {
    ghost use Rattle.std.proofs.Common.{rules};

    type Made = Elements<RequiredValue<State>>;

    fn of(made: Self::Made) -> Stopped {
        let Elements(RequiredValue(state)) = made;
        Stopped { state }
    }

    ghost declared = { Prim.search rules };
}

impl<'a> ReadRecord<'a> for Stopped {
    fn read<P: Places>(descent: &mut Descent<'a, '_, P>) -> Result<Stopped, Refusal> {
        whole_record(descent)
    }
}

/// Why a session is over.
#[derive(Clone, Copy, Debug, PartialEq, Eq)]
pub enum Cause {
    /// After so many seconds.
    Ended(u16),
    Stopped(Stopped),
}

impl PutChoice for Cause {
    ghost use Rattle.message_parts.specs.Particles.{alternatives};
    ghost use Rattle.parts_examples.specs.Declarations.{kinds, causes};
    ghost use Rattle.parts_examples.specs.Parts.{cause_name, cause_inside};

    ghost kinds = { kinds };

    ghost members = { alternatives causes };

    ghost name = { cause_name };

    ghost inside = { cause_inside };

    fn write_member<P: Places>(&self, writer: &mut EventWriter<'_, '_, P>) {
        match self {
            Cause::Ended(seconds) => put_value(writer, names::ENDED, seconds),
            Cause::Stopped(stopped) => put_record(writer, names::STOPPED, stopped),
        }
    }
}

impl<'a> Choice<'a> for Cause {
    fn read_member<P: Places>(descent: &mut Descent<'a, '_, P>) -> Result<Cause, Refusal> {
        if descent.is_at(names::ENDED) {
            Ok(Cause::Ended(member_value(descent)?))
        } else {
            Ok(Cause::Stopped(member(descent)?))
        }
    }
}

impl<'a> Group<'a> for Cause {
    fn names() -> &'static [u16] {
        &[names::ENDED, names::STOPPED]
    }
}
