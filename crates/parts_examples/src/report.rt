//! A report, which has each shape, and its whole documents.

ghost use Rattle.std.specs.Prelude.{◌≡◌, ◌≤◌, ◌<◌, ◌*◌, ◌↔◌, [], length, take, IfOk, IfErr, IsErr};
ghost use Rattle.exi_documents.specs.Documents.{IsDocument, IsEncoding};
ghost use Rattle.exi_documents.specs.Refusals.{IsRefused};
ghost use Rattle.exi_documents.specs.Values.{most_entries};
ghost use Rattle.message_parts.specs.Documents.{IsWritable, PassesBytes, TellsBits};
ghost use Rattle.parts_examples.specs.Declarations.{report_schema};
ghost use Rattle.parts_examples.specs.Parts.{report_tree};

use crate::amounts::{Amount, Cause, State, Supply};
use crate::meter::Meter;
use crate::names;
use arrayvec::ArrayVec;
use exi_documents::Refusal;
use exi_events::{EventWriter, Full, Table};
use exi_schema::Places;
use message_fields::{Elements, SeveralValues};
use message_parts::{
    Binary, Choice, Descent, PutChoice, PutRecord, ReadRecord, Record, Root, Text, attribute,
    choice, last_attribute, member, optional_choice, optional_value, put_attribute, put_choice,
    put_optional_attribute, put_optional_choice, put_optional_value, put_record, put_records,
    put_value, put_values, read, records, required, value, whole_record, write,
};

/// The readings of a day.
#[derive(Drop, Default)]
pub struct Day {
    /// One and more; two are accepted.
    pub hours: ArrayVec<u8, 2>,
}

impl PutRecord for Day {
    ghost use Rattle.std.specs.Prelude.{refl};
    ghost use Rattle.parts_examples.specs.Declarations.{kinds, day};
    ghost use Rattle.parts_examples.specs.Parts.{day_parts};

    ghost kinds = { kinds };

    ghost attributes = { [] };

    ghost particles = { day };

    ghost apart = { refl };

    ghost given = { λ v. [] };

    ghost parts = { day_parts };

    fn write<P: Places>(&self, writer: &mut EventWriter<'_, '_, P>) {
        put_values(writer, names::HOUR, &self.hours);
    }
}

impl<'a> Record<'a> for Day {
    ghost use Rattle.std.proofs.Common.{rules};

    type Made = Elements<SeveralValues<u8, 2, { names::HOUR }>>;

    fn of(made: Self::Made) -> Day {
        let Elements(SeveralValues(hours)) = made;
        Day { hours }
    }

    ghost declared = { Prim.search rules };
}

impl<'a> ReadRecord<'a> for Day {
    fn read<P: Places>(descent: &mut Descent<'a, '_, P>) -> Result<Day, Refusal> {
        whole_record(descent)
    }
}

/// An empty element.
#[derive(Clone, Copy)]
pub struct Closed;

impl PutRecord for Closed {
    ghost use Rattle.std.specs.Prelude.{refl};
    ghost use Rattle.parts_examples.specs.Declarations.{kinds};

    ghost kinds = { kinds };

    ghost attributes = { [] };

    ghost particles = { [] };

    ghost apart = { refl };

    ghost given = { λ v. [] };

    ghost parts = { λ v. [] };

    fn write<P: Places>(&self, _writer: &mut EventWriter<'_, '_, P>) {}
}

impl<'a> Record<'a> for Closed {
    ghost use Rattle.std.proofs.Common.{rules};

    type Made = Elements<()>;

    fn of(_made: Self::Made) -> Closed {
        Closed
    }

    ghost declared = { Prim.search rules };
}

impl<'a> ReadRecord<'a> for Closed {
    fn read<P: Places>(descent: &mut Descent<'a, '_, P>) -> Result<Closed, Refusal> {
        whole_record(descent)
    }
}

/// What a post reports of a session.
#[derive(Drop)]
pub struct Report<'a> {
    pub number: u8,
    /// How often it was corrected.
    pub revision: Option<u16>,
    pub place: Text<'a>,
    pub seal: Binary<'a>,
    pub state: State,
    pub meter: Meter,
    pub remark: Option<Text<'a>>,
    pub amount: Amount<'a>,
    pub supply: Supply,
    pub cause: Option<Cause>,
    pub days: ArrayVec<Day, 3>,
    pub closed: Closed,
}

impl PutRecord for Report<'_> {
    ghost use Rattle.std.specs.Prelude.{refl};
    ghost use Rattle.parts_examples.specs.Declarations.{kinds, report, report_attributes};
    ghost use Rattle.parts_examples.specs.Parts.{report_given, report_parts};

    ghost kinds = { kinds };

    ghost attributes = { report_attributes };

    ghost particles = { report };

    ghost apart = { refl };

    ghost given = { report_given };

    ghost parts = { report_parts };

    fn write<P: Places>(&self, writer: &mut EventWriter<'_, '_, P>) {
        put_attribute(writer, names::NUMBER, &self.number);
        put_optional_attribute(writer, names::REVISION, &self.revision);
        put_value(writer, names::PLACE, &self.place);
        put_value(writer, names::SEAL, &self.seal);
        put_value(writer, names::STATE, &self.state);
        put_record(writer, names::METER, &self.meter);
        put_optional_value(writer, names::REMARK, &self.remark);
        put_choice(writer, &self.amount);
        put_choice(writer, &self.supply);
        put_optional_choice(writer, &self.cause);
        put_records(writer, names::DAY, &self.days);
        put_record(writer, names::CLOSED, &self.closed);
    }
}

/// A report has two attributes, which no type of `message_fields` has: so it is read child by child.
impl<'a> ReadRecord<'a> for Report<'a> {
    fn read<P: Places>(descent: &mut Descent<'a, '_, P>) -> Result<Report<'a>, Refusal> {
        let number = attribute(descent)?;
        let revision = last_attribute(descent)?;
        let place = value(descent)?;
        let seal = value(descent)?;
        let state = value(descent)?;
        let meter = required(descent)?;
        let remark = optional_value(descent, names::REMARK)?;
        let amount = choice(descent)?;
        let supply = choice(descent)?;
        let cause = optional_choice(descent)?;
        let days = records(descent, names::DAY)?;
        let closed = required(descent)?;
        Ok(Report {
            number,
            revision,
            place,
            seal,
            state,
            meter,
            remark,
            amount,
            supply,
            cause,
            days,
            closed,
        })
    }
}

impl PutChoice for Report<'_> {
    ghost use Rattle.parts_examples.specs.Declarations.{kinds, report_roots};
    ghost use Rattle.parts_examples.specs.Parts.{report_inside};
    ghost use Rattle.parts_examples.specs.declared.names.TheConstants.{REPORT};

    ghost kinds = { kinds };

    ghost members = { report_roots };

    ghost name = { λ v. REPORT };

    ghost inside = { report_inside };

    fn write_member<P: Places>(&self, writer: &mut EventWriter<'_, '_, P>) {
        put_record(writer, names::REPORT, self);
    }
}

impl<'a> Choice<'a> for Report<'a> {
    fn read_member<P: Places>(descent: &mut Descent<'a, '_, P>) -> Result<Report<'a>, Refusal> {
        member(descent)
    }
}

impl Root for Report<'_> {
    ghost number = { λ v. 0 };

    fn number(&self) -> u32 {
        0
    }
}

/// Reads a report from a payload of at most 65,536 bytes. The table, which has room for 8,192 entries, is emptied.
///
/// Refused exactly where the payload spells no report, with the cause and the bit of the first item that can't be taken.
pub fn read_report<'a, P: Places>(
    payload: &'a [u8],
    places: &P,
    table: &mut Table,
) -> Result<Report<'a>, Refusal>
    requires payload { length payload.now ≤ 65536 }
    requires cap { table.old.cap ≡ most_entries }
    requires schema { P.schema places.now ≡ report_schema }
    ensures cap { table.new.cap ≡ most_entries }
    ensures read { IfOk result (λ m. IsDocument report_schema (report_tree m) payload.now) }
    ensures refused { IfErr result (λ r. IsRefused report_schema payload.now r.cause r.bit) }
{
    read(payload, places, table)
}

/// Writes the one encoding of a report to the front of a room of at most 65,536 bytes, and returns how many bytes it has. The table,
/// which has room for 8,192 entries, is emptied.
///
/// `Full` exactly where the encoding has more bits than the room. It tells the bits of the whole encoding where these are at most
/// 65,536 bytes, and else more than those have.
pub fn write_report<P: Places>(
    message: &Report<'_>,
    room: &mut [u8],
    places: &P,
    table: &mut Table,
) -> Result<u32, Full>
    requires message { IsWritable report_schema 0 (report_tree message.now) }
    requires room { length room.old ≤ 65536 }
    requires cap { table.old.cap ≡ most_entries }
    requires schema { P.schema places.now ≡ report_schema }
    ensures cap { table.new.cap ≡ most_entries }
    ensures within { IfOk result (λ n. n ≤ length room.new) }
    ensures written { IfOk result (λ n. IsEncoding report_schema (report_tree message.now) (take n room.new)) }
    ensures full { IsErr result ↔ PassesBytes report_schema 0 (report_tree message.now) (length room.old) }
    ensures bits { IfErr result (λ full. TellsBits report_schema 0 (report_tree message.now) full.bits) }
    ensures more { IfErr result (λ full. 8 * length room.old < full.bits) }
{
    write(message, room, places, table)
}
