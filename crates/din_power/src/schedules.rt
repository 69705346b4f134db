//! Types of elements of the messages of DIN SPEC 70121.

ghost use Rattle.std.specs.Prelude.{◌≡◌, [], List, Some, IfOk, IfErr};
ghost use Rattle.exi_documents.specs.Trees.{Event as TreeEvent};
ghost use Rattle.message_parts.specs.Contents.{told_inside};
ghost use Rattle.message_parts.specs.Reading.{Frame, IsOpen, IsRefusal, IsChosen, Leaves, seen_of};
ghost use Rattle.din_schema.specs.Declarations.{kinds};
ghost use Rattle.din_schema.specs.declared.names.TheConstants.{SA_SCHEDULE_LIST};
ghost use Rattle.din_power.specs.declared.schedules.SaSchedules.{SaSchedules};
ghost use Rattle.din_power.specs.Schedules.{sa_schedules_members, sa_schedules_name, sa_schedules_inside};

use arrayvec::ArrayVec;
use din_parts::message_fields::{Elements2, OneOf, OptionalValue, RequiredValue};
use din_schema::names;
use exi_documents::Refusal;
use exi_schema::Places;
use message_parts::exi_events::EventWriter;
use message_parts::{
    Choice, Descent, LargeGroup, LargeRecord, PutChoice, PutRecord, ReadRecord, Record,
    first_child, left_out, member, member_here, put_choice, put_optional_value, put_record,
    put_records, put_value, records_here, required_here, value, whole_record,
};

/// RelativeTimeInterval.
#[derive(Clone, Copy, Default)]
pub struct RelativeTimeInterval {
    pub start: u32,
    pub duration: Option<u32>,
}

impl PutRecord for RelativeTimeInterval {
    ghost use Rattle.std.specs.Prelude.{refl};
    ghost use Rattle.din_schema.specs.Declarations.{kinds};
    ghost use Rattle.din_schema.specs.Parameters.{relative_time_interval};
    ghost use Rattle.din_power.specs.Schedules.{relative_time_interval_parts};

    ghost kinds = { kinds };

    ghost attributes = { [] };

    ghost particles = { relative_time_interval };

    ghost apart = { refl };

    ghost given = { λ v. [] };

    ghost parts = { relative_time_interval_parts };

    fn write<P: Places>(&self, writer: &mut EventWriter<'_, '_, P>) {
        put_value(writer, names::START, &self.start);
        put_optional_value(writer, names::DURATION, &self.duration);
    }
}

impl<'a> Record<'a> for RelativeTimeInterval {
    ghost use Rattle.std.proofs.Common.{rules};

    type Made = Elements2<RequiredValue<u32>, OptionalValue<u32, { names::DURATION }>>;

    fn of(made: Self::Made) -> RelativeTimeInterval {
        let Elements2(RequiredValue(start), OptionalValue(duration)) = made;
        RelativeTimeInterval { start, duration }
    }

    ghost declared = { Prim.search rules };
}

impl<'a> ReadRecord<'a> for RelativeTimeInterval {
    fn read<P: Places>(descent: &mut Descent<'a, '_, P>) -> Result<RelativeTimeInterval, Refusal> {
        whole_record(descent)
    }
}

/// One element of the substitution group TimeInterval.
#[derive(Clone, Copy)]
pub enum TimeInterval {
    Relative(RelativeTimeInterval),
}

impl Default for TimeInterval {
    fn default() -> TimeInterval {
        TimeInterval::Relative(RelativeTimeInterval::default())
    }
}

impl PutChoice for TimeInterval {
    ghost use Rattle.din_schema.specs.Declarations.{kinds};
    ghost use Rattle.din_power.specs.Schedules.{time_interval_members, time_interval_name, time_interval_inside};

    ghost kinds = { kinds };

    ghost members = { time_interval_members };

    ghost name = { time_interval_name };

    ghost inside = { time_interval_inside };

    fn write_member<P: Places>(&self, writer: &mut EventWriter<'_, '_, P>) {
        match self {
            TimeInterval::Relative(relative) => put_record(
                writer,
                names::RELATIVE_TIME_INTERVAL,
                relative,
            ),
        }
    }
}

impl<'a> Choice<'a> for TimeInterval {
    fn read_member<P: Places>(descent: &mut Descent<'a, '_, P>) -> Result<TimeInterval, Refusal> {
        member(descent).map(TimeInterval::Relative)
    }
}

/// PMaxScheduleEntry.
#[derive(Clone, Copy, Default)]
pub struct PMaxScheduleEntry {
    pub time_interval: TimeInterval,
    pub p_max: i16,
}

impl PutRecord for PMaxScheduleEntry {
    ghost use Rattle.std.specs.Prelude.{refl};
    ghost use Rattle.din_schema.specs.Declarations.{kinds};
    ghost use Rattle.din_schema.specs.Parameters.{p_max_schedule_entry};
    ghost use Rattle.din_power.specs.Schedules.{p_max_schedule_entry_parts};

    ghost kinds = { kinds };

    ghost attributes = { [] };

    ghost particles = { p_max_schedule_entry };

    ghost apart = { refl };

    ghost given = { λ v. [] };

    ghost parts = { p_max_schedule_entry_parts };

    fn write<P: Places>(&self, writer: &mut EventWriter<'_, '_, P>) {
        put_choice(writer, &self.time_interval);
        put_value(writer, names::P_MAX, &self.p_max);
    }
}

impl<'a> Record<'a> for PMaxScheduleEntry {
    ghost use Rattle.std.proofs.Common.{rules};

    type Made = Elements2<OneOf<TimeInterval>, RequiredValue<i16>>;

    fn of(made: Self::Made) -> PMaxScheduleEntry {
        let Elements2(OneOf(time_interval), RequiredValue(p_max)) = made;
        PMaxScheduleEntry {
            time_interval,
            p_max,
        }
    }

    ghost declared = { Prim.search rules };
}

impl<'a> ReadRecord<'a> for PMaxScheduleEntry {
    fn read<P: Places>(descent: &mut Descent<'a, '_, P>) -> Result<PMaxScheduleEntry, Refusal> {
        whole_record(descent)
    }
}

impl<'a> LargeRecord<'a> for PMaxScheduleEntry {
    fn read_here<P: Places>(&mut self, descent: &mut Descent<'a, '_, P>) -> Result<(), Refusal> {
        *self = whole_record(descent)?;
        Ok(())
    }
}

/// PMaxSchedule.
#[derive(Drop, Default)]
pub struct PMaxSchedule {
    pub p_max_schedule_id: i16,
    /// 1 to 128.
    pub p_max_schedule_entry: ArrayVec<PMaxScheduleEntry, 128>,
}

impl PutRecord for PMaxSchedule {
    ghost use Rattle.std.specs.Prelude.{refl};
    ghost use Rattle.din_schema.specs.Declarations.{kinds};
    ghost use Rattle.din_schema.specs.Parameters.{p_max_schedule};
    ghost use Rattle.din_power.specs.Schedules.{p_max_schedule_parts};

    ghost kinds = { kinds };

    ghost attributes = { [] };

    ghost particles = { p_max_schedule };

    ghost apart = { refl };

    ghost given = { λ v. [] };

    ghost parts = { p_max_schedule_parts };

    fn write<P: Places>(&self, writer: &mut EventWriter<'_, '_, P>) {
        put_value(writer, names::P_MAX_SCHEDULE_ID, &self.p_max_schedule_id);
        put_records(
            writer,
            names::P_MAX_SCHEDULE_ENTRY,
            &self.p_max_schedule_entry,
        );
    }
}

impl<'a> LargeRecord<'a> for PMaxSchedule {
    fn read_here<P: Places>(&mut self, descent: &mut Descent<'a, '_, P>) -> Result<(), Refusal> {
        first_child(descent)?;
        self.p_max_schedule_id = value(descent)?;
        records_here(
            &mut self.p_max_schedule_entry,
            descent,
            names::P_MAX_SCHEDULE_ENTRY,
        )?;
        Ok(())
    }
}

/// SAScheduleTuple.
#[derive(Drop, Default)]
pub struct SaScheduleTuple {
    pub sa_schedule_tuple_id: i16,
    pub p_max_schedule: PMaxSchedule,
}

impl PutRecord for SaScheduleTuple {
    ghost use Rattle.std.specs.Prelude.{refl};
    ghost use Rattle.din_schema.specs.Declarations.{kinds};
    ghost use Rattle.din_schema.specs.Parameters.{sa_schedule_tuple};
    ghost use Rattle.din_power.specs.Schedules.{sa_schedule_tuple_parts};

    ghost kinds = { kinds };

    ghost attributes = { [] };

    ghost particles = { sa_schedule_tuple };

    ghost apart = { refl };

    ghost given = { λ v. [] };

    ghost parts = { sa_schedule_tuple_parts };

    fn write<P: Places>(&self, writer: &mut EventWriter<'_, '_, P>) {
        put_value(
            writer,
            names::SA_SCHEDULE_TUPLE_ID,
            &self.sa_schedule_tuple_id,
        );
        put_record(writer, names::P_MAX_SCHEDULE, &self.p_max_schedule);
    }
}

impl<'a> LargeRecord<'a> for SaScheduleTuple {
    fn read_here<P: Places>(&mut self, descent: &mut Descent<'a, '_, P>) -> Result<(), Refusal> {
        first_child(descent)?;
        self.sa_schedule_tuple_id = value(descent)?;
        required_here(&mut self.p_max_schedule, descent)?;
        left_out(descent);
        Ok(())
    }
}

/// SAScheduleList.
#[derive(Drop, Default)]
pub struct SaScheduleList {
    /// 1 to 3.
    pub sa_schedule_tuple: ArrayVec<SaScheduleTuple, 3>,
}

impl PutRecord for SaScheduleList {
    ghost use Rattle.std.specs.Prelude.{refl};
    ghost use Rattle.din_schema.specs.Declarations.{kinds};
    ghost use Rattle.din_schema.specs.Parameters.{sa_schedule_list};
    ghost use Rattle.din_power.specs.Schedules.{sa_schedule_list_parts};

    ghost kinds = { kinds };

    ghost attributes = { [] };

    ghost particles = { sa_schedule_list };

    ghost apart = { refl };

    ghost given = { λ v. [] };

    ghost parts = { sa_schedule_list_parts };

    fn write<P: Places>(&self, writer: &mut EventWriter<'_, '_, P>) {
        put_records(writer, names::SA_SCHEDULE_TUPLE, &self.sa_schedule_tuple);
    }
}

impl<'a> LargeRecord<'a> for SaScheduleList {
    fn read_here<P: Places>(&mut self, descent: &mut Descent<'a, '_, P>) -> Result<(), Refusal> {
        first_child(descent)?;
        records_here(
            &mut self.sa_schedule_tuple,
            descent,
            names::SA_SCHEDULE_TUPLE,
        )?;
        Ok(())
    }
}

/// One element of the substitution group SASchedules.
#[derive(Drop)]
pub enum SaSchedules {
    SaScheduleList(SaScheduleList),
}

impl PutChoice for SaSchedules {
    ghost use Rattle.din_schema.specs.Declarations.{kinds};
    ghost use Rattle.din_power.specs.Schedules.{sa_schedules_members, sa_schedules_name, sa_schedules_inside};

    ghost kinds = { kinds };

    ghost members = { sa_schedules_members };

    ghost name = { sa_schedules_name };

    ghost inside = { sa_schedules_inside };

    fn write_member<P: Places>(&self, writer: &mut EventWriter<'_, '_, P>) {
        match self {
            SaSchedules::SaScheduleList(sa_schedule_list) => put_record(
                writer,
                names::SA_SCHEDULE_LIST,
                sa_schedule_list,
            ),
        }
    }
}

/// SaScheduleList, over one where such a one stands.
fn sa_schedule_list<'a, P: Places>(
    place: &mut Option<SaSchedules>,
    descent: &mut Descent<'a, '_, P>,
) -> Result<(), Refusal>
    requires open { IsOpen P.schema descent.old }
    ensures open { IsOpen P.schema descent.new }
    ensures table { descent.new.reader.table.ghost_name ≡ descent.old.reader.table.ghost_name }
    ensures places { descent.new.reader.places.now ≡ descent.old.reader.places.now }
    ensures payload { descent.new.reader.reader.bits ≡ descent.old.reader.reader.bits }
    ensures refused { IfErr result (λ r. IsRefusal (seen_of P.schema descent.old) r) }
    ensures read { (F : Frame) (told : List TreeEvent) → IsChosen kinds F sa_schedules_members told (seen_of P.schema descent.old) → descent.old.child ≡ Some SA_SCHEDULE_LIST
        → IfOk result (λ _. (v : SaSchedules) × (place.new ≡ Some v) × (sa_schedules_name v ≡ F.name) × Leaves kinds F (told_inside (sa_schedules_inside v) told) (seen_of P.schema descent.new)) }
{
    match place {
        Some(SaSchedules::SaScheduleList(sa_schedule_list)) => member_here(
            sa_schedule_list,
            descent,
        ),
        _ => sa_schedule_list_anew(place, descent),
    }
}

/// SaScheduleList, where another stands or none: this fills its room.
#[inline(never)]
fn sa_schedule_list_anew<'a, P: Places>(
    place: &mut Option<SaSchedules>,
    descent: &mut Descent<'a, '_, P>,
) -> Result<(), Refusal>
    requires open { IsOpen P.schema descent.old }
    ensures open { IsOpen P.schema descent.new }
    ensures table { descent.new.reader.table.ghost_name ≡ descent.old.reader.table.ghost_name }
    ensures places { descent.new.reader.places.now ≡ descent.old.reader.places.now }
    ensures payload { descent.new.reader.reader.bits ≡ descent.old.reader.reader.bits }
    ensures refused { IfErr result (λ r. IsRefusal (seen_of P.schema descent.old) r) }
    ensures read { (F : Frame) (told : List TreeEvent) → IsChosen kinds F sa_schedules_members told (seen_of P.schema descent.old) → descent.old.child ≡ Some SA_SCHEDULE_LIST
        → IfOk result (λ _. (v : SaSchedules) × (place.new ≡ Some v) × (sa_schedules_name v ≡ F.name) × Leaves kinds F (told_inside (sa_schedules_inside v) told) (seen_of P.schema descent.new)) }
{
    let mut sa_schedule_list = SaScheduleList::default();
    member_here(&mut sa_schedule_list, descent)?;
    *place = Some(SaSchedules::SaScheduleList(sa_schedule_list));
    Ok(())
}

impl<'a> LargeGroup<'a> for SaSchedules {
    fn names() -> &'static [u16] {
        &[names::SA_SCHEDULE_LIST]
    }

    fn read_member_into<P: Places>(
        place: &mut Option<SaSchedules>,
        descent: &mut Descent<'a, '_, P>,
    ) -> Result<(), Refusal> {
        sa_schedule_list(place, descent)
    }
}
